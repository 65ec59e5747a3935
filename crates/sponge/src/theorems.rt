// Theorems on SHAKE256 as specs/ defines it. Each function does nothing; its contract is a theorem.
ghost use Rattle.std.specs.Prelude.{◌≡◌, [], ◌∷◌, replicate};
ghost use Rattle.sponge.specs.Shake.{shake};
ghost use Rattle.sponge.specs.Statements.{PiecesJoin, MixingIsXor};

// Published outputs, of the definition itself: of the empty message, of one of two blocks, of one that leaves one byte for the padding, and,
// past the first block of the output, of one that fills a block.
pub fn vectors_stand()
    ensures empty { shake [] 0 4 ≡ 0x46 ∷ 0xb9 ∷ 0xdd ∷ 0x2b ∷ [] }
    ensures long { shake (replicate 200 0xa3) 0 4 ≡ 0xcd ∷ 0x8a ∷ 0x92 ∷ 0x0e ∷ [] }
    ensures edge { shake (replicate 135 0xa3) 0 4 ≡ 0x36 ∷ 0xac ∷ 0xdc ∷ 0x8e ∷ [] }
    ensures full { shake (replicate 136 0xa3) 134 4 ≡ 0x0a ∷ 0x2e ∷ 0x78 ∷ 0x8e ∷ [] }
{}

// Pieces of the output, one after the other, are one piece.
pub fn pieces_join()
    ensures { PiecesJoin }
{}

// To mix a block in is to xor the state's bytes with it.
pub fn xor_stands()
    ensures { MixingIsXor }
{}
