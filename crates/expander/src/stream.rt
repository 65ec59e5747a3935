// What gives a stream of bytes, block by block.
ghost use Rattle.std.specs.Prelude.{◌≡◌, ℕ, ◌+◌};
ghost use Rattle.expander.specs.Streams.{window};

// A source of the consecutive blocks of an endless stream.
pub trait Stream: Drop {
    // The source gives next the byte k of the stream f.
    ghost gives: { Self → (ℕ → ℕ) → ℕ → Type 0 };

    fn next_block(&mut self) -> [u8; 16]
        ensures { (f : ℕ → ℕ) (k : ℕ) → gives self.old f k → (result ≡ window f k 16) × gives self.new f (k + 16) };
}
