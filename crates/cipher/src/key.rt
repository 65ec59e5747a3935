// The type of a kept key.
ghost use Rattle.std.specs.Prelude.{◌≡◌, length};
ghost use Rattle.cipher.specs.Expansion.{schedule_of, bytes_of};

use crate::word::Word;

// AES-128 under a key, held as the words of its schedule. The first four words are the key, and the others follow from them. They stand in a row,
// and `encrypt` cuts them into round keys: Rattle covers no field yet that is an array of arrays of arrays.
#[derive(Drop)]
pub struct Aes128 {
    pub(crate) words: [Word; 44],
    ghost full: { length words ≡ 44 },
    ghost expanded: { words ≡ schedule_of (bytes_of words) },
}
