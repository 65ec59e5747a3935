// Four bytes at once.
ghost use Rattle.std.specs.Prelude.{◌≡◌};
ghost use Rattle.cipher.specs.Word.{NumberOf, add_words, double_word, sub_word, rot_word, mix_column};

use crate::sbox::substitute;
use std::array;

// A word of FIPS 197: a column of the state, or a word of the key schedule.
pub(crate) type Word = [u8; 4];

// The number that the bytes of a word make, the lowest first.
fn number(a: &Word) -> u32
    ensures { NumberOf a.now result }
{
    u32::from_le_bytes(*a)
}

// The sum of two words in GF(256), byte by byte.
pub(crate) fn add(a: Word, b: Word) -> Word
    ensures { result ≡ add_words a b }
{
    array::from_fn(|k| a[k] ^ b[k])
}

// Each byte times x in GF(256): moved up by one bit, and 27 added where a bit came out. This is done to the number that the bytes make: byte by
// byte, a block takes more than half as many instructions again.
pub(crate) fn double(a: Word) -> Word
    ensures { result ≡ double_word a }
{
    let bytes = number(&a);
    let moved = (bytes & 0x7f7f7f7f) << 1;
    let out = (bytes >> 7) & 0x01010101;
    (moved ^ (out * 27)).to_le_bytes()
}

// SubWord.
pub(crate) fn sub_word(a: Word) -> Word
    ensures { result ≡ sub_word a }
{
    a.map(substitute)
}

// RotWord.
pub(crate) fn rot_word(a: Word) -> Word
    ensures { result ≡ rot_word a }
{
    [a[1], a[2], a[3], a[0]]
}

// MixColumns on one column. Row 0 of the product is 2 a0 + 3 a1 + a2 + a3 = 2 (a0 + a1) + a1 + (a2 + a3), and so in each row.
pub(crate) fn mix_column(column: &Word) -> Word
    ensures { result ≡ mix_column column.now }
{
    let next = rot_word(*column);
    let pairs = add(*column, next);
    add(add(double(pairs), next), rot_word(rot_word(pairs)))
}
