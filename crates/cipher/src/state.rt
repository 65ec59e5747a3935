// The steps of a round on the state, which is held by columns.
ghost use Rattle.std.specs.Prelude.{◌≡◌, ℕ, List};
ghost use Rattle.cipher.specs.Expansion.{words_of, bytes_of, round_key};
ghost use Rattle.cipher.specs.Cipher.{sub_bytes, shift_rows, mix_columns, add_round_key};

use crate::word::{Word, add, mix_column, sub_word};
use std::array;

// The state of FIPS 197 as its four columns: row r of column c is at [c][r].
pub(crate) type State = [Word; 4];

// The columns that sixteen bytes make.
pub(crate) fn columns(bytes: &[u8; 16]) -> State
    ensures { result ≡ words_of bytes.now }
{
    *bytes.as_chunks().0.as_array().unwrap()
}

// The bytes of the columns.
pub(crate) fn bytes(s: &State) -> [u8; 16]
    ensures { result ≡ bytes_of s.now }
{
    array::from_fn(|i| s[i / 4][i % 4])
}

// SubBytes and ShiftRows: row r of a column comes from r columns further on. The columns are copied whole, so that they stay in
// registers.
pub(crate) fn sub_shift(s: &State) -> State
    ensures { result ≡ shift_rows (sub_bytes s.now) }
{
    let [a, b, c, d] = *s;
    [
        sub_word([a[0], b[1], c[2], d[3]]),
        sub_word([b[0], c[1], d[2], a[3]]),
        sub_word([c[0], d[1], a[2], b[3]]),
        sub_word([d[0], a[1], b[2], c[3]]),
    ]
}

// MixColumns.
pub(crate) fn mix_columns(s: &State) -> State
    ensures { result ≡ mix_columns s.now }
{
    s.each_ref().map(mix_column)
}

// AddRoundKey of the round that the key is for.
pub(crate) fn add_round_key(s: &State, key: &State) -> State
    ensures { (w : List (List ℕ)) (r : ℕ) → key.now ≡ round_key w r → result ≡ add_round_key w r s.now }
{
    // One by one: over `array::from_fn` the closure needs a contract of its own, which is longer.
    [
        add(s[0], key[0]),
        add(s[1], key[1]),
        add(s[2], key[2]),
        add(s[3], key[3]),
    ]
}
