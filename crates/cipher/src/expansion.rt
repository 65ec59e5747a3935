// KeyExpansion: the schedule of a key, round by round.
ghost use Rattle.std.specs.Prelude.{◌≡◌, ℕ, ◌+◌, ◌<◌, List};
ghost use Rattle.cipher.specs.Expansion.{power_of_x, schedule_of, round_key, HoldsPowers};
ghost use Rattle.cipher.specs.Keyed.{key_of};

use crate::key::Aes128;
use crate::state::{State, columns};
use crate::word::{Word, add, rot_word, sub_word};

// The powers of x in GF(256), from x^0 on, of which the rounds' constants are made.
const POWERS: [u8; 10] = [0x01, 0x02, 0x04, 0x08, 0x10, 0x20, 0x40, 0x80, 0x1b, 0x36];

// The table, which holds x^n in each place n.
fn powers() -> &'static [u8; 10]
    ensures { HoldsPowers result.now }
{
    &POWERS
}

// The key of the next round, whose constant is the power of x: each of its words is the sum of the one before it and the one four before it, and
// the one before the first goes through a change.
fn next_key(key: &State, power: u8) -> State
    ensures { (first : List ℕ) (r : ℕ) → let w = schedule_of first in r < 10 → key.now ≡ round_key w r → power ≡ power_of_x r → result ≡ round_key w (r + 1) }
{
    let [a, b, c, d] = *key;
    let a = add(a, add(sub_word(rot_word(d)), [power, 0, 0, 0]));
    let b = add(b, a);
    let c = add(c, b);
    let d = add(d, c);
    [a, b, c, d]
}

// The schedule of a key: the key itself, and then the key of each round from that of the round before.
fn expand(key: &[u8; 16]) -> [Word; 44]
    ensures { result ≡ schedule_of key.now }
{
    // Each is made from the one before it in the same array, so that they are counted.
    let mut keys = [columns(key); 11];
    for (r, power) in powers().iter().enumerate() {
        keys[r + 1] = next_key(&keys[r], *power);
    }
    *keys.as_flattened().as_array().unwrap()
}

impl Aes128 {
    // The cipher under a key.
    pub fn new(key: &[u8; 16]) -> Aes128
        ensures { key_of result ≡ key.now }
    {
        let words = expand(key);
        Aes128 { words }
    }
}
