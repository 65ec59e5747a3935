// Cipher: the rounds on one block.
ghost use Rattle.std.specs.Prelude.{◌≡◌};
ghost use Rattle.cipher.specs.Cipher.{encrypted};
ghost use Rattle.cipher.specs.Keyed.{key_of};

use crate::key::Aes128;
use crate::state::{add_round_key, bytes, columns, mix_columns, sub_shift};

impl Aes128 {
    // The block under the key.
    pub fn encrypt(&self, block: &[u8; 16]) -> [u8; 16]
        ensures { result ≡ encrypted (key_of self.now) block.now }
    {
        let (keys, _) = self.words.as_chunks();
        let mut s = add_round_key(&columns(block), &keys[0]);
        for key in &keys[1..10] {
            s = add_round_key(&mix_columns(&sub_shift(&s)), key);
        }
        bytes(&add_round_key(&sub_shift(&s), &keys[10]))
    }
}
