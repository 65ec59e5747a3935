// The expander by AES-128. The key schedule is worked out once.
ghost use Rattle.std.specs.Prelude.{◌≡◌};
ghost use Rattle.cipher.specs.Keyed.{key_of};
ghost use Rattle.expander.specs.Blocks.{xored, aes_block};
ghost use Rattle.theory.specs.Endian.{little_endian};
ghost use Rattle.expander.specs.Expansions.{length_aes, length-key};

use crate::expander::Expander;
use crate::keyed::AesExpander;
use cipher::Aes128;
use std::array;

const CODE: u8 = 1;

// The salt xored with the number, which is written in sixteen bytes, the lowest first.
fn masked(salt: &[u8; 16], number: u64) -> [u8; 16]
    ensures { result ≡ xored salt.now (little_endian 16 number) }
{
    let bytes = u128::from(number).to_le_bytes();
    array::from_fn(|i| salt[i] ^ bytes[i])
}

impl Expander for AesExpander {
    ghost named = { 1 };

    ghost block = { aes_block };

    ghost salt_of = { λ e. e.salt };

    ghost seed_of = { λ e. key_of e.cipher };

    ghost whole = { λ salt seed n _ _. length_aes salt seed n };

    ghost salted = { λ e. e.full };

    ghost seeded = { λ e. length-key e.cipher };

    fn code() -> u8 {
        CODE
    }

    fn new(salt: &[u8; 16], seed: &[u8; 16]) -> AesExpander {
        AesExpander {
            salt: *salt,
            cipher: Aes128::new(seed),
        }
    }

    fn block(&self, number: u64) -> [u8; 16] {
        self.cipher.encrypt(&masked(&self.salt, number))
    }
}
