// The expander by SHAKE256: each block is the beginning of a stream of its own.
ghost use Rattle.expander.specs.Blocks.{shake_block};
ghost use Rattle.expander.specs.Expansions.{length-shake-block};

use crate::expander::Expander;
use crate::keyed::ShakeExpander;
use crate::stream::Stream;

const CODE: u8 = 2;

const TAG: u8 = 0x09;

impl Expander for ShakeExpander {
    ghost named = { 2 };

    ghost block = { shake_block };

    ghost salt_of = { λ e. e.salt };

    ghost seed_of = { λ e. e.seed };

    ghost whole = { λ salt seed n _ _. length-shake-block salt seed n };

    ghost salted = { λ e. e.full_salt };

    ghost seeded = { λ e. e.full_seed };

    fn code() -> u8 {
        CODE
    }

    fn new(salt: &[u8; 16], seed: &[u8; 16]) -> ShakeExpander {
        ShakeExpander {
            salt: *salt,
            seed: *seed,
        }
    }

    fn block(&self, number: u64) -> [u8; 16] {
        hashes::stream(TAG, &[&self.salt, &self.seed, &number.to_be_bytes()]).next_block()
    }
}
