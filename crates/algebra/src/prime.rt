// The integers modulo 251, the largest prime below 256.
ghost use Rattle.std.specs.Prelude.{◌≡◌};
ghost use Rattle.algebra.specs.Prime.{prime as prime_ops, first_below};
ghost use Rattle.algebra.specs.Primes.{prime_laws, prime_reads};

use crate::elements::Mod251;
use crate::field::Field;

const MODULUS: u16 = 251;

impl Field for Mod251 {
    ghost ops = { prime_ops };

    ghost sampled = { first_below };

    ghost named = { 2 };

    ghost laws = { prime_laws };

    ghost reads = { prime_reads };

    fn code() -> u8 {
        2
    }

    fn size() -> usize {
        usize::from(MODULUS)
    }

    fn zero() -> Mod251 {
        Mod251::element(0)
    }

    fn one() -> Mod251 {
        Mod251::element(1)
    }

    fn add(self, other: Mod251) -> Mod251 {
        Mod251::element(self.number() + other.number())
    }

    fn negate(self) -> Mod251 {
        Mod251::element(MODULUS - self.number())
    }

    fn multiply(self, other: Mod251) -> Mod251 {
        Mod251::element(self.number() * other.number())
    }

    // The power 249, which is the inverse of all but zero.
    fn invert(self) -> Mod251 {
        let mut power = Mod251::one();
        for _ in 0..249u8 {
            power = power.multiply(self);
        }
        power
    }

    fn number(self) -> u16 {
        u16::from(self.value)
    }

    fn element(n: u16) -> Mod251 {
        Mod251 {
            value: (n % MODULUS) as u8,
        }
    }

    // The first byte below 251; zero where all sixteen are skipped.
    fn sample(bytes: &[u8; 16]) -> (Mod251, usize) {
        match bytes.iter().position(|b| *b < 251) {
            Some(i) => (Mod251 { value: bytes[i] }, i + 1),
            None => (Mod251 { value: 0 }, 16),
        }
    }
}
