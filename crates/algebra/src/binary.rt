// The field of 256 elements. The product is eight fixed steps without a branch, which the compiler vectorises.
ghost use Rattle.std.specs.Prelude.{◌≡◌};
ghost use Rattle.algebra.specs.Gf256.{double, times, inverse};
ghost use Rattle.algebra.specs.Binary.{at, binary as binary_ops, first};
ghost use Rattle.algebra.specs.Binaries.{binary_laws, binary_reads};

use crate::elements::Gf256;
use crate::field::Field;

fn times_x(b: u8) -> u8
    ensures { result ≡ double b }
{
    ((b & 127) << 1) ^ (27 * (b >> 7))
}

fn product(a: u8, b: u8) -> u8
    ensures { result ≡ times a b }
{
    let mut sum = 0u8;
    let mut bits = a;
    let mut shifted = b;
    for _ in 0..8u8 {
        sum ^= (bits % 2) * shifted;
        bits /= 2;
        shifted = times_x(shifted);
    }
    sum
}

// The power 254, which is the inverse of all but zero.
fn power_254(a: u8) -> u8
    ensures { result ≡ inverse a }
{
    let mut square = a;
    let mut power = 1u8;
    for _ in 0..7u8 {
        square = product(square, square);
        power = product(power, square);
    }
    power
}

// Every byte is an element.
impl From<u8> for Gf256 {
    ghost from_gives = { λ b x. x ≡ at b };

    fn from(value: u8) -> Gf256 {
        Gf256 { value }
    }
}

impl Field for Gf256 {
    ghost ops = { binary_ops };

    ghost sampled = { first };

    ghost named = { 1 };

    ghost laws = { binary_laws };

    ghost reads = { binary_reads };

    fn code() -> u8 {
        1
    }

    fn size() -> usize {
        256
    }

    fn zero() -> Gf256 {
        Gf256::from(0)
    }

    fn one() -> Gf256 {
        Gf256::from(1)
    }

    fn add(self, other: Gf256) -> Gf256 {
        Gf256::from(self.value ^ other.value)
    }

    fn negate(self) -> Gf256 {
        self
    }

    fn multiply(self, other: Gf256) -> Gf256 {
        Gf256::from(product(self.value, other.value))
    }

    fn invert(self) -> Gf256 {
        Gf256::from(power_254(self.value))
    }

    fn number(self) -> u16 {
        u16::from(self.value)
    }

    fn element(n: u16) -> Gf256 {
        Gf256::from((n % 256) as u8)
    }

    fn sample(bytes: &[u8; 16]) -> (Gf256, usize) {
        (Gf256::from(bytes[0]), 1)
    }
}
