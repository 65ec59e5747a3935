// Keccak-f[1600] (FIPS 202) on 25 lanes of 64 bits, lane (x, y) at x + 5 * y.
//
// A step map makes its 25 lanes from a function of one index, as the standard writes it.
#![tactic(auto)]

ghost use Rattle.std.specs.Prelude.{◌≡◌, ℕ, ◌<◌, map, slice_index};
ghost use Rattle.std.specs.List.{range_with_len};
ghost use Rattle.keccak.specs.Tables.{constants};
ghost use Rattle.keccak.specs.Keccak.{lanes as lanes_of, column, theta as theta_of, rho as rho_of, pi as pi_of, chi as chi_of, round_of, permuted};

use std::array;

// How far each lane is turned.
const ROTATIONS: [u32; 25] = [
    0, 1, 62, 28, 27, 36, 44, 6, 55, 20, 3, 10, 43, 25, 39, 41, 45, 15, 21, 8, 18, 2, 61, 56, 14,
];

// What each round adds to lane (0, 0).
const ROUND_CONSTANTS: [u64; 24] = [
    0x0000000000000001,
    0x0000000000008082,
    0x800000000000808a,
    0x8000000080008000,
    0x000000000000808b,
    0x0000000080000001,
    0x8000000080008081,
    0x8000000000008009,
    0x000000000000008a,
    0x0000000000000088,
    0x0000000080008009,
    0x000000008000000a,
    0x000000008000808b,
    0x800000000000008b,
    0x8000000000008089,
    0x8000000000008003,
    0x8000000000008002,
    0x8000000000000080,
    0x000000000000800a,
    0x800000008000000a,
    0x8000000080008081,
    0x8000000000008080,
    0x0000000080000001,
    0x8000000080008008,
];

// The lanes that f gives at each index. The calls stand one by one, for the compiler to compute the indices: of `array::from_fn` it keeps the
// loop of 25, and a permutation then takes nine times the instructions.
fn lanes<F: Fn(usize) -> u64>(f: F) -> [u64; 25]
    requires { (i : ℕ) → i < 25 → F.pre f i }
    ensures { (lane : ℕ → ℕ) → ((i r : ℕ) → i < 25 → F.post f i r → r ≡ lane i) → result ≡ lanes_of lane }
{
    [
        f(0),
        f(1),
        f(2),
        f(3),
        f(4),
        f(5),
        f(6),
        f(7),
        f(8),
        f(9),
        f(10),
        f(11),
        f(12),
        f(13),
        f(14),
        f(15),
        f(16),
        f(17),
        f(18),
        f(19),
        f(20),
        f(21),
        f(22),
        f(23),
        f(24),
    ]
}

// The sums of the five columns, which are their xors.
fn columns(s: &[u64; 25]) -> [u64; 5]
    ensures { result ≡ map (column s.now) (range_with_len 0 5) }
{
    array::from_fn(|x| s[x] ^ s[x + 5] ^ s[x + 10] ^ s[x + 15] ^ s[x + 20])
}

// Adds to each lane the sums of two columns near it.
fn theta(s: &[u64; 25]) -> [u64; 25]
    ensures { result ≡ theta_of s.now }
{
    let c = columns(s);
    lanes(|i| s[i] ^ (c[(i + 4) % 5] ^ c[(i + 1) % 5].rotate_left(1)))
}

// Turns each lane by its offset.
fn rho(s: &[u64; 25]) -> [u64; 25]
    ensures { result ≡ rho_of s.now }
{
    lanes(|i| s[i].rotate_left(ROTATIONS[i]))
}

// Moves the lanes.
fn pi(s: &[u64; 25]) -> [u64; 25]
    ensures { result ≡ pi_of s.now }
{
    lanes(|i| s[(i % 5 + 3 * (i / 5)) % 5 + 5 * (i % 5)])
}

// Mixes the lanes of each row.
fn chi(s: &[u64; 25]) -> [u64; 25]
    ensures { result ≡ chi_of s.now }
{
    lanes(|i| {
        let row = 5 * (i / 5);
        s[i] ^ (!s[row + (i + 1) % 5] & s[row + (i + 2) % 5])
    })
}

// One round, the one whose constant this is.
fn round(s: &[u64; 25], constant: u64) -> [u64; 25]
    ensures { (r : ℕ) → constant ≡ slice_index constants r → result ≡ round_of r s.now }
{
    let mut mixed = chi(&pi(&rho(&theta(s))));
    mixed[0] ^= constant;
    mixed
}

// The 24 rounds.
pub fn permute(s: &mut [u64; 25])
    ensures { s.new ≡ permuted s.old }
{
    for constant in &ROUND_CONSTANTS {
        *s = round(s, *constant);
    }
}
