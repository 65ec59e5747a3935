// The types of the two expanders, each keyed with a salt and a seed.
ghost use Rattle.std.specs.Prelude.{◌≡◌, length};

use cipher::Aes128;

// AES-128 with the seed as its key.
#[derive(Drop)]
pub struct AesExpander {
    pub(crate) salt: [u8; 16],
    pub(crate) cipher: Aes128,
    ghost full: { length salt ≡ 16 },
}

// SHAKE256 over the salt, the seed and a number.
#[derive(Drop)]
pub struct ShakeExpander {
    pub(crate) salt: [u8; 16],
    pub(crate) seed: [u8; 16],
    ghost full_salt: { length salt ≡ 16 },
    ghost full_seed: { length seed ≡ 16 },
}
