// What a key pair is made from.
use lock::Profile;

// A profile, the seed of the matrix and the word x, given as bytes. Anything may be asked for; what is not as it should be is refused.
#[derive(Clone, Copy)]
pub struct KeyRequest<'a> {
    pub profile: Profile,
    pub matrix_seed: &'a [u8],
    pub x: &'a [u8],
}
