// What a public record holds beside its elements.
ghost use Rattle.std.specs.Prelude.{◌≡◌, length};

use lock::Profile;

#[derive(Clone, Copy)]
pub struct PublicHead {
    pub profile: Profile,
    pub matrix_seed: [u8; 16],
    ghost seed: { length matrix_seed ≡ 16 },
}
