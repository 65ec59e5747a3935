// The elements of the two fields. An element is kept as its number.
ghost use Rattle.std.specs.Prelude.{◌<◌};

// An element of the field of 256 elements: the bits of the byte are the coefficients of a polynomial.
#[derive(Clone, Copy, Debug, PartialEq, Eq)]
pub struct Gf256 {
    pub(crate) value: u8,
    ghost ok: { value < 256 },
}

// An integer modulo 251.
#[derive(Clone, Copy, Debug, PartialEq, Eq)]
pub struct Mod251 {
    pub(crate) value: u8,
    ghost ok: { value < 251 },
}
