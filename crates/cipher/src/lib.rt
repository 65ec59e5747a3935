// AES-128 (FIPS 197) with a kept key. `Aes128::new` takes a key, and `encrypt` a block of sixteen bytes.
#![tactic(auto)]

ghost use Rattle.cipher.specs.Examples.{BlockExample, ColumnExample};

mod expansion;
mod key;
mod rounds;
mod sbox;
mod state;
mod word;

pub use key::Aes128;

// The definition of the cipher gives the example of FIPS 197, appendix C.1.
pub fn block_example()
    ensures { BlockExample }
{}

// The definition of MixColumns on one column gives the example of FIPS 197, appendix B.
pub fn column_example()
    ensures { ColumnExample }
{}
