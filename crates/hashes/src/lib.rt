// The tagged hashes: H(t, ..), of 32 bytes, and S(t, ..), an endless stream.
#![tactic(auto)]

mod hasher;
mod strings;

pub use hasher::Hasher;
pub use strings::{hash, stream};
