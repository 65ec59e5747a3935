// A short seed made long: expanders of seeds, the streams of bytes that they and the tagged hash give, and elements sampled from them.
#![tactic(auto)]

pub mod aes;
pub mod expander;
mod keyed;
pub mod outputs;
mod sampler;
mod sampling;
pub mod seeds;
pub mod shake;
pub mod stream;

pub use expander::Expander;
pub use keyed::{AesExpander, ShakeExpander};
pub use sampler::Sampler;
pub use sampling::{sample_list, sample_tagged};
pub use seeds::SeedStream;
pub use stream::Stream;
