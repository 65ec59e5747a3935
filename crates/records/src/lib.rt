// The records of a key pair: typed values, reading with refusals, and writing.
#![tactic(auto)]

pub mod elements;
pub mod head;
pub mod opening;
pub mod public;
pub mod secret;
pub mod theorems;
pub mod writer;

pub use head::PublicHead;
pub use writer::Writer;
