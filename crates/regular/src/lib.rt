// The regular lock: a word in which each block has exactly one [1] and otherwise [0].
#![tactic(auto)]

mod hot;
mod level;
pub mod regular;
pub mod theorems;
mod walk;

pub use regular::Regular;
