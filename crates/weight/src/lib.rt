// The weight lock: the word of its unknowns has at most w elements other than zero.
#![tactic(auto)]

pub mod equations;
mod locator;
mod roots;
pub mod theorems;

pub use equations::Weight;
