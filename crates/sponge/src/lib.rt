// SHAKE256 as a sponge that is fed and read in pieces of any size.
#![tactic(auto)]

mod access;
mod calls;
pub mod state;
pub mod theorems;

pub use state::Sponge;
