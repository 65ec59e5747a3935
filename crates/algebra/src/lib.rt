// Finite fields: the trait, the two fields that keep its laws, sums over any field, and what holds over every field.
#![tactic(auto)]

pub mod binary;
mod elements;
pub mod field;
pub mod prime;
pub mod sums;
pub mod theorems;

pub use elements::{Gf256, Mod251};
pub use field::Field;
