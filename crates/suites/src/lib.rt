// The same calls for programs: field, lock and expander are picked by their codes.
#![tactic(auto)]

mod failure;
mod kinds;
mod making;
mod reading;
#[cfg(test)]
mod tests;
mod work;

pub use failure::Failure;
pub use kinds::{ExpanderKind, FieldKind, LockKind};
pub use making::make_key;
pub use reading::{codes_of, read_pair, read_public};
