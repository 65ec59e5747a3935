// Making a key pair: from a profile, the seed of the matrix and the word x to the two records.
#![tactic(auto)]

mod admitting;
mod codes;
mod filling;
mod making;
mod reading;
mod request;
mod sizes;
mod wiping;
mod workspace;

pub use codes::codes_in_use;
pub use request::KeyRequest;
pub use sizes::KeySizes;
pub use workspace::Workspace;
