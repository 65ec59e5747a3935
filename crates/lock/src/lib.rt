// What the secret of a key must solve: profiles and their limits, what a lock is, and the word that its unknowns stand for.
#![tactic(auto)]

pub mod instance;
pub mod limits;
pub mod lock;
pub mod profile;
pub mod sound;
pub mod theorems;
pub mod word;

pub use instance::Instance;
pub use lock::Lock;
pub use profile::{Codes, Profile, Shape};
pub use sound::Sound;
