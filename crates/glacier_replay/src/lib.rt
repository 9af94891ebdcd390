//! Kept events: what each makes of an account, done again; and what the records of a journal make of
//! all accounts and of their blobs.
#![tactic(auto)]

mod accounts;
mod archives;
mod blocks;
mod bodies;
pub mod in_use;
mod jobs;
pub mod laws;
mod locks;
mod replaying;
mod restoring;
pub mod standing;
mod uploads;
mod vaults;

pub use accounts::Accounts;
pub use replaying::{Replayed, replay};
pub use restoring::{Restored, Unmade, replay_all, replay_payload};
