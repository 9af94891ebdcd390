//! What the items of a snapshot make of an account: where each fits, and the state with it.
#![tactic(auto)]

mod fitting;
pub mod laws;
mod moments;
mod naming;
mod putting;
mod putting_jobs;
mod restoring;

pub use restoring::{put_kept, restore};
