//! Locks of vaults, and what they deny.
#![tactic(auto)]

mod changing;
mod denying;
pub mod laws;
mod locking;

pub use changing::{fix_lock, put_lock, take_lock};
pub use denying::may_delete;
pub use locking::{abort, complete, initiate, refuse_initiate, show};
