//! The state of all accounts with the bodies of their archives and parts, kept on a disk.
#![tactic(auto)]

mod admitting;
mod applying;
mod changed;
mod committing;
mod ending;
mod fault;
pub mod laws;
mod opening;
pub mod output_laws;
mod outputs;
mod passing;
mod quotas;
mod store;
mod streaming;

pub use fault::StoreFault;
pub use quotas::{OverQuota, first_over};
pub use store::Store;
