//! A list of payloads on a disk that survives a stop at any moment.
#![tactic(auto)]

mod create;
mod fault;
mod frame;
mod journal;
pub mod laws;
mod payload;
mod read;
mod swap;
mod synced;

pub use fault::JournalFault;
pub use frame::Frame;
pub use journal::Journal;
pub use payload::Payload;
pub use swap::Swap;
