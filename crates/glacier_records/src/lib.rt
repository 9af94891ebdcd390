//! The records in which changes and snapshots are kept: their bytes, written and read back.
#![tactic(auto)]

mod kept;
pub mod laws;
mod lists;
mod reader;
mod reading;
mod reading_events;
mod reading_kept;
mod records;
mod unread;
mod values;
mod writing;
mod writing_events;
mod writing_kept;
mod writing_lists;
mod writing_values;

pub use kept::{Blob, Kept, StageName};
pub use reading::read_record;
pub use records::{Item, Record};
pub use writing::{write_event, write_kept, write_record};
