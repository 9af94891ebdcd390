//! Uploads: whole archives, and archives in parts.
#![tactic(auto)]

mod aborting;
mod archives;
mod asks;
mod beginning;
mod bodies;
mod completion;
mod covering;
pub mod laws;
mod listing;
mod parts;
mod single;
mod whole;

pub use aborting::{abort, take_upload};
pub use archives::put_archive;
pub use asks::{Found, PartAsk, UploadAsk};
pub use beginning::{MOST_UPLOADS, allows_part_size, begin, put_upload};
pub use completion::{complete, finish_upload};
pub use listing::{list_parts, list_uploads};
pub use parts::{admit_part, commit_part, put_part};
pub use single::{MOST_BYTES, admit_upload, commit_upload};
pub use whole::whole_of;
