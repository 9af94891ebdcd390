//! Bodies that stream into free blocks of a disk, and the reading of blobs from theirs
//! (docs/rules/blocks.md).
#![tactic(auto)]

mod blob_area;
mod blob_map;
mod body;
pub mod laws;
mod layout;
mod pieces;
mod reading;

pub use blob_area::BlobArea;
pub use body::{Body, Found};
pub use layout::Layout;
pub use reading::read_blob;
