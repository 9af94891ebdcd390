//! Blocks of 1 MiB of a disk's area Blobs: which are free, and the bytes of each
//! (docs/rules/blocks.md).
#![tactic(auto)]

mod access;
mod blocks;
mod claiming;
mod free_runs;
pub mod laws;
mod marking;
mod run;

pub use access::{read_block, write_block};
pub use blocks::Blocks;
pub use run::{BLOCK, BLOCKS, Run};
