// A line of an inventory.
use glacier_base::{Description, Digest, Id, Moment};

/// What an inventory says of an archive: its id, its size in bytes, the moment when it was made, its
/// description, and its tree hash.
#[derive(Drop)]
pub struct InventoryLine {
    pub id: Id,
    pub size: u64,
    pub created: Moment,
    pub description: Description,
    pub tree: Digest,
}
