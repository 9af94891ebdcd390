// The state of all accounts, kept on a disk.
ghost use Rattle.glacier_store.specs.Drawn.{AreDrawn};

use glacier_bodies::BlobArea;
use glacier_journal::Journal;
use glacier_replay::Accounts;

/// The state of all accounts, the blocks of their bodies, and the journal in which both are kept.
#[derive(Drop)]
pub struct Store {
    /// The state in memory.
    pub accounts: Accounts,
    /// Which blocks are free, and which are each blob's.
    pub area: BlobArea,
    /// Where the events that made them stand on the disk.
    pub journal: Journal,
    ghost drawn: { AreDrawn accounts area.blobs },
}
