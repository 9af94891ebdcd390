// The items of a snapshot.
use glacier_base::{Description, Digest, List, Moment, Text, VaultName};
use glacier_extents::Run;
use glacier_vault::{Tier, Work};

/// Something that the state of an account holds, from which a state is made again. What a record
/// has besides is its moment: that of the thing's creation, and for `Finished` of its completion;
/// for `Account` the account's last.
#[derive(Drop)]
pub enum Kept {
    /// The account, and the number that its next archive, upload, part, job or lock gets.
    Account {
        counter: u64,
    },
    Vault {
        name: VaultName,
    },
    /// An archive with its blobs in order; `held` says that it was deleted while a finished
    /// retrieval named it.
    Archive {
        name: VaultName,
        number: u64,
        held: bool,
        size: u64,
        description: Description,
        leaves: List<Digest>,
        blobs: List<Blob>,
    },
    OpenUpload {
        name: VaultName,
        number: u64,
        part_size: u64,
        description: Description,
    },
    /// A part of an open upload, with the number and the blocks of its blob.
    OpenPart {
        name: VaultName,
        upload: u64,
        index: u32,
        size: u64,
        blob: u64,
        leaves: List<Digest>,
        runs: List<Run>,
    },
    Finished {
        name: VaultName,
        upload: u64,
        size: u64,
        tree: Digest,
        archive: u64,
    },
    /// A job; the lines of an inventory that is done follow as `Line`.
    Job {
        name: VaultName,
        number: u64,
        ready: Moment,
        tier: Tier,
        stage: StageName,
        description: Description,
        work: Work,
    },
    Line {
        name: VaultName,
        job: u64,
        archive: u64,
        size: u64,
        created: Moment,
        description: Description,
        tree: Digest,
    },
    Lock {
        name: VaultName,
        number: u64,
        locked: bool,
        policy: Text,
    },
}

/// A blob: its number, and where its bytes lie.
#[derive(Drop)]
pub struct Blob {
    pub number: u64,
    pub runs: List<Run>,
}

/// How far a job is, without the lines of its inventory.
#[derive(Clone, Copy)]
pub enum StageName {
    Waiting,
    Failed,
    Done,
}
