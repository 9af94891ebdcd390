// What is asked of jobs.
use glacier_base::{Description, VaultName};
use glacier_vault::Tier;

/// A job that is asked for.
#[derive(Clone, Copy)]
pub struct JobAsk {
    pub vault: VaultName,
    pub tier: Tier,
    pub description: Description,
    pub kind: AskKind,
}

/// A retrieval of an archive's bytes, from a first to a last one or all of them; or an inventory of
/// the vault, as CSV or as JSON.
#[derive(Clone, Copy)]
pub enum AskKind {
    Archive {
        archive: u64,
        range: Option<(u64, u64)>,
    },
    Inventory {
        csv: bool,
    },
}

/// The stages of jobs, by the names under which they are shown.
#[derive(Clone, Copy)]
pub enum StageName {
    InProgress,
    Succeeded,
    Failed,
}
