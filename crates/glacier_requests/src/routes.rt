// What a method and a path name.
use glacier_base::{Account, VaultName};

/// An operation and the things that its path names. An id is shown by its number.
#[derive(Clone, Copy)]
pub enum Op {
    ListVaults,
    CreateVault { vault: VaultName },
    DescribeVault { vault: VaultName },
    DeleteVault { vault: VaultName },
    Upload { vault: VaultName },
    DeleteArchive { vault: VaultName, archive: u64 },
    BeginUpload { vault: VaultName },
    ListUploads { vault: VaultName },
    Part { vault: VaultName, upload: u64 },
    ListParts { vault: VaultName, upload: u64 },
    CompleteUpload { vault: VaultName, upload: u64 },
    AbortUpload { vault: VaultName, upload: u64 },
    BeginJob { vault: VaultName },
    ListJobs { vault: VaultName },
    DescribeJob { vault: VaultName, job: u64 },
    JobOutput { vault: VaultName, job: u64 },
    InitiateLock { vault: VaultName },
    ShowLock { vault: VaultName },
    CompleteLock { vault: VaultName, lock: u64 },
    AbortLock { vault: VaultName },
}

/// The operation that a head names, and the account: None for `-`, the signer's own.
#[derive(Clone, Copy)]
pub struct Route {
    pub account: Option<Account>,
    pub op: Op,
}

/// What routing finds.
#[derive(Clone, Copy)]
pub enum RouteStep {
    Route(Route),
    /// No operation has this method and path.
    NoRoute,
    /// There is one, but the vault's name breaks the rule of names.
    BadName,
    /// There is one on a vault of a good name, but the id isn't one of its kind.
    BadId,
}
