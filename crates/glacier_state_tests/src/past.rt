// Events that were kept, for tests.
use crate::policy_tests::YEAR;
use glacier_base::{Description, Digest, List, Moment, Text, VaultName};
use glacier_vault::{Event, Tier, blocks_of};
use std::alloc::Global;

/// An event that was kept. Vaults are named by a letter; the leaves of a body are of 32 bytes 1.
#[derive(Clone, Copy)]
pub(crate) enum Past {
    Pass,
    CreateVault(&'static str),
    DeleteVault(&'static str),
    /// An upload of so many bytes.
    Upload(u64),
    DeleteArchive(u64),
    /// The beginning of an upload, with its part size.
    BeginUpload(u64),
    /// A part: its upload, its index and its size.
    Part(u64, u32, u64),
    Complete(u64),
    Abort(u64),
    /// A retrieval: its archive, its first byte and the one behind its last.
    BeginRetrieval(u64, u64, u64),
    BeginInventory,
    /// A lock, and whether its text is a policy.
    InitiateLock(&'static str, bool),
    CompleteLock(&'static str),
    AbortLock(&'static str),
}

/// The vault of all events that name none.
const VAULT: &str = "v";

/// When each job is ready.
const READY: u64 = 300;

fn leaves_of(alloc: Global, size: u64) -> Option<List<Digest>> {
    let leaves = vec![in alloc; Digest([1; 32]); blocks_of(size) as usize].ok()?;
    Some(List::from_vec(leaves))
}

/// An event on a body or an archive.
fn body_event(alloc: Global, name: VaultName, past: Past) -> Option<Event> {
    let description = Description::parse(b"")?;
    match past {
        Past::Upload(size) => Some(Event::Upload {
            name,
            size,
            description,
            leaves: leaves_of(alloc, size)?,
        }),
        Past::DeleteArchive(archive) => Some(Event::DeleteArchive { name, archive }),
        Past::BeginUpload(part_size) => Some(Event::BeginUpload {
            name,
            part_size,
            description,
        }),
        Past::Part(upload, index, size) => Some(Event::Part {
            name,
            upload,
            index,
            size,
            leaves: leaves_of(alloc, size)?,
        }),
        Past::Complete(upload) => Some(Event::Complete { name, upload }),
        Past::Abort(upload) => Some(Event::Abort { name, upload }),
        _ => None,
    }
}

/// The beginning of a job.
fn job_event(name: VaultName, past: Past) -> Option<Event> {
    let description = Description::parse(b"")?;
    let ready = Moment::new(READY)?;
    match past {
        Past::BeginRetrieval(archive, first, end) => Some(Event::BeginRetrieval {
            name,
            archive,
            first,
            end,
            tier: Tier::Expedited,
            ready,
            description,
        }),
        Past::BeginInventory => Some(Event::BeginInventory {
            name,
            csv: true,
            tier: Tier::Bulk,
            ready,
            description,
        }),
        _ => None,
    }
}

/// A text that is a policy, or one that isn't.
fn policy_of(alloc: Global, is_policy: bool) -> Option<Text> {
    let text = if is_policy { YEAR } else { "{}" };
    Text::of(alloc, text.as_bytes()).ok()
}

/// An event that makes or ends a lock.
fn lock_event(alloc: Global, name: &str, past: Past) -> Option<Event> {
    let name = VaultName::parse(name.as_bytes())?;
    match past {
        Past::InitiateLock(_, is_policy) => Some(Event::InitiateLock {
            name,
            policy: policy_of(alloc, is_policy)?,
        }),
        Past::CompleteLock(_) => Some(Event::CompleteLock { name }),
        Past::AbortLock(_) => Some(Event::AbortLock { name }),
        _ => None,
    }
}

pub(crate) fn event_of(alloc: Global, past: Past) -> Option<Event> {
    let vault = VaultName::parse(VAULT.as_bytes())?;
    match past {
        Past::Pass => Some(Event::Pass),
        Past::CreateVault(name) => Some(Event::CreateVault {
            name: VaultName::parse(name.as_bytes())?,
        }),
        Past::DeleteVault(name) => Some(Event::DeleteVault {
            name: VaultName::parse(name.as_bytes())?,
        }),
        Past::BeginRetrieval(..) | Past::BeginInventory => job_event(vault, past),
        Past::InitiateLock(name, _) | Past::CompleteLock(name) | Past::AbortLock(name) => {
            lock_event(alloc, name, past)
        }
        _ => body_event(alloc, vault, past),
    }
}
