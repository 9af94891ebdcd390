// Items of a snapshot, put back into the state of an account.
ghost use Rattle.std.specs.Prelude.{◌≡◌, ◌<◌, [], IfOk, IfSome, OnOk, false, is_some, unwrap_or, length};
ghost use Rattle.std.specs.FinMap as map;
ghost use Rattle.glacier_treehash.specs.Roots.{root_of_digests};
ghost use Rattle.glacier_vault.specs.Lawful.{IsLawful, IsLawfulBody};
ghost use Rattle.glacier_restore.specs.Restoring.{kept_archive, kept_lock, kept_part, names_some, numbers_of, put, restored, stage_of};
ghost use Rattle.glacier_restore.specs.Snapshot.{lines_of};

use crate::fitting::is_body;
use crate::naming::names_some;
use crate::{putting, putting_jobs};
use glacier_base::{Description, Digest, List, Memory, Moment, PartMap, Text};
use glacier_policy::{Policy, PolicyFault};
use glacier_records::{Blob, Kept, StageName};
use glacier_treehash::root_of;
use glacier_vault::{AccountState, Archive, Finished, Job, Line, Lock, Part, Stage, Upload};
use std::alloc::Global;

/// The root of the tree over the leaves of a body.
fn tree_of(leaves: &List<Digest>) -> Digest
    requires { 0 < length leaves.now }
    ensures { result ≡ root_of_digests leaves.now }
{
    let Some(root) = root_of(leaves.as_slice()) else {
        unreachable!();
    };
    root
}

fn numbers_of(alloc: Global, blobs: &[Blob]) -> Result<List<u64>, Memory>
    ensures { IfOk result (λ numbers. numbers ≡ numbers_of blobs.now) }
{
    let mut numbers = List::new(alloc);
    for blob in blobs {
        numbers.push(blob.number)?;
    }
    Ok(numbers)
}

fn stage_of(alloc: Global, stage: StageName) -> Stage
    ensures is { result ≡ stage_of stage }
    ensures bare { lines_of result ≡ [] }
{
    match stage {
        StageName::Waiting => Stage::Waiting,
        StageName::Failed => Stage::Failed,
        StageName::Done => Stage::Done(List::new(alloc)),
    }
}

/// The archive of an item, or None where its leaves aren't a body's.
fn archive_of(
    alloc: Global,
    m: Moment,
    size: u64,
    description: &Description,
    leaves: &List<Digest>,
    blobs: &List<Blob>,
) -> Result<Option<Archive>, Memory>
    ensures is { IfOk result (λ archive. archive ≡ kept_archive m size description.now leaves.now blobs.now) }
    ensures body { IfOk result (λ archive. IfSome archive (λ archive. IsLawfulBody archive.size archive.leaves archive.tree)) }
{
    if !is_body(size, leaves) {
        return Ok(None);
    }
    Ok(Some(Archive {
        size,
        leaves: List::of(alloc, leaves.as_slice())?,
        tree: tree_of(leaves),
        description: *description,
        created: m,
        blobs: numbers_of(alloc, blobs.as_slice())?,
    }))
}

/// The part of an item, or None where its leaves aren't a body's.
fn part_of(
    alloc: Global,
    size: u64,
    blob: u64,
    leaves: &List<Digest>,
) -> Result<Option<Part>, Memory>
    ensures { IfOk result (λ part. part ≡ kept_part size blob leaves.now) }
{
    if !is_body(size, leaves) {
        return Ok(None);
    }
    Ok(Some(Part {
        size,
        leaves: List::of(alloc, leaves.as_slice())?,
        tree: tree_of(leaves),
        blob,
    }))
}

/// The lock of a kept text, or None where the text is no policy.
fn lock_of(
    alloc: Global,
    m: Moment,
    number: u64,
    locked: bool,
    policy: &Text,
) -> Result<Option<Lock>, Memory>
    ensures { IfOk result (λ lock. lock ≡ kept_lock m number locked policy.now) }
{
    let read = match Policy::read(alloc, policy.bytes()) {
        Ok(read) => read,
        Err(PolicyFault::Memory) => return Err(Memory),
        Err(_) => return Ok(None),
    };
    Ok(Some(Lock {
        number,
        text: Text::of(alloc, policy.bytes())?,
        policy: read,
        created: m,
        locked,
    }))
}

/// Puts an item in, of whose blobs nothing is asked.
fn put_item(alloc: Global, state: &mut AccountState, m: Moment, kept: &Kept) -> Result<bool, Memory>
    requires lawful { IsLawful state.old }
    ensures fits { IfOk result (λ fits. fits ≡ is_some (put state.old m kept.now)) }
    ensures state { OnOk result (state.new ≡ unwrap_or (put state.old m kept.now) state.old) }
{
    match kept {
        Kept::Account { counter } => Ok(putting::put_account(state, m, *counter)),
        Kept::Vault { name } => putting::put_vault(alloc, state, m, name),
        Kept::Archive {
            name,
            number,
            held,
            size,
            description,
            leaves,
            blobs,
        } => {
            let Some(archive) = archive_of(alloc, m, *size, description, leaves, blobs)? else {
                return Ok(false);
            };
            putting::put_archive(state, name, *held, *number, archive)
        }
        Kept::OpenUpload {
            name,
            number,
            part_size,
            description,
        } => {
            let upload = Upload {
                created: m,
                part_size: *part_size,
                description: *description,
                parts: PartMap::new(alloc),
            };
            putting::put_upload(state, name, *number, upload)
        }
        Kept::OpenPart {
            name,
            upload,
            index,
            size,
            blob,
            leaves,
            ..
        } => {
            if m.seconds() != 0 {
                return Ok(false);
            }
            let Some(part) = part_of(alloc, *size, *blob, leaves)? else {
                return Ok(false);
            };
            putting::put_part(state, name, *upload, *index, part)
        }
        Kept::Finished {
            name,
            upload,
            size,
            tree,
            archive,
        } => {
            let finished = Finished {
                at: m,
                size: *size,
                tree: *tree,
                archive: *archive,
            };
            putting::put_finished(state, name, *upload, finished)
        }
        Kept::Job {
            name,
            number,
            ready,
            tier,
            stage,
            description,
            work,
        } => {
            let job = Job {
                created: m,
                ready: *ready,
                tier: *tier,
                description: *description,
                work: *work,
                stage: stage_of(alloc, *stage),
            };
            putting_jobs::put_job(state, name, *number, job)
        }
        Kept::Line {
            name,
            job,
            archive,
            size,
            created,
            description,
            tree,
        } => {
            if m.seconds() != 0 {
                return Ok(false);
            }
            let line = Line {
                archive: *archive,
                size: *size,
                created: *created,
                description: *description,
                tree: *tree,
            };
            putting_jobs::put_line(state, name, *job, line)
        }
        Kept::Lock {
            name,
            number,
            locked,
            policy,
        } => {
            let Some(lock) = lock_of(alloc, m, *number, *locked, policy)? else {
                return Ok(false);
            };
            putting::put_lock(state, name, lock)
        }
    }
}

/// Puts an item of the moment `m` into an account that names none of its blobs, as `restore` does.
pub fn put_kept(
    alloc: Global,
    state: &mut AccountState,
    m: Moment,
    kept: &Kept,
) -> Result<bool, Memory>
    requires lawful { IsLawful state.old }
    requires new { names_some state.old kept.now ≡ false }

    ensures fits { IfOk result (λ fits. fits ≡ is_some (put state.old m kept.now)) }
    ensures state { OnOk result (state.new ≡ unwrap_or (put state.old m kept.now) state.old) }
    ensures lawful { OnOk result (IsLawful state.new) }
{
    put_item(alloc, state, m, kept)
}

/// Puts the item of a snapshot record of the moment `m` into the state of its account. Where it
/// doesn't fit (docs/rules/snapshots.md) the answer is false, and the state stays as it is; after an
/// `Err` it is given up. An account's first item wants the state that was never seen.
pub fn restore(
    alloc: Global,
    state: &mut AccountState,
    m: Moment,
    kept: &Kept,
) -> Result<bool, Memory>
    requires lawful { IsLawful state.old }

    ensures fits { IfOk result (λ fits. fits ≡ is_some (restored state.old m kept.now)) }
    ensures state { OnOk result (state.new ≡ unwrap_or (restored state.old m kept.now) state.old) }
    ensures lawful { OnOk result (IsLawful state.new) }
{
    if names_some(state, kept) {
        return Ok(false);
    }
    put_kept(alloc, state, m, kept)
}
