// Completions of uploads in parts.
ghost use Rattle.std.specs.Prelude.{◌≡◌, ◌≤◌, ◌+◌, IfOk, OnOk, MatchResult, IfSome, IsSome, Some, None};
ghost use Rattle.std.specs.FinMap as map;
ghost use Rattle.glacier_vault.specs.Lawful.{IsLawful, IsLawfulUpload};
ghost use Rattle.glacier_vault.specs.Lengths.{archive_length, finished_length};
ghost use Rattle.glacier_vault.specs.Rows.{answer, state_after, in_vault, drawn};
ghost use Rattle.glacier_upload.specs.Completion.{cover_refusal, complete_refusal, archive_before, complete_row, whole_archive, with_completed, with_finished, open_length, IsWhole};

use crate::aborting::all_blobs;
use crate::archives::insert_archive;
use crate::bodies::root;
use crate::covering::{all_leaves, covered_bytes, leaves_gap};
use glacier_base::{Digest, Memory, Moment, VaultName};
use glacier_vault::{
    AccountState, Archive, Change, Event, Finished, Refusal, Upload, VaultState, finished_due,
    length_with_archive, length_with_finished, length_without_upload, name_length, refuse_draw,
    sooner,
};
use std::alloc::Global;

/// The archive of an upload that was completed with this size and tree hash before.
fn repeated(vault: &VaultState, upload: u64, size: u64, tree: &Digest) -> Option<u64>
    ensures { result ≡ archive_before vault.now upload size tree.now }
{
    let before = vault.finished.get(upload)?;
    if before.size == size && before.tree == *tree {
        Some(before.archive)
    } else {
        None
    }
}

/// Why the parts don't cover just so many bytes: a gap, or their end.
fn refuse_cover(upload: &Upload, last: u64, size: u64) -> Option<Refusal>
    requires { IsLawfulUpload last upload.now }
    ensures { result ≡ cover_refusal upload.now size }
{
    let covered = covered_bytes(upload, last);
    if leaves_gap(upload, covered) {
        return Some(Refusal::Gap { at: covered });
    }
    if covered != size {
        return Some(Refusal::SizeDiffers {
            covered,
            named: size,
        });
    }
    None
}

/// The archive that the parts of an upload make up, or why it isn't completed.
fn accept(
    alloc: Global,
    state: &AccountState,
    m: Moment,
    upload: &Upload,
    size: u64,
    tree: &Digest,
) -> Result<Result<Archive, Refusal>, Memory>
    requires upload { IsLawfulUpload state.now.last upload.now }
    requires some { 1 ≤ size }
    ensures { IfOk result (λ answer. MatchResult answer
        (λ archive. (archive ≡ whole_archive m upload.now)
        × (complete_refusal state.now upload.now size tree.now ≡ None))
        (λ refusal. complete_refusal state.now upload.now size tree.now ≡ Some refusal)) }
{
    if let Some(refusal) = refuse_cover(upload, state.last.seconds(), size) {
        return Ok(Err(refusal));
    }
    let leaves = all_leaves(alloc, upload)?;
    let root = root(&leaves);
    if root != *tree {
        return Ok(Err(Refusal::TreeMismatch {
            found: root,
            said: *tree,
        }));
    }
    if let Some(refusal) = refuse_draw(state) {
        return Ok(Err(refusal));
    }
    Ok(Ok(Archive {
        size,
        leaves,
        tree: root,
        description: upload.description,
        created: m,
        blobs: all_blobs(alloc, upload)?,
    }))
}

/// So many bytes and those of an archive and a finished upload, in a vault whose name has `n` bytes.
fn length_with_both(length: u64, n: u64, archive: &Archive) -> Option<u64>
    ensures { IfSome result (λ more. more
        ≡ length + archive_length n archive.now + finished_length n) }
{
    length_with_finished(length_with_archive(length, n, archive)?, n)
}

/// Puts a finished upload in the place of the open one of its number, and answers what is left of
/// `length` bytes without those of the open one. The vault's name has `n` bytes.
fn close_upload(
    vault: &mut VaultState,
    upload: u64,
    finished: Finished,
    length: u64,
    n: u64,
) -> Result<u64, Memory>
    requires there { IsSome (map.get vault.old.uploads upload) }
    requires within { open_length n upload vault.old ≤ length }

    ensures vault { OnOk result (vault.new ≡ with_finished upload finished vault.old) }
    ensures length { IfOk result (λ left. left + open_length n upload vault.old ≡ length) }
{
    let due = finished_due(&finished);
    let Some(open) = vault.uploads.remove(upload) else {
        unreachable!();
    };
    vault.finished.insert(upload, finished)?;
    vault.due = sooner(vault.due, due);
    Ok(length_without_upload(length, n, &open))
}

/// Puts the archive that an open upload's parts make up in the upload's place, at the account's
/// next number. The upload is finished. A sum of bytes that is no `u64` is want of memory.
pub fn finish_upload(
    state: &mut AccountState,
    m: Moment,
    name: &VaultName,
    upload: u64,
    archive: Archive,
) -> Result<(), Memory>
    requires time { state.old.last ≤ m }
    requires lawful { IsLawful state.old }
    requires fits { IsWhole state.old m name.now upload archive }

    ensures ok { OnOk result (state.new ≡ in_vault (drawn state.old) m name.now
        (with_completed upload state.old.counter archive)) }
    ensures lawful { OnOk result (IsLawful state.new) }
{
    let n = name_length(name);
    let Some(length) = length_with_both(state.length, n, &archive) else {
        return Err(Memory);
    };
    let finished = Finished {
        at: m,
        size: archive.size,
        tree: archive.tree,
        archive: state.counter,
    };
    let due = finished_due(&finished);
    let uploads = state.uploads;
    let Some(vault) = state.vaults.get_mut(name) else {
        unreachable!();
    };
    let length = close_upload(vault, upload, finished, length, n)?;
    insert_archive(vault, state.counter, archive)?;
    state.length = length;
    state.due = sooner(state.due, due);
    state.uploads = uploads - 1;
    state.counter += 1;
    state.last = m;
    Ok(())
}

/// Makes the archive of an open upload's parts, which must cover just `size` bytes with this tree
/// hash, and answers the archive's number: `NoVault`, `NoUpload`, `Gap`, `SizeDiffers`,
/// `TreeMismatch`, `CounterEnd`. The first of them counts. As long as the finished upload is kept,
/// a repetition is answered with the same number and changes nothing.
pub fn complete(
    alloc: Global,
    state: &mut AccountState,
    m: Moment,
    vault: &VaultName,
    upload: u64,
    size: u64,
    tree: &Digest,
) -> Result<Result<(u64, Change), Refusal>, Memory>
    requires time { state.old.last ≤ m }
    requires lawful { IsLawful state.old }
    requires some { 1 ≤ size }

    ensures answer { IfOk result (λ done. done
        ≡ answer (complete_row state.old m vault.now upload size tree.now)) }
    ensures state { OnOk result (state.new
        ≡ state_after state.old (complete_row state.old m vault.now upload size tree.now)) }
    ensures lawful { OnOk result (IsLawful state.new) }
{
    let Some(found) = state.vaults.get(vault) else {
        return Ok(Err(Refusal::NoVault { name: *vault }));
    };
    if let Some(archive) = repeated(found, upload, size, tree) {
        return Ok(Ok((archive, Change::none(alloc))));
    }
    let Some(open) = found.uploads.get(upload) else {
        return Ok(Err(Refusal::NoUpload { upload }));
    };
    let archive = match accept(alloc, state, m, open, size, tree)? {
        Ok(archive) => archive,
        Err(refusal) => return Ok(Err(refusal)),
    };
    let number = state.counter;
    finish_upload(state, m, vault, upload, archive)?;
    let event = Event::Complete {
        name: *vault,
        upload,
    };
    Ok(Ok((number, Change::of(alloc, event))))
}
