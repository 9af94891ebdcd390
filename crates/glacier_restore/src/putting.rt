// What an item of a snapshot is put into: all but jobs.
ghost use Rattle.std.specs.Prelude.{◌≡◌, IfOk, OnOk, is_some, unwrap_or, None, Some, if◌then◌else◌};
ghost use Rattle.std.specs.FinMap as map;
ghost use Rattle.glacier_vault.specs.Due.{content_due};
ghost use Rattle.glacier_vault.specs.Lawful.{IsLawful, IsLawfulBody};
ghost use Rattle.glacier_vault.specs.Totals.{bytes_in};
ghost use Rattle.glacier_restore.specs.Putting.{put_account, put_vault, put_archive, put_upload, put_part, put_finished, put_lock, with_archive, with_finished};

use crate::fitting;
use glacier_base::{Memory, Moment, VaultName};
use glacier_vault::{
    AccountState, Archive, Finished, Lock, Part, Upload, VaultState, blocks_of, finished_due,
    length_with_archive, length_with_finished, length_with_lock, length_with_part,
    length_with_upload, lock_due, name_length, sooner, vault_length,
};
use std::alloc::Global;

/// Begins an account that was never seen, with its last moment and its counter.
pub(crate) fn put_account(state: &mut AccountState, m: Moment, counter: u64) -> bool
    ensures fits { result ≡ is_some (put_account state.old m counter) }
    ensures state { state.new ≡ unwrap_or (put_account state.old m counter) state.old }
{
    if !fitting::is_unseen(state) {
        return false;
    }
    state.last = m;
    state.counter = counter;
    true
}

/// Puts an empty vault that was made at the moment `m` into an account. A length that is no `u64` is
/// want of memory.
pub(crate) fn put_vault(
    alloc: Global,
    state: &mut AccountState,
    m: Moment,
    name: &VaultName,
) -> Result<bool, Memory>
    requires lawful { IsLawful state.old }
    ensures fits { IfOk result (λ fits. fits ≡ is_some (put_vault state.old m name.now)) }
    ensures state { OnOk result (state.new ≡ unwrap_or (put_vault state.old m name.now) state.old) }
{
    if state.vaults.contains(name) {
        return Ok(false);
    }
    if m > state.last {
        return Ok(false);
    }
    let Some(length) = state.length.checked_add(vault_length(name)) else {
        return Err(Memory);
    };
    state.vaults.insert(*name, VaultState::new(alloc, m))?;
    state.length = length;
    Ok(true)
}

/// Puts an archive at a number that a vault doesn't have, live or held.
fn insert_archive(
    vault: &mut VaultState,
    held: bool,
    number: u64,
    archive: Archive,
) -> Result<(), Memory>
    requires bytes { vault.old.bytes ≡ bytes_in vault.old.archives }
    requires missing { map.get vault.old.archives number ≡ None }
    requires first { map.len vault.old.jobs ≡ 0 }
    ensures { OnOk result (vault.new ≡ with_archive held number archive vault.old) }
{
    if held {
        vault.held.insert(number, archive)?;
        vault.due = Some(0);
        return Ok(());
    }
    let Some(bytes) = vault.bytes.checked_add(archive.size) else {
        return Err(Memory);
    };
    vault.archives.insert(number, archive)?;
    vault.bytes = bytes;
    Ok(())
}

/// The moment that is due behind an archive: one that is held is loose until a job names it.
fn due_behind(held: bool, due: Option<u64>) -> Option<u64>
    ensures { result ≡ (if held then Some 0 else due) }
{
    if held { Some(0) } else { due }
}

/// Puts an archive into a vault, live or held. A sum that is no `u64` is want of memory.
pub(crate) fn put_archive(
    state: &mut AccountState,
    name: &VaultName,
    held: bool,
    number: u64,
    archive: Archive,
) -> Result<bool, Memory>
    requires lawful { IsLawful state.old }
    requires body { IsLawfulBody archive.size archive.leaves archive.tree }
    ensures fits { IfOk result (λ fits. fits ≡ is_some (put_archive state.old name.now held number archive)) }
    ensures state { OnOk result
        (state.new ≡ unwrap_or (put_archive state.old name.now held number archive) state.old) }
{
    let Some(vault) = state.vaults.get(name) else {
        return Ok(false);
    };
    if !fitting::takes_archive(state, number, &archive, vault) {
        return Ok(false);
    }
    let Some(used) = state.used.checked_add(blocks_of(archive.size)) else {
        return Err(Memory);
    };
    let Some(length) = length_with_archive(state.length, name_length(name), &archive) else {
        return Err(Memory);
    };
    let Some(vault) = state.vaults.get_mut(name) else {
        unreachable!();
    };
    insert_archive(vault, held, number, archive)?;
    state.used = used;
    state.length = length;
    state.due = due_behind(held, state.due);
    Ok(true)
}

/// Puts an open upload that has no parts yet into a vault.
pub(crate) fn put_upload(
    state: &mut AccountState,
    name: &VaultName,
    number: u64,
    upload: Upload,
) -> Result<bool, Memory>
    requires lawful { IsLawful state.old }
    requires bare { upload.parts ≡ map.empty }
    ensures fits { IfOk result (λ fits. fits ≡ is_some (put_upload state.old name.now number upload)) }
    ensures state { OnOk result
        (state.new ≡ unwrap_or (put_upload state.old name.now number upload) state.old) }
{
    let Some(vault) = state.vaults.get(name) else {
        return Ok(false);
    };
    if !fitting::takes_upload(state, number, &upload, vault) {
        return Ok(false);
    }
    let Some(uploads) = state.uploads.checked_add(1) else {
        return Err(Memory);
    };
    let Some(length) = length_with_upload(state.length, name_length(name), &upload) else {
        return Err(Memory);
    };
    let Some(vault) = state.vaults.get_mut(name) else {
        unreachable!();
    };
    vault.uploads.insert(number, upload)?;
    state.uploads = uploads;
    state.length = length;
    Ok(true)
}

/// Puts a part into an open upload.
pub(crate) fn put_part(
    state: &mut AccountState,
    name: &VaultName,
    upload: u64,
    index: u32,
    part: Part,
) -> Result<bool, Memory>
    requires lawful { IsLawful state.old }
    ensures fits { IfOk result (λ fits. fits ≡ is_some (put_part state.old name.now upload index part)) }
    ensures state { OnOk result
        (state.new ≡ unwrap_or (put_part state.old name.now upload index part) state.old) }
{
    let Some(vault) = state.vaults.get(name) else {
        return Ok(false);
    };
    let Some(open) = vault.uploads.get(upload) else {
        return Ok(false);
    };
    if !fitting::takes_part(state, index, &part, open) {
        return Ok(false);
    }
    let Some(used) = state.used.checked_add(blocks_of(part.size)) else {
        return Err(Memory);
    };
    let Some(length) = length_with_part(state.length, name_length(name), &part) else {
        return Err(Memory);
    };
    let Some(vault) = state.vaults.get_mut(name) else {
        unreachable!();
    };
    let Some(open) = vault.uploads.get_mut(upload) else {
        unreachable!();
    };
    open.parts.insert(index, part)?;
    state.used = used;
    state.length = length;
    Ok(true)
}

/// Puts a finished upload at a number that a vault doesn't have.
fn insert_finished(vault: &mut VaultState, number: u64, finished: Finished) -> Result<(), Memory>
    requires due { vault.old.due ≡ content_due vault.old }
    requires missing { map.get vault.old.finished number ≡ None }
    ensures { OnOk result (vault.new ≡ with_finished number finished vault.old) }
{
    let due = sooner(vault.due, finished_due(&finished));
    vault.finished.insert(number, finished)?;
    vault.due = due;
    Ok(())
}

/// Puts a finished upload into a vault.
pub(crate) fn put_finished(
    state: &mut AccountState,
    name: &VaultName,
    number: u64,
    finished: Finished,
) -> Result<bool, Memory>
    requires lawful { IsLawful state.old }
    ensures fits { IfOk result (λ fits. fits ≡ is_some (put_finished state.old name.now number finished)) }
    ensures state { OnOk result
        (state.new ≡ unwrap_or (put_finished state.old name.now number finished) state.old) }
{
    let Some(vault) = state.vaults.get(name) else {
        return Ok(false);
    };
    if !fitting::takes_finished(state, number, &finished, vault) {
        return Ok(false);
    }
    let Some(length) = length_with_finished(state.length, name_length(name)) else {
        return Err(Memory);
    };
    let due = sooner(state.due, finished_due(&finished));
    let Some(vault) = state.vaults.get_mut(name) else {
        unreachable!();
    };
    insert_finished(vault, number, finished)?;
    state.due = due;
    state.length = length;
    Ok(true)
}

/// Puts a lock into a vault.
pub(crate) fn put_lock(
    state: &mut AccountState,
    name: &VaultName,
    lock: Lock,
) -> Result<bool, Memory>
    requires lawful { IsLawful state.old }
    ensures fits { IfOk result (λ fits. fits ≡ is_some (put_lock state.old name.now lock)) }
    ensures state { OnOk result (state.new ≡ unwrap_or (put_lock state.old name.now lock) state.old) }
{
    let Some(vault) = state.vaults.get(name) else {
        return Ok(false);
    };
    if !fitting::takes_lock(state, &lock, vault) {
        return Ok(false);
    }
    let Some(length) = length_with_lock(state.length, name_length(name), &lock) else {
        return Err(Memory);
    };
    let Some(vault) = state.vaults.get_mut(name) else {
        unreachable!();
    };
    vault.lock = Some(lock);
    let due = lock_due(&vault.lock);
    state.due = sooner(state.due, due);
    state.length = length;
    Ok(true)
}
