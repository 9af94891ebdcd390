// Deletions of vaults and of archives.
ghost use Rattle.std.specs.Prelude.{◌≡◌, ◌≤◌, ◌+◌, ◌-◌, IfOk, OnOk, OnErr, IsSome, IsTrue, sum_by};
ghost use Rattle.std.specs.FinMap as map;
ghost use Rattle.glacier_vault.specs.Deletions.{has_content, is_locked, deletion_refusal, delete_row, may_go, held_blobs, without_archive, freed_by_deletion, room_freed, length_freed, live_archive, deletion};
ghost use Rattle.glacier_vault.specs.Lawful.{IsLawful};
ghost use Rattle.glacier_vault.specs.Named.{blobs_of, named_in};
ghost use Rattle.glacier_vault.specs.Rows.{answer, state_after, in_vault, with_vaults};
ghost use Rattle.glacier_vault.specs.Totals.{blocks, bytes_in};

use crate::archive::Archive;
use crate::due::due_of_vaults;
use crate::event::{Change, Event};
use crate::lengths::{length_without_archive, length_without_vault, name_length};
use crate::lock::Lock;
use crate::naming::is_named;
use crate::refusal::Refusal;
use crate::room::blocks_of;
use crate::state::{AccountState, VaultState};
use glacier_base::{List, Memory, Moment, NumberMap, VaultName};
use std::alloc::Global;

/// The blobs of archives, one archive after another.
fn all_blobs(alloc: Global, archives: &NumberMap<Archive>) -> Result<List<u64>, Memory>
    ensures { IfOk result (λ blobs. blobs ≡ blobs_of (map.values archives.now)) }
{
    let mut blobs = List::new(alloc);
    for archive in archives.values() {
        blobs.extend_from_slice(archive.blobs.as_slice())?;
    }
    Ok(blobs)
}

/// What is left of so many blocks without those of the archives.
fn without_blocks(used: u64, archives: &NumberMap<Archive>) -> u64
    requires { sum_by blocks.archive (map.values archives.now) ≤ used }
    ensures { result ≡ used - sum_by blocks.archive (map.values archives.now) }
{
    let mut left = used;
    for archive in archives.values() {
        left -= blocks_of(archive.size);
    }
    left
}

fn lock_is_fixed(lock: &Option<Lock>) -> bool
    ensures { result ≡ is_locked lock.now }
{
    match lock {
        Some(lock) => lock.locked,
        None => false,
    }
}

fn holds_content(vault: &VaultState) -> bool
    ensures { result ≡ has_content vault.now }
{
    vault.archives.len() >= 1 || vault.uploads.len() >= 1
}

/// Why a vault isn't deleted: it holds an archive or an open upload (`VaultNotEmpty`), or is locked
/// for good (`VaultLocked`).
pub fn refuse_deletion(vault: &VaultState) -> Option<Refusal>
    ensures { result ≡ deletion_refusal vault.now }
{
    if holds_content(vault) {
        return Some(Refusal::VaultNotEmpty);
    }
    if lock_is_fixed(&vault.lock) {
        return Some(Refusal::VaultLocked);
    }
    None
}

/// Takes a vault that may be deleted out of its account, and answers the blobs of its held
/// archives, which nothing names any more.
pub fn remove_vault(
    alloc: Global,
    state: &mut AccountState,
    m: Moment,
    name: &VaultName,
) -> Result<List<u64>, Memory>
    requires time { state.old.last ≤ m }
    requires lawful { IsLawful state.old }
    requires may { IsTrue (may_go state.old name.now) }

    ensures freed { IfOk result (λ freed. freed ≡ held_blobs state.old name.now) }
    ensures state { OnOk result
        (state.new ≡ with_vaults state.old m (map.remove state.old.vaults name.now)) }
    ensures lawful { OnOk result (IsLawful state.new) }
    ensures err { OnErr result (state.new ≡ state.old) }
{
    let Some(vault) = state.vaults.get(name) else {
        unreachable!();
    };
    let freed = all_blobs(alloc, &vault.held)?;
    let used = without_blocks(state.used, &vault.held);
    let jobs = state.jobs - vault.jobs.len() as u64;
    let length = length_without_vault(state.length, name_length(name), vault);
    let _ = state.vaults.remove(name);
    state.due = due_of_vaults(&state.vaults);
    state.used = used;
    state.jobs = jobs;
    state.length = length;
    state.last = m;
    Ok(freed)
}

/// Deletes a vault at the moment `m`, with its jobs, its held archives, its finished uploads and a
/// lock in progress, and does nothing where there is none of this name.
pub fn delete(
    alloc: Global,
    state: &mut AccountState,
    m: Moment,
    name: &VaultName,
) -> Result<Result<Change, Refusal>, Memory>
    requires time { state.old.last ≤ m }
    requires lawful { IsLawful state.old }

    ensures answer { IfOk result (λ done. done ≡ answer (delete_row state.old m name.now)) }
    ensures state { OnOk result
        (state.new ≡ state_after state.old (delete_row state.old m name.now)) }
    ensures lawful { OnOk result (IsLawful state.new) }

    ensures err { OnErr result (state.new ≡ state.old) }
    // only what is freed takes memory
    ensures memory { OnErr result (IsTrue (may_go state.old name.now)) }
{
    let Some(vault) = state.vaults.get(name) else {
        return Ok(Ok(Change::none(alloc)));
    };
    if let Some(refusal) = refuse_deletion(vault) {
        return Ok(Err(refusal));
    }
    let freed = remove_vault(alloc, state, m, name)?;
    Ok(Ok(Change {
        event: Some(Event::DeleteVault { name: *name }),
        freed,
    }))
}

/// What the deletion of an archive gives back: blobs, and how many blocks they take; and how long
/// the account's snapshot is then.
#[derive(Drop)]
struct Freed {
    blobs: List<u64>,
    room: u64,
    length: u64,
}

/// Takes a live archive out of a vault, or makes it held. The account's snapshot has the length, and
/// the vault's name `n` bytes.
fn take_out(
    alloc: Global,
    vault: &mut VaultState,
    number: u64,
    length: u64,
    n: u64,
) -> Result<Freed, Memory>
    requires live { IsSome (map.get vault.old.archives number) }
    requires kept { (vault.old.bytes ≡ bytes_in vault.old.archives)
        × (vault.old.named ≡ named_in vault.old.jobs) }
    requires within { length_freed n number vault.old ≤ length }

    ensures vault { OnOk result (vault.new ≡ without_archive number vault.old) }
    ensures blobs { IfOk result (λ freed. freed.blobs ≡ freed_by_deletion number vault.old) }
    ensures sizes { IfOk result (λ freed. (freed.room ≡ room_freed number vault.old)
        × (freed.length + length_freed n number vault.old ≡ length)) }
{
    let named = is_named(vault, number);
    let Some(archive) = vault.archives.remove(number) else {
        unreachable!();
    };
    vault.bytes -= archive.size;
    if named {
        vault.held.insert(number, archive)?;
        return Ok(Freed {
            blobs: List::new(alloc),
            room: 0,
            length,
        });
    }
    let room = blocks_of(archive.size);
    let length = length_without_archive(length, n, &archive);
    Ok(Freed {
        blobs: archive.blobs,
        room,
        length,
    })
}

/// Deletes a live archive of a vault at the moment `m`. Where a finished job of the vault names it,
/// it becomes held, and else its blobs are freed.
pub fn delete_archive(
    alloc: Global,
    state: &mut AccountState,
    m: Moment,
    name: &VaultName,
    archive: u64,
) -> Result<Change, Memory>
    requires time { state.old.last ≤ m }
    requires lawful { IsLawful state.old }
    requires live { IsSome (live_archive state.old name.now archive) }

    ensures change { IfOk result (λ change. change ≡ deletion state.old name.now archive) }
    ensures state { OnOk result
        (state.new ≡ in_vault state.old m name.now (without_archive archive)) }
    ensures lawful { OnOk result (IsLawful state.new) }
{
    let length = state.length;
    let Some(vault) = state.vaults.get_mut(name) else {
        unreachable!();
    };
    let freed = take_out(alloc, vault, archive, length, name_length(name))?;
    state.used -= freed.room;
    state.length = freed.length;
    state.last = m;
    Ok(Change {
        event: Some(Event::DeleteArchive {
            name: *name,
            archive,
        }),
        freed: freed.blobs,
    })
}
