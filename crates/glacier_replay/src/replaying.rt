// Kept events that are done again.
ghost use Rattle.std.specs.Prelude.{◌≡◌, ◌≤◌, IfOk, OnOk};
ghost use Rattle.glacier_vault.specs.Lawful.{IsLawful};
ghost use Rattle.glacier_replay.specs.Replayed.{after_event, answer_of, freed_by, left_by, replayed};

use crate::archives::{delete_archive_again, upload_again};
use crate::jobs::{inventory_again, retrieve_again};
use crate::locks::{abort_lock_again, complete_lock_again, initiate_again};
use crate::uploads::{abort_again, begin_again, complete_again, part_again};
use crate::vaults::{create_again, delete_again};
use glacier_base::{List, Memory, Moment};
use glacier_job::settle;
use glacier_vault::{AccountState, Event};
use std::alloc::Global;

/// What came of an event that was to be done again: whether it fits the account, and the blobs that
/// nothing names any more.
#[derive(Drop)]
pub struct Replayed {
    pub fits: bool,
    pub freed: List<u64>,
}

/// Does an event again, at a moment that isn't before the last.
fn again(
    alloc: Global,
    state: &mut AccountState,
    m: Moment,
    event: &Event,
) -> Result<Option<List<u64>>, Memory>
    requires time { state.old.last ≤ m }
    requires lawful { IsLawful state.old }

    ensures freed { IfOk result (λ freed. freed ≡ freed_by (after_event state.old m event.now)) }
    ensures state { OnOk result (state.new ≡ left_by state.old (after_event state.old m event.now)) }
    ensures lawful { OnOk result (IsLawful state.new) }
{
    match event {
        Event::Pass => {
            let change = settle(alloc, state, m)?;
            Ok(Some(change.freed))
        }
        Event::CreateVault { name } => create_again(alloc, state, m, name),
        Event::DeleteVault { name } => delete_again(alloc, state, m, name),
        Event::Upload {
            name,
            size,
            description,
            leaves,
        } => upload_again(alloc, state, m, name, *size, description, leaves),
        Event::DeleteArchive { name, archive } => {
            delete_archive_again(alloc, state, m, name, *archive)
        }
        Event::BeginUpload {
            name,
            part_size,
            description,
        } => begin_again(alloc, state, m, name, *part_size, description),
        Event::Part {
            name,
            upload,
            index,
            size,
            leaves,
        } => part_again(alloc, state, m, name, *upload, *index, *size, leaves),
        Event::Complete { name, upload } => complete_again(alloc, state, m, name, *upload),
        Event::Abort { name, upload } => abort_again(alloc, state, m, name, *upload),
        Event::BeginRetrieval {
            name,
            archive,
            first,
            end,
            tier,
            ready,
            description,
        } => retrieve_again(
            alloc,
            state,
            m,
            name,
            *archive,
            (*first, *end),
            *tier,
            *ready,
            description,
        ),
        Event::BeginInventory {
            name,
            csv,
            tier,
            ready,
            description,
        } => inventory_again(alloc, state, m, name, *csv, *tier, *ready, description),
        Event::InitiateLock { name, policy } => initiate_again(alloc, state, m, name, policy),
        Event::CompleteLock { name } => complete_lock_again(alloc, state, m, name),
        Event::AbortLock { name } => abort_lock_again(alloc, state, m, name),
    }
}

/// Does a kept event of the moment `m` again, where it fits the account. Where it doesn't the
/// account stays as it is; after an `Err` it is given up.
pub fn replay(
    alloc: Global,
    state: &mut AccountState,
    m: Moment,
    event: &Event,
) -> Result<Replayed, Memory>
    requires lawful { IsLawful state.old }

    ensures answer { IfOk result (λ done. done ≡ answer_of (replayed state.old m event.now)) }
    ensures state { OnOk result (state.new ≡ left_by state.old (replayed state.old m event.now)) }
    ensures lawful { OnOk result (IsLawful state.new) }
{
    if m < state.last {
        return Ok(Replayed {
            fits: false,
            freed: List::new(alloc),
        });
    }
    match again(alloc, state, m, event)? {
        Some(freed) => Ok(Replayed { fits: true, freed }),
        None => Ok(Replayed {
            fits: false,
            freed: List::new(alloc),
        }),
    }
}
