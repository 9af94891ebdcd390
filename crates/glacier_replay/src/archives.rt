// Archives that are made of one body, or deleted, again.
ghost use Rattle.std.specs.Prelude.{◌≡◌, ◌≤◌, IfOk, OnOk};
ghost use Rattle.glacier_vault.specs.Lawful.{IsLawful};
ghost use Rattle.glacier_vault.specs.declared.event.Event.TheVariants as events;
ghost use Rattle.glacier_replay.specs.Replayed.{after_event, freed_by, left_by};

use crate::bodies::{takes_body, tree_of};
use glacier_base::{Description, Digest, List, Memory, Moment, VaultName};
use glacier_upload::put_archive;
use glacier_vault::{AccountState, Archive, delete_archive};
use std::alloc::Global;

/// Makes the archive of a kept body again.
pub(crate) fn upload_again(
    alloc: Global,
    state: &mut AccountState,
    m: Moment,
    name: &VaultName,
    size: u64,
    description: &Description,
    leaves: &List<Digest>,
) -> Result<Option<List<u64>>, Memory>
    requires time { state.old.last ≤ m }
    requires lawful { IsLawful state.old }

    ensures freed { IfOk result (λ freed. freed
        ≡ freed_by (after_event state.old m (events.Upload name.now size description.now leaves.now))) }
    ensures state { OnOk result (state.new
        ≡ left_by state.old (after_event state.old m (events.Upload name.now size description.now leaves.now))) }
    ensures lawful { OnOk result (IsLawful state.new) }
{
    if !state.vaults.contains(name) || !takes_body(state, size, leaves) {
        return Ok(None);
    }
    let mut blobs = List::new(alloc);
    blobs.push(state.counter)?;
    let archive = Archive {
        size,
        leaves: List::of(alloc, leaves.as_slice())?,
        tree: tree_of(leaves),
        description: *description,
        created: m,
        blobs,
    };
    put_archive(state, m, name, archive)?;
    Ok(Some(List::new(alloc)))
}

/// Deletes a live archive again.
pub(crate) fn delete_archive_again(
    alloc: Global,
    state: &mut AccountState,
    m: Moment,
    name: &VaultName,
    archive: u64,
) -> Result<Option<List<u64>>, Memory>
    requires time { state.old.last ≤ m }
    requires lawful { IsLawful state.old }

    ensures freed { IfOk result (λ freed. freed
        ≡ freed_by (after_event state.old m (events.DeleteArchive name.now archive))) }
    ensures state { OnOk result (state.new
        ≡ left_by state.old (after_event state.old m (events.DeleteArchive name.now archive))) }
    ensures lawful { OnOk result (IsLawful state.new) }
{
    let Some(vault) = state.vaults.get(name) else {
        return Ok(None);
    };
    if !vault.archives.contains(archive) {
        return Ok(None);
    }
    let change = delete_archive(alloc, state, m, name, archive)?;
    Ok(Some(change.freed))
}
