// Uploads in parts that are begun, added to and ended again.
ghost use Rattle.std.specs.Prelude.{◌≡◌, ◌≤◌, IfOk, OnOk, ◌&&◌, nat_le};
ghost use Rattle.glacier_vault.specs.Lawful.{IsLawful};
ghost use Rattle.glacier_vault.specs.PartSizes.{last_index};
ghost use Rattle.glacier_vault.specs.declared.event.Event.TheVariants as events;
ghost use Rattle.glacier_replay.specs.Replayed.{after_event, can_draw, freed_by, is_body, left_by};

use crate::bodies::{can_draw, is_body, tree_of};
use glacier_base::{Description, Digest, List, Memory, Moment, PartMap, VaultName};
use glacier_upload::{
    allows_part_size, finish_upload, put_part, put_upload, take_upload, whole_of,
};
use glacier_vault::{AccountState, Part, Upload};
use std::alloc::Global;

/// The greatest index of a part.
const LAST_INDEX: u32 = 9999;

/// Whether these are the leaves of a part of an upload, and it can draw a number.
fn takes_part(
    state: &AccountState,
    upload: &Upload,
    index: u32,
    size: u64,
    leaves: &List<Digest>,
) -> bool
    ensures { result ≡ (nat_le index last_index && nat_le size upload.now.part_size
        && is_body size leaves.now && can_draw state.now) }
{
    index <= LAST_INDEX && size <= upload.part_size && is_body(size, leaves) && can_draw(state)
}

/// Begins an upload in parts again.
pub(crate) fn begin_again(
    alloc: Global,
    state: &mut AccountState,
    m: Moment,
    name: &VaultName,
    part_size: u64,
    description: &Description,
) -> Result<Option<List<u64>>, Memory>
    requires time { state.old.last ≤ m }
    requires lawful { IsLawful state.old }

    ensures freed { IfOk result (λ freed. freed
        ≡ freed_by (after_event state.old m (events.BeginUpload name.now part_size description.now))) }
    ensures state { OnOk result (state.new
        ≡ left_by state.old (after_event state.old m (events.BeginUpload name.now part_size description.now))) }
    ensures lawful { OnOk result (IsLawful state.new) }
{
    if !state.vaults.contains(name) || !allows_part_size(part_size) || !can_draw(state) {
        return Ok(None);
    }
    let upload = Upload {
        created: m,
        part_size,
        description: *description,
        parts: PartMap::new(alloc),
    };
    put_upload(state, m, name, upload)?;
    Ok(Some(List::new(alloc)))
}

/// Puts the part of a kept body into its open upload again.
pub(crate) fn part_again(
    alloc: Global,
    state: &mut AccountState,
    m: Moment,
    name: &VaultName,
    upload: u64,
    index: u32,
    size: u64,
    leaves: &List<Digest>,
) -> Result<Option<List<u64>>, Memory>
    requires time { state.old.last ≤ m }
    requires lawful { IsLawful state.old }

    ensures freed { IfOk result (λ freed. freed
        ≡ freed_by (after_event state.old m (events.Part name.now upload index size leaves.now))) }
    ensures state { OnOk result (state.new
        ≡ left_by state.old (after_event state.old m (events.Part name.now upload index size leaves.now))) }
    ensures lawful { OnOk result (IsLawful state.new) }
{
    let Some(vault) = state.vaults.get(name) else {
        return Ok(None);
    };
    let Some(open) = vault.uploads.get(upload) else {
        return Ok(None);
    };
    if !takes_part(state, open, index, size, leaves) {
        return Ok(None);
    }
    let part = Part {
        size,
        leaves: List::of(alloc, leaves.as_slice())?,
        tree: tree_of(leaves),
        blob: state.counter,
    };
    let freed = put_part(alloc, state, m, name, upload, index, part)?;
    Ok(Some(freed))
}

/// Makes an archive of the parts of an open upload again.
pub(crate) fn complete_again(
    alloc: Global,
    state: &mut AccountState,
    m: Moment,
    name: &VaultName,
    upload: u64,
) -> Result<Option<List<u64>>, Memory>
    requires time { state.old.last ≤ m }
    requires lawful { IsLawful state.old }

    ensures freed { IfOk result (λ freed. freed
        ≡ freed_by (after_event state.old m (events.Complete name.now upload))) }
    ensures state { OnOk result (state.new
        ≡ left_by state.old (after_event state.old m (events.Complete name.now upload))) }
    ensures lawful { OnOk result (IsLawful state.new) }
{
    let Some(vault) = state.vaults.get(name) else {
        return Ok(None);
    };
    let Some(open) = vault.uploads.get(upload) else {
        return Ok(None);
    };
    let Some(archive) = whole_of(alloc, state.last, m, open)? else {
        return Ok(None);
    };
    if !can_draw(state) {
        return Ok(None);
    }
    finish_upload(state, m, name, upload, archive)?;
    Ok(Some(List::new(alloc)))
}

/// Ends an open upload without an archive again.
pub(crate) fn abort_again(
    alloc: Global,
    state: &mut AccountState,
    m: Moment,
    name: &VaultName,
    upload: u64,
) -> Result<Option<List<u64>>, Memory>
    requires time { state.old.last ≤ m }
    requires lawful { IsLawful state.old }

    ensures freed { IfOk result (λ freed. freed
        ≡ freed_by (after_event state.old m (events.Abort name.now upload))) }
    ensures state { OnOk result (state.new
        ≡ left_by state.old (after_event state.old m (events.Abort name.now upload))) }
    ensures lawful { OnOk result (IsLawful state.new) }
{
    let Some(vault) = state.vaults.get(name) else {
        return Ok(None);
    };
    if !vault.uploads.contains(upload) {
        return Ok(None);
    }
    let freed = take_upload(alloc, state, m, name, upload)?;
    Ok(Some(freed))
}
