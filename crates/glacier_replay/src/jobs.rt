// Jobs that are begun again.
ghost use Rattle.std.specs.Prelude.{◌≡◌, ◌≤◌, IfOk, OnOk};
ghost use Rattle.glacier_vault.specs.Lawful.{IsLawful};
ghost use Rattle.glacier_vault.specs.declared.event.Event.TheVariants as events;
ghost use Rattle.glacier_replay.specs.Replayed.{after_event, freed_by, left_by};

use crate::bodies::can_draw;
use glacier_base::{Description, List, Memory, Moment, VaultName};
use glacier_job::{put_job, retrieval_of};
use glacier_vault::{AccountState, Job, Stage, Tier, Work};
use std::alloc::Global;

/// Begins a retrieval again, of a live archive's bytes from the first number to before the second.
pub(crate) fn retrieve_again(
    alloc: Global,
    state: &mut AccountState,
    m: Moment,
    name: &VaultName,
    archive: u64,
    bytes: (u64, u64),
    tier: Tier,
    ready: Moment,
    description: &Description,
) -> Result<Option<List<u64>>, Memory>
    requires time { state.old.last ≤ m }
    requires lawful { IsLawful state.old }

    ensures freed { IfOk result (λ freed. freed
        ≡ freed_by (after_event state.old m (events.BeginRetrieval name.now archive bytes.0 bytes.1 tier ready description.now))) }
    ensures state { OnOk result (state.new
        ≡ left_by state.old (after_event state.old m (events.BeginRetrieval name.now archive bytes.0 bytes.1 tier ready description.now))) }
    ensures lawful { OnOk result (IsLawful state.new) }
{
    let Some(vault) = state.vaults.get(name) else {
        return Ok(None);
    };
    let Some(found) = vault.archives.get(archive) else {
        return Ok(None);
    };
    let (first, end) = bytes;
    if first >= end || end > found.size || !can_draw(state) {
        return Ok(None);
    }
    let job = Job {
        created: m,
        ready,
        tier,
        description: *description,
        work: retrieval_of(archive, found, first, end),
        stage: Stage::Waiting,
    };
    put_job(state, m, name, job)?;
    Ok(Some(List::new(alloc)))
}

/// Begins an inventory again.
pub(crate) fn inventory_again(
    alloc: Global,
    state: &mut AccountState,
    m: Moment,
    name: &VaultName,
    csv: bool,
    tier: Tier,
    ready: Moment,
    description: &Description,
) -> Result<Option<List<u64>>, Memory>
    requires time { state.old.last ≤ m }
    requires lawful { IsLawful state.old }

    ensures freed { IfOk result (λ freed. freed
        ≡ freed_by (after_event state.old m (events.BeginInventory name.now csv tier ready description.now))) }
    ensures state { OnOk result (state.new
        ≡ left_by state.old (after_event state.old m (events.BeginInventory name.now csv tier ready description.now))) }
    ensures lawful { OnOk result (IsLawful state.new) }
{
    if !state.vaults.contains(name) || !can_draw(state) {
        return Ok(None);
    }
    let job = Job {
        created: m,
        ready,
        tier,
        description: *description,
        work: Work::Inventory { csv },
        stage: Stage::Waiting,
    };
    put_job(state, m, name, job)?;
    Ok(Some(List::new(alloc)))
}
