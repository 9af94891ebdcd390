// Vaults that are made and deleted again.
ghost use Rattle.std.specs.Prelude.{◌≡◌, ◌≤◌, IfOk, OnOk};
ghost use Rattle.glacier_vault.specs.Lawful.{IsLawful};
ghost use Rattle.glacier_vault.specs.declared.event.Event.TheVariants as events;
ghost use Rattle.glacier_replay.specs.Replayed.{after_event, freed_by, left_by};

use glacier_base::{List, Memory, Moment, VaultName};
use glacier_vault::{AccountState, put_vault, refuse_deletion, remove_vault};
use std::alloc::Global;

/// Makes a vault again, where there is none of its name.
pub(crate) fn create_again(
    alloc: Global,
    state: &mut AccountState,
    m: Moment,
    name: &VaultName,
) -> Result<Option<List<u64>>, Memory>
    requires time { state.old.last ≤ m }
    requires lawful { IsLawful state.old }

    ensures freed { IfOk result (λ freed. freed
        ≡ freed_by (after_event state.old m (events.CreateVault name.now))) }
    ensures state { OnOk result (state.new
        ≡ left_by state.old (after_event state.old m (events.CreateVault name.now))) }
    ensures lawful { OnOk result (IsLawful state.new) }
{
    if state.vaults.contains(name) {
        return Ok(None);
    }
    put_vault(alloc, state, m, name)?;
    Ok(Some(List::new(alloc)))
}

/// Deletes a vault again, where it may be deleted.
pub(crate) fn delete_again(
    alloc: Global,
    state: &mut AccountState,
    m: Moment,
    name: &VaultName,
) -> Result<Option<List<u64>>, Memory>
    requires time { state.old.last ≤ m }
    requires lawful { IsLawful state.old }

    ensures freed { IfOk result (λ freed. freed
        ≡ freed_by (after_event state.old m (events.DeleteVault name.now))) }
    ensures state { OnOk result (state.new
        ≡ left_by state.old (after_event state.old m (events.DeleteVault name.now))) }
    ensures lawful { OnOk result (IsLawful state.new) }
{
    let Some(vault) = state.vaults.get(name) else {
        return Ok(None);
    };
    if refuse_deletion(vault).is_some() {
        return Ok(None);
    }
    let freed = remove_vault(alloc, state, m, name)?;
    Ok(Some(freed))
}
