// Locks that are initiated, completed and aborted again.
ghost use Rattle.std.specs.Prelude.{◌≡◌, ◌≤◌, IfOk, OnOk, is_some};
ghost use Rattle.glacier_vault.specs.Lawful.{IsLawful};
ghost use Rattle.glacier_vault.specs.declared.event.Event.TheVariants as events;
ghost use Rattle.glacier_replay.specs.Replayed.{after_event, freed_by, left_by, progress_of};

use glacier_base::{List, Memory, Moment, Text, VaultName};
use glacier_lock::{fix_lock, put_lock, refuse_initiate, show, take_lock};
use glacier_policy::{Policy, PolicyFault};
use glacier_vault::AccountState;
use std::alloc::Global;

/// Makes a lock in progress of a kept text again.
pub(crate) fn initiate_again(
    alloc: Global,
    state: &mut AccountState,
    m: Moment,
    name: &VaultName,
    policy: &Text,
) -> Result<Option<List<u64>>, Memory>
    requires time { state.old.last ≤ m }
    requires lawful { IsLawful state.old }

    ensures freed { IfOk result (λ freed. freed
        ≡ freed_by (after_event state.old m (events.InitiateLock name.now policy.now))) }
    ensures state { OnOk result (state.new
        ≡ left_by state.old (after_event state.old m (events.InitiateLock name.now policy.now))) }
    ensures lawful { OnOk result (IsLawful state.new) }
{
    let read = match Policy::read(alloc, policy.bytes()) {
        Ok(read) => read,
        Err(PolicyFault::Memory) => return Err(Memory),
        Err(_) => return Ok(None),
    };
    if refuse_initiate(state, name).is_some() {
        return Ok(None);
    }
    let text = Text::of(alloc, policy.bytes())?;
    put_lock(state, m, name, text, read)?;
    Ok(Some(List::new(alloc)))
}

/// Whether the vault of a name has a lock in progress.
fn is_in_progress(state: &AccountState, name: &VaultName) -> bool
    ensures { result ≡ is_some (progress_of state.now name.now) }
{
    match show(state, name) {
        Ok(lock) => !lock.locked,
        Err(_) => false,
    }
}

/// Locks a lock in progress for good again.
pub(crate) fn complete_lock_again(
    alloc: Global,
    state: &mut AccountState,
    m: Moment,
    name: &VaultName,
) -> Result<Option<List<u64>>, Memory>
    requires time { state.old.last ≤ m }
    requires lawful { IsLawful state.old }

    ensures freed { IfOk result (λ freed. freed
        ≡ freed_by (after_event state.old m (events.CompleteLock name.now))) }
    ensures state { OnOk result (state.new
        ≡ left_by state.old (after_event state.old m (events.CompleteLock name.now))) }
    ensures lawful { OnOk result (IsLawful state.new) }
{
    if !is_in_progress(state, name) {
        return Ok(None);
    }
    fix_lock(state, m, name);
    Ok(Some(List::new(alloc)))
}

/// Takes a lock in progress away again.
pub(crate) fn abort_lock_again(
    alloc: Global,
    state: &mut AccountState,
    m: Moment,
    name: &VaultName,
) -> Result<Option<List<u64>>, Memory>
    requires time { state.old.last ≤ m }
    requires lawful { IsLawful state.old }

    ensures freed { IfOk result (λ freed. freed
        ≡ freed_by (after_event state.old m (events.AbortLock name.now))) }
    ensures state { OnOk result (state.new
        ≡ left_by state.old (after_event state.old m (events.AbortLock name.now))) }
    ensures lawful { OnOk result (IsLawful state.new) }
{
    if !is_in_progress(state, name) {
        return Ok(None);
    }
    take_lock(state, m, name);
    Ok(Some(List::new(alloc)))
}
