// What the operations on locks change. Each asks for the vault and decides nothing, so that an
// event which is done again makes the same change as the request that it came of.
ghost use Rattle.std.specs.Prelude.{◌≡◌, ◌≤◌, IsOk, IfOk, OnOk, OnErr, IsSome, Some, None, Ok, false};
ghost use Rattle.std.specs.FinMap as map;
ghost use Rattle.glacier_policy.specs.Policies.{policy_of};
ghost use Rattle.glacier_vault.specs.Lawful.{IsLawful};
ghost use Rattle.glacier_vault.specs.Rows.{drawn, in_vault};
ghost use Rattle.glacier_lock.specs.Locks.{found_lock, initiate_refusal, locked, new_lock, with_lock};

use glacier_base::{Memory, Moment, Text, VaultName};
use glacier_policy::Policy;
use glacier_vault::{
    AccountState, DAY, Lock, due_of_vaults, length_with_lock, length_without_lock, name_length,
    sooner,
};

/// Puts a lock in progress into a vault for which `refuse_initiate` tells no refusal, with the account's next
/// number: a text, and the policy that it is. A length that is no `u64` is want of memory.
pub fn put_lock(
    state: &mut AccountState,
    m: Moment,
    vault: &VaultName,
    text: Text,
    policy: Policy,
) -> Result<(), Memory>
    requires time { state.old.last ≤ m }
    requires lawful { IsLawful state.old }
    requires free { initiate_refusal state.old vault.now ≡ None }
    requires reads { policy_of text ≡ Ok policy }

    ensures state { OnOk result (state.new ≡ in_vault (drawn state.old) m vault.now
        (with_lock (Some (new_lock state.old.counter m text policy)))) }
    ensures lawful { OnOk result (IsLawful state.new) }
    ensures err { OnErr result (state.new ≡ state.old) }
{
    let lock = Lock {
        number: state.counter,
        text,
        policy,
        created: m,
        locked: false,
    };
    let Some(length) = length_with_lock(state.length, name_length(vault), &lock) else {
        return Err(Memory);
    };
    let Some(found) = state.vaults.get_mut(vault) else {
        unreachable!();
    };
    found.lock = Some(lock);
    state.due = sooner(state.due, Some(m.seconds() + DAY));
    state.length = length;
    state.counter += 1;
    state.last = m;
    Ok(())
}

/// Locks the lock of a vault for good.
pub fn fix_lock(state: &mut AccountState, m: Moment, vault: &VaultName)
    requires time { state.old.last ≤ m }
    requires lawful { IsLawful state.old }
    requires there { IsOk (found_lock state.old vault.now) }

    ensures state { IfOk (found_lock state.old vault.now) (λ lock.
        state.new ≡ in_vault state.old m vault.now (with_lock (Some (locked lock)))) }
    ensures lawful { IsLawful state.new }
{
    let Some(found) = state.vaults.get_mut(vault) else {
        unreachable!();
    };
    let Some(lock) = &mut found.lock else {
        unreachable!();
    };
    lock.locked = true;
    state.due = due_of_vaults(&state.vaults);
    state.last = m;
}

/// Takes the lock in progress of a vault away. None takes a lock away that is locked.
pub fn take_lock(state: &mut AccountState, m: Moment, vault: &VaultName)
    requires time { state.old.last ≤ m }
    requires lawful { IsLawful state.old }
    requires there { IsOk (found_lock state.old vault.now) }
    requires in_progress { IfOk (found_lock state.old vault.now) (λ lock. lock.locked ≡ false) }

    ensures state { state.new ≡ in_vault state.old m vault.now (with_lock None) }
    ensures lawful { IsLawful state.new }
{
    let Some(found) = state.vaults.get_mut(vault) else {
        unreachable!();
    };
    let length = length_without_lock(state.length, name_length(vault), &found.lock);
    found.lock = None;
    state.due = due_of_vaults(&state.vaults);
    state.length = length;
    state.last = m;
}
