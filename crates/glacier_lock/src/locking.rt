// The operations on locks: what each refuses, and then its change.
ghost use Rattle.std.specs.Prelude.{◌≡◌, ◌≤◌, IfOk, OnOk, OnErr, Ok};
ghost use Rattle.glacier_vault.specs.Lawful.{IsLawful};
ghost use Rattle.glacier_vault.specs.Rows.{answer, state_after, result_copied};
ghost use Rattle.glacier_lock.specs.Locks.{abort_row, complete_row, found_lock, initiate_refusal, initiate_row};

use crate::changing::{fix_lock, put_lock, take_lock};
use glacier_base::{Memory, Moment, Text, VaultName};
use glacier_policy::{Policy, PolicyFault};
use glacier_vault::{AccountState, Change, Event, Lock, Refusal, refuse_draw};
use std::alloc::Global;

/// Why no lock is made in a vault, whatever its policy: `NoVault`, `LockPending`, `LockFixed`,
/// `CounterEnd`. It takes no memory.
pub fn refuse_initiate(state: &AccountState, vault: &VaultName) -> Option<Refusal>
    ensures { result ≡ initiate_refusal state.now vault.now }
{
    let Some(found) = state.vaults.get(vault) else {
        return Some(Refusal::NoVault { name: *vault });
    };
    match &found.lock {
        Some(lock) if lock.locked => Some(Refusal::LockFixed),
        Some(_) => Some(Refusal::LockPending),
        None => refuse_draw(state),
    }
}

/// Makes a lock in progress of a policy's text, with the account's next number: `BadPolicy`,
/// `NoVault`, `LockPending`, `LockFixed`, `CounterEnd`. An error is want of memory, and leaves the
/// account as it is.
pub fn initiate(
    alloc: Global,
    state: &mut AccountState,
    m: Moment,
    vault: &VaultName,
    text: &[u8],
) -> Result<Result<Change, Refusal>, Memory>
    requires time { state.old.last ≤ m }
    requires lawful { IsLawful state.old }

    ensures answer { IfOk result (λ done. done
        ≡ answer (initiate_row state.old m vault.now text.now)) }
    ensures state { OnOk result
        (state.new ≡ state_after state.old (initiate_row state.old m vault.now text.now)) }
    ensures lawful { OnOk result (IsLawful state.new) }
    ensures err { OnErr result (state.new ≡ state.old) }
{
    let policy = match Policy::read(alloc, text) {
        Ok(policy) => policy,
        Err(PolicyFault::Memory) => return Err(Memory),
        Err(fault) => return Ok(Err(Refusal::BadPolicy { fault })),
    };
    if let Some(refusal) = refuse_initiate(state, vault) {
        return Ok(Err(refusal));
    }
    let kept = Text::of(alloc, text)?;
    let event = Event::InitiateLock {
        name: *vault,
        policy: Text::of(alloc, text)?,
    };
    put_lock(state, m, vault, kept, policy)?;
    Ok(Ok(Change::of(alloc, event)))
}

/// The lock of a vault, or `NoVault`, `NoLock`. It takes no memory.
pub fn show<'a>(state: &'a AccountState, vault: &VaultName) -> Result<&'a Lock, Refusal>
    ensures { result_copied result ≡ found_lock state.now vault.now }
{
    let Some(found) = state.vaults.get(vault) else {
        return Err(Refusal::NoVault { name: *vault });
    };
    match &found.lock {
        Some(lock) => Ok(lock),
        None => Err(Refusal::NoLock),
    }
}

/// Locks a vault for good with its lock in progress, which is named by its number: `NoVault`,
/// `NoLock`, `LockFixed`, `WrongLockId`. No memory is taken, so there is never an error.
pub fn complete(
    alloc: Global,
    state: &mut AccountState,
    m: Moment,
    vault: &VaultName,
    lock: u64,
) -> Result<Result<Change, Refusal>, Memory>
    requires time { state.old.last ≤ m }
    requires lawful { IsLawful state.old }

    ensures answer { result ≡ Ok (answer (complete_row state.old m vault.now lock)) }
    ensures state { state.new
        ≡ state_after state.old (complete_row state.old m vault.now lock) }
    ensures lawful { IsLawful state.new }
{
    let (locked, same) = match show(state, vault) {
        Ok(found) => (found.locked, found.number == lock),
        Err(refusal) => return Ok(Err(refusal)),
    };
    if locked {
        return Ok(if same {
            Ok(Change::none(alloc))
        } else {
            Err(Refusal::LockFixed)
        });
    }
    if !same {
        return Ok(Err(Refusal::WrongLockId));
    }
    fix_lock(state, m, vault);
    Ok(Ok(Change::of(alloc, Event::CompleteLock { name: *vault })))
}

/// Takes a lock in progress away, and does nothing where there is none: `NoVault`, `LockFixed`. No
/// memory is taken, so there is never an error.
pub fn abort(
    alloc: Global,
    state: &mut AccountState,
    m: Moment,
    vault: &VaultName,
) -> Result<Result<Change, Refusal>, Memory>
    requires time { state.old.last ≤ m }
    requires lawful { IsLawful state.old }

    ensures answer { result ≡ Ok (answer (abort_row state.old m vault.now)) }
    ensures state { state.new ≡ state_after state.old (abort_row state.old m vault.now) }
    ensures lawful { IsLawful state.new }
{
    let Some(found) = state.vaults.get(vault) else {
        return Ok(Err(Refusal::NoVault { name: *vault }));
    };
    match &found.lock {
        None => return Ok(Ok(Change::none(alloc))),
        Some(lock) if lock.locked => return Ok(Err(Refusal::LockFixed)),
        Some(_) => {}
    }
    take_lock(state, m, vault);
    Ok(Ok(Change::of(alloc, Event::AbortLock { name: *vault })))
}
