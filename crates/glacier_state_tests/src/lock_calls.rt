// Calls on locks, for tests: what they answer.
ghost use Rattle.std.specs.Prelude.{OnOk};
ghost use Rattle.glacier_vault.specs.Lawful.{IsLawful};

use crate::ground::{Ground, moment_after, passed};
use crate::upload_calls;
use glacier_base::Memory;
use glacier_lock::{abort, complete, initiate, may_delete, show};
use glacier_policy::PolicyFault;
use glacier_vault::{AccountState, Change, Refusal, delete};
use std::alloc::Global;

/// A call.
#[derive(Clone, Copy)]
pub(crate) enum Step {
    /// An upload of 3 bytes.
    Upload,
    /// The time so many seconds after the ground's moment.
    Time(u64),
    Initiate(&'static str),
    /// The completion of a lock of this number.
    Complete(u64),
    Abort,
    Show,
    /// Whether archive 0 may be deleted so many seconds after the ground's moment.
    MayDelete(u64),
    /// The deletion of the vault.
    DeleteVault,
}

/// What a call answers.
#[derive(Clone, Copy, PartialEq)]
pub(crate) enum Said {
    Event,
    Nothing,
    /// A lock's number, and whether it is locked for good.
    Lock(u64, bool),
    /// The archive may be deleted.
    Free,
    /// The archive's age in days.
    Denied(u64),
    BadPolicy(PolicyFault),
    NoVault,
    NotEmpty,
    VaultLocked,
    Pending,
    Fixed,
    NoLock,
    WrongId,
    CounterEnd,
    Other,
}

fn refusal_said(refusal: &Refusal) -> Said {
    match refusal {
        Refusal::Denied { age } => Said::Denied(*age),
        Refusal::BadPolicy { fault } => Said::BadPolicy(*fault),
        Refusal::NoVault { .. } => Said::NoVault,
        Refusal::VaultNotEmpty => Said::NotEmpty,
        Refusal::VaultLocked => Said::VaultLocked,
        Refusal::LockPending => Said::Pending,
        Refusal::LockFixed => Said::Fixed,
        Refusal::NoLock => Said::NoLock,
        Refusal::WrongLockId => Said::WrongId,
        Refusal::CounterEnd => Said::CounterEnd,
        _ => Said::Other,
    }
}

fn change_said(change: &Change) -> Said {
    if change.event.is_some() {
        Said::Event
    } else {
        Said::Nothing
    }
}

fn answer_said(answer: &Result<Change, Refusal>) -> Said {
    match answer {
        Ok(change) => change_said(change),
        Err(refusal) => refusal_said(refusal),
    }
}

/// An upload of 3 bytes.
fn upload(alloc: Global, state: &mut AccountState, ground: &Ground) -> Result<Said, Memory>
    requires { IsLawful state.old }
    ensures { OnOk result (IsLawful state.new) }
{
    let step = upload_calls::Step::Upload(3, 1, 9);
    match upload_calls::said_of(alloc, state, ground, step)? {
        upload_calls::Said::Event => Ok(Said::Event),
        _ => Ok(Said::Other),
    }
}

/// The vault's lock.
fn shown(state: &AccountState, ground: &Ground) -> Said {
    match show(state, &ground.vault) {
        Ok(lock) => Said::Lock(lock.number, lock.locked),
        Err(refusal) => refusal_said(&refusal),
    }
}

/// Whether archive 0 may be deleted so many seconds after the ground's moment.
fn deletion(state: &AccountState, ground: &Ground, seconds: u64) -> Said {
    let m = moment_after(state, ground, seconds);
    let Some(vault) = state.vaults.get(&ground.vault) else {
        return Said::Other;
    };
    let Some(archive) = vault.archives.get(0) else {
        return Said::Other;
    };
    if archive.created > m {
        return Said::Other;
    }
    match may_delete(vault, &ground.rules, &ground.vault, 0, m) {
        Some(refusal) => refusal_said(&refusal),
        None => Said::Free,
    }
}

/// What a call on the lock itself answers.
fn lock_said(
    alloc: Global,
    state: &mut AccountState,
    ground: &Ground,
    step: Step,
) -> Result<Said, Memory>
    requires { IsLawful state.old }
    ensures { OnOk result (IsLawful state.new) }
{
    let m = state.last.later(ground.m);
    let name = &ground.vault;
    match step {
        Step::Initiate(text) => {
            let answer = initiate(alloc, state, m, name, text.as_bytes())?;
            Ok(answer_said(&answer))
        }
        Step::Complete(lock) => {
            let answer = complete(alloc, state, m, name, lock)?;
            Ok(answer_said(&answer))
        }
        Step::Abort => {
            let answer = abort(alloc, state, m, name)?;
            Ok(answer_said(&answer))
        }
        Step::DeleteVault => {
            let answer = delete(alloc, state, m, name)?;
            Ok(answer_said(&answer))
        }
        _ => Ok(Said::Other),
    }
}

/// What a call answers.
pub(crate) fn said_of(
    alloc: Global,
    state: &mut AccountState,
    ground: &Ground,
    step: Step,
) -> Result<Said, Memory>
    requires { IsLawful state.old }
    ensures { OnOk result (IsLawful state.new) }
{
    match step {
        Step::Upload => upload(alloc, state, ground),
        Step::Time(seconds) => {
            let change = passed(alloc, state, ground, seconds)?;
            Ok(change_said(&change))
        }
        Step::Show => Ok(shown(state, ground)),
        Step::MayDelete(seconds) => Ok(deletion(state, ground, seconds)),
        _ => lock_said(alloc, state, ground, step),
    }
}
