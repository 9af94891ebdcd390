// What a change makes of the accounts, and the keeping of its event.
ghost use Rattle.std.specs.Prelude.{◌≡◌, ◌≤◌, ◌||◌, [], None, true, false, IsSome, IsTrue, IfOk, IfSome};
ghost use Rattle.std.specs.Option.{is_some};
ghost use Rattle.glacier_disk.specs.Moments.{Looks};
ghost use Rattle.glacier_machine.specs.AccountSteps.{step_of};
ghost use Rattle.glacier_machine.specs.Actions.{HasOrder, HasShortOutput, stores_body};
ghost use Rattle.glacier_machine.specs.Moments.{moment_change};
ghost use Rattle.glacier_vault.specs.Accounts.{account_in};
ghost use Rattle.glacier_replay.specs.Changes.{State, after_all, body_in};
ghost use Rattle.glacier_replay.specs.Replayed.{replayed};
ghost use Rattle.glacier_vault.specs.declared.state.AccountState.{AccountState as StateOf};
ghost use Rattle.glacier_store.specs.Calls.{Commits, StoreCall};
ghost use Rattle.glacier_store.specs.Outputs.{HasStretch};
ghost use Rattle.glacier_store.specs.Steps.{Grows, IsChangeOf, change_events, room_of};

use crate::{Store, StoreFault};
use glacier_base::{Account, Memory, Moment};
use glacier_disk::Disk;
use glacier_machine::{Action, Answer, pass, step};
use glacier_replay::Accounts;
use glacier_vault::{Change, Rules};
use std::alloc::Global;

/// Whether an account is kept: it was there, or it has an event.
pub(crate) fn is_known(known: bool, change: &Change) -> bool
    ensures { result ≡ (known || is_some change.now.event) }
{
    known || change.event.is_some()
}

/// Does an action that has no body on an account, and puts what it changes into the accounts. An error is want of
/// memory.
pub(crate) fn acted(
    accounts: &mut Accounts,
    alloc: Global,
    rules: &Rules,
    m: Moment,
    action: &Action,
) -> Result<Answer, Memory>
    requires time { (account_in accounts.old rules.now.account).last ≤ m }
    requires plain { stores_body action.now ≡ false }
    requires order { HasOrder action.now }
    ensures answer { IfOk result (λ answer. answer ≡
        (step_of rules.now m action.now [] (account_in accounts.old rules.now.account)).answer) }
    ensures short { IfOk result (λ answer. HasShortOutput action.now answer.reply) }
    ensures output { IfOk result (λ answer.
        IfSome answer.stretch (HasStretch accounts.new rules.now.account)) }
    ensures accounts { IfOk result (λ answer.
        IsChangeOf accounts.old accounts.new rules.now.account m answer.change) }
{
    let known = accounts.contains(&rules.account);
    let mut state = accounts.take(alloc, &rules.account);
    let answer = step(alloc, &mut state, rules, m, action)?;
    let keep = is_known(known, &answer.change);
    accounts.put_if(keep, rules.account, state)?;
    Ok(answer)
}

/// Lets time pass for an account until the moment `m`, and puts what that changes into the accounts.
/// An error is want of memory.
pub(crate) fn aged(
    accounts: &mut Accounts,
    alloc: Global,
    account: &Account,
    m: Moment,
) -> Result<Change, Memory>
    requires { (account_in accounts.old account.now).last ≤ m }
    ensures change { IfOk result (λ change.
        change ≡ moment_change m (account_in accounts.old account.now)) }
    ensures accounts { IfOk result (λ change.
        IsChangeOf accounts.old accounts.new account.now m change) }
{
    let known = accounts.contains(account);
    let mut state = accounts.take(alloc, account);
    let change = pass(alloc, &mut state, m)?;
    let keep = is_known(known, &change);
    accounts.put_if(keep, *account, state)?;
    Ok(change)
}

/// Commits the event of a change, which has no body, in the journal, if it has one. The accounts are
/// those after it already.
pub(crate) fn keep_change<D: Disk>(
    store: Store,
    alloc: Global,
    disk: &mut D,
    account: &Account,
    m: Moment,
    change: &Change,
) -> Result<Store, StoreFault>
    requires opened { (D.told disk.old).opened ≡ true }
    requires fits { IfSome change.now.event (λ event.
        (body_in event ≡ None) × ((a : StateOf) × IsSome (replayed a m event))) }

    ensures accounts { IfOk result (λ done. done.accounts ≡ store.accounts) }
    ensures keeps { IsTrue D.tells → (before : State) →
        IsChangeOf before.accounts store.accounts account.now m change.now →
        Commits (D.told disk.old) (D.told disk.new) store.journal store.area [] before
        (after_all before (change_events account.now m change.now [])) result }
    ensures idle { IsTrue D.tells → change.now.event ≡ None → Looks (D.told disk.old) (D.told disk.new) }
    ensures grows { Grows store.journal (room_of (change_events account.now m change.now [])) result }
    ensures call { StoreCall (D.told disk.old) (D.told disk.new) result }
    ensures alone { D.by_disk disk.old disk.new }
{
    match &change.event {
        None => Ok(store),
        Some(event) => store.keep(alloc, disk, account, m, event, change.freed.as_slice()),
    }
}
