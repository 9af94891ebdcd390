// What is asked of an account of a store.
ghost use Rattle.std.specs.Prelude.{◌≡◌, ◌≤◌, [], true, false, IsTrue, IfOk, IfSome};
ghost use Rattle.glacier_machine.specs.AccountSteps.{step_of};
ghost use Rattle.glacier_machine.specs.Actions.{HasOrder, HasShortOutput, stores_body};
ghost use Rattle.glacier_vault.specs.Accounts.{account_in};
ghost use Rattle.glacier_store.specs.Calls.{StoreCall};
ghost use Rattle.glacier_store.specs.Outputs.{HasStretch};
ghost use Rattle.glacier_store.specs.Steps.{Advances, Grows, accounts_after, action_events, store_left, room_of};

use crate::changed::{acted, keep_change};
use crate::{Store, StoreFault};
use glacier_base::Moment;
use glacier_disk::Disk;
use glacier_machine::{Action, Answer};
use glacier_vault::Rules;
use std::alloc::Global;

impl Store {
    /// Does an action that has no body on an account at the moment `m`, and keeps what it changes.
    ///
    /// After an error there is no store: `Disk` says that a call of the disk failed, `Memory` is
    /// want of memory, and `End` that the journal is as long as it can be.
    pub fn apply<D: Disk>(
        self,
        alloc: Global,
        disk: &mut D,
        rules: &Rules,
        m: Moment,
        action: &Action,
    ) -> Result<(Store, Answer), StoreFault>
        requires open { (D.told disk.old).opened ≡ true }
        requires time { (account_in self.accounts rules.now.account).last ≤ m }
        requires plain { stores_body action.now ≡ false }
        requires order { HasOrder action.now }

        ensures answer { IfOk result (λ done. done.1 ≡
            (step_of rules.now m action.now [] (account_in self.accounts rules.now.account)).answer) }
        ensures short { IfOk result (λ done. HasShortOutput action.now done.1.reply) }
        ensures output { IfOk result (λ done. IfSome done.1.stretch
            (HasStretch done.0.accounts rules.now.account)) }
        ensures accounts { IfOk result (λ done. done.0.accounts ≡
            accounts_after self.accounts (action_events rules.now m action.now [] self.accounts)) }

        ensures advances { IsTrue D.tells → Advances (D.told disk.old) (D.told disk.new) self
            (action_events rules.now m action.now [] self.accounts) (store_left result) }
        ensures grows { Grows self.journal
            (room_of (action_events rules.now m action.now [] self.accounts)) (store_left result) }
        ensures call { StoreCall (D.told disk.old) (D.told disk.new) result }
        ensures alone { D.by_disk disk.old disk.new }
    {
        let Store {
            mut accounts,
            area,
            journal,
        } = self;
        let answer = acted(&mut accounts, alloc, rules, m, action)?;
        let store = Store {
            accounts,
            area,
            journal,
        };
        match keep_change(store, alloc, disk, &rules.account, m, &answer.change) {
            Ok(store) => Ok((store, answer)),
            Err(fault) => Err(fault),
        }
    }
}
