// Time that passes for an account of a store.
ghost use Rattle.std.specs.Prelude.{◌≡◌, ◌≤◌, true, IsTrue, IfOk, OnErr};
ghost use Rattle.glacier_job.specs.Pass.{pass_is_event};
ghost use Rattle.glacier_vault.specs.Accounts.{account_in};
ghost use Rattle.glacier_store.specs.Calls.{StoreCall};
ghost use Rattle.glacier_store.specs.Steps.{Advances, Grows, HasPassed, room_of, time_events};

use crate::changed::{aged, keep_change};
use crate::{Store, StoreFault};
use glacier_base::{Account, Moment};
use glacier_disk::Disk;
use std::alloc::Global;

impl Store {
    /// Lets time pass for an account until the moment `m`, before what is asked for at `m` is done:
    /// ready jobs are settled, and what has ended goes. That is an event, which is kept. Where there
    /// is nothing of these, nothing is written, and no memory is taken.
    ///
    /// After an error there is no store: `Disk` says that a call of the disk failed, `Memory` is
    /// want of memory, and `End` that the journal is as long as it can be.
    pub fn pass<D: Disk>(
        self,
        alloc: Global,
        disk: &mut D,
        account: &Account,
        m: Moment,
    ) -> Result<Store, StoreFault>
        requires open { (D.told disk.old).opened ≡ true }
        requires time { (account_in self.accounts account.now).last ≤ m }

        ensures passed { IfOk result (λ done.
            HasPassed self.accounts done.accounts account.now m) }
        ensures due { OnErr result
            (pass_is_event m (account_in self.accounts account.now) ≡ true) }

        ensures advances { IsTrue D.tells → Advances (D.told disk.old) (D.told disk.new) self
            (time_events account.now m self.accounts) result }
        ensures grows { Grows self.journal
            (room_of (time_events account.now m self.accounts)) result }
        ensures call { StoreCall (D.told disk.old) (D.told disk.new) result }
        ensures alone { D.by_disk disk.old disk.new }
    {
        if !self.accounts.is_due(account, m) {
            return Ok(self);
        }
        let Store {
            mut accounts,
            area,
            journal,
        } = self;
        let change = aged(&mut accounts, alloc, account, m)?;
        let store = Store {
            accounts,
            area,
            journal,
        };
        keep_change(store, alloc, disk, account, m, &change)
    }
}
