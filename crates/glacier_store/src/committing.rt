// Keeping an event of a store in its journal.
ghost use Rattle.std.specs.Prelude.{◌≡◌, ◌≤◌, ◌<◌, ◌+◌, ◌++◌, [], ◌∷◌, ℕ, List as Items, None, true, IsTrue, IsSome, IsErrOf, IfOk, length};
ghost use Rattle.glacier_bodies.specs.BlobAreas.{IsOpen};
ghost use Rattle.glacier_bodies.specs.Blobs.{Holds};
ghost use Rattle.glacier_bodies.specs.Stands.{at_blob};
ghost use Rattle.glacier_disk.specs.declared.area.Area.TheVariants.{Blobs};
ghost use Rattle.glacier_extents.specs.declared.run.Run.{Run as RunOf};
ghost use Rattle.glacier_extents.specs.FreeRuns.{blocks};
ghost use Rattle.glacier_extents.specs.Runs.{AreDistinct, block_count};
ghost use Rattle.glacier_journal.specs.Appending.{Appends, IsDurable};
ghost use Rattle.glacier_journal.specs.Listed.{AllList, Payloads};
ghost use Rattle.glacier_records.specs.Room.{EventHasRoom};
ghost use Rattle.glacier_records.specs.Spells.{Spells};
ghost use Rattle.glacier_vault.specs.Accounts.{account_in, AccountEvent};
ghost use Rattle.glacier_replay.specs.Changes.{IsBodyOf, State, after_account_event, body_in, leaf_count};
ghost use Rattle.glacier_replay.specs.Made.{record_of};
ghost use Rattle.glacier_replay.specs.Replayed.{replayed};
ghost use Rattle.glacier_vault.specs.declared.state.AccountState.{AccountState};
ghost use Rattle.glacier_store.specs.Calls.{Commits, HasFreed, HasNamed, IsEventOf, Lengthens, StoreCall, event_at, record_room};

use crate::{Store, StoreFault};
use glacier_base::{Account, List, Memory, Moment};
use glacier_bodies::{BlobArea, Layout};
use glacier_disk::Disk;
use glacier_extents::Run;
use glacier_journal::Frame;
use glacier_records::write_event;
use glacier_vault::Event;
use std::alloc::Global;

/// The frame of an event's record, with the blocks of its body. An error is want of memory.
fn record_frame(
    alloc: Global,
    account: &Account,
    m: Moment,
    event: &Event,
    runs: &List<Run>,
) -> Result<Frame, Memory>
    requires room { EventHasRoom event.now runs.now }
    requires leaves { leaf_count event.now ≤ blocks }
    requires runs { length runs.now ≤ blocks }
    ensures { IfOk result (λ frame.
        Spells frame (record_of (event_at account.now m event.now []) runs.now)) }
{
    let text = write_event(alloc, account, m, event, runs)?;
    Frame::of(alloc, text.bytes())
}

/// Takes blobs away, and gives their blocks back. It takes no memory.
fn give_back(area: &mut BlobArea, account: &Account, numbers: &[u64])
    ensures { HasFreed area.old area.new account.now numbers.now }
{
    for number in numbers {
        area.free_blob(account, *number);
    }
}

/// Appends the record of an event, and then gives back the blocks of the blobs that it frees. It
/// takes no memory.
fn append<D: Disk>(
    store: Store,
    disk: &mut D,
    frame: &Frame,
    account: &Account,
    freed: &[u64],
) -> Result<Store, StoreFault>
    requires opened { (D.told disk.old).opened ≡ true }

    ensures accounts { IfOk result (λ done. done.accounts ≡ store.accounts) }
    ensures area { IfOk result (λ done.
        HasFreed store.area done.area account.now freed.now) }

    ensures appends { IsTrue D.tells → Appends store.journal.area store.journal.length
        frame.now (D.told disk.old) (D.told disk.new) }
    ensures acknowledged { IsTrue D.tells → (payloads : Payloads) →
        AllList (D.told disk.old).leaves store.journal.area payloads store.journal.length →
        IfOk result (λ done. IsDurable (D.told disk.old) (D.told disk.new) store.journal.area
        done.journal.area (payloads ++ frame.now ∷ []) done.journal.length) }

    ensures lengthens { Lengthens store.journal (length frame.now + 5) result }
    ensures no_memory { IsErrOf result StoreFault.Memory → ⊥ }
    ensures call { StoreCall (D.told disk.old) (D.told disk.new) result }
    ensures alone { D.by_disk disk.old disk.new }
{
    let Store {
        accounts,
        mut area,
        journal,
    } = store;
    match journal.append(disk, frame) {
        Ok(journal) => {
            give_back(&mut area, account, freed);
            Ok(Store {
                accounts,
                area,
                journal,
            })
        }
        Err(fault) => Err(StoreFault::from(fault)),
    }
}

impl Store {
    /// Commits an event that has no body in the journal. The accounts are those after it already; the
    /// blobs that it frees go once it is kept.
    ///
    /// After an error there is no store: `Disk` says that a call of the disk failed, `Memory` is
    /// want of memory, and `End` that the journal is as long as it can be.
    pub fn keep<D: Disk>(
        self,
        alloc: Global,
        disk: &mut D,
        account: &Account,
        m: Moment,
        event: &Event,
        freed: &[u64],
    ) -> Result<Store, StoreFault>
        requires opened { (D.told disk.old).opened ≡ true }
        requires plain { body_in event.now ≡ None }
        requires fits { (a : AccountState) × IsSome (replayed a m event.now) }

        ensures accounts { IfOk result (λ done. done.accounts ≡ self.accounts) }
        ensures area { IfOk result (λ done.
            HasFreed self.area done.area account.now freed.now) }
        ensures keeps { IsTrue D.tells → (before : State) →
            IsEventOf before.accounts self.accounts (event_at account.now m event.now []) freed.now →
            Commits (D.told disk.old) (D.told disk.new) self.journal self.area [] before
            (after_account_event before (event_at account.now m event.now [])) result }
        ensures lengthens { Lengthens self.journal
            (record_room (event_at account.now m event.now []) []) result }
        ensures call { StoreCall (D.told disk.old) (D.told disk.new) result }
        ensures alone { D.by_disk disk.old disk.new }
    {
        let runs = List::new(alloc);
        let frame = record_frame(alloc, account, m, event, &runs)?;
        append(self, disk, &frame, account, freed)
    }

    /// Commits an event whose body lies in blocks of its own, which become the blob of this number.
    /// It is named in memory before the record is appended, and nothing takes memory after that.
    /// The accounts are those after the event already; the blobs that it frees go once it is kept.
    ///
    /// After an error there is no store: `Disk` says that a call of the disk failed, `Memory` is
    /// want of memory, and `End` that the journal is as long as it can be.
    pub fn keep_body<D: Disk>(
        self,
        alloc: Global,
        disk: &mut D,
        account: &Account,
        m: Moment,
        event: &Event,
        freed: &[u64],
        number: u64,
        layout: Layout,
    ) -> Result<Store, StoreFault>
        requires opened { (D.told disk.old).opened ≡ true }
        requires body { IsSome (body_in event.now) }
        requires count { block_count layout ≡ leaf_count event.now }
        requires free { IsOpen self.area layout }
        requires fresh { at_blob self.area.blobs account.now number ≡ None }
        requires drawn { number < (account_in self.accounts account.now).counter }

        ensures accounts { IfOk result (λ done. done.accounts ≡ self.accounts) }
        ensures area { IfOk result (λ done.
            HasNamed self.area done.area account.now number layout freed.now) }
        ensures keeps { IsTrue D.tells → (before : State) (body : Items ℕ) →
            IsEventOf before.accounts self.accounts (event_at account.now m event.now body) freed.now →
            number ≡ (account_in before.accounts account.now).counter →
            IsBodyOf event.now body → Holds layout body ((D.told disk.old).reads Blobs) →
            Commits (D.told disk.old) (D.told disk.new) self.journal self.area layout before
            (after_account_event before (event_at account.now m event.now body)) result }
        ensures lengthens { Lengthens self.journal
            (record_room (event_at account.now m event.now []) layout) result }
        ensures call { StoreCall (D.told disk.old) (D.told disk.new) result }
        ensures alone { D.by_disk disk.old disk.new }
    {
        let Store {
            accounts,
            mut area,
            journal,
        } = self;
        let _ = layout.count();
        let frame = record_frame(alloc, account, m, event, layout.runs())?;
        area.name_blob(alloc, *account, number, layout)?;
        append(
            Store {
                accounts,
                area,
                journal,
            },
            disk,
            &frame,
            account,
            freed,
        )
    }
}
