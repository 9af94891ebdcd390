// The end of a body: it is kept with the event of its upload, or its blocks are given back.
ghost use Rattle.std.specs.Prelude.{◌≡◌, ◌≤◌, ◌<◌, ℕ, List as Items, Some, None, true, IsTrue, IsSome, IfOk, IfSome, length};
ghost use Rattle.std.specs.Int.{div_ceil};
ghost use Rattle.glacier_bodies.specs.BlobAreas.{IsOpen, Releases};
ghost use Rattle.glacier_bodies.specs.Blobs.{Holds};
ghost use Rattle.glacier_bodies.specs.Bodies.{HasTaken, body_runs, body_taken};
ghost use Rattle.glacier_bodies.specs.Stands.{at_blob};
ghost use Rattle.glacier_disk.specs.Moments.{Looks};
ghost use Rattle.glacier_disk.specs.declared.area.Area.TheVariants.{Blobs};
ghost use Rattle.glacier_extents.specs.Runs.{block_count};
ghost use Rattle.glacier_machine.specs.ArchiveSteps.{upload_step};
ghost use Rattle.glacier_machine.specs.declared.action.Action.TheVariants.{Upload};
ghost use Rattle.glacier_treehash.specs.Leaves.{leaves_of};
ghost use Rattle.glacier_upload.specs.Single.{upload_refusal};
ghost use Rattle.glacier_vault.specs.Accounts.{account_in};
ghost use Rattle.glacier_vault.specs.Totals.{need};
ghost use Rattle.glacier_replay.specs.Changes.{State, after_all, body_in, leaf_count};
ghost use Rattle.glacier_replay.specs.Made.{IsRest};
ghost use Rattle.glacier_store.specs.Calls.{Commits, OnlyFree, StoreCall};
ghost use Rattle.glacier_store.specs.Endings.{Ends, HasEnded, OthersStay, StaysBeside, room_with};
ghost use Rattle.glacier_store.specs.Kept.{IsRestBeside};
ghost use Rattle.glacier_store.specs.Steps.{Grows, IsChangeWith, action_events, change_events, store_left};

use crate::changed::is_known;
use crate::{Store, StoreFault};
use glacier_base::{Account, Memory, Moment};
use glacier_bodies::{Body, Layout};
use glacier_disk::Disk;
use glacier_extents::BLOCK;
use glacier_machine::{Answer, upload};
use glacier_replay::Accounts;
use glacier_upload::{Found, UploadAsk};
use glacier_vault::{Change, Rules};
use std::alloc::Global;

/// Does an upload whose body was taken on an account, and puts what it changes into the accounts. The
/// number is the one that the account's counter had. An error is want of memory.
fn uploaded(
    accounts: &mut Accounts,
    alloc: Global,
    rules: &Rules,
    m: Moment,
    ask: &UploadAsk,
    found: Found,
) -> Result<(Answer, u64), Memory>
    requires time { (account_in accounts.old rules.now.account).last ≤ m }
    requires admitted { upload_refusal rules.now.quota
        (account_in accounts.old rules.now.account) ask.now ≡ None }
    requires leaves { length found.leaves ≡ need ask.now.size }

    ensures answer { IfOk result (λ done. done.0 ≡
        (upload_step rules.now m ask.now found (account_in accounts.old rules.now.account)).answer) }
    ensures number { IfOk result (λ done. done.1 ≡ (account_in accounts.old rules.now.account).counter) }
    ensures accounts { IfOk result (λ done. IsChangeWith (Some (ask.now.size, found.leaves))
        accounts.old accounts.new rules.now.account m done.0.change) }
{
    let known = accounts.contains(&rules.account);
    let mut state = accounts.take(alloc, &rules.account);
    let number = state.counter;
    let answer = upload(alloc, &mut state, rules, m, ask, found)?;
    let keep = is_known(known, &answer.change);
    accounts.put_if(keep, rules.account, state)?;
    Ok((answer, number))
}

/// Gives back the blocks of a body that becomes no blob. It takes no memory.
fn given_back(store: Store, layout: Layout) -> Store
    requires { IsOpen store.area layout }
    ensures same { OnlyFree store result }
    ensures released { Releases store.area result.area layout }
    ensures rest { IsRestBeside layout store.area.free store.area.blobs →
        IsRest result.area.free result.area.blobs }
{
    let mut store = store;
    store.release(layout);
    store
}

/// Commits the event of a change with its body, whose blocks become the blob of this number, or gives
/// these blocks back where there is no event. The accounts are those after it already.
fn keep_or_release<D: Disk>(
    store: Store,
    alloc: Global,
    disk: &mut D,
    account: &Account,
    m: Moment,
    change: &Change,
    number: u64,
    layout: Layout,
) -> Result<Store, StoreFault>
    requires opened { (D.told disk.old).opened ≡ true }
    requires free { IsOpen store.area layout }
    requires body { IfSome change.now.event (λ event.
        IsSome (body_in event) × (block_count layout ≡ leaf_count event)) }
    requires fresh { at_blob store.area.blobs account.now number ≡ None }
    requires drawn { IfSome change.now.event (λ event.
        number < (account_in store.accounts account.now).counter) }

    ensures stays { IfOk result (λ done. StaysBeside layout store done) }
    ensures keeps { IsTrue D.tells → (before : State) (body : Items ℕ) →
        IsChangeWith (Some (length body, leaves_of body)) before.accounts store.accounts account.now m change.now →
        number ≡ (account_in before.accounts account.now).counter →
        Holds layout body ((D.told disk.old).reads Blobs) →
        Commits (D.told disk.old) (D.told disk.new) store.journal store.area layout before
        (after_all before (change_events account.now m change.now body)) result }
    ensures idle { IsTrue D.tells → change.now.event ≡ None → Looks (D.told disk.old) (D.told disk.new) }
    ensures grows { (body : Items ℕ) → Grows store.journal
        (room_with layout (change_events account.now m change.now body)) result }
    ensures call { StoreCall (D.told disk.old) (D.told disk.new) result }
    ensures alone { D.by_disk disk.old disk.new }
{
    match &change.event {
        None => Ok(given_back(store, layout)),
        Some(event) => store.keep_body(
            alloc,
            disk,
            account,
            m,
            event,
            change.freed.as_slice(),
            number,
            layout,
        ),
    }
}

impl Store {
    /// Ends a body that was taken whole: does the upload that it belongs to, at the moment `m`, and
    /// keeps its event. The body's blocks become the blob of the number that the account's counter
    /// has. Where the body isn't the one that was named, they are given back, and nothing is written.
    ///
    /// After an error there is no store: `Disk` says that a call of the disk failed, `Memory` is
    /// want of memory, and `End` that the journal is as long as it can be.
    pub fn end_body<D: Disk>(
        self,
        alloc: Global,
        disk: &mut D,
        rules: &Rules,
        m: Moment,
        ask: &UploadAsk,
        body: Body,
    ) -> Result<(Store, Answer), StoreFault>
        requires opened { (D.told disk.old).opened ≡ true }
        requires time { (account_in self.accounts rules.now.account).last ≤ m }
        requires admitted { upload_refusal rules.now.quota
            (account_in self.accounts rules.now.account) ask.now ≡ None }
        requires free { IsOpen self.area (body_runs body) }
        requires taken { body_taken body ≡ ask.now.size }
        requires room { block_count (body_runs body) ≡ div_ceil ask.now.size BLOCK }

        ensures ended { (message : Items ℕ) → HasTaken body message →
            IfOk result (HasEnded rules.now m ask.now message self) }
        ensures others { IfOk result (λ done.
            OthersStay (body_runs body) self.area done.0.area) }
        ensures ends { IsTrue D.tells → (message : Items ℕ) → HasTaken body message →
            Holds (body_runs body) message ((D.told disk.old).reads Blobs) →
            Ends (D.told disk.old) (D.told disk.new) self (body_runs body)
            (action_events rules.now m (Upload ask.now) message self.accounts) (store_left result) }
        ensures grows { (message : Items ℕ) → HasTaken body message → Grows self.journal
            (room_with (body_runs body) (action_events rules.now m (Upload ask.now) message self.accounts))
            (store_left result) }
        ensures call { StoreCall (D.told disk.old) (D.told disk.new) result }
        ensures alone { D.by_disk disk.old disk.new }
    {
        let (digests, layout) = body.finish();
        let found = Found {
            linear: digests.linear,
            leaves: digests.leaves,
        };
        let Store {
            mut accounts,
            area,
            journal,
        } = self;
        let (answer, number) = uploaded(&mut accounts, alloc, rules, m, ask, found)?;
        let store = Store {
            accounts,
            area,
            journal,
        };
        match keep_or_release(
            store,
            alloc,
            disk,
            &rules.account,
            m,
            &answer.change,
            number,
            layout,
        ) {
            Ok(store) => Ok((store, answer)),
            Err(fault) => Err(fault),
        }
    }
}
