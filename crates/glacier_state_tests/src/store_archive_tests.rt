// An archive of a store on a disk in memory: its body is streamed and kept, and read back from what
// a disk holds. The records are by Python's struct and hashlib from docs/rules/records.md.
ghost use Rattle.std.specs.Prelude.{◌≡◌, ◌<◌, None, false, true, IfSome};
ghost use Rattle.glacier_bodies.specs.BlobAreas.{IsOpen};
ghost use Rattle.glacier_bodies.specs.Stands.{at_blob};
ghost use Rattle.glacier_vault.specs.Accounts.{account_in};
ghost use Rattle.glacier_vault.specs.Lawful.{IsLawful};

use crate::ground::{Ground, ground_of};
use crate::store_body_calls::streamed;
use glacier_bodies::{Found as FoundInBody, Layout};
use glacier_disk::{Area, Disk, MemPlan, MemStation};
use glacier_extents::BLOCKS;
use glacier_machine::{Action, Answer, upload};
use glacier_store::Store;
use glacier_treehash::root_of;
use glacier_upload::{Found, UploadAsk, admit_upload};
use glacier_vault::{AccountState, Event, blocks_of};
use std::alloc::Global;
use std::test::Fail;
use std::thread::Threads;

/// The header, and the record of `examplevault`.
pub(crate) const BEGINNING: &[u8] =
    b"glacier journal1\x01\0\0\0\x22\x02111122223333\0\0\0\0O\xbe\xd1U\
    \x0cexamplevault";

/// An archive of 1,048,579 bytes, which are `abcdefg` 149,797 times, in blocks 0 and 1.
pub(crate) const UPLOAD: &[u8] = b"\x01\0\0\0|\x04111122223333\0\0\0\0O\xbe\xd1U\x0cexamplevault\
    \0\0\0\0\0\x10\0\x03\0\0\0\0\0\x02\
    \xf7\x83kA\xa3\x0a~\xc2-\xc1\x162%N\xc8m\x06\x1c\xa9\xfePU\xd7\xeb\x1d\x14Z=)\xda\xcd\xed\
    \xd4\xff\xe8\xe9\xee\x0bH\xeb\xa7\x16pa#\xa7\x18\x7f2\xea\xe3\xbd\xcb\x0ewc\xe4\x1eS2g\xbd\x8aS\
    \0\0\0\x01\0\0\0\0\0\0\0\x02";

/// Makes the vault.
fn with_vault<D: Disk>(alloc: Global, disk: &mut D, store: Store, ground: &Ground) -> Option<Store>
    requires { (D.told disk.old).opened ≡ true }
    ensures { (D.told disk.new).opened ≡ true }
{
    let action = Action::CreateVault {
        vault: ground.vault,
    };
    let m = store.accounts.last(&ground.rules.account).later(ground.m);
    match store.apply(alloc, disk, &ground.rules, m, &action) {
        Ok((store, _)) => Some(store),
        Err(_) => None,
    }
}

/// Does an upload whose body was found to be this, on its account alone.
fn uploaded(
    alloc: Global,
    state: &mut AccountState,
    ground: &Ground,
    size: u64,
    found: FoundInBody,
) -> Option<Answer>
    requires { IsLawful state.old }
    ensures { IfSome result (λ answer. IsLawful state.new) }
{
    let FoundInBody { linear, leaves } = found;
    let tree = root_of(leaves.as_slice())?;
    let ask = UploadAsk {
        vault: ground.vault,
        description: ground.description,
        size,
        linear,
        tree,
    };
    if leaves.as_slice().len() as u64 != blocks_of(size) {
        return None;
    }
    if let Some(_refusal) = admit_upload(state, &ground.rules, &ask) {
        return None;
    }
    let m = state.last.later(ground.m);
    upload(
        alloc,
        state,
        &ground.rules,
        m,
        &ask,
        Found { linear, leaves },
    )
    .ok()
}

/// Does it on the account of a store: what is answered, and the number that the account drew.
fn with_upload(
    alloc: Global,
    store: Store,
    ground: &Ground,
    size: u64,
    found: FoundInBody,
) -> Option<(Store, Answer, u64)>
    ensures area { IfSome result (λ done. done.0.area ≡ store.area) }
    ensures fresh { IfSome result (λ done.
        at_blob store.area.blobs ground.now.rules.account done.2 ≡ None) }
    ensures drawn { IfSome result (λ done.
        done.2 < (account_in done.0.accounts ground.now.rules.account).counter) }
{
    let Store {
        mut accounts,
        area,
        journal,
    } = store;
    let mut state = accounts.take(alloc, &ground.rules.account);
    let number = state.counter;
    let answer = uploaded(alloc, &mut state, ground, size, found)?;
    if state.counter <= number {
        return None;
    }
    let Ok(()) = accounts.put(ground.rules.account, state) else {
        return None;
    };
    let store = Store {
        accounts,
        area,
        journal,
    };
    Some((store, answer, number))
}

/// Keeps its event, and makes its body the blob of its number.
fn kept<D: Disk>(
    alloc: Global,
    disk: &mut D,
    store: Store,
    ground: &Ground,
    answer: &Answer,
    number: u64,
    layout: Layout,
) -> Option<Store>
    requires open { (D.told disk.old).opened ≡ true }
    requires body { IsOpen store.area layout }
    requires fresh { at_blob store.area.blobs ground.now.rules.account number ≡ None }
    requires drawn { number < (account_in store.accounts ground.now.rules.account).counter }
{
    let account = ground.rules.account;
    let event = answer.change.event.as_ref()?;
    let Event::Upload { leaves, .. } = event else {
        return None;
    };
    if leaves.as_slice().len() as u64 != u64::from(layout.count()) {
        return None;
    }
    let freed = answer.change.freed.as_slice();
    match store.keep_body(
        alloc, disk, &account, ground.m, event, freed, number, layout,
    ) {
        Ok(store) => Some(store),
        Err(_) => None,
    }
}

/// Takes the body of an archive in two pieces and keeps it: how many blocks are free then.
fn archived<D: Disk, R: Threads + Sync>(
    rt: &R,
    alloc: Global,
    disk: &mut D,
    store: Store,
    ground: &Ground,
    pieces: (&[u8], &[u8]),
) -> Option<u32>
    requires { (D.told disk.old).opened ≡ true }
{
    let mut store = store;
    let size = pieces.0.len() as u64 + pieces.1.len() as u64;
    let (found, layout) = streamed(rt, alloc, &mut store, disk, pieces)?;
    let (store, answer, number) = with_upload(alloc, store, ground, size, found)?;
    let store = kept(alloc, disk, store, ground, &answer, number, layout)?;
    Some(store.area.free())
}

/// The same in a store that is made first.
fn made<D: Disk, R: Threads + Sync>(
    rt: &R,
    alloc: Global,
    disk: &mut D,
    ground: &Ground,
    pieces: (&[u8], &[u8]),
) -> Option<u32>
    requires { (D.told disk.old).opened ≡ false }
{
    if disk.open("here").is_err() {
        return None;
    }
    let Ok(store) = Store::create(alloc, disk) else {
        return None;
    };
    let store = with_vault(alloc, disk, store, ground)?;
    archived(rt, alloc, disk, store, ground, pieces)
}

/// Whether the disk has the records of the vault and of the archive then, and the body's bytes.
fn is_kept<R: Threads + Sync>(rt: &R, alloc: Global, bytes: &[u8]) -> Option<bool> {
    if bytes.len() < 1_048_576 {
        return None;
    }
    let ground = ground_of(1024)?;
    let pieces = bytes.split_at(1_048_576);
    let left = [BEGINNING, UPLOAD, b"\0"].concat(alloc).ok()?;
    let mut station = MemStation::new(alloc, MemPlan::empty(alloc)).ok()?;
    let free = made(rt, alloc, &mut station, &ground, pieces);
    let is_left = station.area(Area::Left) == left.as_slice();
    Some(free == Some(BLOCKS - 2) && is_left && station.area(Area::Blobs) == bytes)
}

#[test]
fn an_archive_is_kept(rt: HostRuntime) -> Result<(), Fail> {
    let text = "abcdefg".repeat(rt.alloc(), 149_797)?;
    assert!(rt; is_kept(&rt, rt.alloc(), text.as_bytes()) == Some(true));
    Ok(())
}
