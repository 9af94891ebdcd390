// Calls of a store on bodies, for tests: which bodies are open behind them.
ghost use Rattle.std.specs.Prelude.{◌≡◌, ◌+◌, ◌≤◌, List as Items, true, length, IfSome};
ghost use Rattle.std.specs.Int.{div_ceil};
ghost use Rattle.glacier_bodies.specs.BlobAreas.{IsOpen};
ghost use Rattle.glacier_bodies.specs.Blobs.{IsApart};
ghost use Rattle.glacier_bodies.specs.Bodies.{body_room, body_runs, body_taken};
ghost use Rattle.glacier_extents.specs.Runs.{block_count, has_block};
ghost use Rattle.glacier_extents.specs.declared.run.Run.{Run as RunOf};
ghost use Rattle.glacier_store.specs.Calls.{OnlyFree};

use glacier_bodies::{Body, Found, Layout};
use glacier_disk::Disk;
use glacier_extents::BLOCK;
use glacier_store::Store;
use glacier_treehash::Open;
use std::alloc::Global;
use std::thread::Threads;

/// Opens a body of so many bytes.
pub(crate) fn begun(alloc: Global, store: &mut Store, length: u64) -> Option<Body>
    ensures opened { IfSome result (λ body. IsOpen store.new.area (body_runs body)) }
    ensures empty { IfSome result (λ body. body_taken body ≡ 0) }
    ensures count { IfSome result (λ body. block_count (body_runs body) ≡ div_ceil length BLOCK) }
    ensures stay { (runs : Items RunOf) → IsOpen store.old.area runs → IsOpen store.new.area runs }
    ensures apart { IfSome result (λ body. (runs : Items RunOf) → IsOpen store.old.area runs →
        IsApart (has_block (body_runs body)) runs) }
    ensures same { OnlyFree store.old store.new }
{
    match store.begin_body(alloc, length) {
        Ok(body) => Some(body),
        Err(_) => None,
    }
}

/// Whether there is no room for a body of so many bytes.
pub(crate) fn is_refused(alloc: Global, store: &mut Store, length: u64) -> bool
    ensures { (runs : Items RunOf) → IsOpen store.old.area runs → IsOpen store.new.area runs }
{
    begun(alloc, store, length).is_none()
}

/// Drops a body beside another, which stays open.
pub(crate) fn drop_beside(store: &mut Store, body: Body, other: &Body)
    requires opened { IsOpen store.old.area (body_runs body) }
    requires other { IsOpen store.old.area (body_runs other.now) }
    requires apart { IsApart (has_block (body_runs other.now)) (body_runs body) }
    ensures { IsOpen store.new.area (body_runs other.now) }
{
    store.drop_body(body);
}

/// Takes a piece that has room. Whether it did.
fn takes<D: Disk, R: Threads + Sync>(
    rt: &R,
    store: &Store,
    disk: &mut D,
    body: &mut Body,
    bytes: &[u8],
) -> bool
    requires open { (D.told disk.old).opened ≡ true }
    requires body { IsOpen store.now.area (body_runs body.old) }
    requires room { body_taken body.old + length bytes.now ≤ body_room body.old }
    ensures open { (D.told disk.new).opened ≡ true }
    ensures runs { body_runs body.new ≡ body_runs body.old }
    ensures taken { result ≡ true → body_taken body.new ≡ body_taken body.old + length bytes.now }
{
    if bytes.is_empty() || body.taken() % BLOCK != 0 {
        return false;
    }
    store.body_piece(rt, disk, body, bytes, &Open).is_ok()
}

/// Takes both pieces of a body that has room for them. Whether it did.
fn takes_both<D: Disk, R: Threads + Sync>(
    rt: &R,
    store: &Store,
    disk: &mut D,
    body: &mut Body,
    pieces: (&[u8], &[u8]),
) -> bool
    requires open { (D.told disk.old).opened ≡ true }
    requires body { IsOpen store.now.area (body_runs body.old) }
    requires empty { body_taken body.old ≡ 0 }
    requires room { length pieces.0.now + length pieces.1.now ≤ body_room body.old }
    ensures open { (D.told disk.new).opened ≡ true }
    ensures runs { body_runs body.new ≡ body_runs body.old }
{
    if !takes(rt, store, disk, body, pieces.0) {
        return false;
    }
    takes(rt, store, disk, body, pieces.1)
}

/// Takes a whole body in two pieces: what it was found to be, and its blocks.
pub(crate) fn streamed<D: Disk, R: Threads + Sync>(
    rt: &R,
    alloc: Global,
    store: &mut Store,
    disk: &mut D,
    pieces: (&[u8], &[u8]),
) -> Option<(Found, Layout)>
    requires open { (D.told disk.old).opened ≡ true }
    ensures open { (D.told disk.new).opened ≡ true }
    ensures opened { IfSome result (λ streamed. IsOpen store.new.area streamed.1) }
    ensures same { OnlyFree store.old store.new }
{
    let length = pieces.0.len() as u64 + pieces.1.len() as u64;
    let mut body = begun(alloc, store, length)?;
    if !takes_both(rt, store, disk, &mut body, pieces) {
        return None;
    }
    if length == 0 || body.taken() != length {
        return None;
    }
    Some(body.finish())
}
