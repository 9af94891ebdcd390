// A body that is taken into blocks of a disk in memory, named a blob and read back, by hand from
// docs/rules/blocks.md. The digests are by Python's hashlib.
ghost use Rattle.std.specs.Prelude.{◌≡◌, ◌<◌, ◌+◌, ◌≤◌, [], ◌∷◌, None, false, true, length, IfSome};
ghost use Rattle.std.specs.Int.{div_ceil};
ghost use Rattle.glacier_bodies.specs.BlobAreas.{IsOpen, runs_of};
ghost use Rattle.glacier_bodies.specs.Bodies.{body_room, body_runs, body_taken};
ghost use Rattle.glacier_bodies.specs.Stands.{at_blob};
ghost use Rattle.glacier_extents.specs.Runs.{block_count};

use glacier_base::{Account, Digest, Memory};
use glacier_bodies::{BlobArea, Body, Found, Layout};
use glacier_disk::{Disk, MemPlan, MemStation};
use glacier_extents::{BLOCK, BLOCKS};
use glacier_treehash::Open;
use std::alloc::Global;
use std::thread::Threads;

/// Opens a body of so many bytes, where there are blocks for it.
fn begun(alloc: Global, area: &mut BlobArea, length: u64) -> Option<Body>
    ensures opened { IfSome result (λ body. IsOpen area.new (body_runs body)) }
    ensures empty { IfSome result (λ body. body_taken body ≡ 0) }
    ensures count { IfSome result (λ body. block_count (body_runs body) ≡ div_ceil length BLOCK) }
    ensures blobs { area.new.blobs ≡ area.old.blobs }
{
    if length.div_ceil(BLOCK) > u64::from(area.free()) {
        return None;
    }
    match area.begin_body(alloc, length) {
        Ok(body) => Some(body),
        Err(_) => None,
    }
}

/// Takes a piece that has room. Whether it did.
fn takes<D: Disk, R: Threads + Sync>(
    rt: &R,
    area: &BlobArea,
    disk: &mut D,
    body: &mut Body,
    bytes: &[u8],
) -> bool
    requires open { (D.told disk.old).opened ≡ true }
    requires body { IsOpen area.now (body_runs body.old) }
    requires room { body_taken body.old + length bytes.now ≤ body_room body.old }
    ensures open { (D.told disk.new).opened ≡ true }
    ensures runs { body_runs body.new ≡ body_runs body.old }
    ensures taken { result ≡ true → body_taken body.new ≡ body_taken body.old + length bytes.now }
{
    if bytes.is_empty() || body.taken() % BLOCK != 0 {
        return false;
    }
    area.body_piece(rt, disk, body, bytes, &Open).is_ok()
}

/// Takes a whole body as one piece: what it was found to be, and its blocks.
fn stored<D: Disk, R: Threads + Sync>(
    rt: &R,
    alloc: Global,
    area: &mut BlobArea,
    disk: &mut D,
    bytes: &[u8],
) -> Option<(Found, Layout)>
    requires open { (D.told disk.old).opened ≡ true }
    requires some { 0 < length bytes.now }
    ensures open { (D.told disk.new).opened ≡ true }
    ensures opened { IfSome result (λ stored. IsOpen area.new stored.1) }
    ensures blobs { area.new.blobs ≡ area.old.blobs }
{
    let mut body = begun(alloc, area, bytes.len() as u64)?;
    if !takes(rt, area, disk, &mut body, bytes) {
        return None;
    }
    Some(body.finish())
}

/// Names blob 0 of an account. Whether it did.
#[tactic(auto, using(crate::proofs::OneBlob::one_blob))]
fn is_named(alloc: Global, area: &mut BlobArea, account: &Account, layout: Layout) -> bool
    requires open { IsOpen area.old layout }
    requires fresh { at_blob area.old.blobs account.now 0 ≡ None }
    ensures { result ≡ true → runs_of area.new.blobs account.now (0 ∷ []) ≡ layout }
{
    area.name_blob(alloc, *account, 0, layout).is_ok()
}

/// Whether the bytes of blob 0 at a place are these, at most 8. It has so many blocks.
fn are_at<D: Disk>(
    area: &BlobArea,
    disk: &mut D,
    account: &Account,
    count: u32,
    at: u64,
    bytes: &[u8],
) -> bool
    requires open { (D.told disk.old).opened ≡ true }
    requires count { block_count (runs_of area.now.blobs account.now (0 ∷ [])) ≡ count }
{
    let end = at.saturating_add(bytes.len() as u64);
    if bytes.len() > 8 || end > u64::from(count) * BLOCK {
        return false;
    }
    let mut into = [0; 8];
    let is_read = area.read(disk, account, &[0], at, &mut into[..bytes.len()]);
    is_read.is_ok() && &into[..bytes.len()] == bytes
}

/// A body: its SHA-256 and its leaves, its blocks, and 7 of its bytes at a place.
struct Row {
    linear: &'static str,
    leaves: &'static [&'static str],
    count: u32,
    at: u64,
    bytes: &'static [u8],
}

/// Names it blob 0, reads it and frees it. Whether its bytes are there until then.
fn is_kept<D: Disk>(
    alloc: Global,
    area: &mut BlobArea,
    disk: &mut D,
    account: &Account,
    layout: Layout,
    row: &Row,
) -> bool
    requires open { (D.told disk.old).opened ≡ true }
    requires opened { IsOpen area.old layout }
    requires fresh { at_blob area.old.blobs account.now 0 ≡ None }
{
    let count = layout.count();
    let left = area.free();
    if !is_named(alloc, area, account, layout) {
        return false;
    }
    let is_there = are_at(area, disk, account, count, row.at, row.bytes);
    area.free_blob(account, 0);
    is_there && count == row.count && left.saturating_add(count) == BLOCKS && area.free() == BLOCKS
}

fn is_shown(digest: &Digest, text: &str) -> bool {
    digest.text().as_slice() == text.as_bytes()
}

/// Whether a body was found to have this SHA-256 and these leaves.
fn is_found(found: &Found, row: &Row) -> bool {
    let leaves = found.leaves.as_slice();
    if leaves.len() != row.leaves.len() {
        return false;
    }
    for i in 0..leaves.len() {
        if !is_shown(&leaves[i], row.leaves[i]) {
            return false;
        }
    }
    is_shown(&found.linear, row.linear)
}

/// Whether a body is taken into an empty area and read back.
#[tactic(auto, using(glacier_bodies::proofs::NameLemmas::no_blob_at))]
fn is_read_back<D: Disk, R: Threads + Sync>(
    rt: &R,
    alloc: Global,
    disk: &mut D,
    account: &Account,
    bytes: &[u8],
    row: &Row,
) -> bool
    requires closed { (D.told disk.old).opened ≡ false }
    requires some { 0 < length bytes.now }
{
    if disk.open("here").is_err() {
        return false;
    }
    let Ok(mut area) = BlobArea::new(alloc) else {
        return false;
    };
    match stored(rt, alloc, &mut area, disk, bytes) {
        Some((found, layout)) => {
            is_found(&found, row) && is_kept(alloc, &mut area, disk, account, layout, row)
        }
        None => false,
    }
}

/// The same on a disk in memory.
fn is_taken<R: Threads + Sync>(rt: &R, alloc: Global, bytes: &[u8], row: &Row) -> Option<bool> {
    if bytes.is_empty() {
        return None;
    }
    let account = Account::parse(b"111122223333")?;
    let mut disk = MemStation::new(alloc, MemPlan::empty(alloc)).ok()?;
    Some(is_read_back(rt, alloc, &mut disk, &account, bytes, row))
}

const SMALL: Row = Row {
    linear: "ae448ac86c4e8e4dec645729708ef41873ae79c6dff84eff73360989487f08e5",
    leaves: &["ae448ac86c4e8e4dec645729708ef41873ae79c6dff84eff73360989487f08e5"],
    count: 1,
    at: 0,
    bytes: b"another",
};

/// `abcdefg` 149,797 times: 1,048,579 bytes.
const LARGE: Row = Row {
    linear: "a72d15b41779e905d6ce5118d1396e9ba06b9298db4b44f3c1b48c7ffb2f2f4d",
    leaves: &[
        "f7836b41a30a7ec22dc11632254ec86d061ca9fe5055d7eb1d145a3d29dacded",
        "d4ffe8e9ee0b48eba716706123a7187f32eae3bdcb0e7763e41e533267bd8a53",
    ],
    count: 2,
    at: 1_048_573,
    bytes: b"bcdefg",
};

#[test]
fn a_body_is_taken_and_read_back(rt: HostRuntime) -> Result<(), Memory> {
    let text = "abcdefg".repeat(rt.alloc(), 149_797)?;
    assert!(rt; is_taken(&rt, rt.alloc(), b"another", &SMALL) == Some(true));
    assert!(rt; is_taken(&rt, rt.alloc(), text.as_bytes(), &LARGE) == Some(true));
    Ok(())
}
