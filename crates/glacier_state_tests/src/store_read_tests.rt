// What is read of an archive, and of the output of a job that is done, out of a store that is opened.
// The records are by Python's struct from docs/rules/records.md.
ghost use Rattle.std.specs.Prelude.{◌≡◌, false, true};

use crate::ground::{Ground, ground_of};
use crate::job_calls::is_ordered;
use crate::store_archive_tests::{BEGINNING, UPLOAD};
use glacier_base::{List, Text};
use glacier_disk::{Disk, MemPlan, MemStation};
use glacier_machine::{Stretch, job_output};
use glacier_store::Store;
use std::alloc::Global;
use std::test::Fail;

/// The job that retrieves it, and the time 300 seconds on.
const RETRIEVAL: &[u8] = b"\x01\0\0\0E\x0a111122223333\0\0\0\0O\xbe\xd1U\x0cexamplevault\
    \0\0\0\0\0\0\0\0\0\0\0\0\0\0\0\0\0\0\0\0\0\x10\0\x03\0\0\0\0\0O\xbe\xd2\x81\0\0\
    \x01\0\0\0\x15\x01111122223333\0\0\0\0O\xbe\xd2\x81";

/// A disk that has these, and the bytes of the archive.
fn plan_of(alloc: Global, bytes: &[u8]) -> Option<MemPlan> {
    let left = [BEGINNING, UPLOAD, RETRIEVAL, b"\0"].concat(alloc).ok()?;
    let lead = Text::of(alloc, b"\0").ok()?;
    let left = Text::of(alloc, left.as_slice()).ok()?;
    let blobs = Text::of(alloc, bytes).ok()?;
    Some(MemPlan {
        areas: [lead, left, Text::new(alloc), blobs],
        connections: List::new(alloc),
        pieces: List::new(alloc),
        moments: List::new(alloc),
        faults: List::new(alloc),
    })
}

/// Which bytes of an output are asked for, from which of these on it is read, how many bytes have
/// room, and what is read.
type Row = (Option<(u64, u64)>, u64, usize, &'static [u8]);

/// All of it: its beginning, its end, and nothing behind it; and four bytes, from the second on.
static OUTPUTS: [Row; 4] = [
    (None, 0, 3, b"abc"),
    (None, 1_048_573, 8, b"bcdefg"),
    (None, 1_048_579, 8, b""),
    (Some((1_048_574, 1_048_577)), 1, 8, b"def"),
];

/// The stretch that answers for the output of job 1.
fn stretch_of<D: Disk>(
    alloc: Global,
    disk: &mut D,
    ground: &Ground,
    range: Option<(u64, u64)>,
) -> Option<Stretch>
    requires { (D.told disk.old).opened ≡ true }
    ensures { (D.told disk.new).opened ≡ true }
{
    if !is_ordered(range) {
        return None;
    }
    let Ok(store) = Store::open(alloc, disk) else {
        return None;
    };
    let Store { mut accounts, .. } = store;
    let state = accounts.take(alloc, &ground.rules.account);
    match job_output(alloc, &state, &ground.vault, 1, range, b"") {
        Ok(answer) => answer.stretch,
        Err(_) => None,
    }
}

/// Whether this is what is read of a stretch.
fn is_read<D: Disk>(
    disk: &mut D,
    store: &Store,
    ground: &Ground,
    stretch: &Stretch,
    row: &Row,
) -> bool
    requires { (D.told disk.old).opened ≡ true }
    ensures { (D.told disk.new).opened ≡ true }
{
    let (_, at, room, bytes) = *row;
    if room > 8 {
        return false;
    }
    let mut into = [0; 8];
    match store.read_output(disk, &ground.rules.account, stretch, at, &mut into[..room]) {
        Ok(count) => &into[..count] == bytes,
        Err(_) => false,
    }
}

/// Whether the row is read of the output that it asks for.
fn is_answered<D: Disk>(
    alloc: Global,
    disk: &mut D,
    store: &Store,
    ground: &Ground,
    row: &Row,
) -> bool
    requires { (D.told disk.old).opened ≡ true }
    ensures { (D.told disk.new).opened ≡ true }
{
    match stretch_of(alloc, disk, ground, row.0) {
        Some(stretch) => is_read(disk, store, ground, &stretch, row),
        None => false,
    }
}

/// How many rows are read so, before the first that isn't.
fn answered<D: Disk>(
    alloc: Global,
    disk: &mut D,
    store: &Store,
    ground: &Ground,
    rows: &[Row],
) -> usize
    requires { (D.told disk.old).opened ≡ true }
    ensures { (D.told disk.new).opened ≡ true }
{
    for i in 0..rows.len() {
        if !is_answered(alloc, disk, store, ground, &rows[i]) {
            return i;
        }
    }
    rows.len()
}

/// Whether the bytes of blob 0 are read over the end of its first block.
fn is_read_across<D: Disk>(disk: &mut D, store: &Store, ground: &Ground) -> bool
    requires { (D.told disk.old).opened ≡ true }
{
    let mut into = [0; 3];
    let read = store.read_body(disk, &ground.rules.account, &[0], 1_048_575, &mut into);
    read.is_ok() && &into == b"def"
}

/// How many rows are read so, if the blob is.
fn read<D: Disk>(alloc: Global, disk: &mut D, ground: &Ground) -> Option<usize>
    requires { (D.told disk.old).opened ≡ false }
{
    if disk.open("here").is_err() {
        return None;
    }
    let Ok(store) = Store::open(alloc, disk) else {
        return None;
    };
    let count = answered(alloc, disk, &store, ground, &OUTPUTS);
    if is_read_across(disk, &store, ground) {
        Some(count)
    } else {
        None
    }
}

/// The same on a disk in memory.
fn read_in_memory(alloc: Global, bytes: &[u8]) -> Option<usize> {
    let ground = ground_of(1024)?;
    let mut station = MemStation::new(alloc, plan_of(alloc, bytes)?).ok()?;
    read(alloc, &mut station, &ground)
}

#[test]
fn the_output_of_a_job_is_read(rt: HostRuntime) -> Result<(), Fail> {
    let text = "abcdefg".repeat(rt.alloc(), 149_797)?;
    assert_eq!(rt; read_in_memory(rt.alloc(), text.as_bytes()), Some(4));
    Ok(())
}
