// What an append and a replacement of a list leave on a disk in memory, and what a stop in them leaves.
ghost use Rattle.std.specs.Prelude.{◌≡◌, ◌≤◌, false, length, true};
ghost use Rattle.glacier_disk.specs.Memory.{calls_of};

use crate::journal_tests::{Listed, opens_with};
use crate::plans::{Image, disk_plan, plan_of};
use glacier_base::Text;
use glacier_disk::{Area, Disk, MemStation, Torn};
use glacier_journal::{Frame, Journal};
use std::alloc::Global;

/// Opens the folder and the list, and adds a payload. It answers false where a call failed.
fn append<D: Disk>(alloc: Global, disk: &mut D) -> bool
    requires { (D.told disk.old).opened ≡ false }
{
    if disk.open("here").is_err() {
        return false;
    }
    let Ok(frame) = Frame::of(alloc, b"new") else {
        return false;
    };
    match Journal::open(alloc, disk) {
        Ok((journal, _)) => journal.append(disk, &frame).is_ok(),
        Err(_) => false,
    }
}

/// Replaces the list by one of this payload alone.
fn replace_by<D: Disk>(journal: Journal, disk: &mut D, frame: &Frame) -> bool
    requires { (D.told disk.old).opened ≡ true }
{
    match journal.begin_replace(disk) {
        Ok(swap) => match swap.add(disk, frame) {
            Ok(swap) => swap.finish(disk).is_ok(),
            Err(_) => false,
        },
        Err(_) => false,
    }
}

/// The same of a list that is opened.
fn replace<D: Disk>(alloc: Global, disk: &mut D) -> bool
    requires { (D.told disk.old).opened ≡ false }
{
    if disk.open("here").is_err() {
        return false;
    }
    let Ok(frame) = Frame::of(alloc, b"new") else {
        return false;
    };
    match Journal::open(alloc, disk) {
        Ok((journal, _)) => replace_by(journal, disk, &frame),
        Err(_) => false,
    }
}

/// A list of one payload, and something in Right that no list picks.
const OLD: Image = (
    b"\0",
    b"glacier journal1\x01\0\0\0\x03old\0",
    b"of former times",
);

const OLD_LIST: Listed = (Area::Left, 25, "old,");

const APPENDED: Listed = (Area::Left, 33, "old,new,");

const REPLACED: Listed = (Area::Right, 25, "new,");

/// How many calls before the end a stop comes, and whether it leaves the new list: as last synced,
/// as written, and with the byte 0 and the byte 7 for what isn't stable. An append and a
/// replacement both end with a write of one byte, which counts, and a sync.
const STOPS: [(u64, [bool; 4]); 6] = [
    (5, [false, false, false, false]),
    (4, [false, false, false, false]),
    (3, [false, false, false, false]),
    (2, [false, false, false, false]),
    (1, [false, true, false, true]),
    (0, [true, true, true, true]),
];

fn reopened(alloc: Global, areas: [Text; 4], listed: &Listed) -> Option<bool> {
    let mut station = MemStation::new(alloc, plan_of(alloc, areas)).ok()?;
    opens_with(alloc, &mut station, listed)
}

/// Whether a stop after so many calls leaves the new list, or else the old one.
fn is_left(
    alloc: Global,
    station: &MemStation,
    calls: u64,
    torn: Torn,
    listed: &Listed,
) -> Option<bool>
    requires { calls ≤ length (calls_of station.now) }
{
    let areas = station.stopped(calls, torn).ok()?;
    reopened(alloc, areas, listed)
}

fn list_of(is_new: bool, listed: &'static Listed) -> &'static Listed {
    if is_new { listed } else { &OLD_LIST }
}

fn agrees(
    alloc: Global,
    station: &MemStation,
    stop: &(u64, [bool; 4]),
    listed: &'static Listed,
) -> Option<bool> {
    let (back, are_new) = *stop;
    if back > station.calls() {
        return Some(false);
    }
    let calls = station.calls() - back;
    Some(
        is_left(
            alloc,
            station,
            calls,
            Torn::Old,
            list_of(are_new[0], listed),
        )? && is_left(
            alloc,
            station,
            calls,
            Torn::New,
            list_of(are_new[1], listed),
        )? && is_left(
            alloc,
            station,
            calls,
            Torn::Junk(0),
            list_of(are_new[2], listed),
        )? && is_left(
            alloc,
            station,
            calls,
            Torn::Junk(7),
            list_of(are_new[3], listed),
        )?,
    )
}

/// Whether each stop of a run leaves what stands with it.
fn all_agree(alloc: Global, station: &MemStation, listed: &'static Listed) -> Option<bool> {
    for stop in &STOPS {
        if !agrees(alloc, station, stop, listed)? {
            return Some(false);
        }
    }
    Some(true)
}

fn is_appended(alloc: Global) -> Option<bool> {
    let mut station = MemStation::new(alloc, disk_plan(alloc, &OLD)?).ok()?;
    let is_done = append(alloc, &mut station);
    Some(is_done && all_agree(alloc, &station, &APPENDED) == Some(true))
}

fn is_replaced(alloc: Global) -> Option<bool> {
    let mut station = MemStation::new(alloc, disk_plan(alloc, &OLD)?).ok()?;
    let is_done = replace(alloc, &mut station);
    Some(is_done && all_agree(alloc, &station, &REPLACED) == Some(true))
}

#[test]
fn a_stop_leaves_the_old_list_or_the_new_one(rt: HostRuntime) {
    assert!(rt; is_appended(rt.alloc()) == Some(true));
    assert!(rt; is_replaced(rt.alloc()) == Some(true));
}
