// What a stop may leave after each call of a short run, worked out by hand from the rules of the
// disk.
ghost use Rattle.std.specs.Prelude.{◌≡◌, ◌≤◌, false, length, true};
ghost use Rattle.glacier_disk.specs.Memory.{calls_of};

use crate::disk_tests::plan;
use glacier_base::Text;
use glacier_disk::{Area, Disk, MemStation, Torn};
use std::alloc::Global;

/// The first four of nine calls, of which seven change what a stop may leave.
fn write_twice<D: Disk>(disk: &mut D) -> bool
    requires { (D.told disk.old).opened ≡ false }
    ensures { result ≡ true → (D.told disk.new).opened ≡ true }
{
    disk.open("here").is_ok()
        && disk.write_at(Area::Left, 2, b"XY").is_ok()
        && disk.sync().is_ok()
        && disk.write_at(Area::Left, 6, b"Z").is_ok()
}

/// The other five.
fn cut_and_write<D: Disk>(disk: &mut D) -> bool
    requires { (D.told disk.old).opened ≡ true }
{
    matches!(disk.size(Area::Left), Ok(3..))
        && disk.cut(Area::Left, 3).is_ok()
        && disk.write_at(Area::Left, 4, b"q").is_ok()
        && disk.write_at(Area::Blobs, 0, b"p").is_ok()
        && disk.sync().is_ok()
}

fn change<D: Disk>(disk: &mut D) -> bool
    requires { (D.told disk.old).opened ≡ false }
{
    write_twice(disk) && cut_and_write(disk)
}

/// A stop after so many calls: Left and Blobs as last synced, as written, and with `#` for what
/// isn't stable.
type Stop = (u64, [&'static str; 3], [&'static str; 3]);

const STOPS: [Stop; 10] = [
    (0, ["abcd", "abcd", "abcd"], ["", "", ""]),
    (1, ["abcd", "abcd", "abcd"], ["", "", ""]),
    (2, ["abcd", "abXY", "ab##"], ["", "", ""]),
    (3, ["abXY", "abXY", "abXY"], ["", "", ""]),
    (4, ["abXY", "abXY\0\0Z", "abXY###"], ["", "", ""]),
    (5, ["abXY", "abXY\0\0Z", "abXY###"], ["", "", ""]),
    (6, ["abXY", "abX", "abX"], ["", "", ""]),
    (7, ["abXY", "abX\0q", "abX##"], ["", "", ""]),
    (8, ["abXY", "abX\0q", "abX##"], ["", "p", "#"]),
    (9, ["abX\0q", "abX\0q", "abX\0q"], ["p", "p", "p"]),
];

/// Whether these bytes are in Left and in Blobs, and none elsewhere.
fn are(areas: &[Text; 4], left: &str, blobs: &str) -> bool {
    areas[0].bytes().is_empty()
        && areas[1].bytes() == left.as_bytes()
        && areas[2].bytes().is_empty()
        && areas[3].bytes() == blobs.as_bytes()
}

/// Whether a stop after so many calls leaves these bytes.
fn leaves(station: &MemStation, calls: u64, torn: Torn, left: &str, blobs: &str) -> Option<bool>
    requires { calls ≤ length (calls_of station.now) }
{
    let areas = station.stopped(calls, torn).ok()?;
    Some(are(&areas, left, blobs))
}

fn agrees(station: &MemStation, stop: &Stop) -> Option<bool> {
    let (calls, left, blobs) = *stop;
    if calls > station.calls() {
        return Some(false);
    }
    Some(
        leaves(station, calls, Torn::Old, left[0], blobs[0])?
            && leaves(station, calls, Torn::New, left[1], blobs[1])?
            && leaves(station, calls, Torn::Junk(b'#'), left[2], blobs[2])?,
    )
}

/// The first of the stops that leaves something else.
fn first_wrong(station: &MemStation) -> Option<Option<u64>> {
    for stop in &STOPS {
        if !agrees(station, stop)? {
            return Some(Some(stop.0));
        }
    }
    Some(None)
}

/// Whether the run makes nine calls, and each of the stops leaves what stands with it.
fn is_left(alloc: Global) -> Option<bool> {
    let mut station = MemStation::new(alloc, plan(alloc, &[])?).ok()?;
    let is_changed = change(&mut station);
    Some(is_changed && station.calls() == 9 && first_wrong(&station) == Some(None))
}

#[test]
fn a_stop_leaves_what_no_sync_covers(rt: HostRuntime) {
    assert!(rt; is_left(rt.alloc()) == Some(true));
}
