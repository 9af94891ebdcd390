// Lists of payloads on a disk in memory: what is found in an image. The bytes are by hand from docs/rules/journal.md.
ghost use Rattle.std.specs.Prelude.{◌≡◌, IfOk, OnOk, false, true};

use crate::plans::{Image, disk_plan};
use glacier_base::Text;
use glacier_disk::{Area, Disk, MemStation};
use glacier_journal::{Journal, JournalFault, Payload};
use std::alloc::Global;

/// The area and the end of a list, and its payloads with a comma behind each.
pub type Listed = (Area, u64, &'static str);

fn joined(alloc: Global, payloads: &[Payload]) -> Option<Text> {
    let mut text = Text::new(alloc);
    for payload in payloads {
        text.extend_from_slice(payload.bytes.bytes()).ok()?;
        text.extend_from_slice(b",").ok()?;
    }
    Some(text)
}

/// Whether this list stands on the disk.
fn is_listed<D: Disk>(alloc: Global, disk: &mut D, listed: &Listed) -> Option<bool>
    requires { (D.told disk.old).opened ≡ true }
{
    let (area, length, text) = *listed;
    match Journal::open(alloc, disk) {
        Ok((journal, payloads)) => {
            let found = joined(alloc, payloads.as_slice())?;
            Some(
                journal.area() == area
                    && journal.length() == length
                    && found.bytes() == text.as_bytes(),
            )
        }
        Err(_) => Some(false),
    }
}

pub fn opens_with<D: Disk>(alloc: Global, disk: &mut D, listed: &Listed) -> Option<bool>
    requires { (D.told disk.old).opened ≡ false }
{
    match disk.open("here") {
        Ok(()) => is_listed(alloc, disk, listed),
        Err(_) => None,
    }
}

/// Why no list stands on the disk.
fn fault_of<D: Disk>(alloc: Global, disk: &mut D) -> Option<JournalFault>
    requires { (D.told disk.old).opened ≡ false }
{
    if disk.open("here").is_err() {
        return None;
    }
    match Journal::open(alloc, disk) {
        Ok(_) => None,
        Err(fault) => Some(fault),
    }
}

/// Images, and the lists that stand in them: none, one payload, the same behind another gate, a
/// record whose gate is closed, bytes behind the closed gate, and a list of two in Right.
const LISTS: [(Image, Listed); 6] = [
    ((b"\0", b"glacier journal1\0", b""), (Area::Left, 17, "")),
    (
        (b"\0", b"glacier journal1\x01\0\0\0\x01a\0", b""),
        (Area::Left, 23, "a,"),
    ),
    (
        (b"\0", b"glacier journal1\x07\0\0\0\x01a\0", b""),
        (Area::Left, 23, "a,"),
    ),
    (
        (b"\0", b"glacier journal1\0\0\0\0\x01a\0", b""),
        (Area::Left, 17, ""),
    ),
    (
        (b"\0", b"glacier journal1\x01\0\0\0\x01a\0\xff\xff", b""),
        (Area::Left, 23, "a,"),
    ),
    (
        (
            b"\x02",
            b"",
            b"glacier journal1\x01\0\0\0\0\x01\0\0\0\x02bc\0",
        ),
        (Area::Right, 29, ",bc,"),
    ),
];

fn has_list(alloc: Global, image: &Image, listed: &Listed) -> Option<bool> {
    let mut station = MemStation::new(alloc, disk_plan(alloc, image)?).ok()?;
    opens_with(alloc, &mut station, listed)
}

#[test]
fn a_list_is_read(rt: HostRuntime) {
    for (image, listed) in &LISTS {
        assert!(rt;
            has_list(rt.alloc(), image, listed) == Some(true),
            "{}",
            listed.1
        );
    }
}

/// Images in which no list stands, and the first place that keeps them from it: no Lead, a header
/// cut short, another header, no gate, a record cut short, one without a gate behind it, an open
/// gate at the end, a payload longer than any, and an area that is picked and empty.
const BROKEN: [(Image, Area, u64); 9] = [
    ((b"", b"", b""), Area::Lead, 0),
    ((b"\0", b"glacier journal", b""), Area::Left, 0),
    ((b"\0", b"glacier journal2\0", b""), Area::Left, 0),
    ((b"\0", b"glacier journal1", b""), Area::Left, 16),
    (
        (b"\0", b"glacier journal1\x01\0\0\0\x05abcd", b""),
        Area::Left,
        16,
    ),
    (
        (b"\0", b"glacier journal1\x01\0\0\0\x01a", b""),
        Area::Left,
        16,
    ),
    (
        (b"\0", b"glacier journal1\x01\0\0\0\x01a\x01", b""),
        Area::Left,
        22,
    ),
    (
        (b"\0", b"glacier journal1\x01\x04\0\0\x01a\0", b""),
        Area::Left,
        16,
    ),
    ((b"\x01", b"glacier journal1\0", b""), Area::Right, 0),
];

fn breaks(alloc: Global, image: &Image, area: Area, at: u64) -> Option<bool> {
    let mut station = MemStation::new(alloc, disk_plan(alloc, image)?).ok()?;
    Some(fault_of(alloc, &mut station) == Some(JournalFault::NotAJournal { area, at }))
}

#[test]
fn the_first_broken_place_is_named(rt: HostRuntime) {
    for (image, area, at) in BROKEN {
        assert!(rt; breaks(rt.alloc(), &image, area, at) == Some(true), "{at}");
    }
}
