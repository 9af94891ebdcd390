// A store on a disk in memory: what making one leaves, and what opening finds in an image. The bytes are by hand from docs/rules/journal.md.
ghost use Rattle.std.specs.Prelude.{◌≡◌, IfOk, OnOk, false, true};

use crate::plans::{Image, disk_plan, three_areas};
use glacier_base::{Account, Moment, Region, VaultName};
use glacier_disk::{Area, Disk, MemPlan, MemStation};
use glacier_store::{Store, StoreFault};
use glacier_vault::Rules;
use std::alloc::Global;

const EMPTY: Image = (b"", b"", b"");

pub const CREATED: Image = (b"\0", b"glacier journal1\0", b"");

/// `v` made on Friday, 25 May 2012, 00:24:53 UTC.
pub const WITH_V: Image = (
    b"\0",
    b"glacier journal1\x01\0\0\0\x17\x02111122223333\0\0\0\0\x4f\xbe\xd1\x55\x01v\0",
    b"",
);

/// `v` made and deleted then.
pub const WITHOUT_V: Image = (
    b"\0",
    b"glacier journal1\x01\0\0\0\x17\x02111122223333\0\0\0\0\x4f\xbe\xd1\x55\x01v\
    \x01\0\0\0\x17\x03111122223333\0\0\0\0\x4f\xbe\xd1\x55\x01v\0",
    b"",
);

/// The account, the vault and the reading that all rows are about.
#[derive(Drop)]
pub struct Subject {
    pub rules: Rules,
    pub vault: VaultName,
    pub reading: Moment,
}

pub fn row_subject() -> Option<Subject> {
    let region = Region::parse(b"us-east-1")?;
    let account = Account::parse(b"111122223333")?;
    let vault = VaultName::parse(b"v")?;
    let reading = Moment::new(1_337_905_493)?;
    Some(Subject {
        rules: Rules {
            region,
            account,
            quota: 1024,
            delays: [300, 14_400, 28_800],
        },
        vault,
        reading,
    })
}

/// Whether the vault is there; None where its account isn't.
fn vault_in(store: &Store, subject: &Subject) -> Option<bool> {
    match store.accounts.get(&subject.rules.account) {
        Some(account) => Some(account.vaults.contains(&subject.vault)),
        None => None,
    }
}

/// What opening finds of the vault, or why it doesn't open.
pub fn found<D: Disk>(
    alloc: Global,
    disk: &mut D,
    subject: &Subject,
) -> Result<Option<bool>, StoreFault>
    requires { (D.told disk.old).opened ≡ false }
{
    if disk.open("here").is_err() {
        return Err(StoreFault::Disk);
    }
    match Store::open(alloc, disk) {
        Ok(store) => Ok(vault_in(&store, subject)),
        Err(fault) => Err(fault),
    }
}

/// Images that hold no store, and the first place that keeps them from it: a disk that was never
/// written, a header cut short, no gate, a record cut short, a record of no kind, the same record
/// twice, and another header.
const REFUSED: [(Image, Area, u64); 7] = [
    (EMPTY, Area::Lead, 0),
    ((b"\0", b"glacier journal", b""), Area::Left, 0),
    ((b"\0", b"glacier journal1", b""), Area::Left, 16),
    (
        (b"\0", b"glacier journal1\x01\0\0\0\x05abcd", b""),
        Area::Left,
        16,
    ),
    (
        (b"\0", b"glacier journal1\x01\0\0\0\x01c\0", b""),
        Area::Left,
        16,
    ),
    (TWICE_V, Area::Left, 44),
    ((b"\0", b"Glacier journal1\0", b""), Area::Left, 0),
];

const TWICE_V: Image = (
    b"\0",
    b"glacier journal1\x01\0\0\0\x17\x02111122223333\0\0\0\0\x4f\xbe\xd1\x55\x01v\
    \x01\0\0\0\x17\x02111122223333\0\0\0\0\x4f\xbe\xd1\x55\x01v\0",
    b"",
);

fn is_refused(alloc: Global, image: &Image, area: Area, at: u64) -> Option<bool> {
    let subject = row_subject()?;
    let mut station = MemStation::new(alloc, disk_plan(alloc, image)?).ok()?;
    let found = found(alloc, &mut station, &subject);
    Some(found == Err(StoreFault::NotAJournal { area, at }))
}

#[test]
fn what_is_no_store_is_refused_at_its_first_place(rt: HostRuntime) {
    for (image, area, at) in REFUSED {
        assert!(rt;
            is_refused(rt.alloc(), &image, area, at) == Some(true),
            "{at}"
        );
    }
}

/// Images, how many bytes `ff` stand behind them in Left, and whether the vault is found in them; None
/// where its account isn't there either: a store just made, the vault, the same behind another gate
/// and before bytes that mean nothing, its record behind a closed gate, and a vault that was deleted.
const FOUND: [(Image, usize, Option<bool>); 6] = [
    (CREATED, 0, None),
    (WITH_V, 0, Some(true)),
    (WITH_V, 1000, Some(true)),
    (
        (
            b"\0",
            b"glacier journal1\x07\0\0\0\x17\x02111122223333\0\0\0\0\x4f\xbe\xd1\x55\x01v\0",
            b"",
        ),
        0,
        Some(true),
    ),
    (
        (
            b"\0",
            b"glacier journal1\0\0\0\0\x17\x02111122223333\0\0\0\0\x4f\xbe\xd1\x55\x01v\0",
            b"",
        ),
        0,
        None,
    ),
    (WITHOUT_V, 0, Some(false)),
];

fn tailed(alloc: Global, image: &Image, tail: usize) -> Option<MemPlan> {
    let (lead, left, right) = *image;
    let tail = b"\xff".repeat(alloc, tail).ok()?;
    let left = [left, tail.as_slice()].concat(alloc).ok()?;
    three_areas(alloc, lead, left.as_slice(), right)
}

fn is_found(alloc: Global, image: &Image, tail: usize, there: Option<bool>) -> Option<bool> {
    let subject = row_subject()?;
    let mut station = MemStation::new(alloc, tailed(alloc, image, tail)?).ok()?;
    let found = found(alloc, &mut station, &subject);
    Some(found == Ok(there))
}

#[test]
fn a_store_is_opened(rt: HostRuntime) {
    for (image, tail, there) in FOUND {
        assert!(rt;
            is_found(rt.alloc(), &image, tail, there) == Some(true),
            "{tail}"
        );
    }
}

/// Whether a store that is made on empty areas leaves its header alone.
fn is_made(alloc: Global) -> Option<bool> {
    let mut station = MemStation::new(alloc, disk_plan(alloc, &EMPTY)?).ok()?;
    let made = made(alloc, &mut station);
    Some(made == Ok(()) && holds(&station, &CREATED))
}

#[test]
fn a_store_that_was_made_has_its_header_alone(rt: HostRuntime) {
    assert!(rt; is_made(rt.alloc()) == Some(true));
}

/// Areas of which one isn't empty, and the first one with its size.
const FULL: [(Image, Area, u64); 4] = [
    (WITH_V, Area::Lead, 1),
    ((b"", b"glacier journal1\0", b""), Area::Left, 17),
    ((b"", b"", b"x"), Area::Right, 1),
    ((b"", b"ab", b"x"), Area::Left, 2),
];

fn made<D: Disk>(alloc: Global, disk: &mut D) -> Result<(), StoreFault>
    requires { (D.told disk.old).opened ≡ false }
{
    if disk.open("here").is_err() {
        return Err(StoreFault::Disk);
    }
    match Store::create(alloc, disk) {
        Ok(_) => Ok(()),
        Err(fault) => Err(fault),
    }
}

fn is_full(alloc: Global, image: &Image, area: Area, size: u64) -> Option<bool> {
    let mut station = MemStation::new(alloc, disk_plan(alloc, image)?).ok()?;
    let made = made(alloc, &mut station);
    let is_same = station.area(Area::Left) == image.1;
    Some(is_same && made == Err(StoreFault::NotEmpty { area, size }))
}

#[test]
fn a_store_is_made_on_empty_areas_alone(rt: HostRuntime) {
    for (image, area, size) in FULL {
        assert!(rt;
            is_full(rt.alloc(), &image, area, size) == Some(true),
            "{size}"
        );
    }
}

/// Whether the areas are these, and Blobs is empty.
pub fn holds(station: &MemStation, image: &Image) -> bool {
    let (lead, left, right) = *image;
    station.area(Area::Lead) == lead
        && station.area(Area::Left) == left
        && station.area(Area::Right) == right
        && station.area(Area::Blobs).is_empty()
}
