// Records, written and read back: a change of a kind that was added late, and a thing that a state
// holds. The bytes are by Python's struct, from the rules in docs/rules/records.md; the account is
// 123456789012 and the moment 1.
use glacier_base::{Account, Description, Digest, List, Memory, Moment, Text, VaultName};
use glacier_records::{Item, Kept, Record, StageName, read_record, write_event, write_kept};
use glacier_vault::{Event, Tier, Work};
use std::alloc::Global;

/// A retrieval of the bytes 0 to 257 of archive 7 in the vault `v`, ready at 301.
const RETRIEVAL: &[u8] =
    b"\x0a123456789012\0\0\0\0\0\0\0\x01\x01v\0\0\0\0\0\0\0\x07\0\0\0\0\0\0\0\0\0\0\0\0\0\
    \0\x01\x02\0\0\0\0\0\0\0\x01-\0\x01d";

/// Job 7 of the vault `v`, a retrieval of all 3 bytes of archive 9 that is done.
const JOB: &[u8] =
    b"&123456789012\0\0\0\0\0\0\0\x01\x01v\0\0\0\0\0\0\0\x07\0\0\0\0\0\0\x01-\x01\x02\0\
    \x01d\0\0\0\0\0\0\0\0\x09\0\0\0\0\0\0\0\x03\x01\x02\x03\x04\x05\x06\x07\x08\x09\x0a\
    \x0b\x0c\x0d\x0e\x0f\x10\x11\x12\x13\x14\x15\x16\x17\x18\x19\x1a\x1b\x1c\x1d\x1e\x1f\
    \x20\0\0\0\0\0\0\0\0\0\0\0\0\0\0\0\x03\x01\x01\x02\x03\x04\x05\x06\x07\x08\x09\x0a\x0b\
    \x0c\x0d\x0e\x0f\x10\x11\x12\x13\x14\x15\x16\x17\x18\x19\x1a\x1b\x1c\x1d\x1e\x1f\x20";

/// An upload of 3 bytes to the vault `v`, in block 5.
const UPLOAD: &[u8] =
    b"\x04123456789012\0\0\0\0\0\0\0\x01\x01v\0\0\0\0\0\0\0\x03\0\x01d\0\0\0\x01\x01\x02\
    \x03\x04\x05\x06\x07\x08\x09\x0a\x0b\x0c\x0d\x0e\x0f\x10\x11\x12\x13\x14\x15\x16\x17\
    \x18\x19\x1a\x1b\x1c\x1d\x1e\x1f\x20\0\0\0\x01\0\0\0\x05\0\0\0\x01";

/// The held archive 7 of the vault `v`, whose blob 8 is block 5.
const HELD: &[u8] =
    b"\x22123456789012\0\0\0\0\0\0\0\x01\x01v\0\0\0\0\0\0\0\x07\x01\0\0\0\0\0\0\0\x03\0\
    \x01d\0\0\0\x01\x01\x02\x03\x04\x05\x06\x07\x08\x09\x0a\x0b\x0c\x0d\x0e\x0f\x10\x11\
    \x12\x13\x14\x15\x16\x17\x18\x19\x1a\x1b\x1c\x1d\x1e\x1f\x20\0\0\0\x01\0\0\0\0\0\0\0\
    \x08\0\0\0\x01\0\0\0\x05\0\0\0\x01";

const DIGEST: Digest = Digest([
    1, 2, 3, 4, 5, 6, 7, 8, 9, 10, 11, 12, 13, 14, 15, 16, 17, 18, 19, 20, 21, 22, 23, 24, 25, 26,
    27, 28, 29, 30, 31, 32,
]);

/// What all records of the tests have.
#[derive(Drop)]
struct Common {
    account: Account,
    moment: Moment,
    name: VaultName,
    ready: Moment,
    description: Description,
}

fn values() -> Option<Common> {
    Some(Common {
        account: Account::parse(b"123456789012")?,
        moment: Moment::new(1)?,
        name: VaultName::parse(b"v")?,
        ready: Moment::new(301)?,
        description: Description::parse(b"d")?,
    })
}

fn retrieval(alloc: Global, common: &Common) -> Result<Text, Memory> {
    let event = Event::BeginRetrieval {
        name: common.name,
        archive: 7,
        first: 0,
        end: 258,
        tier: Tier::Expedited,
        ready: common.ready,
        description: common.description,
    };
    write_event(
        alloc,
        &common.account,
        common.moment,
        &event,
        &List::new(alloc),
    )
}

fn job(alloc: Global, common: &Common) -> Result<Text, Memory> {
    let kept = Kept::Job {
        name: common.name,
        number: 7,
        ready: common.ready,
        tier: Tier::Standard,
        stage: StageName::Done,
        description: common.description,
        work: Work::Archive {
            archive: 9,
            size: 3,
            tree: DIGEST,
            first: 0,
            end: 3,
            range: Some(DIGEST),
        },
    };
    write_kept(alloc, &common.account, common.moment, &kept)
}

/// What a record was read as: numbers in the order of its fields.
#[derive(Clone, Copy, PartialEq)]
enum Told {
    /// The archive, the first byte and the one behind the last, and when the job is ready.
    Retrieval(u64, u64, u64, u64),
    /// The number, when the job is ready, the archive, its size and the end of the range.
    Job(u64, u64, u64, u64, u64),
    /// The size, and the first block and the number of blocks of the first run.
    Upload(u64, u32, u32),
    /// The number, the size, the blob's number, and the first block of its first run.
    Held(u64, u64, u64, u32),
    Other,
    /// No record.
    None,
}

fn event_told(event: &Event, runs: &[glacier_extents::Run]) -> Told {
    match (event, runs) {
        (
            Event::BeginRetrieval {
                archive,
                first,
                end,
                tier: Tier::Expedited,
                ready,
                ..
            },
            [],
        ) => Told::Retrieval(*archive, *first, *end, ready.seconds()),
        (Event::Upload { size, leaves, .. }, [run]) if leaves.as_slice() == [DIGEST].as_slice() => {
            Told::Upload(*size, run.first, run.count)
        }
        _ => Told::Other,
    }
}

fn kept_told(kept: &Kept) -> Told {
    match kept {
        Kept::Job {
            number,
            ready,
            tier: Tier::Standard,
            stage: StageName::Done,
            work: Work::Archive {
                archive,
                size,
                end,
                range: Some(range),
                ..
            },
            ..
        } if *range == DIGEST => Told::Job(*number, ready.seconds(), *archive, *size, *end),
        Kept::Archive {
            number,
            held: true,
            size,
            blobs,
            ..
        } => match blobs.as_slice() {
            [blob] => match blob.runs.as_slice() {
                [run] => Told::Held(*number, *size, blob.number, run.first),
                _ => Told::Other,
            },
            _ => Told::Other,
        },
        _ => Told::Other,
    }
}

fn item_told(record: &Record) -> Told {
    match &record.item {
        Item::Event(event, runs) => event_told(event, runs.as_slice()),
        Item::Kept(kept) => kept_told(kept),
    }
}

/// What the bytes are read as, where the record is of the account and the moment.
fn told_of(alloc: Global, bytes: &[u8]) -> Result<Told, Memory> {
    match &read_record(alloc, bytes)? {
        Some(record)
            if record.account.bytes() == b"123456789012".as_slice()
                && record.moment.seconds() == 1 => { Ok(item_told(record)) }
        Some(_) => Ok(Told::Other),
        None => Ok(Told::None),
    }
}

const RECORDS: [(&[u8], Told); 4] = [
    (RETRIEVAL, Told::Retrieval(7, 0, 258, 301)),
    (JOB, Told::Job(7, 301, 9, 3, 3)),
    (UPLOAD, Told::Upload(3, 5, 1)),
    (HELD, Told::Held(7, 3, 8, 5)),
];

/// Whether the bytes are read so, with their last byte, and as no record without it.
fn is_read(alloc: Global, bytes: &[u8], told: Told) -> Result<bool, Memory> {
    let Some((_, front)) = bytes.split_last() else {
        return Ok(false);
    };
    Ok(told_of(alloc, bytes)? == told && told_of(alloc, front)? == Told::None)
}

#[test]
fn records_are_written(rt: HostRuntime) -> Result<(), Memory> {
    let alloc = rt.alloc();
    let common = values().expect(&rt, "values");
    let text = retrieval(alloc, &common)?;
    assert!(rt; text.bytes() == RETRIEVAL);
    let text = job(alloc, &common)?;
    assert!(rt; text.bytes() == JOB);
    Ok(())
}

#[test]
fn records_are_read(rt: HostRuntime) -> Result<(), Memory> {
    for (bytes, told) in &RECORDS {
        assert!(rt; is_read(rt.alloc(), bytes, *told)?, "kind {}", bytes.len());
    }
    Ok(())
}
