// A snapshot of one account, put back item by item. The records are by Python's struct, from the rules
// in docs/rules/records.md; what they make is by hand, from docs/rules/snapshots.md.
ghost use Rattle.std.specs.Prelude.{OnOk};
ghost use Rattle.glacier_vault.specs.Lawful.{IsLawful};

use glacier_base::{Memory, VaultName};
use glacier_records::{Item, read_record};
use glacier_restore::restore;
use glacier_vault::{AccountState, Stage, VaultState};
use std::alloc::Global;

/// The account: its last moment is 1000, its counter 100.
const ACCOUNT: &[u8] = b" 123456789012\0\0\0\0\0\0\x03\xe8\0\0\0\0\0\0\0d";

/// The vault `v`, made at 900.
const VAULT: &[u8] = b"!123456789012\0\0\0\0\0\0\x03\x84\x01v";

/// Archive 1 of 3 bytes, made at 910, whose blob is 2.
const LIVE: &[u8] =
    b"\"123456789012\0\0\0\0\0\0\x03\x8e\x01v\0\0\0\0\0\0\0\x01\0\0\0\0\0\0\0\0\x03\0\x01d\0\0\0\
    \x01\x01\x02\x03\x04\x05\x06\x07\x08\x09\x0a\x0b\x0c\x0d\x0e\x0f\x10\x11\x12\x13\x14\x15\x16\
    \x17\x18\x19\x1a\x1b\x1c\x1d\x1e\x1f \0\0\0\x01\0\0\0\0\0\0\0\x02\0\0\0\x01\0\0\0\x05\0\0\0\
    \x01";

/// The held archive 3 of 1 MiB and a byte, whose blob is 4.
const HELD: &[u8] =
    b"\"123456789012\0\0\0\0\0\0\x03\x98\x01v\0\0\0\0\0\0\0\x03\x01\0\0\0\0\0\x10\0\x01\0\0\0\0\0\
    \x02\x01\x02\x03\x04\x05\x06\x07\x08\x09\x0a\x0b\x0c\x0d\x0e\x0f\x10\x11\x12\x13\x14\x15\x16\
    \x17\x18\x19\x1a\x1b\x1c\x1d\x1e\x1f \x01\x02\x03\x04\x05\x06\x07\x08\x09\x0a\x0b\x0c\x0d\
    \x0e\x0f\x10\x11\x12\x13\x14\x15\x16\x17\x18\x19\x1a\x1b\x1c\x1d\x1e\x1f \0\0\0\x01\0\0\0\0\
    \0\0\0\x04\0\0\0\x01\0\0\0\x06\0\0\0\x02";

/// The open upload 6, whose parts have 1 MiB.
const UPLOAD: &[u8] =
    b"#123456789012\0\0\0\0\0\0\x03\xa2\x01v\0\0\0\0\0\0\0\x06\0\0\0\0\0\x10\0\0\0\x01u";

/// Its part 2, of 5 bytes, whose blob is 7.
const PART: &[u8] =
    b"$123456789012\0\0\0\0\0\0\0\0\x01v\0\0\0\0\0\0\0\x06\0\0\0\x02\0\0\0\0\0\0\0\x05\0\0\0\0\0\0\
    \0\x07\0\0\0\x01\x01\x02\x03\x04\x05\x06\x07\x08\x09\x0a\x0b\x0c\x0d\x0e\x0f\x10\x11\x12\x13\
    \x14\x15\x16\x17\x18\x19\x1a\x1b\x1c\x1d\x1e\x1f \0\0\0\x01\0\0\0\x08\0\0\0\x01";

/// The upload 8 that was finished at 950 as archive 1.
const FINISHED: &[u8] =
    b"%123456789012\0\0\0\0\0\0\x03\xb6\x01v\0\0\0\0\0\0\0\x08\0\0\0\0\0\0\0\x03\x01\x02\x03\x04\
    \x05\x06\x07\x08\x09\x0a\x0b\x0c\x0d\x0e\x0f\x10\x11\x12\x13\x14\x15\x16\x17\x18\x19\x1a\x1b\
    \x1c\x1d\x1e\x1f \0\0\0\0\0\0\0\x01";

/// Job 9, a retrieval of all of archive 3 that is done, ready at 960.
const RETRIEVAL: &[u8] =
    b"&123456789012\0\0\0\0\0\0\x03\xbb\x01v\0\0\0\0\0\0\0\x09\0\0\0\0\0\0\x03\xc0\x01\x02\0\0\0\0\
    \0\0\0\0\0\0\x03\0\0\0\0\0\x10\0\x01\x01\x02\x03\x04\x05\x06\x07\x08\x09\x0a\x0b\x0c\x0d\x0e\
    \x0f\x10\x11\x12\x13\x14\x15\x16\x17\x18\x19\x1a\x1b\x1c\x1d\x1e\x1f \0\0\0\0\0\0\0\0\0\0\0\
    \0\0\x10\0\x01\0";

/// Job 10, an inventory that is done, ready at 970.
const INVENTORY: &[u8] =
    b"&123456789012\0\0\0\0\0\0\x03\xc5\x01v\0\0\0\0\0\0\0\x0a\0\0\0\0\0\0\x03\xca\0\x02\0\0\x01\0";

/// Its line, of archive 1.
const LINE: &[u8] =
    b"'123456789012\0\0\0\0\0\0\0\0\x01v\0\0\0\0\0\0\0\x0a\0\0\0\0\0\0\0\x01\0\0\0\0\0\0\0\x03\0\0\
    \0\0\0\0\x03\x8e\0\x01d\x01\x02\x03\x04\x05\x06\x07\x08\x09\x0a\x0b\x0c\x0d\x0e\x0f\x10\x11\
    \x12\x13\x14\x15\x16\x17\x18\x19\x1a\x1b\x1c\x1d\x1e\x1f ";

/// The lock 11, made at 980, in progress.
const LOCK: &[u8] =
    b"(123456789012\0\0\0\0\0\0\x03\xd4\x01v\0\0\0\0\0\0\0\x0b\0\0K{\"Statement\":{\"Effect\":\"De\
    ny\",\"Principal\":\"*\",\"Action\":\"*\",\"Resource\":\"*\"}}";

/// A snapshot's items of each kind, in order.
const ITEMS: [&[u8]; 11] = [
    ACCOUNT, VAULT, LIVE, HELD, UPLOAD, PART, FINISHED, RETRIEVAL, INVENTORY, LINE, LOCK,
];

/// Whether the bytes are an item that fits; then it is put into the account.
fn is_put(alloc: Global, state: &mut AccountState, bytes: &[u8]) -> Result<bool, Memory>
    requires { IsLawful state.old }
    ensures { OnOk result (IsLawful state.new) }
{
    match &read_record(alloc, bytes)? {
        Some(record) => match &record.item {
            Item::Kept(kept) => restore(alloc, state, record.moment, kept),
            Item::Event(_, _) => Ok(false),
        },
        None => Ok(false),
    }
}

/// How many items fit, or don't, before the first of which that isn't so.
fn answered(
    alloc: Global,
    state: &mut AccountState,
    items: &[&[u8]],
    fits: bool,
) -> Result<usize, Memory>
    requires { IsLawful state.old }
    ensures { OnOk result (IsLawful state.new) }
{
    for i in 0..items.len() {
        if is_put(alloc, state, items[i])? != fits {
            return Ok(i);
        }
    }
    Ok(items.len())
}

/// The last moment, the counter, the blocks, the open uploads, the jobs, what is due, and how many
/// bytes the items take with their frames but for their runs.
fn totals(state: &AccountState) -> [u64; 7] {
    [
        state.last.seconds(),
        state.counter,
        state.used,
        state.uploads,
        state.jobs,
        state.due.unwrap_or(0),
        state.length,
    ]
}

/// The sizes of the vault and of its archives, and their first blobs.
fn archives(vault: &VaultState) -> Option<[u64; 5]> {
    let live = vault.archives.get(1)?;
    let held = vault.held.get(3)?;
    Some([
        vault.bytes,
        live.size,
        *live.blobs.as_slice().first()?,
        held.size,
        *held.blobs.as_slice().first()?,
    ])
}

/// The part's size and blob, and the archive of the upload that is finished.
fn uploads(vault: &VaultState) -> Option<[u64; 4]> {
    let upload = vault.uploads.get(6)?;
    let part = upload.parts.get(2)?;
    let finished = vault.finished.get(8)?;
    Some([upload.part_size, part.size, part.blob, finished.archive])
}

/// When the jobs are ready, the inventory's line, the lock's number, and what is due in the vault.
fn jobs(vault: &VaultState) -> Option<[u64; 5]> {
    let retrieval = vault.jobs.get(9)?;
    let inventory = vault.jobs.get(10)?;
    let Stage::Done(lines) = &inventory.stage else {
        return None;
    };
    let lock = match &vault.lock {
        Some(lock) => lock.number,
        None => return None,
    };
    Some([
        retrieval.ready.seconds(),
        inventory.ready.seconds(),
        lines.as_slice().first()?.archive,
        lock,
        vault.due?,
    ])
}

/// Whether this is what the items make.
fn is_made(state: &AccountState, name: &VaultName) -> bool {
    let Some(vault) = state.vaults.get(name) else {
        return false;
    };
    totals(state) == [1000, 100, 4, 1, 2, 87_350, 893]
        && archives(vault) == Some([3, 3, 2, 1_048_577, 4])
        && uploads(vault) == Some([1_048_576, 5, 7, 1])
        && jobs(vault) == Some([960, 970, 1, 11, 87_350])
}

/// Whether the items make the account, and none of them fits a second time.
fn is_restored(alloc: Global, name: &VaultName) -> Result<bool, Memory> {
    let mut state = AccountState::new(alloc);
    let taken = answered(alloc, &mut state, &ITEMS, true)?;
    let refused = answered(alloc, &mut state, &ITEMS, false)?;
    Ok(taken == 11 && refused == 11 && is_made(&state, name))
}

#[test]
fn a_snapshot_is_restored(rt: HostRuntime) -> Result<(), Memory> {
    let name = VaultName::parse(b"v").expect(&rt, "a name");
    assert!(rt; is_restored(rt.alloc(), &name)?);
    Ok(())
}
