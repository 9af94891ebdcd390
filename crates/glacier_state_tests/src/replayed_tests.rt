// What the records of a journal make of an account and its blocks, by hand from
// docs/rules/kept-events.md. The bytes are by Python's struct, from docs/rules/records.md; the
// account is 123456789012 and its vault `v`.
use glacier_base::{Account, List, Text, VaultName};
use glacier_journal::Payload;
use glacier_replay::{Restored, Unmade, replay_all};
use glacier_vault::{AccountState, VaultState};
use std::alloc::Global;

/// The vault is made at 1.
const CREATE: &[u8] = b"\x02123456789012\0\0\0\0\0\0\0\x01\x01v";

/// 3 bytes are uploaded at 1, to block 5.
const UPLOAD: &[u8] =
    b"\x04123456789012\0\0\0\0\0\0\0\x01\x01v\0\0\0\0\0\0\0\x03\0\x01d\0\0\0\x01\x01\x02\
    \x03\x04\x05\x06\x07\x08\x09\x0a\x0b\x0c\x0d\x0e\x0f\x10\x11\x12\x13\x14\x15\x16\x17\
    \x18\x19\x1a\x1b\x1c\x1d\x1e\x1f \0\0\0\x01\0\0\0\x05\0\0\0\x01";

/// A retrieval of all of them begins at 2, to be ready at 302.
const RETRIEVE: &[u8] =
    b"\x0a123456789012\0\0\0\0\0\0\0\x02\x01v\0\0\0\0\0\0\0\0\0\0\0\0\0\0\0\0\0\0\0\0\0\0\0\
    \x03\0\0\0\0\0\0\0\x01.\0\0";

/// The time comes to 302.
const PASS: &[u8] = b"\x01123456789012\0\0\0\0\0\0\x01.";

/// The archive is deleted at 303.
const DELETE: &[u8] = b"\x05123456789012\0\0\0\0\0\0\x01/\x01v\0\0\0\0\0\0\0\0";

/// The payloads of these records, whose places are counted from 0.
fn payloads(alloc: Global, records: &[&[u8]]) -> Option<List<Payload>> {
    let mut payloads = List::new(alloc);
    let mut at = 0u64;
    for record in records {
        let bytes = Text::of(alloc, record).ok()?;
        payloads.push(Payload { at, bytes }).ok()?;
        at = at.checked_add(1)?;
    }
    Some(payloads)
}

/// What there is: the free blocks, and of the account the blocks in use, the jobs, the counter and
/// the last moment, and of its vault the live archives and the held ones.
type Numbers = [u64; 7];

fn there(free: u32, state: &AccountState, vault: &VaultState) -> Numbers {
    [
        u64::from(free),
        state.used,
        state.jobs,
        state.counter,
        state.last.seconds(),
        vault.archives.len() as u64,
        vault.held.len() as u64,
    ]
}

fn all_there(restored: &Restored, account: &Account, name: &VaultName) -> Option<Numbers> {
    let state = restored.accounts.get(account)?;
    let vault = state.vaults.get(name)?;
    Some(there(restored.area.free(), state, vault))
}

/// Whether these records make this, or the one at this place keeps them from it.
fn is_made(alloc: Global, records: &[&[u8]], want: &Result<Numbers, u64>) -> Option<bool> {
    let account = Account::parse(b"123456789012")?;
    let name = VaultName::parse(b"v")?;
    let payloads = payloads(alloc, records)?;
    let made = replay_all(alloc, payloads.as_slice());
    match (&made, want) {
        (Ok(restored), Ok(want)) => Some(all_there(restored, &account, &name)? == *want),
        (Err(Unmade::At(at)), Err(want)) => Some(at == want),
        _ => None,
    }
}

/// Records, and what they make. An archive that a finished job names is held when it is deleted; of
/// two uploads one can't lie where the other does.
const RECORDS: [(&[&[u8]], Result<Numbers, u64>); 3] = [
    (
        &[CREATE, UPLOAD, RETRIEVE, PASS, DELETE],
        Ok([1_048_575, 1, 1, 2, 303, 0, 1]),
    ),
    (
        &[CREATE, UPLOAD, DELETE],
        Ok([1_048_576, 0, 0, 1, 303, 0, 0]),
    ),
    (&[CREATE, UPLOAD, UPLOAD], Err(2)),
];

#[test]
fn records_make_accounts_and_blobs(rt: HostRuntime) {
    for (records, want) in &RECORDS {
        assert!(rt;
            is_made(rt.alloc(), records, want) == Some(true),
            "{want:?}"
        );
    }
}
