// Kept events that are done again, one after another on one account, by hand from
// docs/rules/kept-events.md: which fit, what they free and what they leave.
ghost use Rattle.std.specs.Prelude.{OnOk};
ghost use Rattle.glacier_vault.specs.Lawful.{IsLawful};

use crate::past::{Past, event_of};
use glacier_base::{Memory, Moment};
use glacier_replay::replay;
use glacier_vault::AccountState;
use std::alloc::Global;

const MIB: u64 = 1_048_576;

/// The moment of an event, the event, the blobs that it frees, or None where it doesn't fit, and
/// after it the blocks in use, the open uploads, the jobs and the counter.
type Row = (u64, Past, Option<&'static [u64]>, [u64; 4]);

/// A vault, an archive, and uploads that are completed and aborted.
static UPLOADS: [Row; 22] = [
    (0, Past::Upload(3), None, [0, 0, 0, 0]),
    (0, Past::CreateVault("v"), Some(&[]), [0, 0, 0, 0]),
    (0, Past::CreateVault("v"), None, [0, 0, 0, 0]),
    (0, Past::Upload(0), None, [0, 0, 0, 0]),
    (0, Past::Upload(3), Some(&[]), [1, 0, 0, 1]),
    (0, Past::BeginUpload(3 * MIB), None, [1, 0, 0, 1]),
    (0, Past::BeginUpload(MIB), Some(&[]), [1, 1, 0, 2]),
    (0, Past::Complete(1), None, [1, 1, 0, 2]),
    (0, Past::Part(1, 0, MIB), Some(&[]), [2, 1, 0, 3]),
    (0, Past::Part(1, 0, MIB), Some(&[2]), [2, 1, 0, 4]),
    (0, Past::Part(1, 10_000, 5), None, [2, 1, 0, 4]),
    (0, Past::Part(1, 1, MIB + 1), None, [2, 1, 0, 4]),
    (0, Past::Part(1, 1, 5), Some(&[]), [3, 1, 0, 5]),
    (0, Past::Complete(1), Some(&[]), [3, 0, 0, 6]),
    (0, Past::Complete(1), None, [3, 0, 0, 6]),
    (0, Past::BeginUpload(MIB), Some(&[]), [3, 1, 0, 7]),
    (0, Past::Part(6, 0, 5), Some(&[]), [4, 1, 0, 8]),
    (0, Past::Part(6, 2, 5), Some(&[]), [5, 1, 0, 9]),
    (0, Past::Complete(6), None, [5, 1, 0, 9]),
    (0, Past::Part(1, 0, 5), None, [5, 1, 0, 9]),
    (0, Past::Abort(6), Some(&[7, 8]), [3, 0, 0, 9]),
    (0, Past::Abort(6), None, [3, 0, 0, 9]),
];

/// Jobs, and archives that are deleted behind them.
static JOBS: [Row; 15] = [
    (0, Past::BeginRetrieval(0, 0, 4), None, [3, 0, 0, 9]),
    (0, Past::BeginRetrieval(0, 3, 3), None, [3, 0, 0, 9]),
    (0, Past::BeginRetrieval(0, 0, 3), Some(&[]), [3, 0, 1, 10]),
    (0, Past::BeginInventory, Some(&[]), [3, 0, 2, 11]),
    (300, Past::Pass, Some(&[]), [3, 0, 2, 11]),
    (299, Past::Pass, None, [3, 0, 2, 11]),
    // The first is held, since a finished job names it.
    (301, Past::DeleteArchive(0), Some(&[]), [3, 0, 2, 11]),
    (301, Past::DeleteArchive(0), None, [3, 0, 2, 11]),
    (301, Past::DeleteArchive(5), Some(&[3, 4]), [1, 0, 2, 11]),
    (86_700, Past::Pass, Some(&[0]), [0, 0, 0, 11]),
    (86_700, Past::Upload(MIB + 1), Some(&[]), [2, 0, 0, 12]),
    (
        86_700,
        Past::BeginRetrieval(11, 0, 1),
        Some(&[]),
        [2, 0, 1, 13],
    ),
    (86_700, Past::DeleteVault("v"), None, [2, 0, 1, 13]),
    (86_701, Past::Pass, Some(&[]), [2, 0, 0, 13]),
    (86_701, Past::DeleteArchive(11), Some(&[11]), [0, 0, 0, 13]),
];

/// Locks in another vault, and the deletion of vaults.
static LOCKS: [Row; 16] = [
    (86_701, Past::InitiateLock("w", true), None, [0, 0, 0, 13]),
    (86_701, Past::CreateVault("w"), Some(&[]), [0, 0, 0, 13]),
    (86_701, Past::InitiateLock("w", false), None, [0, 0, 0, 13]),
    (86_701, Past::CompleteLock("w"), None, [0, 0, 0, 13]),
    (
        86_701,
        Past::InitiateLock("w", true),
        Some(&[]),
        [0, 0, 0, 14],
    ),
    (86_701, Past::InitiateLock("w", true), None, [0, 0, 0, 14]),
    (86_701, Past::AbortLock("w"), Some(&[]), [0, 0, 0, 14]),
    (86_701, Past::AbortLock("w"), None, [0, 0, 0, 14]),
    (
        86_701,
        Past::InitiateLock("w", true),
        Some(&[]),
        [0, 0, 0, 15],
    ),
    (86_701, Past::CompleteLock("w"), Some(&[]), [0, 0, 0, 15]),
    (86_701, Past::CompleteLock("w"), None, [0, 0, 0, 15]),
    (86_701, Past::AbortLock("w"), None, [0, 0, 0, 15]),
    (86_701, Past::DeleteVault("w"), None, [0, 0, 0, 15]),
    (86_701, Past::DeleteVault("v"), Some(&[]), [0, 0, 0, 15]),
    (86_701, Past::DeleteVault("v"), None, [0, 0, 0, 15]),
    (86_701, Past::BeginInventory, None, [0, 0, 0, 15]),
];

/// A vault whose archive is held is deleted, and with it the archive.
static HELD: [Row; 6] = [
    (0, Past::CreateVault("v"), Some(&[]), [0, 0, 0, 0]),
    (0, Past::Upload(MIB + 1), Some(&[]), [2, 0, 0, 1]),
    (0, Past::BeginRetrieval(0, 0, 3), Some(&[]), [2, 0, 1, 2]),
    (300, Past::Pass, Some(&[]), [2, 0, 1, 2]),
    (300, Past::DeleteArchive(0), Some(&[]), [2, 0, 1, 2]),
    (300, Past::DeleteVault("v"), Some(&[0]), [0, 0, 0, 2]),
];

/// What an event frees, where it fits.
fn is_done_again(
    alloc: Global,
    state: &mut AccountState,
    m: Moment,
    past: Past,
    freed: Option<&[u64]>,
) -> Result<bool, Memory>
    requires { IsLawful state.old }
    ensures { OnOk result (IsLawful state.new) }
{
    let Some(event) = event_of(alloc, past) else {
        return Ok(false);
    };
    let done = replay(alloc, state, m, &event)?;
    match freed {
        Some(freed) => Ok(done.fits && done.freed.as_slice() == freed),
        None => Ok(!done.fits && done.freed.as_slice().is_empty()),
    }
}

/// Whether the row's event does so.
fn is_replayed(alloc: Global, state: &mut AccountState, row: &Row) -> Result<bool, Memory>
    requires { IsLawful state.old }
    ensures { OnOk result (IsLawful state.new) }
{
    let (seconds, past, freed, left) = *row;
    let Some(m) = Moment::new(seconds) else {
        return Ok(false);
    };
    let is_so = is_done_again(alloc, state, m, past, freed)?;
    Ok(is_so && [state.used, state.uploads, state.jobs, state.counter] == left)
}

/// How many rows do so, before the first that doesn't.
fn replayed(alloc: Global, state: &mut AccountState, rows: &[Row]) -> Result<usize, Memory>
    requires { IsLawful state.old }
    ensures { OnOk result (IsLawful state.new) }
{
    for i in 0..rows.len() {
        if !is_replayed(alloc, state, &rows[i])? {
            return Ok(i);
        }
    }
    Ok(rows.len())
}

/// How many rows of the first table do so.
fn uploads_again(alloc: Global, state: &mut AccountState) -> Result<usize, Memory>
    requires { IsLawful state.old }
    ensures { OnOk result (IsLawful state.new) }
{
    replayed(alloc, state, &UPLOADS)
}

/// How many of the second.
fn jobs_again(alloc: Global, state: &mut AccountState) -> Result<usize, Memory>
    requires { IsLawful state.old }
    ensures { OnOk result (IsLawful state.new) }
{
    replayed(alloc, state, &JOBS)
}

/// How many of the third.
fn locks_again(alloc: Global, state: &mut AccountState) -> Result<usize, Memory>
    requires { IsLawful state.old }
    ensures { OnOk result (IsLawful state.new) }
{
    replayed(alloc, state, &LOCKS)
}

#[test]
fn each_kind_of_event_is_done_again(rt: HostRuntime) -> Result<(), Memory> {
    let alloc = rt.alloc();
    let mut state = AccountState::new(alloc);
    assert_eq!(rt; uploads_again(alloc, &mut state)?, 22);
    assert_eq!(rt; jobs_again(alloc, &mut state)?, 15);
    assert_eq!(rt; locks_again(alloc, &mut state)?, 16);
    assert!(rt; state.vaults.len() == 1 && state.last.seconds() == 86_701);
    Ok(())
}

#[test]
fn a_vault_goes_with_what_it_holds(rt: HostRuntime) -> Result<(), Memory> {
    let alloc = rt.alloc();
    let mut state = AccountState::new(alloc);
    assert_eq!(rt; replayed(alloc, &mut state, &HELD)?, 6);
    Ok(())
}
