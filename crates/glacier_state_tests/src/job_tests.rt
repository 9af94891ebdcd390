// What jobs answer and leave, one call after another, by hand from docs/rules/jobs.md. The
// ground's moment is 1,337,905,493.
ghost use Rattle.std.specs.Prelude.{OnOk};
ghost use Rattle.glacier_vault.specs.Lawful.{IsLawful};

use crate::ground::{Ground, account_on, ground_of};
use crate::job_calls::{Said, Step, inventory, said_of};
use crate::upload_calls::Step::{Delete, Upload};
use glacier_base::Memory;
use glacier_vault::{AccountState, Tier};
use std::alloc::Global;

const MIB: u64 = 1_048_576;

/// A call, its answer, and after it the blocks in use, the jobs and the counter.
type Row = (Step, Said, [u64; 3]);

/// Whether the row's call is answered so, and leaves this.
fn is_answered(
    alloc: Global,
    state: &mut AccountState,
    ground: &Ground,
    row: &Row,
) -> Result<bool, Memory>
    requires { IsLawful state.old }
    ensures { OnOk result (IsLawful state.new) }
{
    let (step, said, left) = *row;
    let answer = said_of(alloc, state, ground, step)?;
    Ok(answer == said && [state.used, state.jobs, state.counter] == left)
}

/// How many rows are answered so, before the first that isn't.
fn answered(
    alloc: Global,
    state: &mut AccountState,
    ground: &Ground,
    rows: &[Row],
) -> Result<usize, Memory>
    requires { IsLawful state.old }
    ensures { OnOk result (IsLawful state.new) }
{
    for i in 0..rows.len() {
        if !is_answered(alloc, state, ground, &rows[i])? {
            return Ok(i);
        }
    }
    Ok(rows.len())
}

/// A job of each tier is ready so many seconds on, and keeps its output for a day.
const KEPT: [Row; 16] = [
    (
        Step::Retrieve(0, None, Tier::Standard),
        Said::NoArchive(0),
        [0, 0, 0],
    ),
    (Step::Other(Upload(3, 1, 9)), Said::Event, [1, 0, 1]),
    (
        Step::Retrieve(0, None, Tier::Expedited),
        Said::Event,
        [1, 1, 2],
    ),
    (
        Step::Retrieve(0, None, Tier::Standard),
        Said::Event,
        [1, 2, 3],
    ),
    (Step::Retrieve(0, None, Tier::Bulk), Said::Event, [1, 3, 4]),
    (Step::Time(299), Said::Nothing, [1, 3, 4]),
    (
        Step::Output(1, 3, None),
        Said::NotReady(1_337_905_793),
        [1, 3, 4],
    ),
    (
        Step::Output(2, 3, None),
        Said::NotReady(1_337_919_893),
        [1, 3, 4],
    ),
    (
        Step::Output(3, 3, None),
        Said::NotReady(1_337_934_293),
        [1, 3, 4],
    ),
    (Step::Time(300), Said::Event, [1, 3, 4]),
    (Step::Output(1, 3, None), Said::Bytes(0, 3), [1, 3, 4]),
    (Step::Time(28_801), Said::Event, [1, 3, 4]),
    (Step::Time(86_699), Said::Nothing, [1, 3, 4]),
    (Step::Output(1, 3, None), Said::Bytes(0, 3), [1, 3, 4]),
    (Step::Time(86_700), Said::Event, [1, 2, 4]),
    (Step::Output(1, 3, None), Said::NoJob(1), [1, 2, 4]),
];

/// Behind `KEPT`, where the clock went back.
const BACK: [Row; 3] = [
    (Step::Time(300), Said::Nothing, [1, 2, 4]),
    (Step::Output(1, 3, None), Said::NoJob(1), [1, 2, 4]),
    (Step::Output(2, 3, None), Said::Bytes(0, 3), [1, 2, 4]),
];

/// An archive that is deleted before its job is ready.
const FAILED: [Row; 7] = [
    (Step::Other(Upload(3, 1, 9)), Said::Event, [1, 0, 1]),
    (
        Step::Retrieve(0, None, Tier::Expedited),
        Said::Event,
        [1, 1, 2],
    ),
    (Step::Time(100), Said::Nothing, [1, 1, 2]),
    (Step::Other(Delete(0)), Said::Freed(0), [0, 1, 2]),
    (Step::Time(300), Said::Event, [0, 1, 2]),
    (Step::Output(1, 3, None), Said::JobFailed, [0, 1, 2]),
    (
        Step::Retrieve(0, None, Tier::Bulk),
        Said::NoArchive(0),
        [0, 1, 2],
    ),
];

/// One that is deleted after that: its block stays in use as long as the job.
const HELD: [Row; 9] = [
    (Step::Other(Upload(3, 1, 9)), Said::Event, [1, 0, 1]),
    (
        Step::Retrieve(0, None, Tier::Expedited),
        Said::Event,
        [1, 1, 2],
    ),
    (Step::Time(300), Said::Event, [1, 1, 2]),
    (Step::Time(400), Said::Nothing, [1, 1, 2]),
    (Step::Other(Delete(0)), Said::Event, [1, 1, 2]),
    (Step::Time(86_699), Said::Nothing, [1, 1, 2]),
    (Step::Output(1, 3, None), Said::Bytes(0, 3), [1, 1, 2]),
    (Step::Time(86_700), Said::Freed(0), [0, 0, 2]),
    (Step::Output(1, 3, None), Said::NoJob(1), [0, 0, 2]),
];

/// Ranges of an archive of 5 MiB, and of the output of a job that has all of it.
const RANGES: [Row; 13] = [
    (Step::Other(Upload(5 * MIB, 1, 9)), Said::Event, [5, 0, 1]),
    (
        Step::Retrieve(0, Some((0, MIB - 2)), Tier::Bulk),
        Said::BadJobRange,
        [5, 0, 1],
    ),
    (
        Step::Retrieve(0, Some((1, MIB - 1)), Tier::Bulk),
        Said::BadJobRange,
        [5, 0, 1],
    ),
    (
        Step::Retrieve(0, Some((4 * MIB, 5 * MIB)), Tier::Bulk),
        Said::BadJobRange,
        [5, 0, 1],
    ),
    (
        Step::Retrieve(0, Some((4 * MIB, 5 * MIB - 1)), Tier::Bulk),
        Said::Event,
        [5, 1, 2],
    ),
    (
        Step::Retrieve(0, Some((0, 5 * MIB - 1)), Tier::Expedited),
        Said::Event,
        [5, 2, 3],
    ),
    (Step::Time(300), Said::Event, [5, 2, 3]),
    (
        Step::Output(2, 5 * MIB, None),
        Said::Bytes(0, 5_242_880),
        [5, 2, 3],
    ),
    (
        Step::Output(2, 5 * MIB, Some((0, 9))),
        Said::Bytes(0, 10),
        [5, 2, 3],
    ),
    (
        Step::Output(2, 5 * MIB, Some((5_242_879, 5_242_879))),
        Said::Bytes(5_242_879, 5_242_880),
        [5, 2, 3],
    ),
    (
        Step::Output(2, 5 * MIB, Some((0, 5_242_880))),
        Said::BadByteRange(5_242_880),
        [5, 2, 3],
    ),
    (Step::Other(Upload(MIB + 1, 1, 9)), Said::Event, [7, 2, 4]),
    (
        Step::Retrieve(3, Some((MIB, MIB)), Tier::Bulk),
        Said::Event,
        [7, 3, 5],
    ),
];

/// In an account without a vault.
const NOWHERE: [Row; 3] = [
    (
        Step::Retrieve(0, None, Tier::Bulk),
        Said::NoVault,
        [0, 0, 0],
    ),
    (Step::Inventory, Said::NoVault, [0, 0, 0]),
    (Step::Output(0, 3, None), Said::NoVault, [0, 0, 0]),
];

#[test]
fn a_job_keeps_its_output_for_a_day(rt: HostRuntime) -> Result<(), Memory> {
    let alloc = rt.alloc();
    let ground = ground_of(64).expect(&rt, "a ground");
    let mut state = account_on(alloc, &ground)?;
    assert_eq!(rt; answered(alloc, &mut state, &ground, &KEPT)?, 16);
    assert_eq!(rt; answered(alloc, &mut state, &ground, &BACK)?, 3);
    Ok(())
}

#[test]
fn a_job_outlives_its_archive(rt: HostRuntime) -> Result<(), Memory> {
    let alloc = rt.alloc();
    let ground = ground_of(64).expect(&rt, "a ground");
    let mut state = account_on(alloc, &ground)?;
    assert_eq!(rt; answered(alloc, &mut state, &ground, &FAILED)?, 7);
    let mut state = account_on(alloc, &ground)?;
    assert_eq!(rt; answered(alloc, &mut state, &ground, &HELD)?, 9);
    Ok(())
}

#[test]
fn ranges_are_of_whole_leaves(rt: HostRuntime) -> Result<(), Memory> {
    let alloc = rt.alloc();
    let ground = ground_of(64).expect(&rt, "a ground");
    let mut state = account_on(alloc, &ground)?;
    assert_eq!(rt; answered(alloc, &mut state, &ground, &RANGES)?, 13);
    let mut state = AccountState::new(alloc);
    assert_eq!(rt; answered(alloc, &mut state, &ground, &NOWHERE)?, 3);
    Ok(())
}

/// Begins so many inventories: how many began before the first that didn't.
fn begun(
    alloc: Global,
    state: &mut AccountState,
    ground: &Ground,
    count: u64,
) -> Result<u64, Memory>
    requires { IsLawful state.old }
    ensures { OnOk result (IsLawful state.new) }
{
    for number in 0..count {
        if inventory(alloc, state, ground)? != Said::Event {
            return Ok(number);
        }
    }
    Ok(count)
}

#[test]
fn an_account_has_at_most_10_000_jobs(rt: HostRuntime) -> Result<(), Memory> {
    let alloc = rt.alloc();
    let ground = ground_of(64).expect(&rt, "a ground");
    let mut state = account_on(alloc, &ground)?;
    assert_eq!(rt; begun(alloc, &mut state, &ground, 10_001)?, 10_000);
    assert!(rt; inventory(alloc, &mut state, &ground)? == Said::JobLimit);
    assert!(rt; state.jobs == 10_000 && state.counter == 10_000);
    Ok(())
}
