// Pages of a vault's jobs, the lines of an inventory, and the tree hashes of retrieved ranges, by
// hand from docs/rules/jobs.md. The tree hashes are by Python's hashlib.
ghost use Rattle.std.specs.Prelude.{OnOk};
ghost use Rattle.glacier_vault.specs.Lawful.{IsLawful};

use crate::ground::{Ground, account_on, ground_of};
use crate::job_calls::Step::{Inventory, Other, Retrieve, Time};
use crate::job_calls::{Said, Step, retrieval, said_of};
use crate::upload_calls::Step::{Delete, Upload};
use glacier_base::{Digest, Memory};
use glacier_job::{StageName, find, list};
use glacier_vault::{AccountState, Job, Line, Stage, Tier, Work};
use std::alloc::Global;

const MIB: u64 = 1_048_576;

/// Makes a call whose answer isn't asked for.
fn go(alloc: Global, state: &mut AccountState, ground: &Ground, step: Step) -> Result<(), Memory>
    requires { IsLawful state.old }
    ensures { OnOk result (IsLawful state.new) }
{
    let _ = said_of(alloc, state, ground, step)?;
    Ok(())
}

/// Jobs 2, 3, 4 and 5: a retrieval that is done, one that failed, one that waits, and an inventory
/// that is done.
const JOBS: [Step; 8] = [
    Other(Upload(3, 1, 9)),
    Other(Upload(MIB + 1, 1, 9)),
    Retrieve(0, None, Tier::Expedited),
    Retrieve(1, None, Tier::Expedited),
    Retrieve(0, None, Tier::Standard),
    Inventory,
    Other(Delete(1)),
    Time(300),
];

fn four_jobs(alloc: Global, state: &mut AccountState, ground: &Ground) -> Result<(), Memory>
    requires { IsLawful state.old }
    ensures { OnOk result (IsLawful state.new) }
{
    for step in &JOBS {
        go(alloc, state, ground, *step)?;
    }
    Ok(())
}

/// What jobs of a list are asked for, the marker and the limit; the numbers and the next marker.
type Page = (
    Option<bool>,
    Option<StageName>,
    (Option<u64>, u32),
    &'static [u64],
    Option<u64>,
);

const PAGES: [Page; 13] = [
    (None, None, (None, 50), &[2, 3, 4, 5], None),
    (None, None, (None, 2), &[2, 3], Some(4)),
    (None, None, (Some(4), 2), &[4, 5], None),
    (None, None, (Some(3), 1), &[3], Some(4)),
    (None, None, (Some(6), 1), &[], None),
    (Some(true), None, (None, 50), &[2, 3, 5], None),
    (Some(true), None, (None, 2), &[2, 3], Some(5)),
    (Some(false), None, (None, 50), &[4], None),
    (None, Some(StageName::Succeeded), (None, 50), &[2, 5], None),
    (None, Some(StageName::Failed), (None, 50), &[3], None),
    (None, Some(StageName::InProgress), (None, 50), &[4], None),
    (
        Some(true),
        Some(StageName::InProgress),
        (None, 50),
        &[],
        None,
    ),
    (
        Some(true),
        Some(StageName::Succeeded),
        (None, 1),
        &[2],
        Some(5),
    ),
];

fn is_listed(
    alloc: Global,
    state: &AccountState,
    ground: &Ground,
    page: &Page,
) -> Result<bool, Memory> {
    let (completed, stage, (from, limit), wanted, next) = *page;
    let Some(vault) = state.vaults.get(&ground.vault) else {
        return Ok(false);
    };
    let (numbers, marker) = list(alloc, vault, completed, stage, from, limit)?;
    Ok(numbers.as_slice() == wanted && marker == next)
}

/// Whether this is the line of archive 0, whose leaf is of 32 bytes 1.
fn is_line(line: &Line, ground: &Ground) -> bool {
    line.archive == 0
        && line.size == 3
        && line.created.seconds() == ground.m.seconds()
        && line.tree == Digest([1; 32])
        && line.description.bytes().is_empty()
}

/// Whether the job is an inventory that is done and has just that line.
fn has_one_line(job: &Job, ground: &Ground) -> bool {
    match (&job.work, &job.stage) {
        (Work::Inventory { csv: false }, Stage::Done(lines)) => match lines.as_slice() {
            [line] => is_line(line, ground),
            _ => false,
        },
        _ => false,
    }
}

fn is_inventory(state: &AccountState, ground: &Ground, number: u64) -> bool {
    match find(state, &ground.vault, number) {
        Ok(job) => has_one_line(job, ground),
        Err(_) => false,
    }
}

#[test]
fn jobs_are_listed_by_their_stages(rt: HostRuntime) -> Result<(), Memory> {
    let alloc = rt.alloc();
    let ground = ground_of(64).expect(&rt, "a ground");
    let mut state = account_on(alloc, &ground)?;
    four_jobs(alloc, &mut state, &ground)?;
    for place in 0..PAGES.len() {
        assert!(rt;
            is_listed(alloc, &state, &ground, &PAGES[place])?,
            "page {place}"
        );
    }
    assert!(rt; is_inventory(&state, &ground, 5));
    Ok(())
}

/// The first MiB of a range, the MiB behind it, and its tree hash in an archive of 5 MiB whose
/// leaves are of 32 bytes 1. No text is none.
type RangeHash = (u64, u64, &'static str);

const HASHES: [RangeHash; 6] = [
    (
        0,
        1,
        "0101010101010101010101010101010101010101010101010101010101010101",
    ),
    (
        4,
        5,
        "0101010101010101010101010101010101010101010101010101010101010101",
    ),
    (
        2,
        4,
        "7c8975e1e60a5c8337f28edf8c33c3b180360b7279644a9bc1af3c51e6220bf5",
    ),
    (
        0,
        4,
        "a50238447e4df785f40d5c4f3bfe91d7942b13c2a7f32d6f593c4485acffac96",
    ),
    (
        0,
        5,
        "4963d37dc2f4d954bb295031b9ff42cd6b99743633742780a9fb230556a79ba1",
    ),
    (1, 3, ""),
];

/// Whether a job asks for this range of the archive 0 of 5 MiB, with this tree hash.
fn asks_for(job: &Job, first: u64, last: u64, hash: Option<Digest>) -> bool {
    match &job.work {
        Work::Archive {
            archive,
            size,
            first: begin,
            end,
            range,
            ..
        } => (*archive, *size, *begin, *end) == (0, 5 * MIB, first, last) && *range == hash,
        Work::Inventory { .. } => false,
    }
}

/// Whether a retrieval of the range has this tree hash.
fn has_hash(
    alloc: Global,
    state: &mut AccountState,
    ground: &Ground,
    row: &RangeHash,
) -> Result<bool, Memory>
    requires { IsLawful state.old }
    ensures { OnOk result (IsLawful state.new) }
{
    let (first, end, text) = *row;
    if first >= end || end > 5 {
        return Ok(false);
    }
    let number = state.counter;
    let range = Some((first * MIB, end * MIB - 1));
    if retrieval(alloc, state, ground, 0, range, Tier::Bulk)? != Said::Event {
        return Ok(false);
    }
    match find(state, &ground.vault, number) {
        Ok(job) => Ok(asks_for(job, first * MIB, end * MIB, Digest::parse(text.as_bytes()))),
        Err(_) => Ok(false),
    }
}

#[test]
fn ranges_that_are_nodes_have_hashes(rt: HostRuntime) -> Result<(), Memory> {
    let alloc = rt.alloc();
    let ground = ground_of(64).expect(&rt, "a ground");
    let mut state = account_on(alloc, &ground)?;
    go(alloc, &mut state, &ground, Other(Upload(5 * MIB, 1, 9)))?;
    for row in &HASHES {
        assert!(rt;
            has_hash(alloc, &mut state, &ground, row)?,
            "{} to {}",
            row.0,
            row.1
        );
    }
    Ok(())
}
