// What the machine's steps on archives and jobs answer, one after another, by hand from
// docs/rules/steps.md. The ground's moment is 1,337,905,493.
ghost use Rattle.std.specs.Prelude.{◌≡◌, ◌≤◌, IfOk, IfSome, OnOk, length, true};
ghost use Rattle.glacier_upload.specs.Single.{IsAdmitted};
ghost use Rattle.glacier_vault.specs.Lawful.{IsLawful};
ghost use Rattle.glacier_vault.specs.Totals.{need};

use crate::ground::{Ground, account_on, ground_of, moment_after};
use crate::job_calls::is_ordered;
use crate::upload_calls::{found_in, tree_of};
use glacier_base::{Digest, Memory};
use glacier_job::{AskKind, JobAsk};
use glacier_machine::{Answer, begin_job, delete_archive, describe_job, job_output, pass, upload};
use glacier_upload::{UploadAsk, admit_upload};
use glacier_vault::{AccountState, Tier};
use std::alloc::Global;

/// What is asked for. Archives and jobs are named by their numbers.
#[derive(Clone, Copy)]
enum Step {
    /// An upload of so many bytes.
    Upload(u64),
    Delete(u64),
    /// A retrieval of a whole archive, as soon as can be.
    Retrieve(u64),
    Describe(u64),
    /// The output of a job, whole or from a first byte to a last.
    Output(u64, Option<(u64, u64)>),
    /// The time so many seconds after the ground's moment.
    Time(u64),
}

/// The status, which is 0 where only time passes; whether there is an event; and the archive of which
/// bytes are answered, the first of them and the one behind the last.
type Said = (u16, bool, Option<(u64, u64, u64)>);

const OTHER: Said = (0, false, None);

fn answer_said(answer: &Answer) -> Said {
    let stretch = match &answer.stretch {
        Some(stretch) => Some((stretch.archive, stretch.first, stretch.end)),
        None => None,
    };
    (answer.reply.status, answer.change.event.is_some(), stretch)
}

/// An upload whose body was taken.
fn uploaded(
    alloc: Global,
    state: &mut AccountState,
    ground: &Ground,
    size: u64,
) -> Result<Said, Memory>
    requires { IsLawful state.old }
    ensures { OnOk result (IsLawful state.new) }
{
    let found = found_in(alloc, size, 1)?;
    let ask = UploadAsk {
        vault: ground.vault,
        description: ground.description,
        size,
        linear: Digest([9; 32]),
        tree: tree_of(&found),
    };
    if let Some(_refusal) = admit_upload(state, &ground.rules, &ask) {
        return Ok(OTHER);
    }
    let m = state.last.later(ground.m);
    let answer = upload(alloc, state, &ground.rules, m, &ask, found)?;
    Ok(answer_said(&answer))
}

fn deleted(
    alloc: Global,
    state: &mut AccountState,
    ground: &Ground,
    archive: u64,
) -> Result<Said, Memory>
    requires { IsLawful state.old }
    ensures { OnOk result (IsLawful state.new) }
{
    let m = state.last.later(ground.m);
    let answer = delete_archive(alloc, state, &ground.rules, m, &ground.vault, archive)?;
    Ok(answer_said(&answer))
}

fn retrieved(
    alloc: Global,
    state: &mut AccountState,
    ground: &Ground,
    archive: u64,
) -> Result<Said, Memory>
    requires { IsLawful state.old }
    ensures { OnOk result (IsLawful state.new) }
{
    let ask = JobAsk {
        vault: ground.vault,
        tier: Tier::Expedited,
        description: ground.description,
        kind: AskKind::Archive {
            archive,
            range: None,
        },
    };
    let m = state.last.later(ground.m);
    let answer = begin_job(alloc, state, &ground.rules, m, &ask)?;
    Ok(answer_said(&answer))
}

fn described(
    alloc: Global,
    state: &AccountState,
    ground: &Ground,
    job: u64,
) -> Result<Said, Memory> {
    let answer = describe_job(alloc, state, &ground.rules, &ground.vault, job, 0)?;
    Ok(answer_said(&answer))
}

fn output(
    alloc: Global,
    state: &AccountState,
    ground: &Ground,
    job: u64,
    range: Option<(u64, u64)>,
) -> Result<Said, Memory>
    requires { IsLawful state.now }
{
    if !is_ordered(range) {
        return Ok(OTHER);
    }
    let answer = job_output(alloc, state, &ground.vault, job, range, b"")?;
    Ok(answer_said(&answer))
}

fn aged(
    alloc: Global,
    state: &mut AccountState,
    ground: &Ground,
    seconds: u64,
) -> Result<Said, Memory>
    requires { IsLawful state.old }
    ensures { OnOk result (IsLawful state.new) }
{
    let m = moment_after(state, ground, seconds);
    let change = pass(alloc, state, m)?;
    Ok((0, change.event.is_some(), None))
}

fn said_of(
    alloc: Global,
    state: &mut AccountState,
    ground: &Ground,
    step: Step,
) -> Result<Said, Memory>
    requires { IsLawful state.old }
    ensures { OnOk result (IsLawful state.new) }
{
    match step {
        Step::Upload(size) => uploaded(alloc, state, ground, size),
        Step::Delete(archive) => deleted(alloc, state, ground, archive),
        Step::Retrieve(archive) => retrieved(alloc, state, ground, archive),
        Step::Describe(job) => described(alloc, state, ground, job),
        Step::Output(job, range) => output(alloc, state, ground, job, range),
        Step::Time(seconds) => aged(alloc, state, ground, seconds),
    }
}

/// A step, what it answers, and after it the blocks in use, the jobs and the counter.
type Row = (Step, Said, [u64; 3]);

/// An archive of 3 bytes gets number 0, and the job that retrieves it number 1.
static STEPS: [Row; 14] = [
    (Step::Upload(3), (201, true, None), [1, 0, 1]),
    (Step::Retrieve(7), (404, false, None), [1, 0, 1]),
    (Step::Retrieve(0), (202, true, None), [1, 1, 2]),
    (Step::Describe(1), (200, false, None), [1, 1, 2]),
    (Step::Describe(0), (404, false, None), [1, 1, 2]),
    (Step::Time(299), (0, false, None), [1, 1, 2]),
    (Step::Time(300), (0, true, None), [1, 1, 2]),
    (
        Step::Output(1, None),
        (200, false, Some((0, 0, 3))),
        [1, 1, 2],
    ),
    (
        Step::Output(1, Some((1, 2))),
        (206, false, Some((0, 1, 3))),
        [1, 1, 2],
    ),
    (Step::Delete(7), (204, false, None), [1, 1, 2]),
    (Step::Delete(0), (204, true, None), [1, 1, 2]),
    (
        Step::Output(1, Some((0, 0))),
        (206, false, Some((0, 0, 1))),
        [1, 1, 2],
    ),
    (Step::Describe(1), (200, false, None), [1, 1, 2]),
    (Step::Delete(0), (204, false, None), [1, 1, 2]),
];

fn is_answered(
    alloc: Global,
    state: &mut AccountState,
    ground: &Ground,
    row: &Row,
) -> Result<bool, Memory>
    requires { IsLawful state.old }
    ensures { OnOk result (IsLawful state.new) }
{
    let (step, said, left) = *row;
    let answer = said_of(alloc, state, ground, step)?;
    Ok(answer == said && [state.used, state.jobs, state.counter] == left)
}

/// How many rows are answered so, before the first that isn't.
fn answered(
    alloc: Global,
    state: &mut AccountState,
    ground: &Ground,
    rows: &[Row],
) -> Result<usize, Memory>
    requires { IsLawful state.old }
    ensures { OnOk result (IsLawful state.new) }
{
    for i in 0..rows.len() {
        if !is_answered(alloc, state, ground, &rows[i])? {
            return Ok(i);
        }
    }
    Ok(rows.len())
}

#[test]
fn an_archive_is_uploaded_retrieved_and_deleted(rt: HostRuntime) -> Result<(), Memory> {
    let alloc = rt.alloc();
    let ground = ground_of(64).expect(&rt, "a ground");
    let mut state = account_on(alloc, &ground)?;
    assert_eq!(rt; answered(alloc, &mut state, &ground, &STEPS)?, 14);
    Ok(())
}
