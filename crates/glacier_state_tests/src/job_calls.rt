// Calls on jobs, for tests: what they answer.
ghost use Rattle.std.specs.Prelude.{◌≡◌, ◌≤◌, IfSome, OnOk, true};
ghost use Rattle.glacier_vault.specs.Lawful.{IsLawful};
ghost use Rattle.glacier_job.specs.Work.{HasOrderedRange};

use crate::ground::{Ground, passed};
use crate::upload_calls;
use glacier_base::Memory;
use glacier_job::{AskKind, JobAsk, begin, find, output_range};
use glacier_vault::{AccountState, Change, Refusal, Tier};
use std::alloc::Global;

/// A call.
#[derive(Clone, Copy)]
pub(crate) enum Step {
    /// A call on uploads or archives.
    Other(upload_calls::Step),
    /// The time so many seconds after the ground's moment.
    Time(u64),
    /// A retrieval of an archive, whole or from a first byte to a last.
    Retrieve(u64, Option<(u64, u64)>, Tier),
    /// An inventory as JSON, as soon as can be.
    Inventory,
    /// The output of a job, whole or from a first byte to a last, where it has so many bytes.
    Output(u64, u64, Option<(u64, u64)>),
}

/// What a call answers.
#[derive(Clone, Copy, PartialEq)]
pub(crate) enum Said {
    Event,
    Nothing,
    /// An event that freed this blob and no other.
    Freed(u64),
    /// The first byte of an output, and the one behind the last.
    Bytes(u64, u64),
    NoVault,
    NoArchive(u64),
    BadJobRange,
    JobLimit,
    CounterEnd,
    NoJob(u64),
    /// The moment at which the job is ready.
    NotReady(u64),
    JobFailed,
    BadByteRange(u64),
    Other,
}

fn refusal_said(refusal: &Refusal) -> Said {
    match refusal {
        Refusal::NoVault { .. } => Said::NoVault,
        Refusal::NoArchive { archive } => Said::NoArchive(*archive),
        Refusal::BadJobRange => Said::BadJobRange,
        Refusal::JobLimit => Said::JobLimit,
        Refusal::CounterEnd => Said::CounterEnd,
        Refusal::NoJob { job } => Said::NoJob(*job),
        Refusal::NotReady { ready } => Said::NotReady(ready.seconds()),
        Refusal::JobFailed => Said::JobFailed,
        Refusal::BadByteRange { length } => Said::BadByteRange(*length),
        _ => Said::Other,
    }
}

fn change_said(change: &Change) -> Said {
    match change.freed.as_slice() {
        [] if change.event.is_some() => Said::Event,
        [] => Said::Nothing,
        [blob] if change.event.is_some() => Said::Freed(*blob),
        _ => Said::Other,
    }
}

pub(crate) fn is_ordered(range: Option<(u64, u64)>) -> bool
    ensures { result ≡ true → IfSome range (λ range. range.0 ≤ range.1) }
{
    match range {
        Some((first, last)) => first <= last,
        None => true,
    }
}

/// A retrieval or an inventory begins.
fn beginning(
    alloc: Global,
    state: &mut AccountState,
    ground: &Ground,
    kind: AskKind,
    tier: Tier,
) -> Result<Said, Memory>
    requires lawful { IsLawful state.old }
    requires order { HasOrderedRange kind }
    ensures { OnOk result (IsLawful state.new) }
{
    let ask = JobAsk {
        vault: ground.vault,
        tier,
        description: ground.description,
        kind,
    };
    let m = state.last.later(ground.m);
    match &begin(alloc, state, &ground.rules, m, &ask)? {
        Ok(change) => Ok(change_said(change)),
        Err(refusal) => Ok(refusal_said(refusal)),
    }
}

/// A retrieval begins.
pub(crate) fn retrieval(
    alloc: Global,
    state: &mut AccountState,
    ground: &Ground,
    archive: u64,
    range: Option<(u64, u64)>,
    tier: Tier,
) -> Result<Said, Memory>
    requires { IsLawful state.old }
    ensures { OnOk result (IsLawful state.new) }
{
    if !is_ordered(range) {
        return Ok(Said::Other);
    }
    let kind = AskKind::Archive { archive, range };
    beginning(alloc, state, ground, kind, tier)
}

/// An inventory begins.
pub(crate) fn inventory(
    alloc: Global,
    state: &mut AccountState,
    ground: &Ground,
) -> Result<Said, Memory>
    requires { IsLawful state.old }
    ensures { OnOk result (IsLawful state.new) }
{
    let kind = AskKind::Inventory { csv: false };
    beginning(alloc, state, ground, kind, Tier::Expedited)
}

/// The output of a job.
fn output(
    state: &AccountState,
    ground: &Ground,
    number: u64,
    length: u64,
    range: Option<(u64, u64)>,
) -> Said {
    let job = match find(state, &ground.vault, number) {
        Ok(job) => job,
        Err(refusal) => return refusal_said(&refusal),
    };
    if !is_ordered(range) {
        return Said::Other;
    }
    match &output_range(job, length, range) {
        Ok((first, end)) => Said::Bytes(*first, *end),
        Err(refusal) => refusal_said(refusal),
    }
}

/// A call on uploads or archives: whether it changed something.
fn other(
    alloc: Global,
    state: &mut AccountState,
    ground: &Ground,
    step: upload_calls::Step,
) -> Result<Said, Memory>
    requires { IsLawful state.old }
    ensures { OnOk result (IsLawful state.new) }
{
    match upload_calls::said_of(alloc, state, ground, step)? {
        upload_calls::Said::Event => Ok(Said::Event),
        upload_calls::Said::Freed(blob) => Ok(Said::Freed(blob)),
        _ => Ok(Said::Other),
    }
}

/// What a call answers.
pub(crate) fn said_of(
    alloc: Global,
    state: &mut AccountState,
    ground: &Ground,
    step: Step,
) -> Result<Said, Memory>
    requires { IsLawful state.old }
    ensures { OnOk result (IsLawful state.new) }
{
    match step {
        Step::Other(step) => other(alloc, state, ground, step),
        Step::Time(seconds) => {
            let change = passed(alloc, state, ground, seconds)?;
            Ok(change_said(&change))
        }
        Step::Retrieve(archive, range, tier) => {
            retrieval(alloc, state, ground, archive, range, tier)
        }
        Step::Inventory => inventory(alloc, state, ground),
        Step::Output(job, length, range) => Ok(output(state, ground, job, length, range)),
    }
}
