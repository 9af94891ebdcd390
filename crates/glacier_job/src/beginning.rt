// The beginning of jobs.
ghost use Rattle.std.specs.Prelude.{◌≡◌, ◌≢◌, ◌≤◌, ◌+◌, IfOk, OnOk, OnErr, length};
ghost use Rattle.glacier_vault.specs.Account.{counter_end};
ghost use Rattle.glacier_vault.specs.Lawful.{IsLawful};
ghost use Rattle.glacier_vault.specs.Lengths.{job_record_length};
ghost use Rattle.glacier_vault.specs.Rows.{answer, state_after};
ghost use Rattle.glacier_vault.specs.declared.job.Stage.TheVariants as stages;
ghost use Rattle.glacier_job.specs.Beginning.{delay, ready_at, limit_refusal, accepted_work, new_job, after_put, FitsIn, begin_event, begin_row};
ghost use Rattle.glacier_job.specs.Work.{HasOrderedRange};

use crate::asks::JobAsk;
use crate::work::work_for;
use glacier_base::{LAST_MOMENT, Memory, Moment, VaultName};
use glacier_vault::{
    AccountState, Change, Event, Job, Refusal, Rules, Stage, Tier, Work, job_due, length_with_job,
    name_length, refuse_draw, sooner,
};
use std::alloc::Global;

/// How many jobs an account may have, those that are settled counted until they end.
pub const MOST_JOBS: u64 = 10_000;

fn delay_of(rules: &Rules, tier: Tier) -> u32
    ensures { result ≡ delay rules.now.delays tier }
{
    match tier {
        Tier::Expedited => rules.delays[0],
        Tier::Standard => rules.delays[1],
        Tier::Bulk => rules.delays[2],
    }
}

/// When a job of a tier that begins at the moment `m` is ready: the last moment at the latest.
fn ready_moment(rules: &Rules, m: Moment, tier: Tier) -> Moment
    ensures { result ≡ ready_at rules.now m tier }
{
    let seconds = m.seconds() + u64::from(delay_of(rules, tier));
    match Moment::new(seconds.min(LAST_MOMENT)) {
        Some(ready) => ready,
        None => unreachable!(),
    }
}

/// Why no further job begins: `JobLimit`, `CounterEnd`.
fn refuse_limit(state: &AccountState) -> Option<Refusal>
    ensures { result ≡ limit_refusal state.now }
{
    if state.jobs >= MOST_JOBS {
        return Some(Refusal::JobLimit);
    }
    refuse_draw(state)
}

/// What the job that is asked for works on, or why it isn't begun.
fn accept(state: &AccountState, ask: &JobAsk) -> Result<Work, Refusal>
    requires lawful { IsLawful state.now }
    ensures { result ≡ accepted_work state.now ask.now }
{
    let Some(vault) = state.vaults.get(&ask.vault) else {
        return Err(Refusal::NoVault { name: ask.vault });
    };
    let work = work_for(vault, &ask.kind)?;
    match refuse_limit(state) {
        Some(refusal) => Err(refusal),
        None => Ok(work),
    }
}

/// The event of a job's beginning.
fn event_of(ask: &JobAsk, ready: Moment, work: &Work) -> Event
    ensures { result ≡ begin_event ask.now ready work.now }
{
    match work {
        Work::Archive {
            archive,
            first,
            end,
            ..
        } => Event::BeginRetrieval {
            name: ask.vault,
            archive: *archive,
            first: *first,
            end: *end,
            tier: ask.tier,
            ready,
            description: ask.description,
        },
        Work::Inventory { csv } => Event::BeginInventory {
            name: ask.vault,
            csv: *csv,
            tier: ask.tier,
            ready,
            description: ask.description,
        },
    }
}

/// How long the account's snapshot is with the record of a job. A sum that is no `u64` is want of
/// memory.
fn length_with(state: &AccountState, name: &VaultName, job: &Job) -> Result<u64, Memory>
    ensures { IfOk result (λ more.
        more ≡ state.now.length + job_record_length (length name.now) job.now) }
{
    match length_with_job(state.length, name_length(name), job) {
        Some(length) => Ok(length),
        None => Err(Memory),
    }
}

/// Puts a job that waits into a vault under the account's next number, whatever the limits are.
/// After an `Err` the state is given up.
pub fn put_job(
    state: &mut AccountState,
    m: Moment,
    name: &VaultName,
    job: Job,
) -> Result<(), Memory>
    requires time { state.old.last ≤ m }
    requires lawful { IsLawful state.old }
    requires number { state.old.counter ≢ counter_end }
    requires fits { FitsIn state.old m name.now job }
    requires waits { job.stage ≡ stages.Waiting }

    ensures state { OnOk result (state.new ≡ after_put state.old m name.now job) }
    ensures lawful { OnOk result (IsLawful state.new) }
{
    if state.jobs == u64::MAX {
        return Err(Memory);
    }
    let length = length_with(state, name, &job)?;
    let due = job_due(&job);
    let Some(vault) = state.vaults.get_mut(name) else {
        unreachable!();
    };
    vault.jobs.insert(state.counter, job)?;
    vault.due = sooner(vault.due, due);
    state.due = sooner(state.due, due);
    state.counter += 1;
    state.jobs += 1;
    state.length = length;
    state.last = m;
    Ok(())
}

/// Begins a job at the moment `m`: `NoVault`, `NoArchive`, `BadJobRange`, `JobLimit`, `CounterEnd`.
pub fn begin(
    alloc: Global,
    state: &mut AccountState,
    rules: &Rules,
    m: Moment,
    ask: &JobAsk,
) -> Result<Result<Change, Refusal>, Memory>
    requires time { state.old.last ≤ m }
    requires lawful { IsLawful state.old }
    requires order { HasOrderedRange ask.now.kind }

    ensures answer { IfOk result (λ done. done
        ≡ answer (begin_row rules.now state.old m ask.now)) }
    ensures state { OnOk result
        (state.new ≡ state_after state.old (begin_row rules.now state.old m ask.now)) }
    ensures lawful { OnOk result (IsLawful state.new) }
{
    let work = match accept(state, ask) {
        Ok(work) => work,
        Err(refusal) => return Ok(Err(refusal)),
    };
    let ready = ready_moment(rules, m, ask.tier);
    let event = event_of(ask, ready, &work);
    let job = Job {
        created: m,
        ready,
        tier: ask.tier,
        description: ask.description,
        work,
        stage: Stage::Waiting,
    };
    put_job(state, m, &ask.vault, job)?;
    Ok(Ok(Change::of(alloc, event)))
}
