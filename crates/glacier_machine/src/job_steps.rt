// The steps of the operations on jobs.
ghost use Rattle.std.specs.Prelude.{◌≡◌, ◌≤◌, IfOk, OnOk};
ghost use Rattle.glacier_job.specs.Work.{HasOrderedRange};
ghost use Rattle.glacier_vault.specs.Lawful.{IsLawful};
ghost use Rattle.glacier_machine.specs.JobSteps.{begin_job_step, describe_job_step};

use crate::action::Answer;
use crate::answers::{changed, refused_answer, unchanged};
use glacier_base::{Memory, Moment, VaultName};
use glacier_job::{JobAsk, begin, find};
use glacier_replies::{begun_reply, shown_job_reply};
use glacier_vault::{AccountState, Rules};
use std::alloc::Global;

/// Begins a job. After an `Err` the state is given up.
pub fn begin_job(
    alloc: Global,
    state: &mut AccountState,
    rules: &Rules,
    m: Moment,
    ask: &JobAsk,
) -> Result<Answer, Memory>
    requires time { state.old.last ≤ m }
    requires lawful { IsLawful state.old }
    requires order { HasOrderedRange ask.now.kind }

    ensures answer { IfOk result (λ answer. answer
        ≡ (begin_job_step rules.now m ask.now state.old).answer) }
    ensures state { OnOk result (state.new ≡ (begin_job_step rules.now m ask.now state.old).state) }
    ensures lawful { OnOk result (IsLawful state.new) }
{
    let reply = begun_reply(alloc, rules, &ask.vault, state.counter)?;
    match begin(alloc, state, rules, m, ask)? {
        Ok(change) => Ok(changed(reply, change)),
        Err(refusal) => refused_answer(alloc, refusal),
    }
}

/// Describes a job. `bytes` is the length of the output of an inventory that is done, and isn't
/// looked at for any other job.
pub fn describe_job(
    alloc: Global,
    state: &AccountState,
    rules: &Rules,
    name: &VaultName,
    job: u64,
    bytes: u64,
) -> Result<Answer, Memory>
    ensures { IfOk result (λ answer. answer
        ≡ (describe_job_step rules.now name.now job bytes state.now).answer) }
{
    match find(state, name, job) {
        Ok(found) => {
            let reply = shown_job_reply(alloc, rules, name, job, found, bytes)?;
            Ok(unchanged(alloc, reply))
        }
        Err(refusal) => refused_answer(alloc, refusal),
    }
}
