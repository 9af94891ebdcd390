// Jobs of a snapshot and their lines, put into a vault.
ghost use Rattle.std.specs.Prelude.{◌≡◌, [], IfOk, OnOk, is_some, unwrap_or, None, if◌then◌else◌};
ghost use Rattle.std.specs.FinMap as map;
ghost use Rattle.glacier_vault.specs.Due.{content_due, due_in, sooner};
ghost use Rattle.glacier_vault.specs.Lawful.{IsLawful};
ghost use Rattle.glacier_vault.specs.Named.{named_in};
ghost use Rattle.glacier_restore.specs.Putting.{put_job, put_line, with_job, with_line};
ghost use Rattle.glacier_restore.specs.Snapshot.{lines_of};

use crate::{fitting, moments};
use glacier_base::{Memory, VaultName};
use glacier_vault::{
    AccountState, Job, Line, Stage, VaultState, add_name, due_of_vaults, job_due, length_with_job,
    length_with_line, name_length, sooner,
};

/// Puts a job at a number that a vault doesn't have. What is due among all that the vault holds is
/// looked for again only where the job names a held archive that was loose.
fn insert_job(vault: &mut VaultState, number: u64, job: Job) -> Result<(), Memory>
    requires kept { (vault.old.due ≡ content_due vault.old)
        × (vault.old.named ≡ named_in vault.old.jobs) }
    requires missing { map.get vault.old.jobs number ≡ None }
    ensures { OnOk result (vault.new ≡ with_job number job vault.old) }
{
    let names_loose = moments::names_loose(vault, &job);
    let due = sooner(vault.due, job_due(&job));
    add_name(&mut vault.named, &job)?;
    vault.jobs.insert(number, job)?;
    if names_loose {
        vault.due = moments::content_due(vault);
        return Ok(());
    }
    vault.due = due;
    Ok(())
}

/// The moment that is due in an account behind a job that is due at a moment.
fn due_with_job(state: &AccountState, names_loose: bool, due: Option<u64>) -> Option<u64>
    ensures { result ≡ (if names_loose then due_in state.now.vaults else sooner state.now.due due) }
{
    if names_loose {
        due_of_vaults(&state.vaults)
    } else {
        sooner(state.due, due)
    }
}

/// Puts a job that has no lines yet into a vault. A sum that is no `u64` is want of memory.
pub(crate) fn put_job(
    state: &mut AccountState,
    name: &VaultName,
    number: u64,
    job: Job,
) -> Result<bool, Memory>
    requires lawful { IsLawful state.old }
    requires bare { lines_of job.stage ≡ [] }
    ensures fits { IfOk result (λ fits. fits ≡ is_some (put_job state.old name.now number job)) }
    ensures state { OnOk result
        (state.new ≡ unwrap_or (put_job state.old name.now number job) state.old) }
{
    let Some(vault) = state.vaults.get(name) else {
        return Ok(false);
    };
    if !fitting::takes_job(state, number, &job, vault) {
        return Ok(false);
    }
    let Some(jobs) = state.jobs.checked_add(1) else {
        return Err(Memory);
    };
    let Some(length) = length_with_job(state.length, name_length(name), &job) else {
        return Err(Memory);
    };
    let names_loose = moments::names_loose(vault, &job);
    let due = job_due(&job);
    let Some(vault) = state.vaults.get_mut(name) else {
        unreachable!();
    };
    insert_job(vault, number, job)?;
    state.jobs = jobs;
    state.length = length;
    state.due = due_with_job(state, names_loose, due);
    Ok(true)
}

/// One line more, where the job is done.
fn push_line(job: &mut Job, line: Line) -> Result<(), Memory>
    ensures { OnOk result (job.new ≡ with_line line job.old) }
{
    match &mut job.stage {
        Stage::Done(lines) => lines.push(line),
        Stage::Waiting => Ok(()),
        Stage::Failed => Ok(()),
    }
}

/// Puts a line into an inventory that is done. A length that is no `u64` is want of memory.
pub(crate) fn put_line(
    state: &mut AccountState,
    name: &VaultName,
    job: u64,
    line: Line,
) -> Result<bool, Memory>
    requires lawful { IsLawful state.old }
    ensures fits { IfOk result (λ fits. fits ≡ is_some (put_line state.old name.now job line)) }
    ensures state { OnOk result
        (state.new ≡ unwrap_or (put_line state.old name.now job line) state.old) }
{
    let Some(vault) = state.vaults.get(name) else {
        return Ok(false);
    };
    let Some(done) = vault.jobs.get(job) else {
        return Ok(false);
    };
    if !fitting::takes_line(&line, done) {
        return Ok(false);
    }
    let Some(length) = length_with_line(state.length, name_length(name), &line) else {
        return Err(Memory);
    };
    let Some(vault) = state.vaults.get_mut(name) else {
        unreachable!();
    };
    let Some(done) = vault.jobs.get_mut(job) else {
        unreachable!();
    };
    push_line(done, line)?;
    state.length = length;
    Ok(true)
}
