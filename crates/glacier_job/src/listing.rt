// Lists of jobs, page by page.
ghost use Rattle.std.specs.Prelude.{◌≡◌, IfOk};
ghost use Rattle.glacier_vault.specs.Lists.{page};
ghost use Rattle.glacier_job.specs.Finding.{is_shown, fits_completed, fits_name, fits, jobs_from};

use crate::asks::StageName;
use crate::stages::is_done_stage;
use glacier_base::{List, Memory};
use glacier_vault::{Job, Stage, VaultState, waits};
use std::alloc::Global;

/// Whether a stage is shown by this name.
fn has_name(name: StageName, stage: &Stage) -> bool
    ensures { result ≡ is_shown name stage.now }
{
    match name {
        StageName::InProgress => waits(stage),
        StageName::Succeeded => is_done_stage(stage),
        StageName::Failed => !waits(stage) && !is_done_stage(stage),
    }
}

fn passes_completed(completed: Option<bool>, stage: &Stage) -> bool
    ensures { result ≡ fits_completed completed stage.now }
{
    match completed {
        None => true,
        Some(true) => !waits(stage),
        Some(false) => waits(stage),
    }
}

fn passes_name(name: Option<StageName>, stage: &Stage) -> bool
    ensures { result ≡ fits_name name stage.now }
{
    match name {
        None => true,
        Some(name) => has_name(name, stage),
    }
}

/// Whether a job fits both filters.
fn passes(completed: Option<bool>, name: Option<StageName>, job: &Job) -> bool
    ensures { result ≡ fits completed name job.now }
{
    passes_completed(completed, &job.stage) && passes_name(name, &job.stage)
}

/// The numbers of a vault's jobs that fit both filters, in their order, at most `limit` of them,
/// from the first one that isn't below `from`; and the number that the next page begins with, where
/// there is one.
pub fn list(
    alloc: Global,
    vault: &VaultState,
    completed: Option<bool>,
    stage: Option<StageName>,
    from: Option<u64>,
    limit: u32,
) -> Result<(List<u64>, Option<u64>), Memory>
    ensures { IfOk result (λ listed.
        listed ≡ page limit (jobs_from completed stage from vault.now)) }
{
    let mut numbers = List::new(alloc);
    for (number, job) in vault.jobs.range_from(from.unwrap_or(0)) {
        if passes(completed, stage, job) {
            if numbers.as_slice().len() >= limit as usize {
                return Ok((numbers, Some(*number)));
            }
            numbers.push(*number)?;
        }
    }
    Ok((numbers, None))
}
