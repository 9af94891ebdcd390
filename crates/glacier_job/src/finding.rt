// What is found of jobs.
ghost use Rattle.std.specs.Prelude.{◌≡◌, ◌≤◌, IfSome};
ghost use Rattle.glacier_vault.specs.Rows.{result_copied};
ghost use Rattle.glacier_job.specs.Finding.{found_job, output_of};

use glacier_base::VaultName;
use glacier_vault::{AccountState, Job, Refusal, Stage};

/// The job of a number in a vault, or `NoVault`, `NoJob`.
pub fn find<'a>(state: &'a AccountState, vault: &VaultName, job: u64) -> Result<&'a Job, Refusal>
    ensures { result_copied result ≡ found_job state.now vault.now job }
{
    let Some(found) = state.vaults.get(vault) else {
        return Err(Refusal::NoVault { name: *vault });
    };
    match found.jobs.get(job) {
        Some(job) => Ok(job),
        None => Err(Refusal::NoJob { job }),
    }
}

/// Where a range of a first and a last byte begins and ends in a job's output of `length` bytes, or
/// `NotReady`, `JobFailed`, `BadByteRange`. No range means the whole output.
pub fn output_range(
    job: &Job,
    length: u64,
    range: Option<(u64, u64)>,
) -> Result<(u64, u64), Refusal>
    requires order { IfSome range (λ range. range.0 ≤ range.1) }
    ensures { result ≡ output_of job.now length range }
{
    match job.stage {
        Stage::Waiting => return Err(Refusal::NotReady { ready: job.ready }),
        Stage::Failed => return Err(Refusal::JobFailed),
        Stage::Done(_) => {}
    }
    match range {
        None => Ok((0, length)),
        Some((first, last)) if last < length => Ok((first, last + 1)),
        Some(_) => Err(Refusal::BadByteRange { length }),
    }
}
