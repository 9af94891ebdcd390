// What is put into a vault does to the moment that is due in it.
ghost use Rattle.std.specs.Prelude.{◌≡◌, not};
ghost use Rattle.std.specs.FinMap as map;
ghost use Rattle.std.specs.List.{list_any};
ghost use Rattle.glacier_vault.specs.Due as due;
ghost use Rattle.glacier_vault.specs.Named.{named_in};
ghost use Rattle.glacier_restore.specs.Moments.{asks_loose, names_loose};

use crate::fitting::is_done;
use glacier_base::NumberMap;
use glacier_vault::{Archive, Finished, Job, VaultState, Work, finished_due, job_due, sooner};

/// Whether one of the held archives isn't among those named: each is looked up, until one is found.
fn some_is_loose(held: &NumberMap<Archive>, named: &NumberMap<()>) -> bool
    ensures { result ≡ list_any (λ number. not (map.contains_key named.now number)) (map.keys held.now) }
{
    held.keys().any(|number| !named.contains(*number))
}

#[tactic(auto, using(glacier_vault::proofs::SoonerLemmas::adding))]
fn jobs_due(jobs: &NumberMap<Job>) -> Option<u64>
    ensures { result ≡ due.soonest due.job_due (map.values jobs.now) }
{
    let mut soonest = None;
    for job in jobs.values() {
        soonest = sooner(soonest, job_due(job));
    }
    soonest
}

#[tactic(auto, using(glacier_vault::proofs::SoonerLemmas::adding))]
fn uploads_due(finished: &NumberMap<Finished>) -> Option<u64>
    ensures { result ≡ due.soonest due.finished_due (map.values finished.now) }
{
    let mut soonest = None;
    for upload in finished.values() {
        soonest = sooner(soonest, finished_due(upload));
    }
    soonest
}

/// The moment that is due among what a vault holds. Its jobs and its finished uploads are walked only
/// where no held archive is loose.
pub(crate) fn content_due(vault: &VaultState) -> Option<u64>
    requires { vault.now.named ≡ named_in vault.now.jobs }
    ensures { result ≡ due.content_due vault.now }
{
    if some_is_loose(&vault.held, &vault.named) {
        return Some(0);
    }
    sooner(jobs_due(&vault.jobs), uploads_due(&vault.finished))
}

fn asks_loose(vault: &VaultState, work: &Work) -> bool
    ensures { result ≡ asks_loose vault.now work.now }
{
    match work {
        Work::Archive { archive, .. } => {
            vault.held.contains(*archive) && !vault.named.contains(*archive)
        }
        Work::Inventory { .. } => false,
    }
}

/// Whether a job is done and names a held archive that no finished job names yet, so that this one
/// is loose no more.
pub(crate) fn names_loose(vault: &VaultState, job: &Job) -> bool
    ensures { result ≡ names_loose vault.now job.now }
{
    is_done(&job.stage) && asks_loose(vault, &job.work)
}
