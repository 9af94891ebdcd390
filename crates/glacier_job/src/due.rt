// Whether a moment settles or ends something, and the next one that does so in a vault.
ghost use Rattle.std.specs.Prelude.{◌≡◌, None};
ghost use Rattle.std.specs.FinMap as map;
ghost use Rattle.glacier_vault.specs.Due as specs;
ghost use Rattle.glacier_vault.specs.Lawful.{IsLawful};
ghost use Rattle.glacier_job.specs.Pass.{pass_is_event};

use glacier_base::{Moment, NumberMap};
use glacier_vault::{AccountState, Finished, Job, VaultState, finished_due, job_due, sooner};

/// The soonest moment at which one of the jobs is settled, or ends.
#[tactic(auto, using(crate::proofs::DueLemmas::adding))]
fn due_of_jobs(jobs: &NumberMap<Job>) -> Option<u64>
    ensures { result ≡ specs.soonest specs.job_due (map.values jobs.now) }
{
    let mut due = None;
    for job in jobs.values() {
        due = sooner(due, job_due(job));
    }
    due
}

/// The soonest moment at which one of the finished uploads ends.
#[tactic(auto, using(crate::proofs::DueLemmas::adding))]
fn due_of_finished(finished: &NumberMap<Finished>) -> Option<u64>
    ensures { result ≡ specs.soonest specs.finished_due (map.values finished.now) }
{
    let mut due = None;
    for upload in finished.values() {
        due = sooner(due, finished_due(upload));
    }
    due
}

/// The soonest moment from which on a pass changes something in a vault of which each held archive
/// is named, but for its lock.
#[tactic(auto, using(crate::proofs::DueLemmas::adding))]
pub(crate) fn due_of_content(vault: &VaultState) -> Option<u64>
    requires { specs.held_due vault.now ≡ None }
    ensures { result ≡ specs.content_due vault.now }
{
    sooner(due_of_jobs(&vault.jobs), due_of_finished(&vault.finished))
}

/// Whether a moment that is kept has come at the moment `m`.
fn has_come(due: Option<u64>, m: Moment) -> bool
    ensures { result ≡ specs.has_come m due }
{
    match due {
        Some(due) => due <= m.seconds(),
        None => false,
    }
}

/// Whether the moment `m` settles or ends something in the account, so that `settle` is an event.
/// It takes no memory, and one comparison.
pub fn is_due(state: &AccountState, m: Moment) -> bool
    requires lawful { IsLawful state.now }
    ensures { result ≡ pass_is_event m state.now }
{
    has_come(state.due, m)
}
