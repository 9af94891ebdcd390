// From which moment on a pass changes something.
ghost use Rattle.std.specs.Prelude.{◌≡◌};
ghost use Rattle.glacier_vault.specs.Due as specs;
ghost use Rattle.glacier_vault.specs.Named.{is_waiting};

use crate::archive::Finished;
use crate::job::{Job, Stage};
use crate::lock::Lock;
use crate::state::VaultState;
use glacier_base::NameMap;

/// How long a settled job, a finished upload and a lock in progress are kept, in seconds.
pub const DAY: u64 = 86_400;

/// The sooner of two moments, where `None` never comes.
pub fn sooner(a: Option<u64>, b: Option<u64>) -> Option<u64>
    ensures { result ≡ specs.sooner a b }
{
    match (a, b) {
        (None, b) => b,
        (Some(a), None) => Some(a),
        (Some(a), Some(b)) => Some(if a <= b { a } else { b }),
    }
}

/// Whether a job waits to be settled.
pub fn waits(stage: &Stage) -> bool
    ensures { result ≡ is_waiting stage.now }
{
    match stage {
        Stage::Waiting => true,
        _ => false,
    }
}

/// When a job is settled, or ends.
pub fn job_due(job: &Job) -> Option<u64>
    ensures { result ≡ specs.job_due job.now }
{
    let ready = job.ready.seconds();
    Some(if waits(&job.stage) {
        ready
    } else {
        ready + DAY
    })
}

/// When a finished upload ends.
pub fn finished_due(upload: &Finished) -> Option<u64>
    ensures { result ≡ specs.finished_due upload.now }
{
    Some(upload.at.seconds() + DAY)
}

/// When a lock ends, if it does.
pub fn lock_due(lock: &Option<Lock>) -> Option<u64>
    ensures { result ≡ specs.lock_due lock.now }
{
    match lock {
        Some(lock) if lock.locked => None,
        Some(lock) => Some(lock.created.seconds() + DAY),
        None => None,
    }
}

fn vault_due(vault: &VaultState) -> Option<u64>
    ensures { result ≡ specs.vault_due vault.now }
{
    sooner(vault.due, lock_due(&vault.lock))
}

/// The soonest moment from which on a pass changes something in one of the vaults, if there is one.
/// It asks each vault for the moment that it keeps, and for its lock.
#[tactic(auto, using(crate::proofs::SoonerLemmas::adding))]
pub fn due_of_vaults(vaults: &NameMap<VaultState>) -> Option<u64>
    ensures { result ≡ specs.due_in vaults.now }
{
    let mut due = None;
    for vault in vaults.values() {
        due = sooner(due, vault_due(vault));
    }
    due
}
