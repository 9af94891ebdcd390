// The archives that finished jobs name, gathered once a vault: each held archive is looked up, and
// no list of jobs is walked for it.
ghost use Rattle.std.specs.Prelude.{◌≡◌, ◌||◌, IfOk, OnOk, ℕ};
ghost use Rattle.std.specs.FinMap as map;
ghost use Rattle.glacier_vault.specs.Named.{is_named, named_in};
ghost use Rattle.glacier_job.specs.Naming.{archive_of, is_archive, names_at};
ghost use Rattle.glacier_job.specs.Pass.{jobs_after};

use crate::ending::is_day_past;
use crate::outcomes::is_done_at;
use glacier_base::{Memory, Moment, NumberMap};
use glacier_vault::{Archive, Job, VaultState, Work, add_name};
use std::alloc::Global;

fn asked_archive(work: &Work) -> Option<u64>
    ensures { result ≡ archive_of work.now }
{
    match work {
        Work::Archive { archive, .. } => Some(*archive),
        Work::Inventory { .. } => None,
    }
}

/// The archive that a job names at the moment `m`, where it is done then and hasn't ended.
fn archive_named_at(m: Moment, archives: &NumberMap<Archive>, job: &Job) -> Option<u64>
    ensures { (number : ℕ) → is_archive result number ≡ names_at m archives.now number job.now }
{
    if is_done_at(m, archives, job) && !is_day_past(m, job.ready) {
        asked_archive(&job.work)
    } else {
        None
    }
}

/// Adds an archive, where there is one.
fn add(found: &mut NumberMap<()>, archive: Option<u64>) -> Result<(), Memory>
    ensures { OnOk result ((number : ℕ) → map.contains_key found.new number
        ≡ (map.contains_key found.old number || is_archive archive number)) }
{
    let Some(archive) = archive else {
        return Ok(());
    };
    found.insert(archive, ())?;
    Ok(())
}

/// The archives that the jobs which are done name.
pub(crate) fn named_archives(alloc: Global, jobs: &NumberMap<Job>) -> Result<NumberMap<()>, Memory>
    ensures { IfOk result (λ found. found ≡ named_in jobs.now) }
{
    let mut found = NumberMap::new(alloc);
    for job in jobs.values() {
        add_name(&mut found, job)?;
    }
    Ok(found)
}

/// The archives that the jobs of a vault name which the moment `m` leaves.
pub(crate) fn named_archives_at(
    alloc: Global,
    m: Moment,
    vault: &VaultState,
) -> Result<NumberMap<()>, Memory>
    ensures { IfOk result (λ found. (number : ℕ) →
        map.contains_key found number ≡ is_named (jobs_after m vault.now) number) }
{
    let mut found = NumberMap::new(alloc);
    for job in vault.jobs.values() {
        add(&mut found, archive_named_at(m, &vault.archives, job))?;
    }
    Ok(found)
}
