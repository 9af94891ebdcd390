// How jobs come out.
ghost use Rattle.std.specs.Prelude.{◌≡◌, ◌+◌, IfOk, OnOk};
ghost use Rattle.glacier_vault.specs.Lengths.{job_length};
ghost use Rattle.glacier_vault.specs.Named.{is_done};
ghost use Rattle.glacier_job.specs.Pass.{line_of, lines, outcome, stage_at, settled};

use crate::lengths::length_with_stage;
use glacier_base::{List, Memory, Moment, NumberMap};
use glacier_vault::{Archive, Job, Line, Stage, Work};
use std::alloc::{AllocError, Global};

fn line_for(number: u64, archive: &Archive) -> Line
    ensures { result ≡ line_of number archive.now }
{
    Line {
        archive: number,
        size: archive.size,
        created: archive.created,
        description: archive.description,
        tree: archive.tree,
    }
}

/// One line for each archive.
fn lines_of(alloc: Global, archives: &NumberMap<Archive>) -> Result<Vec<Line>, AllocError>
    ensures { IfOk result (λ found. found.items ≡ lines archives.now) }
{
    archives
        .iter()
        .map(|(number, archive)| line_for(*number, archive))
        .collect(alloc)
}

/// How what a job works on comes out.
fn outcome_of(alloc: Global, archives: &NumberMap<Archive>, work: &Work) -> Result<Stage, Memory>
    ensures { IfOk result (λ stage. stage ≡ outcome archives.now work.now) }
{
    match work {
        Work::Archive { archive, .. } => {
            if archives.contains(*archive) {
                Ok(Stage::Done(List::new(alloc)))
            } else {
                Ok(Stage::Failed)
            }
        }
        Work::Inventory { .. } => {
            let found = lines_of(alloc, archives)?;
            Ok(Stage::Done(List::from_vec(found)))
        }
    }
}

/// Settles a job that is ready, and answers how long the account's snapshot is with its lines, where
/// it was so long before and the vault's name has `n` bytes. A sum that is no `u64` is want of memory.
pub(crate) fn settle_job(
    alloc: Global,
    m: Moment,
    archives: &NumberMap<Archive>,
    job: &mut Job,
    length: u64,
    n: u64,
) -> Result<u64, Memory>
    ensures job { OnOk result (job.new ≡ settled m archives.now job.old) }
    ensures length { IfOk result (λ more.
        more + job_length n job.old ≡ length + job_length n job.new) }
{
    if let Stage::Waiting = job.stage {
        if job.ready <= m {
            let stage = outcome_of(alloc, archives, &job.work)?;
            let more = length_with_stage(length, n, &stage)?;
            job.stage = stage;
            return Ok(more);
        }
    }
    Ok(length)
}

/// Whether a job that is ready is done then.
fn succeeds(archives: &NumberMap<Archive>, work: &Work) -> bool
    ensures { result ≡ is_done (outcome archives.now work.now) }
{
    match work {
        Work::Archive { archive, .. } => archives.contains(*archive),
        Work::Inventory { .. } => true,
    }
}

/// Whether a job is done at the moment `m`.
pub(crate) fn is_done_at(m: Moment, archives: &NumberMap<Archive>, job: &Job) -> bool
    ensures { result ≡ is_done (stage_at m archives.now job.now) }
{
    match &job.stage {
        Stage::Waiting => job.ready <= m && succeeds(archives, &job.work),
        Stage::Failed => false,
        Stage::Done(_) => true,
    }
}
