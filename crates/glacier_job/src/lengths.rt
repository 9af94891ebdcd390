// How many bytes the records of a vault take in a journal once a moment has settled what is in it.
// `n` is how many bytes the vault's name has.
ghost use Rattle.std.specs.Prelude.{◌≡◌, ◌≤◌, ◌+◌, IfOk, sum_by, filter};
ghost use Rattle.std.specs.FinMap as map;
ghost use Rattle.glacier_vault.specs.Lengths.{lengths, finished_length, job_length, line_length, lines_length};
ghost use Rattle.glacier_vault.specs.Totals.{lock_total};
ghost use Rattle.glacier_job.specs.Pass.{has_ended, is_past, lock_after};

use crate::ending::{is_day_past, job_ended, lock_ended};
use glacier_base::{Memory, Moment, NumberMap};
use glacier_vault::{
    Finished, Job, Line, Lock, Stage, length_with_line, length_without_job, length_without_lock,
};

fn with_lines(length: u64, n: u64, lines: &[Line]) -> Result<u64, Memory>
    ensures { IfOk result (λ more. more ≡ length + sum_by (line_length n) lines.now) }
{
    let mut more = length;
    for line in lines {
        match length_with_line(more, n, line) {
            Some(next) => more = next,
            None => return Err(Memory),
        }
    }
    Ok(more)
}

/// The length with the lines of a job that came out so. A sum that is no `u64` is want of memory.
pub(crate) fn length_with_stage(length: u64, n: u64, stage: &Stage) -> Result<u64, Memory>
    ensures { IfOk result (λ more. more ≡ length + lines_length n stage.now) }
{
    match stage {
        Stage::Done(lines) => with_lines(length, n, lines.as_slice()),
        Stage::Waiting => Ok(length),
        Stage::Failed => Ok(length),
    }
}

/// What is left of so many bytes without those of the jobs that have ended, and of their lines.
pub(crate) fn length_without_ended(left: u64, n: u64, m: Moment, jobs: &NumberMap<Job>) -> u64
    requires { sum_by (job_length n) (filter (has_ended m) (map.values jobs.now)) ≤ left }
    ensures { result + sum_by (job_length n) (filter (has_ended m) (map.values jobs.now)) ≡ left }
{
    let mut left = left;
    for job in jobs.values() {
        if job_ended(m, job) {
            left = length_without_job(left, n, job);
        }
    }
    left
}

/// What is left of so many bytes without those of the finished uploads that have ended.
pub(crate) fn length_without_past(
    left: u64,
    n: u64,
    m: Moment,
    finished: &NumberMap<Finished>,
) -> u64
    requires { sum_by (λ _. finished_length n)
        (filter (λ upload. is_past m upload.at) (map.values finished.now)) ≤ left }
    ensures { result + sum_by (λ _. finished_length n)
        (filter (λ upload. is_past m upload.at) (map.values finished.now)) ≡ left }
{
    let mut left = left;
    for upload in finished.values() {
        if is_day_past(m, upload.at) {
            left = left - n - 83;
        }
    }
    left
}

/// What is left of so many bytes without those of a lock that has ended.
pub(crate) fn length_without_ended_lock(left: u64, n: u64, m: Moment, lock: &Option<Lock>) -> u64
    requires { lock_total (lengths n) lock.now ≤ left }
    ensures { result + lock_total (lengths n) lock.now
        ≡ left + lock_total (lengths n) (lock_after m lock.now) }
{
    let Some(found) = lock else {
        return left;
    };
    if lock_ended(m, found) {
        length_without_lock(left, n, lock)
    } else {
        left
    }
}
