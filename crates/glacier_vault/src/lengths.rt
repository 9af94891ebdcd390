// How many bytes the records of an account's snapshot take in a journal, but for the runs of its
// blobs, which take 8 bytes each.
ghost use Rattle.std.specs.Prelude.{◌≡◌, ◌≤◌, ◌+◌, length, sum_by, false};
ghost use Rattle.std.specs.FinMap as map;
ghost use Rattle.glacier_base.specs.declared.vault_name.TheConstants.{LONGEST_NAME};
ghost use Rattle.glacier_vault.specs.Deletions.{has_content};
ghost use Rattle.glacier_vault.specs.Lengths as specs;
ghost use Rattle.glacier_vault.specs.Totals.{lock_total, upload_total, vault_total};

use crate::archive::{Archive, Finished, Part, Upload};
use crate::job::{Job, Line, Stage, Work};
use crate::lock::Lock;
use crate::state::VaultState;
use glacier_base::{NumberMap, PartMap, VaultName};

/// How many bytes an account's own record takes.
pub const ACCOUNT_LENGTH: u64 = 34;

/// How many bytes a vault's name has.
pub fn name_length(name: &VaultName) -> u64
    ensures length { result ≡ length name.now }
    ensures most { result ≤ LONGEST_NAME }
{
    name.bytes().len() as u64
}

/// How many bytes a vault's own record takes.
pub fn vault_length(name: &VaultName) -> u64
    ensures { result ≡ specs.vault_length (length name.now) }
{
    27 + name_length(name)
}

/// What is left of so many bytes without those of an archive, in a vault whose name has `n` bytes.
pub fn length_without_archive(left: u64, n: u64, archive: &Archive) -> u64
    requires { specs.archive_length n archive.now ≤ left }
    ensures { result + specs.archive_length n archive.now ≡ left }
{
    let description = archive.description.bytes().len() as u64;
    let leaves = archive.leaves.as_slice().len() as u64;
    let blobs = archive.blobs.as_slice().len() as u64;
    left - n - 54 - description - 32 * leaves - 12 * blobs
}

fn without_archives(left: u64, n: u64, archives: &NumberMap<Archive>) -> u64
    requires { sum_by (specs.archive_length n) (map.values archives.now) ≤ left }
    ensures { result + sum_by (specs.archive_length n) (map.values archives.now) ≡ left }
{
    let mut left = left;
    for archive in archives.values() {
        left = length_without_archive(left, n, archive);
    }
    left
}

/// What is left of so many bytes without those of a part, in a vault whose name has `n` bytes.
pub fn length_without_part(left: u64, n: u64, part: &Part) -> u64
    requires { specs.part_length n part.now ≤ left }
    ensures { result + specs.part_length n part.now ≡ left }
{
    left - n - 63 - 32 * part.leaves.as_slice().len() as u64
}

/// What is left of so many bytes without those of an open upload and its parts, in a vault whose
/// name has `n` bytes.
pub fn length_without_upload(left: u64, n: u64, upload: &Upload) -> u64
    requires { upload_total (specs.lengths n) upload.now ≤ left }
    ensures { result + upload_total (specs.lengths n) upload.now ≡ left }
{
    let left = without_parts(left, n, &upload.parts);
    left - n - 45 - upload.description.bytes().len() as u64
}

fn without_parts(left: u64, n: u64, parts: &PartMap<Part>) -> u64
    requires { sum_by (specs.part_length n) (map.values parts.now) ≤ left }
    ensures { result + sum_by (specs.part_length n) (map.values parts.now) ≡ left }
{
    let mut left = left;
    for part in parts.values() {
        left = length_without_part(left, n, part);
    }
    left
}

fn without_finished(left: u64, n: u64, finished: &NumberMap<Finished>) -> u64
    requires { sum_by (λ _. specs.finished_length n) (map.values finished.now) ≤ left }
    ensures { result + sum_by (λ _. specs.finished_length n) (map.values finished.now) ≡ left }
{
    let mut left = left;
    for _upload in finished.values() {
        left = left - n - 83;
    }
    left
}

/// How many bytes it takes to say what a job asks for.
pub fn work_length(work: &Work) -> u64
    ensures { result ≡ specs.work_length work.now }
{
    match work {
        Work::Archive { range: None, .. } => 66,
        Work::Archive { range: Some(_), .. } => 98,
        Work::Inventory { .. } => 2,
    }
}

fn without_lines(left: u64, n: u64, lines: &[Line]) -> u64
    requires { sum_by (specs.line_length n) lines.now ≤ left }
    ensures { result + sum_by (specs.line_length n) lines.now ≡ left }
{
    let mut left = left;
    for line in lines {
        left = left - n - 93 - line.description.bytes().len() as u64;
    }
    left
}

fn without_stage(left: u64, n: u64, stage: &Stage) -> u64
    requires { specs.lines_length n stage.now ≤ left }
    ensures { result + specs.lines_length n stage.now ≡ left }
{
    match stage {
        Stage::Done(lines) => without_lines(left, n, lines.as_slice()),
        Stage::Waiting => left,
        Stage::Failed => left,
    }
}

/// What is left of so many bytes without those of a job and its lines, in a vault whose name has
/// `n` bytes.
pub fn length_without_job(left: u64, n: u64, job: &Job) -> u64
    requires { specs.job_length n job.now ≤ left }
    ensures { result + specs.job_length n job.now ≡ left }
{
    let left = without_stage(left, n, &job.stage);
    left - n - 47 - job.description.bytes().len() as u64 - work_length(&job.work)
}

fn without_jobs(left: u64, n: u64, jobs: &NumberMap<Job>) -> u64
    requires { sum_by (specs.job_length n) (map.values jobs.now) ≤ left }
    ensures { result + sum_by (specs.job_length n) (map.values jobs.now) ≡ left }
{
    let mut left = left;
    for job in jobs.values() {
        left = length_without_job(left, n, job);
    }
    left
}

/// What is left of so many bytes without those of a vault's lock, if it has one.
pub fn length_without_lock(left: u64, n: u64, lock: &Option<Lock>) -> u64
    requires { lock_total (specs.lengths n) lock.now ≤ left }
    ensures { result + lock_total (specs.lengths n) lock.now ≡ left }
{
    match lock {
        None => left,
        Some(lock) => left - n - 38 - lock.text.bytes().len() as u64,
    }
}

/// What is left of so many bytes without those of a vault that holds neither a live archive nor an
/// open upload, and of all that it has.
pub(crate) fn length_without_vault(left: u64, n: u64, vault: &VaultState) -> u64
    requires bare { has_content vault.now ≡ false }
    requires within { vault_total (specs.lengths n) vault.now ≤ left }
    ensures { result + vault_total (specs.lengths n) vault.now ≡ left }
{
    let left = without_archives(left, n, &vault.held);
    let left = without_finished(left, n, &vault.finished);
    let left = without_jobs(left, n, &vault.jobs);
    let left = length_without_lock(left, n, &vault.lock);
    left - n - 27
}
