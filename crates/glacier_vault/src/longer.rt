// How many bytes more the records of an account's snapshot take once something comes in. The length
// that is handed in is the one before, `n` is how many bytes the vault's name has, and None comes
// where the sum is no `u64`.
ghost use Rattle.std.specs.Prelude.{◌≡◌, ◌+◌, ◌*◌, IfSome};
ghost use Rattle.glacier_vault.specs.Lengths as specs;

use crate::archive::{Archive, Part, Upload};
use crate::job::{Job, Line};
use crate::lengths::work_length;
use crate::lock::Lock;

/// So many bytes more.
fn plus(length: u64, a: u64, b: u64) -> Option<u64>
    ensures { IfSome result (λ more. more ≡ length + a + b) }
{
    length.checked_add(a)?.checked_add(b)
}

fn times(count: usize, each: u64) -> Option<u64>
    ensures { IfSome result (λ product. product ≡ count * each) }
{
    (count as u64).checked_mul(each)
}

/// The length with the record of an archive.
pub fn length_with_archive(length: u64, n: u64, archive: &Archive) -> Option<u64>
    ensures { IfSome result (λ more. more ≡ length + specs.archive_length n archive.now) }
{
    let head = plus(length, n, 54)?;
    let leaves = times(archive.leaves.as_slice().len(), 32)?;
    let blobs = times(archive.blobs.as_slice().len(), 12)?;
    let lists = plus(head, leaves, blobs)?;
    lists.checked_add(archive.description.bytes().len() as u64)
}

/// The length with the record of an open upload that has no parts.
pub fn length_with_upload(length: u64, n: u64, upload: &Upload) -> Option<u64>
    ensures { IfSome result (λ more. more ≡ length + specs.upload_length n upload.now) }
{
    let head = plus(length, n, 45)?;
    head.checked_add(upload.description.bytes().len() as u64)
}

/// The length with the record of a part.
pub fn length_with_part(length: u64, n: u64, part: &Part) -> Option<u64>
    ensures { IfSome result (λ more. more ≡ length + specs.part_length n part.now) }
{
    let head = plus(length, n, 63)?;
    head.checked_add(times(part.leaves.as_slice().len(), 32)?)
}

/// The length with the record of a finished upload.
pub fn length_with_finished(length: u64, n: u64) -> Option<u64>
    ensures { IfSome result (λ more. more ≡ length + specs.finished_length n) }
{
    plus(length, n, 83)
}

/// The length with the record of a line of an inventory.
pub fn length_with_line(length: u64, n: u64, line: &Line) -> Option<u64>
    ensures { IfSome result (λ more. more ≡ length + specs.line_length n line.now) }
{
    let head = plus(length, n, 93)?;
    head.checked_add(line.description.bytes().len() as u64)
}

/// The length with the record of a job, its lines not counted.
pub fn length_with_job(length: u64, n: u64, job: &Job) -> Option<u64>
    ensures { IfSome result (λ more. more ≡ length + specs.job_record_length n job.now) }
{
    let head = plus(length, n, 47)?;
    plus(
        head,
        work_length(&job.work),
        job.description.bytes().len() as u64,
    )
}

/// The length with the record of a lock.
pub fn length_with_lock(length: u64, n: u64, lock: &Lock) -> Option<u64>
    ensures { IfSome result (λ more. more ≡ length + specs.lock_length n lock.now) }
{
    let head = plus(length, n, 38)?;
    head.checked_add(lock.text.bytes().len() as u64)
}
