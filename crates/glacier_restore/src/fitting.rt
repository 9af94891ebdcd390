// Where a vault takes an item of a snapshot in.
ghost use Rattle.std.specs.Prelude.{◌≡◌, ◌&&◌};
ghost use Rattle.std.specs.FinMap as map;
ghost use Rattle.glacier_vault.specs.Named.{is_done};
ghost use Rattle.glacier_vault.specs.PartSizes.{is_part_size};
ghost use Rattle.glacier_restore.specs.Fitting.{has_archive, has_size, has_upload, is_above, is_body, is_past, is_unseen, is_work, are_apart, takes_archive, takes_finished, takes_job, takes_line, takes_lock, takes_part, takes_upload};

use glacier_base::{Digest, List, Moment, NumberMap};
use glacier_vault::{
    AccountState, Archive, Finished, Job, Line, Lock, Part, Stage, Upload, VaultState, Work,
    blocks_of,
};

/// The greatest index of a part.
const LAST_INDEX: u32 = 9999;

/// 1 MiB times each power of two up to 4 GiB.
const PART_SIZES: [u64; 13] = [
    1_048_576,
    2_097_152,
    4_194_304,
    8_388_608,
    16_777_216,
    33_554_432,
    67_108_864,
    134_217_728,
    268_435_456,
    536_870_912,
    1_073_741_824,
    2_147_483_648,
    4_294_967_296,
];

#[tactic(auto, unfolding(glacier_vault::specs::PartSizes::is_part_size))]
fn is_part_size(size: u64) -> bool
    ensures { result ≡ is_part_size size }
{
    PART_SIZES.iter().any(|allowed| *allowed == size)
}

/// Whether the account was never seen.
pub(crate) fn is_unseen(state: &AccountState) -> bool
    ensures { result ≡ is_unseen state.now }
{
    state.last.seconds() == 0 && state.counter == 0 && state.vaults.is_empty()
}

/// Whether a number was drawn, and its thing was made at the account's last moment or before.
fn is_past(state: &AccountState, m: Moment, number: u64) -> bool
    ensures { result ≡ is_past state.now m number }
{
    number < state.counter && m <= state.last
}

/// Whether a body has a byte, and a leaf for each MiB that it begins.
pub(crate) fn is_body(size: u64, leaves: &List<Digest>) -> bool
    ensures { result ≡ is_body size leaves.now }
{
    size >= 1 && leaves.as_slice().len() as u64 == blocks_of(size)
}

/// Whether the numbers were drawn, and none of them stands twice.
fn are_apart(counter: u64, numbers: &[u64]) -> bool
    ensures { result ≡ are_apart counter numbers.now }
{
    let mut left = numbers;
    while let [first, rest @ ..] = left {
        if *first >= counter || rest.contains(first) {
            return false;
        }
        left = rest;
    }
    true
}

fn has_archive(vault: &VaultState, number: u64) -> bool
    ensures { result ≡ has_archive vault.now number }
{
    vault.archives.contains(number) || vault.held.contains(number)
}

fn has_upload(vault: &VaultState, number: u64) -> bool
    ensures { result ≡ has_upload vault.now number }
{
    vault.uploads.contains(number) || vault.finished.contains(number)
}

/// Whether a vault takes an archive in at a number: it has no job yet.
pub(crate) fn takes_archive(
    state: &AccountState,
    number: u64,
    archive: &Archive,
    vault: &VaultState,
) -> bool
    ensures { result ≡ takes_archive state.now number archive.now vault.now }
{
    is_past(state, archive.created, number)
        && archive.blobs.as_slice().len() >= 1
        && are_apart(state.counter, archive.blobs.as_slice())
        && vault.jobs.is_empty()
        && !has_archive(vault, number)
}

/// Whether a vault takes an open upload in at a number.
pub(crate) fn takes_upload(
    state: &AccountState,
    number: u64,
    upload: &Upload,
    vault: &VaultState,
) -> bool
    ensures { result ≡ takes_upload state.now number upload.now vault.now }
{
    is_past(state, upload.created, number)
        && is_part_size(upload.part_size)
        && !has_upload(vault, number)
}

/// Whether an upload takes a part in at an index that has none yet.
pub(crate) fn takes_part(state: &AccountState, index: u32, part: &Part, upload: &Upload) -> bool
    ensures { result ≡ takes_part state.now index part.now upload.now }
{
    index <= LAST_INDEX
        && part.size <= upload.part_size
        && part.blob < state.counter
        && !upload.parts.contains(index)
}

/// Whether a vault takes a finished upload in at a number.
pub(crate) fn takes_finished(
    state: &AccountState,
    number: u64,
    finished: &Finished,
    vault: &VaultState,
) -> bool
    ensures { result ≡ takes_finished state.now number finished.now vault.now }
{
    is_past(state, finished.at, number) && finished.size >= 1 && !has_upload(vault, number)
}

/// Whether the archive of a number, if there is one, has this size.
fn has_size(size: u64, archives: &NumberMap<Archive>, number: u64) -> bool
    ensures { result ≡ has_size size (map.get archives.now number) }
{
    match archives.get(number) {
        Some(archive) => archive.size == size,
        None => true,
    }
}

pub(crate) fn is_done(stage: &Stage) -> bool
    ensures { result ≡ is_done stage.now }
{
    match stage {
        Stage::Done(_) => true,
        _ => false,
    }
}

/// Whether a job's work is what the vault's archives allow.
fn is_work(state: &AccountState, vault: &VaultState, stage: &Stage, work: &Work) -> bool
    ensures { result ≡ is_work state.now vault.now stage.now work.now }
{
    match work {
        Work::Archive {
            archive,
            size,
            first,
            end,
            ..
        } => {
            *archive < state.counter
                && *first < *end
                && *end <= *size
                && has_size(*size, &vault.archives, *archive)
                && has_size(*size, &vault.held, *archive)
                && (!is_done(stage) || has_archive(vault, *archive))
        }
        Work::Inventory { .. } => true,
    }
}

/// Whether a vault takes a job in at a number.
pub(crate) fn takes_job(state: &AccountState, number: u64, job: &Job, vault: &VaultState) -> bool
    ensures { result ≡ takes_job state.now number job.now vault.now }
{
    is_past(state, job.created, number)
        && is_work(state, vault, &job.stage, &job.work)
        && !vault.jobs.contains(number)
}

/// Whether an archive's number is above that of the last line.
fn is_above(archive: u64, lines: &List<Line>) -> bool
    ensures { result ≡ is_above archive lines.now }
{
    match lines.as_slice().last() {
        Some(line) => line.archive < archive,
        None => true,
    }
}

/// Whether a job is an inventory that is done, and takes a line in.
pub(crate) fn takes_line(line: &Line, job: &Job) -> bool
    ensures { result ≡ takes_line line.now job.now.work job.now.stage }
{
    let Work::Inventory { .. } = &job.work else {
        return false;
    };
    let Stage::Done(lines) = &job.stage else {
        return false;
    };
    line.size >= 1 && is_above(line.archive, lines)
}

/// Whether a vault takes a lock in.
pub(crate) fn takes_lock(state: &AccountState, lock: &Lock, vault: &VaultState) -> bool
    ensures { result ≡ takes_lock state.now lock.now vault.now }
{
    is_past(state, lock.created, lock.number) && vault.lock.is_none()
}
