// Writing lists of fields, each behind its number.
ghost use Rattle.std.specs.Prelude.{◌≡◌, ◌<◌, ◌^◌, ◌++◌, flat_map, OnOk, length};
ghost use Rattle.std.specs.List.{AllByRecursion};
ghost use Rattle.glacier_records.specs.Fields.{digest_field, leaves_field, run_field, runs_field, blob_field, blobs_field};
ghost use Rattle.glacier_records.specs.Room.{AreFull, BlobHasRoom};

use crate::kept::Blob;
use crate::writing_values::{put_digest, put_index, put_number};
use glacier_base::{Digest, List, Memory, Text};
use glacier_extents::Run;

fn put_digests(text: &mut Text, digests: &[Digest]) -> Result<(), Memory>
    ensures ok { OnOk result (text.new ≡ text.old ++ flat_map digest_field.spell digests.now) }
    ensures fit { OnOk result (AllByRecursion digest_field.Fits digests.now) }
{
    for digest in digests {
        put_digest(text, digest)?;
    }
    Ok(())
}

/// The digests of an archive's pieces.
pub(crate) fn put_leaves(text: &mut Text, leaves: &List<Digest>) -> Result<(), Memory>
    requires { length leaves.now < 2 ^ 32 }
    ensures ok { OnOk result (text.new ≡ text.old ++ leaves_field.spell leaves.now) }
    ensures fits { OnOk result (leaves_field.Fits leaves.now) }
{
    let digests = leaves.as_slice();
    put_index(text, digests.len() as u32)?;
    put_digests(text, digests)
}

fn put_run(text: &mut Text, run: &Run) -> Result<(), Memory>
    requires { 0 < run.now.count }
    ensures ok { OnOk result (text.new ≡ text.old ++ run_field.spell run.now) }
    ensures fits { OnOk result (run_field.Fits run.now) }
{
    put_index(text, run.first)?;
    put_index(text, run.count)
}

fn put_each_run(text: &mut Text, runs: &[Run]) -> Result<(), Memory>
    requires { AreFull runs.now }
    ensures ok { OnOk result (text.new ≡ text.old ++ flat_map run_field.spell runs.now) }
    ensures fit { OnOk result (AllByRecursion run_field.Fits runs.now) }
{
    for run in runs {
        put_run(text, run)?;
    }
    Ok(())
}

/// The blocks of a blob.
pub(crate) fn put_runs(text: &mut Text, runs: &List<Run>) -> Result<(), Memory>
    requires room { length runs.now < 2 ^ 32 }
    requires full { AreFull runs.now }
    ensures ok { OnOk result (text.new ≡ text.old ++ runs_field.spell runs.now) }
    ensures fits { OnOk result (runs_field.Fits runs.now) }
{
    let each = runs.as_slice();
    put_index(text, each.len() as u32)?;
    put_each_run(text, each)
}

fn put_blob(text: &mut Text, blob: &Blob) -> Result<(), Memory>
    requires { BlobHasRoom blob.now }
    ensures ok { OnOk result (text.new ≡ text.old ++ blob_field.spell blob.now) }
    ensures fits { OnOk result (blob_field.Fits blob.now) }
{
    put_number(text, blob.number)?;
    put_runs(text, &blob.runs)
}

fn put_each_blob(text: &mut Text, blobs: &[Blob]) -> Result<(), Memory>
    requires { AllByRecursion BlobHasRoom blobs.now }
    ensures ok { OnOk result (text.new ≡ text.old ++ flat_map blob_field.spell blobs.now) }
    ensures fit { OnOk result (AllByRecursion blob_field.Fits blobs.now) }
{
    for blob in blobs {
        put_blob(text, blob)?;
    }
    Ok(())
}

/// The blobs of an archive.
pub(crate) fn put_blobs(text: &mut Text, blobs: &List<Blob>) -> Result<(), Memory>
    requires count { length blobs.now < 2 ^ 32 }
    requires each { AllByRecursion BlobHasRoom blobs.now }
    ensures ok { OnOk result (text.new ≡ text.old ++ blobs_field.spell blobs.now) }
    ensures fits { OnOk result (blobs_field.Fits blobs.now) }
{
    let each = blobs.as_slice();
    put_index(text, each.len() as u32)?;
    put_each_blob(text, each)
}
