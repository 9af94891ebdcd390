// Writing the items of a snapshot.
ghost use Rattle.std.specs.Prelude.{◌≡◌, ◌<◌, ◌^◌, ◌++◌, OnOk, length};
ghost use Rattle.std.specs.List.{AllByRecursion};
ghost use Rattle.glacier_records.specs.KeptFields.{kept_kind, kept_fields, KeptFits, archive_fields, open_upload_fields, open_part_fields, finished_fields, job_fields, line_fields, kept_lock_fields};
ghost use Rattle.glacier_records.specs.Room.{AreFull, BlobHasRoom, KeptHasRoom};

use crate::kept::{Blob, Kept, StageName};
use crate::writing_lists::{put_blobs, put_leaves, put_runs};
use crate::writing_values::{
    put_description, put_digest, put_flag, put_index, put_moment, put_name, put_number, put_stage,
    put_text, put_tier, put_work,
};
use glacier_base::{Description, Digest, List, Memory, Moment, Text, VaultName};
use glacier_extents::Run;
use glacier_vault::{Tier, Work};

fn put_archive(
    text: &mut Text,
    name: &VaultName,
    number: u64,
    held: bool,
    size: u64,
    description: &Description,
    leaves: &List<Digest>,
    blobs: &List<Blob>,
) -> Result<(), Memory>
    requires leaves { length leaves.now < 2 ^ 32 }
    requires count { length blobs.now < 2 ^ 32 }
    requires blobs { AllByRecursion BlobHasRoom blobs.now }
    ensures ok { OnOk result (text.new ≡ text.old
        ++ archive_fields.spell (name.now, (number, (held, (size, (description.now, (leaves.now, blobs.now))))))) }
    ensures fits { OnOk result (archive_fields.Fits
        (name.now, (number, (held, (size, (description.now, (leaves.now, blobs.now))))))) }
{
    put_name(text, name)?;
    put_number(text, number)?;
    put_flag(text, held)?;
    put_number(text, size)?;
    put_description(text, description)?;
    put_leaves(text, leaves)?;
    put_blobs(text, blobs)
}

fn put_open_upload(
    text: &mut Text,
    name: &VaultName,
    number: u64,
    part_size: u64,
    description: &Description,
) -> Result<(), Memory>
    ensures ok { OnOk result (text.new ≡ text.old
        ++ open_upload_fields.spell (name.now, (number, (part_size, description.now)))) }
    ensures fits { OnOk result (open_upload_fields.Fits
        (name.now, (number, (part_size, description.now)))) }
{
    put_name(text, name)?;
    put_number(text, number)?;
    put_number(text, part_size)?;
    put_description(text, description)
}

fn put_open_part(
    text: &mut Text,
    name: &VaultName,
    upload: u64,
    index: u32,
    size: u64,
    blob: u64,
    leaves: &List<Digest>,
    runs: &List<Run>,
) -> Result<(), Memory>
    requires leaves { length leaves.now < 2 ^ 32 }
    requires runs { length runs.now < 2 ^ 32 }
    requires full { AreFull runs.now }
    ensures ok { OnOk result (text.new ≡ text.old
        ++ open_part_fields.spell (name.now, (upload, (index, (size, (blob, (leaves.now, runs.now))))))) }
    ensures fits { OnOk result (open_part_fields.Fits
        (name.now, (upload, (index, (size, (blob, (leaves.now, runs.now))))))) }
{
    put_name(text, name)?;
    put_number(text, upload)?;
    put_index(text, index)?;
    put_number(text, size)?;
    put_number(text, blob)?;
    put_leaves(text, leaves)?;
    put_runs(text, runs)
}

fn put_finished(
    text: &mut Text,
    name: &VaultName,
    upload: u64,
    size: u64,
    tree: &Digest,
    archive: u64,
) -> Result<(), Memory>
    ensures ok { OnOk result (text.new ≡ text.old
        ++ finished_fields.spell (name.now, (upload, (size, (tree.now, archive))))) }
    ensures fits { OnOk result (finished_fields.Fits
        (name.now, (upload, (size, (tree.now, archive))))) }
{
    put_name(text, name)?;
    put_number(text, upload)?;
    put_number(text, size)?;
    put_digest(text, tree)?;
    put_number(text, archive)
}

fn put_job(
    text: &mut Text,
    name: &VaultName,
    number: u64,
    ready: Moment,
    tier: Tier,
    stage: StageName,
    description: &Description,
    work: &Work,
) -> Result<(), Memory>
    ensures ok { OnOk result (text.new ≡ text.old
        ++ job_fields.spell (name.now, (number, (ready, (tier, (stage, (description.now, work.now))))))) }
    ensures fits { OnOk result (job_fields.Fits
        (name.now, (number, (ready, (tier, (stage, (description.now, work.now))))))) }
{
    put_name(text, name)?;
    put_number(text, number)?;
    put_moment(text, ready)?;
    put_tier(text, tier)?;
    put_stage(text, stage)?;
    put_description(text, description)?;
    put_work(text, work)
}

fn put_line(
    text: &mut Text,
    name: &VaultName,
    job: u64,
    archive: u64,
    size: u64,
    created: Moment,
    description: &Description,
    tree: &Digest,
) -> Result<(), Memory>
    ensures ok { OnOk result (text.new ≡ text.old
        ++ line_fields.spell (name.now, (job, (archive, (size, (created, (description.now, tree.now))))))) }
    ensures fits { OnOk result (line_fields.Fits
        (name.now, (job, (archive, (size, (created, (description.now, tree.now))))))) }
{
    put_name(text, name)?;
    put_number(text, job)?;
    put_number(text, archive)?;
    put_number(text, size)?;
    put_moment(text, created)?;
    put_description(text, description)?;
    put_digest(text, tree)
}

fn put_lock(
    text: &mut Text,
    name: &VaultName,
    number: u64,
    locked: bool,
    policy: &Text,
) -> Result<(), Memory>
    requires { length policy.now < 2 ^ 16 }
    ensures ok { OnOk result (text.new ≡ text.old
        ++ kept_lock_fields.spell (name.now, (number, (locked, policy.now)))) }
    ensures fits { OnOk result (kept_lock_fields.Fits
        (name.now, (number, (locked, policy.now)))) }
{
    put_name(text, name)?;
    put_number(text, number)?;
    put_flag(text, locked)?;
    put_text(text, policy)
}

/// The byte of an item's kind.
pub(crate) fn kept_kind(kept: &Kept) -> u8
    ensures { result ≡ kept_kind kept.now }
{
    match kept {
        Kept::Account { .. } => 32,
        Kept::Vault { .. } => 33,
        Kept::Archive { .. } => 34,
        Kept::OpenUpload { .. } => 35,
        Kept::OpenPart { .. } => 36,
        Kept::Finished { .. } => 37,
        Kept::Job { .. } => 38,
        Kept::Line { .. } => 39,
        Kept::Lock { .. } => 40,
    }
}

/// The fields of an item.
pub(crate) fn put_kept(text: &mut Text, kept: &Kept) -> Result<(), Memory>
    requires { KeptHasRoom kept.now }
    ensures ok { OnOk result (text.new ≡ text.old ++ kept_fields kept.now) }
    ensures fits { OnOk result (KeptFits kept.now) }
{
    match kept {
        Kept::Account { counter } => put_number(text, *counter),
        Kept::Vault { name } => put_name(text, name),
        Kept::Archive {
            name,
            number,
            held,
            size,
            description,
            leaves,
            blobs,
        } => put_archive(
            text,
            name,
            *number,
            *held,
            *size,
            description,
            leaves,
            blobs,
        ),
        Kept::OpenUpload {
            name,
            number,
            part_size,
            description,
        } => put_open_upload(text, name, *number, *part_size, description),
        Kept::OpenPart {
            name,
            upload,
            index,
            size,
            blob,
            leaves,
            runs,
        } => put_open_part(text, name, *upload, *index, *size, *blob, leaves, runs),
        Kept::Finished {
            name,
            upload,
            size,
            tree,
            archive,
        } => put_finished(text, name, *upload, *size, tree, *archive),
        Kept::Job {
            name,
            number,
            ready,
            tier,
            stage,
            description,
            work,
        } => put_job(
            text,
            name,
            *number,
            *ready,
            *tier,
            *stage,
            description,
            work,
        ),
        Kept::Line {
            name,
            job,
            archive,
            size,
            created,
            description,
            tree,
        } => put_line(
            text,
            name,
            *job,
            *archive,
            *size,
            *created,
            description,
            tree,
        ),
        Kept::Lock {
            name,
            number,
            locked,
            policy,
        } => put_lock(text, name, *number, *locked, policy),
    }
}
