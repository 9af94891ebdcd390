// Reading the items of a snapshot.
ghost use Rattle.glacier_records.specs.Codec.{with_fields};
ghost use Rattle.glacier_records.specs.KeptFields.{archive_fields, archive_kept, open_upload_fields, upload_kept, open_part_fields, part_kept, finished_fields, finished_kept, job_fields, job_kept, line_fields, line_kept, kept_lock_fields, lock_kept};
ghost use Rattle.glacier_records.specs.Reading.{kept_at};
ghost use Rattle.glacier_records.specs.Taken.{Takes};
ghost use Rattle.glacier_records.specs.declared.records.Item.TheVariants as item;

use crate::kept::Kept;
use crate::reader::Reader;
use crate::records::Item;
use crate::unread::Unread;
use std::alloc::Global;

fn read_archive(alloc: Global, reader: &mut Reader) -> Result<Item, Unread>
    ensures { Takes (with_fields (λ f. item.Kept (archive_kept f)) archive_fields reader.old) result reader.new }
{
    let name = reader.name()?;
    let number = reader.u64()?;
    let held = reader.flag()?;
    let size = reader.u64()?;
    let description = reader.description()?;
    let leaves = reader.leaves(alloc)?;
    let blobs = reader.blobs(alloc)?;
    Ok(Item::Kept(Kept::Archive {
        name,
        number,
        held,
        size,
        description,
        leaves,
        blobs,
    }))
}

fn read_open_upload(reader: &mut Reader) -> Result<Item, Unread>
    ensures { Takes (with_fields (λ f. item.Kept (upload_kept f)) open_upload_fields reader.old) result reader.new }
{
    let name = reader.name()?;
    let number = reader.u64()?;
    let part_size = reader.u64()?;
    let description = reader.description()?;
    Ok(Item::Kept(Kept::OpenUpload {
        name,
        number,
        part_size,
        description,
    }))
}

fn read_open_part(alloc: Global, reader: &mut Reader) -> Result<Item, Unread>
    ensures { Takes (with_fields (λ f. item.Kept (part_kept f)) open_part_fields reader.old) result reader.new }
{
    let name = reader.name()?;
    let upload = reader.u64()?;
    let index = reader.u32()?;
    let size = reader.u64()?;
    let blob = reader.u64()?;
    let leaves = reader.leaves(alloc)?;
    let runs = reader.runs(alloc)?;
    Ok(Item::Kept(Kept::OpenPart {
        name,
        upload,
        index,
        size,
        blob,
        leaves,
        runs,
    }))
}

fn read_finished(reader: &mut Reader) -> Result<Item, Unread>
    ensures { Takes (with_fields (λ f. item.Kept (finished_kept f)) finished_fields reader.old) result reader.new }
{
    let name = reader.name()?;
    let upload = reader.u64()?;
    let size = reader.u64()?;
    let tree = reader.digest()?;
    let archive = reader.u64()?;
    Ok(Item::Kept(Kept::Finished {
        name,
        upload,
        size,
        tree,
        archive,
    }))
}

fn read_job(reader: &mut Reader) -> Result<Item, Unread>
    ensures { Takes (with_fields (λ f. item.Kept (job_kept f)) job_fields reader.old) result reader.new }
{
    let name = reader.name()?;
    let number = reader.u64()?;
    let ready = reader.moment()?;
    let tier = reader.tier()?;
    let stage = reader.stage()?;
    let description = reader.description()?;
    let work = reader.work()?;
    Ok(Item::Kept(Kept::Job {
        name,
        number,
        ready,
        tier,
        stage,
        description,
        work,
    }))
}

fn read_line(reader: &mut Reader) -> Result<Item, Unread>
    ensures { Takes (with_fields (λ f. item.Kept (line_kept f)) line_fields reader.old) result reader.new }
{
    let name = reader.name()?;
    let job = reader.u64()?;
    let archive = reader.u64()?;
    let size = reader.u64()?;
    let created = reader.moment()?;
    let description = reader.description()?;
    let tree = reader.digest()?;
    Ok(Item::Kept(Kept::Line {
        name,
        job,
        archive,
        size,
        created,
        description,
        tree,
    }))
}

fn read_lock(alloc: Global, reader: &mut Reader) -> Result<Item, Unread>
    ensures { Takes (with_fields (λ f. item.Kept (lock_kept f)) kept_lock_fields reader.old) result reader.new }
{
    let name = reader.name()?;
    let number = reader.u64()?;
    let locked = reader.flag()?;
    let policy = reader.text(alloc)?;
    Ok(Item::Kept(Kept::Lock {
        name,
        number,
        locked,
        policy,
    }))
}

/// The item of a kind, with its fields.
#[tactic(auto, unfolding(crate::specs::Reading::kept_at))]
pub(crate) fn read_kept(alloc: Global, kind: u8, reader: &mut Reader) -> Result<Item, Unread>
    ensures { Takes (kept_at kind reader.old) result reader.new }
{
    match kind {
        32 => {
            let counter = reader.u64()?;
            Ok(Item::Kept(Kept::Account { counter }))
        }
        33 => {
            let name = reader.name()?;
            Ok(Item::Kept(Kept::Vault { name }))
        }
        34 => read_archive(alloc, reader),
        35 => read_open_upload(reader),
        36 => read_open_part(alloc, reader),
        37 => read_finished(reader),
        38 => read_job(reader),
        39 => read_line(reader),
        40 => read_lock(alloc, reader),
        _ => Err(Unread::NoValue),
    }
}
