// Reading events.
ghost use Rattle.glacier_records.specs.Codec.{with_fields};
ghost use Rattle.glacier_records.specs.EventFields.{plain, numbered_fields, upload_fields, uploaded, begin_upload_fields, begun_upload, part_fields, part_taken, retrieval_fields, retrieval_begun, inventory_fields, inventory_begun, lock_fields};
ghost use Rattle.glacier_records.specs.Fields.{name_field};
ghost use Rattle.glacier_records.specs.Reading.{event_at};
ghost use Rattle.glacier_records.specs.Taken.{Takes};
ghost use Rattle.glacier_vault.specs.declared.event.Event.TheVariants as event;

use crate::reader::Reader;
use crate::records::Item;
use crate::unread::Unread;
use glacier_base::List;
use glacier_vault::Event;
use std::alloc::Global;

fn read_upload(alloc: Global, reader: &mut Reader) -> Result<Item, Unread>
    ensures { Takes (with_fields uploaded upload_fields reader.old) result reader.new }
{
    let name = reader.name()?;
    let size = reader.u64()?;
    let description = reader.description()?;
    let leaves = reader.leaves(alloc)?;
    let runs = reader.runs(alloc)?;
    let event = Event::Upload {
        name,
        size,
        description,
        leaves,
    };
    Ok(Item::Event(event, runs))
}

fn read_begin_upload(alloc: Global, reader: &mut Reader) -> Result<Item, Unread>
    ensures { Takes (with_fields begun_upload begin_upload_fields reader.old) result reader.new }
{
    let name = reader.name()?;
    let part_size = reader.u64()?;
    let description = reader.description()?;
    let runs = List::new(alloc);
    let event = Event::BeginUpload {
        name,
        part_size,
        description,
    };
    Ok(Item::Event(event, runs))
}

fn read_part(alloc: Global, reader: &mut Reader) -> Result<Item, Unread>
    ensures { Takes (with_fields part_taken part_fields reader.old) result reader.new }
{
    let name = reader.name()?;
    let upload = reader.u64()?;
    let index = reader.u32()?;
    let size = reader.u64()?;
    let leaves = reader.leaves(alloc)?;
    let runs = reader.runs(alloc)?;
    let event = Event::Part {
        name,
        upload,
        index,
        size,
        leaves,
    };
    Ok(Item::Event(event, runs))
}

fn read_retrieval(alloc: Global, reader: &mut Reader) -> Result<Item, Unread>
    ensures { Takes (with_fields retrieval_begun retrieval_fields reader.old) result reader.new }
{
    let name = reader.name()?;
    let archive = reader.u64()?;
    let first = reader.u64()?;
    let end = reader.u64()?;
    let tier = reader.tier()?;
    let ready = reader.moment()?;
    let description = reader.description()?;
    let runs = List::new(alloc);
    let event = Event::BeginRetrieval {
        name,
        archive,
        first,
        end,
        tier,
        ready,
        description,
    };
    Ok(Item::Event(event, runs))
}

fn read_inventory(alloc: Global, reader: &mut Reader) -> Result<Item, Unread>
    ensures { Takes (with_fields inventory_begun inventory_fields reader.old) result reader.new }
{
    let name = reader.name()?;
    let csv = reader.flag()?;
    let tier = reader.tier()?;
    let ready = reader.moment()?;
    let description = reader.description()?;
    let runs = List::new(alloc);
    let event = Event::BeginInventory {
        name,
        csv,
        tier,
        ready,
        description,
    };
    Ok(Item::Event(event, runs))
}

fn read_lock(alloc: Global, reader: &mut Reader) -> Result<Item, Unread>
    ensures { Takes (with_fields (λ f. plain (event.InitiateLock f.0 f.1)) lock_fields reader.old) result reader.new }
{
    let name = reader.name()?;
    let policy = reader.text(alloc)?;
    let runs = List::new(alloc);
    let event = Event::InitiateLock { name, policy };
    Ok(Item::Event(event, runs))
}

fn read_deletion(alloc: Global, reader: &mut Reader) -> Result<Item, Unread>
    ensures { Takes (with_fields (λ f. plain (event.DeleteArchive f.0 f.1)) numbered_fields reader.old) result reader.new }
{
    let name = reader.name()?;
    let archive = reader.u64()?;
    let runs = List::new(alloc);
    let event = Event::DeleteArchive { name, archive };
    Ok(Item::Event(event, runs))
}

fn read_completion(alloc: Global, reader: &mut Reader) -> Result<Item, Unread>
    ensures { Takes (with_fields (λ f. plain (event.Complete f.0 f.1)) numbered_fields reader.old) result reader.new }
{
    let name = reader.name()?;
    let upload = reader.u64()?;
    let runs = List::new(alloc);
    let event = Event::Complete { name, upload };
    Ok(Item::Event(event, runs))
}

fn read_abort(alloc: Global, reader: &mut Reader) -> Result<Item, Unread>
    ensures { Takes (with_fields (λ f. plain (event.Abort f.0 f.1)) numbered_fields reader.old) result reader.new }
{
    let name = reader.name()?;
    let upload = reader.u64()?;
    let runs = List::new(alloc);
    let event = Event::Abort { name, upload };
    Ok(Item::Event(event, runs))
}

fn read_vault_made(alloc: Global, reader: &mut Reader) -> Result<Item, Unread>
    ensures { Takes (with_fields (λ name. plain (event.CreateVault name)) name_field reader.old) result reader.new }
{
    let name = reader.name()?;
    let runs = List::new(alloc);
    Ok(Item::Event(Event::CreateVault { name }, runs))
}

fn read_vault_gone(alloc: Global, reader: &mut Reader) -> Result<Item, Unread>
    ensures { Takes (with_fields (λ name. plain (event.DeleteVault name)) name_field reader.old) result reader.new }
{
    let name = reader.name()?;
    let runs = List::new(alloc);
    Ok(Item::Event(Event::DeleteVault { name }, runs))
}

fn read_lock_completed(alloc: Global, reader: &mut Reader) -> Result<Item, Unread>
    ensures { Takes (with_fields (λ name. plain (event.CompleteLock name)) name_field reader.old) result reader.new }
{
    let name = reader.name()?;
    let runs = List::new(alloc);
    Ok(Item::Event(Event::CompleteLock { name }, runs))
}

fn read_lock_gone(alloc: Global, reader: &mut Reader) -> Result<Item, Unread>
    ensures { Takes (with_fields (λ name. plain (event.AbortLock name)) name_field reader.old) result reader.new }
{
    let name = reader.name()?;
    let runs = List::new(alloc);
    Ok(Item::Event(Event::AbortLock { name }, runs))
}

/// The event of a kind, with its fields.
#[tactic(auto, unfolding(crate::specs::Reading::event_at))]
pub(crate) fn read_event(alloc: Global, kind: u8, reader: &mut Reader) -> Result<Item, Unread>
    ensures { Takes (event_at kind reader.old) result reader.new }
{
    match kind {
        1 => Ok(Item::Event(Event::Pass, List::new(alloc))),
        2 => read_vault_made(alloc, reader),
        3 => read_vault_gone(alloc, reader),
        4 => read_upload(alloc, reader),
        5 => read_deletion(alloc, reader),
        6 => read_begin_upload(alloc, reader),
        7 => read_part(alloc, reader),
        8 => read_completion(alloc, reader),
        9 => read_abort(alloc, reader),
        10 => read_retrieval(alloc, reader),
        11 => read_inventory(alloc, reader),
        12 => read_lock(alloc, reader),
        13 => read_lock_completed(alloc, reader),
        14 => read_lock_gone(alloc, reader),
        _ => Err(Unread::NoValue),
    }
}
