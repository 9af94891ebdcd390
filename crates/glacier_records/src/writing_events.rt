// Writing events.
ghost use Rattle.std.specs.Prelude.{◌≡◌, ◌<◌, ◌^◌, ◌++◌, OnOk, length};
ghost use Rattle.glacier_records.specs.EventFields.{event_kind, event_fields, EventFits, numbered_fields, upload_fields, begin_upload_fields, part_fields, retrieval_fields, inventory_fields, lock_fields};
ghost use Rattle.glacier_records.specs.Room.{AreFull, EventHasRoom};

use crate::writing_lists::{put_leaves, put_runs};
use crate::writing_values::{
    put_description, put_flag, put_index, put_moment, put_name, put_number, put_text, put_tier,
};
use glacier_base::{Description, Digest, List, Memory, Moment, Text, VaultName};
use glacier_extents::Run;
use glacier_vault::{Event, Tier};

fn put_numbered(text: &mut Text, name: &VaultName, number: u64) -> Result<(), Memory>
    ensures ok { OnOk result (text.new ≡ text.old
        ++ numbered_fields.spell (name.now, number)) }
    ensures fits { OnOk result (numbered_fields.Fits
        (name.now, number)) }
{
    put_name(text, name)?;
    put_number(text, number)
}

fn put_upload(
    text: &mut Text,
    name: &VaultName,
    size: u64,
    description: &Description,
    leaves: &List<Digest>,
    runs: &List<Run>,
) -> Result<(), Memory>
    requires leaves { length leaves.now < 2 ^ 32 }
    requires runs { length runs.now < 2 ^ 32 }
    requires full { AreFull runs.now }
    ensures ok { OnOk result (text.new ≡ text.old
        ++ upload_fields.spell (name.now, (size, (description.now, (leaves.now, runs.now))))) }
    ensures fits { OnOk result (upload_fields.Fits
        (name.now, (size, (description.now, (leaves.now, runs.now))))) }
{
    put_name(text, name)?;
    put_number(text, size)?;
    put_description(text, description)?;
    put_leaves(text, leaves)?;
    put_runs(text, runs)
}

fn put_begin_upload(
    text: &mut Text,
    name: &VaultName,
    part_size: u64,
    description: &Description,
) -> Result<(), Memory>
    ensures ok { OnOk result (text.new ≡ text.old
        ++ begin_upload_fields.spell (name.now, (part_size, description.now))) }
    ensures fits { OnOk result (begin_upload_fields.Fits
        (name.now, (part_size, description.now))) }
{
    put_name(text, name)?;
    put_number(text, part_size)?;
    put_description(text, description)
}

fn put_part(
    text: &mut Text,
    name: &VaultName,
    upload: u64,
    index: u32,
    size: u64,
    leaves: &List<Digest>,
    runs: &List<Run>,
) -> Result<(), Memory>
    requires leaves { length leaves.now < 2 ^ 32 }
    requires runs { length runs.now < 2 ^ 32 }
    requires full { AreFull runs.now }
    ensures ok { OnOk result (text.new ≡ text.old
        ++ part_fields.spell (name.now, (upload, (index, (size, (leaves.now, runs.now)))))) }
    ensures fits { OnOk result (part_fields.Fits
        (name.now, (upload, (index, (size, (leaves.now, runs.now)))))) }
{
    put_name(text, name)?;
    put_number(text, upload)?;
    put_index(text, index)?;
    put_number(text, size)?;
    put_leaves(text, leaves)?;
    put_runs(text, runs)
}

fn put_retrieval(
    text: &mut Text,
    name: &VaultName,
    archive: u64,
    first: u64,
    end: u64,
    tier: Tier,
    ready: Moment,
    description: &Description,
) -> Result<(), Memory>
    ensures ok { OnOk result (text.new ≡ text.old
        ++ retrieval_fields.spell (name.now, (archive, (first, (end, (tier, (ready, description.now))))))) }
    ensures fits { OnOk result (retrieval_fields.Fits
        (name.now, (archive, (first, (end, (tier, (ready, description.now))))))) }
{
    put_name(text, name)?;
    put_number(text, archive)?;
    put_number(text, first)?;
    put_number(text, end)?;
    put_tier(text, tier)?;
    put_moment(text, ready)?;
    put_description(text, description)
}

fn put_inventory(
    text: &mut Text,
    name: &VaultName,
    csv: bool,
    tier: Tier,
    ready: Moment,
    description: &Description,
) -> Result<(), Memory>
    ensures ok { OnOk result (text.new ≡ text.old
        ++ inventory_fields.spell (name.now, (csv, (tier, (ready, description.now))))) }
    ensures fits { OnOk result (inventory_fields.Fits
        (name.now, (csv, (tier, (ready, description.now))))) }
{
    put_name(text, name)?;
    put_flag(text, csv)?;
    put_tier(text, tier)?;
    put_moment(text, ready)?;
    put_description(text, description)
}

fn put_lock(text: &mut Text, name: &VaultName, policy: &Text) -> Result<(), Memory>
    requires { length policy.now < 2 ^ 16 }
    ensures ok { OnOk result (text.new ≡ text.old
        ++ lock_fields.spell (name.now, policy.now)) }
    ensures fits { OnOk result (lock_fields.Fits
        (name.now, policy.now)) }
{
    put_name(text, name)?;
    put_text(text, policy)
}

/// The byte of an event's kind.
pub(crate) fn event_kind(event: &Event) -> u8
    ensures { result ≡ event_kind event.now }
{
    match event {
        Event::Pass => 1,
        Event::CreateVault { .. } => 2,
        Event::DeleteVault { .. } => 3,
        Event::Upload { .. } => 4,
        Event::DeleteArchive { .. } => 5,
        Event::BeginUpload { .. } => 6,
        Event::Part { .. } => 7,
        Event::Complete { .. } => 8,
        Event::Abort { .. } => 9,
        Event::BeginRetrieval { .. } => 10,
        Event::BeginInventory { .. } => 11,
        Event::InitiateLock { .. } => 12,
        Event::CompleteLock { .. } => 13,
        Event::AbortLock { .. } => 14,
    }
}

/// The fields of an event, with the blocks of its blob.
pub(crate) fn put_event(text: &mut Text, event: &Event, runs: &List<Run>) -> Result<(), Memory>
    requires { EventHasRoom event.now runs.now }
    ensures ok { OnOk result (text.new ≡ text.old ++ event_fields event.now runs.now) }
    ensures fits { OnOk result (EventFits event.now runs.now) }
{
    match event {
        Event::Pass => Ok(()),
        Event::CreateVault { name } => put_name(text, name),
        Event::DeleteVault { name } => put_name(text, name),
        Event::Upload {
            name,
            size,
            description,
            leaves,
        } => put_upload(text, name, *size, description, leaves, runs),
        Event::DeleteArchive { name, archive } => put_numbered(text, name, *archive),
        Event::BeginUpload {
            name,
            part_size,
            description,
        } => put_begin_upload(text, name, *part_size, description),
        Event::Part {
            name,
            upload,
            index,
            size,
            leaves,
        } => put_part(text, name, *upload, *index, *size, leaves, runs),
        Event::Complete { name, upload } => put_numbered(text, name, *upload),
        Event::Abort { name, upload } => put_numbered(text, name, *upload),
        Event::BeginRetrieval {
            name,
            archive,
            first,
            end,
            tier,
            ready,
            description,
        } => put_retrieval(
            text,
            name,
            *archive,
            *first,
            *end,
            *tier,
            *ready,
            description,
        ),
        Event::BeginInventory {
            name,
            csv,
            tier,
            ready,
            description,
        } => put_inventory(text, name, *csv, *tier, *ready, description),
        Event::InitiateLock { name, policy } => put_lock(text, name, policy),
        Event::CompleteLock { name } => put_name(text, name),
        Event::AbortLock { name } => put_name(text, name),
    }
}
