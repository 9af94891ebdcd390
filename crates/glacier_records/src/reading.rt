// Reading records.
ghost use Rattle.std.specs.Prelude.{◌≡◌, IfOk, IfSome, IfNone, Some};
ghost use Rattle.glacier_records.specs.Reading.{item_at, record_in};
ghost use Rattle.glacier_records.specs.Spells.{Spells};
ghost use Rattle.glacier_records.specs.Taken.{Takes, TakesAll};
ghost use Rattle.glacier_records.specs.declared.records.Record.{Record};

use crate::reader::Reader;
use crate::reading_events::read_event;
use crate::reading_kept::read_kept;
use crate::records::{Item, Record};
use crate::unread::Unread;
use glacier_base::Memory;
use std::alloc::Global;

/// What a record of a kind tells, with its fields.
fn read_item(alloc: Global, kind: u8, reader: &mut Reader) -> Result<Item, Unread>
    ensures { Takes (item_at kind reader.old) result reader.new }
{
    if kind < 32 {
        read_event(alloc, kind, reader)
    } else {
        read_kept(alloc, kind, reader)
    }
}

#[tactic(auto, unfolding(crate::specs::Reading::record_in))]
fn read_whole(alloc: Global, bytes: &[u8]) -> Result<Record, Unread>
    ensures { TakesAll (record_in bytes.now) result }
{
    let mut reader = Reader::new(bytes);
    let kind = reader.byte()?;
    let account = reader.account()?;
    let moment = reader.moment()?;
    let item = read_item(alloc, kind, &mut reader)?;
    if !reader.is_done() {
        return Err(Unread::NoValue);
    }
    Ok(Record {
        account,
        moment,
        item,
    })
}

/// The record that the bytes spell, or None exactly where they spell none.
pub fn read_record(alloc: Global, bytes: &[u8]) -> Result<Option<Record>, Memory>
    ensures found { IfOk result (λ found. IfSome found (Spells bytes.now)) }
    ensures none { IfOk result (λ found. IfNone found
        ((other : Record) → Spells bytes.now other → ⊥)) }
    ensures spelled { (written : Record) → Spells bytes.now written →
        IfOk result (λ found. found ≡ Some written) }
{
    match read_whole(alloc, bytes) {
        Ok(record) => Ok(Some(record)),
        Err(Unread::NoValue) => Ok(None),
        Err(Unread::Memory) => Err(Memory),
    }
}
