// Writing records.
ghost use Rattle.std.specs.Prelude.{◌≡◌, ◌++◌, ◌∷◌, OnOk, IfOk};
ghost use Rattle.glacier_records.specs.Room.{EventHasRoom, KeptHasRoom, HasRoom};
ghost use Rattle.glacier_records.specs.Spells.{head, Spells};
ghost use Rattle.glacier_records.specs.declared.records.Item.TheVariants as item;

use crate::kept::Kept;
use crate::records::{Item, Record};
use crate::writing_events::{event_kind, put_event};
use crate::writing_kept::{kept_kind, put_kept};
use crate::writing_values::{put_account, put_moment};
use glacier_base::{Account, List, Memory, Moment, Text};
use glacier_extents::Run;
use glacier_vault::Event;
use std::alloc::Global;

/// What stands before the fields of a record.
fn head_of(alloc: Global, kind: u8, account: &Account, moment: Moment) -> Result<Text, Memory>
    ensures ok { IfOk result (λ text. text ≡ kind ∷ head.spell (account.now, moment)) }
    ensures fits { IfOk result (λ text. head.Fits (account.now, moment)) }
{
    let mut text = Text::new(alloc);
    text.push(kind)?;
    put_account(&mut text, account)?;
    put_moment(&mut text, moment)?;
    Ok(text)
}

/// The bytes of the record of an event of an account at a moment, with the blocks of its blob.
pub fn write_event(
    alloc: Global,
    account: &Account,
    moment: Moment,
    event: &Event,
    runs: &List<Run>,
) -> Result<Text, Memory>
    requires { EventHasRoom event.now runs.now }
    ensures { IfOk result (λ text. Spells text
        (record { account = account.now; moment = moment; item = item.Event event.now runs.now })) }
{
    let mut text = head_of(alloc, event_kind(event), account, moment)?;
    put_event(&mut text, event, runs)?;
    Ok(text)
}

/// The bytes of the record of an item of a snapshot of an account.
pub fn write_kept(
    alloc: Global,
    account: &Account,
    moment: Moment,
    kept: &Kept,
) -> Result<Text, Memory>
    requires { KeptHasRoom kept.now }
    ensures { IfOk result (λ text. Spells text
        (record { account = account.now; moment = moment; item = item.Kept kept.now })) }
{
    let mut text = head_of(alloc, kept_kind(kept), account, moment)?;
    put_kept(&mut text, kept)?;
    Ok(text)
}

/// The bytes of a record.
pub fn write_record(alloc: Global, written: &Record) -> Result<Text, Memory>
    requires { HasRoom written.now.item }
    ensures { IfOk result (λ text. Spells text written.now) }
{
    match &written.item {
        Item::Event(event, runs) => {
            write_event(alloc, &written.account, written.moment, event, runs)
        }
        Item::Kept(kept) => write_kept(alloc, &written.account, written.moment, kept),
    }
}
