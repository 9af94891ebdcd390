// Making the accounts and their blobs again from what is kept.
ghost use Rattle.std.specs.Prelude.{◌≡◌, ◌↔◌, ℕ, true, false, IsTrue, IfOk, IsErrOf};
ghost use Rattle.glacier_journal.specs.Listed.{bytes_of, placed};
ghost use Rattle.glacier_records.specs.declared.records.Record.{Record as Written};
ghost use Rattle.glacier_records.specs.Spells.{Spells};
ghost use Rattle.glacier_replay.specs.Made.{Adds, BadRecord, EventFits, FitsIn, IsRest, IsSettled, ItemFits, Makes, after_event, after_item};
ghost use Rattle.glacier_replay.specs.Restoring.{holdings_of};

use crate::accounts::Accounts;
use crate::blocks::{free_blobs, take_blocks};
use crate::replaying::replay;
use glacier_base::{Account, List, Memory, Moment};
use glacier_bodies::BlobArea;
use glacier_extents::Run;
use glacier_journal::Payload;
use glacier_records::{Item, read_record};
use glacier_vault::Event;
use std::alloc::Global;

/// The accounts and the blobs of their bodies, as the records of a journal make them.
#[derive(Drop)]
pub struct Restored {
    /// The state of each account that was ever changed.
    pub accounts: Accounts,
    /// Which blocks are free, and which are each blob's.
    pub area: BlobArea,
}

/// Why payloads make no accounts: the one at this place is no record or doesn't fit, or want of
/// memory.
#[derive(Clone, Copy, Debug, PartialEq, Eq)]
pub enum Unmade {
    /// The place of the payload's gate.
    At(u64),
    /// Want of memory.
    Memory,
}

impl From<Memory> for Unmade {
    ghost use Rattle.std.specs.Prelude.{◌≡◌};
    ghost use Rattle.glacier_replay.specs.declared.restoring.Unmade.TheVariants.{Memory};

    ghost from_gives = { λ _ e. e ≡ Memory };

    fn from(_: Memory) -> Self {
        Unmade::Memory
    }
}

/// Does an event again, with the blocks that its record names, and says whether both fit. Its own
/// blocks are marked before those that it frees are given back. An error is want of memory.
fn replay_event(
    restored: &mut Restored,
    alloc: Global,
    account: &Account,
    m: Moment,
    event: &Event,
    runs: &List<Run>,
) -> Result<bool, Memory>
    requires settled { IsSettled (holdings_of restored.old) }
    requires rest { IsRest restored.old.area.free restored.old.area.blobs }
    ensures fits { IfOk result (λ fits. IsTrue fits
        ↔ EventFits (holdings_of restored.old) account.now m event.now runs.now) }
    ensures after { IfOk result (λ fits. IsTrue fits → holdings_of restored.new
        ≡ after_event (holdings_of restored.old) account.now m event.now runs.now) }
    ensures rest { IfOk result (λ fits. IsTrue fits
        → IsRest restored.new.area.free restored.new.area.blobs) }
{
    let mut state = restored.accounts.take(alloc, account);
    let number = state.counter;
    let done = replay(alloc, &mut state, m, event)?;
    restored.accounts.put(*account, state)?;
    if !done.fits {
        return Ok(false);
    }
    if !take_blocks(&mut restored.area, alloc, account, number, event, runs)? {
        return Ok(false);
    }
    free_blobs(&mut restored.area, account, done.freed.as_slice());
    Ok(true)
}

/// Does again what a record tells, and says whether it fits. An error is want of memory.
fn replay_item(
    restored: &mut Restored,
    alloc: Global,
    account: &Account,
    m: Moment,
    item: &Item,
) -> Result<bool, Memory>
    requires settled { IsSettled (holdings_of restored.old) }
    requires rest { IsRest restored.old.area.free restored.old.area.blobs }
    ensures fits { IfOk result (λ fits. IsTrue fits
        ↔ ItemFits (holdings_of restored.old) account.now m item.now) }
    ensures after { IfOk result (λ fits. IsTrue fits → holdings_of restored.new
        ≡ after_item (holdings_of restored.old) account.now m item.now) }
    ensures rest { IfOk result (λ fits. IsTrue fits
        → IsRest restored.new.area.free restored.new.area.blobs) }
{
    match item {
        Item::Event(event, runs) => replay_event(restored, alloc, account, m, event, runs),
        Item::Kept(_) => Ok(false),
    }
}

/// Does again what a payload tells, and says whether it is a record that fits. After false and after
/// an `Err`, which is want of memory, what was restored is given up.
pub fn replay_payload(
    restored: &mut Restored,
    alloc: Global,
    payload: &[u8],
) -> Result<bool, Memory>
    requires settled { IsSettled (holdings_of restored.old) }
    requires rest { IsRest restored.old.area.free restored.old.area.blobs }
    ensures replayed { IfOk result (λ fits. fits ≡ true →
        Adds payload.now (holdings_of restored.old) (holdings_of restored.new)) }
    ensures refused { IfOk result (λ fits. fits ≡ false →
        (r : Written) → Spells payload.now r → FitsIn (holdings_of restored.old) r → ⊥) }
    ensures rest { IfOk result (λ fits. fits ≡ true
        → IsRest restored.new.area.free restored.new.area.blobs) }
{
    match read_record(alloc, payload)? {
        None => Ok(false),
        Some(written) => replay_item(
            restored,
            alloc,
            &written.account,
            written.moment,
            &written.item,
        ),
    }
}

/// The accounts and the blobs that payloads make, in order.
///
/// `At` names the place of the first payload that is no record, or one that doesn't fit those before
/// it, `Memory` is want of memory.
pub fn replay_all(alloc: Global, payloads: &[Payload]) -> Result<Restored, Unmade>
    ensures made { IfOk result (λ all. Makes (bytes_of payloads.now) all.accounts all.area.blobs) }
    ensures settled { IfOk result (λ all. IsSettled (holdings_of all)) }
    ensures rest { IfOk result (λ all. IsRest all.area.free all.area.blobs) }
    ensures bad { (at : ℕ) → IsErrOf result (Unmade.At at) →
        payloads.now ≡ placed 16 (bytes_of payloads.now) → BadRecord (bytes_of payloads.now) at }
{
    let mut restored = Restored {
        accounts: Accounts::empty(alloc),
        area: BlobArea::new(alloc)?,
    };
    for payload in payloads {
        let fits = replay_payload(&mut restored, alloc, payload.bytes.bytes())?;
        if !fits {
            return Err(Unmade::At(payload.at));
        }
    }
    Ok(restored)
}
