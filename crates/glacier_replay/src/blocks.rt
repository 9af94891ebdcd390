// The blocks of events, as their records name them.
ghost use Rattle.std.specs.Prelude.{◌≡◌, ◌↔◌, None, IsTrue, IfOk, nat_eq};
ghost use Rattle.std.specs.Option.{option_copied, option_map};
ghost use Rattle.glacier_bodies.specs.Stands.{AreApart, at_blob};
ghost use Rattle.glacier_extents.specs.Runs.{block_count};
ghost use Rattle.glacier_replay.specs.Changes.{body_in, new_blob, with_new, without_blobs};
ghost use Rattle.glacier_replay.specs.Made.{BlocksFit, IsRest};

use glacier_base::{Account, Digest, List, Memory};
use glacier_bodies::BlobArea;
use glacier_extents::Run;
use glacier_vault::Event;
use std::alloc::Global;

/// The leaves of an event's body, if it has one.
fn leaves_in(event: &Event) -> Option<&List<Digest>>
    ensures { option_copied result ≡ option_map (λ told. told.1) (body_in event.now) }
{
    match event {
        Event::Upload { leaves, .. } => Some(leaves),
        Event::Part { leaves, .. } => Some(leaves),
        _ => None,
    }
}

/// Whether runs have so many blocks.
fn has_blocks(runs: &[Run], count: usize) -> bool
    ensures { result ≡ nat_eq (block_count runs.now) count }
{
    let mut left = count;
    for run in runs {
        let here = run.count as usize;
        if left < here {
            return false;
        }
        left -= here;
    }
    left == 0
}

/// Makes the blocks that an event's record names those of the event's blob, if it has a body.
/// Answers false where they don't fit. After that and after an `Err` the area is given up.
pub(crate) fn take_blocks(
    area: &mut BlobArea,
    alloc: Global,
    account: &Account,
    number: u64,
    event: &Event,
    runs: &List<Run>,
) -> Result<bool, Memory>
    requires rest { IsRest area.old.free area.old.blobs }
    requires fresh { at_blob area.old.blobs account.now number ≡ None }
    ensures fits { IfOk result (λ taken. IsTrue taken ↔ BlocksFit area.old.blobs event.now runs.now) }
    ensures blobs { IfOk result (λ taken. IsTrue taken → area.new.blobs
        ≡ with_new area.old.blobs account.now (new_blob number event.now runs.now)) }
    ensures rest { IfOk result (λ taken. IsTrue taken → IsRest area.new.free area.new.blobs) }
{
    let Some(leaves) = leaves_in(event) else {
        return Ok(runs.as_slice().is_empty());
    };
    if !has_blocks(runs.as_slice(), leaves.as_slice().len()) {
        return Ok(false);
    }
    let own = List::of(alloc, runs.as_slice())?;
    area.mark_blob(alloc, *account, number, own)
}

/// Takes blobs away, and gives their blocks back. It takes no memory.
pub(crate) fn free_blobs(area: &mut BlobArea, account: &Account, numbers: &[u64])
    requires rest { IsRest area.old.free area.old.blobs }
    requires apart { AreApart area.old.blobs }
    ensures blobs { area.new.blobs ≡ without_blobs area.old.blobs account.now numbers.now }
    ensures rest { IsRest area.new.free area.new.blobs }
{
    for number in numbers {
        area.free_blob(account, *number);
    }
}
