// The blocks of a blob.
ghost use Rattle.std.specs.Prelude.{◌≡◌, ◌+◌, ◌<◌, ◌≤◌, ◌^◌, IfOk, IfErr, length, slice_index};
ghost use Rattle.glacier_extents.specs.Runs.{AreDistinct, block_count, block_at};
ghost use Rattle.glacier_bodies.specs.Layouts.{starts_from};

use glacier_base::{List, Memory};
use glacier_extents::{BLOCKS, Run};
use std::alloc::Global;
use std::marker::Model;

/// The blocks of a blob in order, as runs with the place where each begins; contracts see the runs.
#[derive(Drop)]
pub struct Layout {
    runs: List<Run>,
    starts: Vec<u32>,
    count: u32,
}

impl Model for Layout {
    ghost use Rattle.std.specs.Prelude.{List};
    ghost use Rattle.glacier_extents.specs.declared.run.Run.{Run};

    ghost Value = { List Run };

    ghost use Rattle.glacier_bodies.specs.Layouts.{IsLayout};

    ghost view = { λ a. a.runs };

    ghost invariant = { λ a. IsLayout a.runs a.starts.items a.count };
}

impl Layout {
    /// The layout of these runs. An error is want of memory, and gives them back.
    pub fn of(alloc: Global, runs: List<Run>) -> Result<Self, List<Run>>
        requires distinct { AreDistinct BLOCKS runs }
        requires count { block_count runs ≤ BLOCKS }
        ensures ok { IfOk result (λ layout. layout ≡ runs) }
        ensures err { IfErr result (λ back. back ≡ runs) }
    {
        match starts_of(alloc, runs.as_slice()) {
            Ok((starts, count)) => Ok(Layout {
                runs,
                starts,
                count,
            }),
            Err(Memory) => Err(runs),
        }
    }

    /// How many blocks it has.
    pub fn count(&self) -> u32
        ensures count { result ≡ block_count self.now }
        ensures bound { result ≤ BLOCKS }
    {
        self.count
    }

    /// The runs.
    pub fn runs(&self) -> &List<Run>
        ensures runs { result.now ≡ self.now }
        ensures distinct { AreDistinct BLOCKS self.now }
    {
        &self.runs
    }

    /// The block at a place.
    pub fn block(&self, place: u32) -> u32
        requires { place < block_count self.now }
        ensures block { result ≡ block_at self.now place }
        ensures bound { result < BLOCKS }
    {
        block_of(self.runs.as_slice(), &self.starts, place)
    }
}

/// The places where runs begin, and how many blocks they have.
fn starts_of(alloc: Global, runs: &[Run]) -> Result<(Vec<u32>, u32), Memory>
    requires { block_count runs.now ≤ BLOCKS }
    ensures { IfOk result (λ (starts, count).
        (starts.items ≡ starts_from 0 runs.now) × (count ≡ block_count runs.now)) }
{
    let mut starts = Vec::new(alloc);
    let mut count = 0;
    for run in runs {
        starts.push(count)?;
        count += run.count;
    }
    Ok((starts, count))
}

/// The block at a place of runs that begin where `starts` says.
fn block_of(runs: &[Run], starts: &[u32], place: u32) -> u32
    requires starts { starts.now ≡ starts_from 0 runs.now }
    requires distinct { AreDistinct BLOCKS runs.now }
    requires inside { place < block_count runs.now }
    ensures block { result ≡ block_at runs.now place }
    ensures bound { result < BLOCKS }
{
    let at = run_at(starts, place);
    let run = runs[at];
    run.first + (place - starts[at])
}

/// The last of the runs that begin at a place or before it, by halves.
fn run_at(starts: &[u32], place: u32) -> usize
    requires some { 0 < length starts.now }
    requires first { slice_index starts.now 0 ≤ place }
    ensures inside { result < length starts.now }
    ensures from { slice_index starts.now result ≤ place }
    ensures to { result + 1 < length starts.now → place < slice_index starts.now (result + 1) }
{
    let mut low = 0;
    let mut high = starts.len();
    while high - low > 1 {
        let middle = low + (high - low) / 2;
        if starts[middle] <= place {
            low = middle;
        } else {
            high = middle;
        }
    }
    low
}
