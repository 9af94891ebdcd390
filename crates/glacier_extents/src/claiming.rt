// The lowest of the free runs' blocks, taken out.
ghost use Rattle.std.specs.Prelude.{◌≡◌, ◌≤◌, ◌<◌, ◌+◌, ◌^◌, ◌∷◌, IfOk, OnOk, OnErr, length, take, drop};
ghost use Rattle.std.specs.Vec.{vec_capacity};
ghost use Rattle.glacier_extents.specs.Runs.{block_count, AreRuns};
ghost use Rattle.glacier_extents.specs.FreeRuns.{most_runs, run_at, cut_run, IsLowest, Claims};

use crate::run::{BLOCKS, Run};
use glacier_base::Memory;
use std::alloc::Global;

/// How many of the runs lie within their first n blocks, and how many of these are left then.
fn whole_runs(runs: &[Run], n: u32) -> (usize, u32)
    ensures within { result.0 ≤ length runs.now }
    ensures count { block_count (take result.0 runs.now) + result.1 ≡ n }
    ensures rest { result.0 < length runs.now → result.1 < (run_at runs.now result.0).count }
{
    let mut left = n;
    for i in 0..runs.len() {
        let count = runs[i].count;
        if left < count {
            return (i, left);
        }
        left -= count;
    }
    (runs.len(), left)
}

/// The n lowest blocks of runs, with how many runs they are whole and how many blocks of the next.
fn lowest(alloc: Global, runs: &[Run], n: u32) -> Result<(Vec<Run>, usize, u32), Memory>
    requires { n ≤ block_count runs.now }
    ensures { IfOk result (λ (claimed, whole, left).
        IsLowest n runs.now claimed.items whole left) }
{
    let (whole, left) = whole_runs(runs, n);
    let mut claimed = Vec::with_capacity(alloc, whole + 1)?;
    claimed.extend_from_slice(&runs[..whole])?;
    if left > 0 {
        let first = runs[whole].first;
        claimed.push(Run { first, count: left })?;
    }
    Ok((claimed, whole, left))
}

/// Takes the first runs out.
fn drop_front(free: &mut Vec<Run>, n: usize)
    requires { n ≤ length free.old.items }
    ensures items { free.new.items ≡ drop n free.old.items }
    ensures room { vec_capacity free.new ≡ vec_capacity free.old }
{
    free.drain(..n);
}

/// Takes some blocks out of the first run, which has more.
fn cut_first(free: &mut Vec<Run>, n: u32)
    requires some { 0 < length free.old.items }
    requires more { n < (run_at free.old.items 0).count }
    requires fits { (run_at free.old.items 0).first + n < 2 ^ 32 }
    ensures items { free.new.items ≡ cut_run n (run_at free.old.items 0) ∷ drop 1 free.old.items }
    ensures room { vec_capacity free.new ≡ vec_capacity free.old }
{
    let run = free[0];
    free[0] = Run {
        first: run.first + n,
        count: run.count - n,
    };
}

/// Takes the n lowest blocks out. After an `Err` nothing has changed.
pub(crate) fn claim_runs(alloc: Global, free: &mut Vec<Run>, n: u32) -> Result<Vec<Run>, Memory>
    requires runs { AreRuns 0 BLOCKS free.old.items }
    requires room { most_runs ≤ vec_capacity free.old }
    requires enough { n ≤ block_count free.old.items }
    ensures ok { IfOk result (λ claimed. Claims n free.old.items free.new.items claimed.items) }
    ensures count { OnOk result (block_count free.new.items + n ≡ block_count free.old.items) }
    ensures err { OnErr result (free.new.items ≡ free.old.items) }
    ensures runs { AreRuns 0 BLOCKS free.new.items }
    ensures room { most_runs ≤ vec_capacity free.new }
{
    let (claimed, whole, left) = lowest(alloc, free, n)?;
    drop_front(free, whole);
    if left > 0 {
        cut_first(free, left);
    }
    Ok(claimed)
}
