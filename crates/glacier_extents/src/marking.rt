// Several runs taken out of the free ones, and given back.
ghost use Rattle.std.specs.Prelude.{◌≡◌, ◌≤◌, ◌+◌, ◌&&◌, ◌||◌, ◌↔◌, ℕ, IsTrue, true, false, not};
ghost use Rattle.std.specs.Vec.{vec_capacity};
ghost use Rattle.glacier_extents.specs.Runs.{has_block, block_count, AreRuns, AreDistinct};
ghost use Rattle.glacier_extents.specs.FreeRuns.{most_runs, AllIn};

use crate::free_runs::{give_back, take_out};
use crate::run::{BLOCKS, Run};

/// Gives runs back.
pub(crate) fn release_runs(free: &mut Vec<Run>, runs: &[Run])
    requires runs { AreRuns 0 BLOCKS free.old.items }
    requires room { most_runs ≤ vec_capacity free.old }
    requires distinct { AreDistinct BLOCKS runs.now }
    requires used { (b : ℕ) → has_block runs.now b ≡ true → has_block free.old.items b ≡ false }
    ensures runs { AreRuns 0 BLOCKS free.new.items }
    ensures room { most_runs ≤ vec_capacity free.new }
    ensures blocks { (b : ℕ) → has_block free.new.items b ≡
        (has_block free.old.items b || has_block runs.now b) }
    ensures count { block_count free.new.items ≡ block_count free.old.items + block_count runs.now }
{
    for run in runs {
        give_back(free, *run);
    }
}

/// Takes runs out, where they are distinct blocks and all of them free; else changes nothing.
pub(crate) fn mark_runs(free: &mut Vec<Run>, runs: &[Run]) -> bool
    requires runs { AreRuns 0 BLOCKS free.old.items }
    requires room { most_runs ≤ vec_capacity free.old }
    ensures free { IsTrue result ↔ (AreDistinct BLOCKS runs.now × AllIn free.old.items runs.now) }
    ensures blocks { IsTrue result → (b : ℕ) → has_block free.new.items b ≡
        (has_block free.old.items b && not (has_block runs.now b)) }
    ensures count { IsTrue result →
        block_count free.new.items + block_count runs.now ≡ block_count free.old.items }
    ensures not { result ≡ false → free.new.items ≡ free.old.items }
    ensures runs { AreRuns 0 BLOCKS free.new.items }
    ensures room { most_runs ≤ vec_capacity free.new }
{
    for i in 0..runs.len() {
        if !take_out(free, runs[i]) {
            release_runs(free, &runs[..i]);
            return false;
        }
    }
    true
}

/// How many blocks runs have.
pub(crate) fn count_of(runs: &[Run]) -> u32
    requires { block_count runs.now ≤ BLOCKS }
    ensures { result ≡ block_count runs.now }
{
    let mut count = 0;
    for run in runs {
        count += run.count;
    }
    count
}
