// A sorted list of free runs.
ghost use Rattle.std.specs.Prelude.{◌≡◌, ◌+◌, ◌-◌, ◌<◌, ◌≤◌, ◌↔◌, ◌&&◌, ◌||◌, ℕ, IsTrue, true, false, not, IfSome, IfNone, length, drop};
ghost use Rattle.std.specs.List.{insert};
ghost use Rattle.std.specs.Vec.{vec_len, vec_capacity};
ghost use Rattle.glacier_extents.specs.Runs.{in_run, has_block, block_count, AreRuns};
ghost use Rattle.glacier_extents.specs.FreeRuns.{most_runs, run_at, IsRun, AllFree, IsWithin, IsFit, IsFree, IsPutIn, SameBlocks};

use crate::run::{BLOCKS, Run};

/// How many of the runs begin before a block, by halves.
fn place_of(runs: &[Run], block: u32) -> usize
    ensures within { result ≤ length runs.now }
    ensures before { 0 < result → (run_at runs.now (result - 1)).first < block }
    ensures behind { result < length runs.now → block ≤ (run_at runs.now result).first }
{
    let mut low = 0;
    let mut high = runs.len();
    while low < high {
        let middle = low + (high - low) / 2;
        let run = runs[middle];
        if run.first < block {
            low = middle + 1;
        } else {
            high = middle;
        }
    }
    low
}

/// Joins a run with the free one that begins where it ends, which goes out of the list.
fn join_behind(runs: &mut Vec<Run>, at: usize, run: Run) -> Run
    requires { IsFit at run runs.old.items }
    ensures fit { IsFit at result runs.new.items }
    ensures gap { AreRuns (result.first + result.count + 1) BLOCKS (drop at runs.new.items) }
    ensures blocks { SameBlocks runs.old.items run runs.new.items result }
    ensures room { vec_capacity runs.new ≡ vec_capacity runs.old }
{
    if at < runs.len() {
        let next = runs[at];
        if next.first == run.first + run.count {
            let _ = runs.remove(at);
            return Run {
                first: run.first,
                count: run.count + next.count,
            };
        }
    }
    run
}

/// Joins a run with the free one that ends where it begins, which goes out of the list; gives its
/// place too.
fn join_before(runs: &mut Vec<Run>, at: usize, run: Run) -> (usize, Run)
    requires fit { IsFit at run runs.old.items }
    requires gap { AreRuns (run.first + run.count + 1) BLOCKS (drop at runs.old.items) }
    ensures fit { IsFree result.0 result.1 runs.new.items }
    ensures blocks { SameBlocks runs.old.items run runs.new.items result.1 }
    ensures room { vec_capacity runs.new ≡ vec_capacity runs.old }
{
    if at > 0 {
        let last = runs[at - 1];
        if last.first + last.count == run.first {
            let _ = runs.remove(at - 1);
            let joined = Run {
                first: last.first,
                count: last.count + run.count,
            };
            return (at - 1, joined);
        }
    }
    (at, run)
}

/// Inserts a run, for which there is room.
fn insert_at(runs: &mut Vec<Run>, at: usize, run: Run)
    requires within { at ≤ vec_len runs.old }
    requires room { vec_len runs.old < vec_capacity runs.old }
    ensures items { runs.new.items ≡ insert runs.old.items at run }
    ensures room { vec_capacity runs.old ≤ vec_capacity runs.new }
{
    if runs.insert(at, run).is_err() {
        unreachable!();
    }
}

/// Puts a run among the free ones, joined with those that it touches.
pub(crate) fn give_back(runs: &mut Vec<Run>, run: Run)
    requires runs { AreRuns 0 BLOCKS runs.old.items }
    requires some { 0 < run.count }
    requires high { run.first + run.count ≤ BLOCKS }
    requires used { (b : ℕ) → in_run run b ≡ true → has_block runs.old.items b ≡ false }
    requires room { most_runs ≤ vec_capacity runs.old }
    ensures runs { AreRuns 0 BLOCKS runs.new.items }
    ensures blocks { (b : ℕ) → has_block runs.new.items b ≡
        (has_block runs.old.items b || in_run run b) }
    ensures count { block_count runs.new.items ≡ block_count runs.old.items + run.count }
    ensures room { most_runs ≤ vec_capacity runs.new }
{
    let at = place_of(runs, run.first);
    let joined = join_behind(runs, at, run);
    let (at, joined) = join_before(runs, at, joined);
    insert_at(runs, at, joined);
}

/// Whether a run has a block, and none past the last.
pub(crate) fn is_run(run: Run) -> bool
    ensures { IsTrue result ↔ IsRun run }
{
    run.count > 0 && run.first < BLOCKS && run.count <= BLOCKS - run.first
}

/// Inserts a run among those that it doesn't touch, if it has a block.
fn put_in(runs: &mut Vec<Run>, at: usize, run: Run)
    requires runs { AreRuns 0 BLOCKS runs.old.items }
    requires free { 0 < run.count → IsFree at run runs.old.items }
    requires within { at ≤ length runs.old.items }
    requires room { most_runs ≤ vec_capacity runs.old }
    ensures runs { AreRuns 0 BLOCKS runs.new.items }
    ensures blocks { (b : ℕ) → has_block runs.new.items b ≡
        (has_block runs.old.items b || in_run run b) }
    ensures count { block_count runs.new.items ≡ block_count runs.old.items + run.count }
    ensures around { IsPutIn at run.first runs.old.items runs.new.items }
    ensures room { most_runs ≤ vec_capacity runs.new }
{
    if run.count > 0 {
        insert_at(runs, at, run);
    }
}

/// The free run that has all blocks of a run, or None where they aren't all free.
fn holder_of(runs: &[Run], run: Run) -> Option<usize>
    requires runs { AreRuns 0 BLOCKS runs.now }
    requires run { IsRun run }
    ensures some { IfSome result (λ at. (at < length runs.now) × IsWithin run (run_at runs.now at)) }
    ensures none { IfNone result (AllFree runs.now run → ⊥) }
{
    let behind = place_of(runs, run.first + 1);
    if behind == 0 {
        return None;
    }
    let holder = runs[behind - 1];
    if holder.first + holder.count < run.first + run.count {
        return None;
    }
    Some(behind - 1)
}

/// Takes a run out of the free one that has its blocks.
fn cut_out(runs: &mut Vec<Run>, at: usize, run: Run)
    requires runs { AreRuns 0 BLOCKS runs.old.items }
    requires room { most_runs ≤ vec_capacity runs.old }
    requires run { IsRun run }
    requires inside { at < length runs.old.items }
    requires held { IsWithin run (run_at runs.old.items at) }
    ensures blocks { (b : ℕ) → has_block runs.new.items b ≡
        (has_block runs.old.items b && not (in_run run b)) }
    ensures count { block_count runs.new.items + run.count ≡ block_count runs.old.items }
    ensures runs { AreRuns 0 BLOCKS runs.new.items }
    ensures room { most_runs ≤ vec_capacity runs.new }
{
    let holder = runs.remove(at);
    let end = run.first + run.count;
    let tail = Run {
        first: end,
        count: holder.first + holder.count - end,
    };
    put_in(runs, at, tail);
    let head = Run {
        first: holder.first,
        count: run.first - holder.first,
    };
    put_in(runs, at, head);
}

/// Takes a run out of the free ones, where all its blocks are free.
pub(crate) fn take_out(runs: &mut Vec<Run>, run: Run) -> bool
    requires runs { AreRuns 0 BLOCKS runs.old.items }
    requires room { most_runs ≤ vec_capacity runs.old }
    ensures free { IsTrue result ↔ (IsRun run × AllFree runs.old.items run) }
    ensures blocks { IsTrue result → (b : ℕ) → has_block runs.new.items b ≡
        (has_block runs.old.items b && not (in_run run b)) }
    ensures count { IsTrue result →
        block_count runs.new.items + run.count ≡ block_count runs.old.items }
    ensures not { result ≡ false → runs.new.items ≡ runs.old.items }
    ensures runs { AreRuns 0 BLOCKS runs.new.items }
    ensures room { most_runs ≤ vec_capacity runs.new }
{
    if !is_run(run) {
        return false;
    }
    match holder_of(runs, run) {
        Some(at) => {
            cut_out(runs, at, run);
            true
        }
        None => false,
    }
}
