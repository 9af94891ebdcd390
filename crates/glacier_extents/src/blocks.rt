// The free blocks.
ghost use Rattle.std.specs.Prelude.{◌≡◌, ◌≤◌, ◌<◌, ◌+◌, ◌-◌, ◌&&◌, ◌||◌, ◌↔◌, ℕ, IsTrue, true, false, not, IfOk, OnOk, OnErr};
ghost use Rattle.glacier_extents.specs.Runs.{has_block, block_count, AreRuns, AreDistinct};
ghost use Rattle.glacier_extents.specs.FreeRuns.{AllIn, Claims};

use crate::claiming::claim_runs;
use crate::marking::{count_of, mark_runs, release_runs};
use crate::run::{BLOCKS, Run};
use glacier_base::{List, Memory};
use std::alloc::Global;
use std::marker::Model;

/// The most runs that the free blocks can make up: every second block.
const MOST_RUNS: usize = 524_288;

/// The free blocks, which contracts see as runs: rising, none empty, each as long as can be.
#[derive(Drop)]
pub struct Blocks {
    runs: Vec<Run>,
    free: u32,
}

impl Model for Blocks {
    ghost use Rattle.std.specs.Prelude.{List};
    ghost use Rattle.std.specs.Vec.{vec_capacity};
    ghost use Rattle.glacier_extents.specs.declared.run.Run.{Run};
    ghost use Rattle.glacier_extents.specs.FreeRuns.{IsFreeSet};

    ghost Value = { List Run };

    ghost view = { λ a. a.runs.items };

    ghost invariant = { λ a. IsFreeSet a.runs.items a.free (vec_capacity a.runs) };
}

impl Blocks {
    /// All 1,048,576 blocks, free. All memory of the free set is taken here, 4 MiB.
    pub fn new(alloc: Global) -> Result<Self, Memory>
        ensures all { IfOk result (λ blocks. (b : ℕ) → IsTrue (has_block blocks b) ↔ (b < BLOCKS)) }
        ensures count { IfOk result (λ blocks. block_count blocks ≡ BLOCKS) }
    {
        let mut runs = Vec::with_capacity(alloc, MOST_RUNS)?;
        runs.push(Run {
            first: 0,
            count: BLOCKS,
        })?;
        Ok(Blocks { runs, free: BLOCKS })
    }

    /// How many blocks are free, at most 1,048,576.
    pub fn free(&self) -> u32
        ensures count { result ≡ block_count self.now }
        ensures bound { result ≤ BLOCKS }
        ensures rule { AreRuns 0 BLOCKS self.now }
    {
        self.free
    }

    /// Takes blocks out. Answers false, and changes nothing, exactly where a run is empty or ends past
    /// the last block, or a block is in use or named twice. It takes no memory.
    pub fn mark(&mut self, runs: &List<Run>) -> bool
        ensures free { IsTrue result ↔ (AreDistinct BLOCKS runs.now × AllIn self.old runs.now) }
        ensures blocks { IsTrue result → (b : ℕ) → has_block self.new b ≡
            (has_block self.old b && not (has_block runs.now b)) }
        ensures count { IsTrue result → block_count self.new + block_count runs.now ≡ block_count self.old }
        ensures same { result ≡ false → self.new ≡ self.old }
        ensures rule { AreRuns 0 BLOCKS self.new }
    {
        if !mark_runs(&mut self.runs, runs.as_slice()) {
            return false;
        }
        self.free -= count_of(runs.as_slice());
        true
    }

    /// Takes the n lowest free blocks out, in rising order and in the fewest runs. Their list takes
    /// memory; after an `Err` nothing is claimed.
    pub fn claim(&mut self, alloc: Global, n: u32) -> Result<List<Run>, Memory>
        requires { n ≤ block_count self.old }
        ensures ok { IfOk result (λ claimed. Claims n self.old self.new claimed) }
        ensures count { OnOk result (block_count self.new + n ≡ block_count self.old) }
        ensures err { OnErr result (self.new ≡ self.old) }
        ensures rule { AreRuns 0 BLOCKS self.new }
    {
        let claimed = claim_runs(alloc, &mut self.runs, n)?;
        self.free -= n;
        Ok(List::from_vec(claimed))
    }

    /// Gives back blocks that are in use, each named once. It takes no memory.
    pub fn release(&mut self, runs: &List<Run>)
        requires distinct { AreDistinct BLOCKS runs.now }
        requires used { (b : ℕ) → has_block runs.now b ≡ true → has_block self.old b ≡ false }
        ensures blocks { (b : ℕ) → has_block self.new b ≡ (has_block self.old b || has_block runs.now b) }
        ensures count { block_count self.new ≡ block_count self.old + block_count runs.now }
        ensures rule { AreRuns 0 BLOCKS self.new }
    {
        release_runs(&mut self.runs, runs.as_slice());
        self.free += count_of(runs.as_slice());
    }
}
