// Laws of blocks, which no code calls.
ghost use Rattle.std.specs.Prelude.{◌≡◌, ◌+◌, ◌<◌, ℕ, List, not, true, false};
ghost use Rattle.glacier_extents.specs.FreeRuns.{Claims};
ghost use Rattle.glacier_extents.specs.Runs.{has_block, block_count, AreDistinct, AreRuns};
ghost use Rattle.glacier_extents.specs.declared.run.Run.{Run};

use crate::run::BLOCKS;

/// Where each of the 1,048,576 blocks is either free or in use, the numbers of both make up all.
#[tactic(auto, using(crate::proofs::CountLemmas::free_and_used))]
pub fn free_and_used_are_all()
    ensures { (free used : List Run) → AreRuns 0 BLOCKS free → AreDistinct BLOCKS used
        → ((b : ℕ) → b < BLOCKS → has_block used b ≡ not (has_block free b))
        → block_count free + block_count used ≡ BLOCKS }
{}

/// Where each block that isn't free is one of those in use, each of the n lowest free blocks lies below
/// the number of those in use and n.
pub fn claimed_blocks_are_low()
    ensures { (n : ℕ) (old new claimed used : List Run)
        → ((b : ℕ) → b < BLOCKS → has_block old b ≡ false → has_block used b ≡ true)
        → Claims n old new claimed → (b : ℕ) → has_block claimed b ≡ true → b < block_count used + n }
{}
