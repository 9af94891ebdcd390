// Free blocks, claimed, released and marked. The runs are by hand from docs/rules/blocks.md.
ghost use Rattle.std.specs.Prelude.{◌≡◌, ◌<◌, ℕ, false, IfSome};
ghost use Rattle.glacier_extents.specs.Runs.{has_block};

use glacier_base::List;
use glacier_extents::{Blocks, Run};
use std::alloc::Global;
use std::test::Fail;

/// A first block, and how many blocks.
type Pair = (u32, u32);

fn runs_of(alloc: Global, pairs: &[Pair]) -> Option<List<Run>> {
    let mut runs = List::new(alloc);
    for (first, count) in pairs {
        let run = Run {
            first: *first,
            count: *count,
        };
        runs.push(run).ok()?;
    }
    Some(runs)
}

fn are(runs: &List<Run>, pairs: &[Pair]) -> bool {
    let runs = runs.as_slice();
    if runs.len() != pairs.len() {
        return false;
    }
    for i in 0..runs.len() {
        if (runs[i].first, runs[i].count) != pairs[i] {
            return false;
        }
    }
    true
}

/// Runs that are marked one after another, and whether they are accepted: two, the same again, an
/// empty one, one past the last block, a block twice in two runs, the last block, and a block of
/// those that are in use by now.
const MARKS: [(&[Pair], bool); 7] = [
    (&[(0, 1), (2, 1)], true),
    (&[(0, 1), (2, 1)], false),
    (&[(7, 0)], false),
    (&[(1_048_575, 2)], false),
    (&[(5, 2), (6, 1)], false),
    (&[(1_048_575, 1)], true),
    (&[(9, 1), (2, 1)], false),
];

/// Marks the runs of the table, and then claims three blocks: those that aren't in use, the lowest
/// first.
fn are_marked(alloc: Global) -> Option<bool> {
    let mut blocks = Blocks::new(alloc).ok()?;
    for (pairs, is_free) in &MARKS {
        let runs = runs_of(alloc, pairs)?;
        if blocks.mark(&runs) != *is_free {
            return Some(false);
        }
    }
    if blocks.free() != 1_048_573 {
        return Some(false);
    }
    let claimed = blocks.claim(alloc, 3).ok()?;
    Some(are(&claimed, &[(1, 1), (3, 2)]))
}

/// Blocks of which the first four are in use.
fn four_in_use(alloc: Global) -> Option<Blocks>
    ensures { IfSome result (λ blocks. (b : ℕ) → b < 4 → has_block blocks b ≡ false) }
{
    let mut blocks = Blocks::new(alloc).ok()?;
    let Ok(claimed) = blocks.claim(alloc, 4) else {
        return None;
    };
    let runs = claimed.as_slice();
    if runs.len() == 1 && runs[0].first == 0 && runs[0].count == 4 {
        return Some(blocks);
    }
    None
}

/// Gives blocks 0 and 2 back.
fn give_two_back(alloc: Global, blocks: &mut Blocks) -> Option<()>
    requires { (b : ℕ) → b < 4 → has_block blocks.old b ≡ false }
{
    let mut two = List::new(alloc);
    two.push(Run { first: 0, count: 1 }).ok()?;
    two.push(Run { first: 2, count: 1 }).ok()?;
    blocks.release(&two);
    Some(())
}

/// Claims four blocks, gives the first and the third back, and claims three.
fn are_claimed_again(alloc: Global) -> Option<bool> {
    let mut blocks = four_in_use(alloc)?;
    give_two_back(alloc, &mut blocks)?;
    if blocks.free() != 1_048_574 {
        return Some(false);
    }
    let claimed = blocks.claim(alloc, 3).ok()?;
    Some(are(&claimed, &[(0, 1), (2, 1), (4, 1)]))
}

#[test]
fn blocks_are_claimed_again(rt: HostRuntime) -> Result<(), Fail> {
    assert!(rt; are_claimed_again(rt.alloc()) == Some(true));
    Ok(())
}

#[test]
fn runs_are_marked(rt: HostRuntime) -> Result<(), Fail> {
    assert!(rt; are_marked(rt.alloc()) == Some(true));
    Ok(())
}
