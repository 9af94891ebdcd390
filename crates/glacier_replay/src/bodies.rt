// Kept bodies, and the numbers that they draw.
ghost use Rattle.std.specs.Prelude.{◌≡◌, ◌<◌, ◌&&◌, length};
ghost use Rattle.glacier_treehash.specs.Roots.{root_of_digests};
ghost use Rattle.glacier_replay.specs.Replayed.{can_draw, is_body};

use glacier_base::{Digest, List};
use glacier_treehash::root_of;
use glacier_vault::{AccountState, blocks_of};

/// Whether the account has a number left to draw.
pub(crate) fn can_draw(state: &AccountState) -> bool
    ensures { result ≡ can_draw state.now }
{
    state.counter != u64::MAX
}

/// Whether a body has a byte, and a leaf for each MiB that it begins.
pub(crate) fn is_body(size: u64, leaves: &List<Digest>) -> bool
    ensures { result ≡ is_body size leaves.now }
{
    size >= 1 && leaves.as_slice().len() as u64 == blocks_of(size)
}

/// Whether these are the leaves of a body, and it can draw a number.
pub(crate) fn takes_body(state: &AccountState, size: u64, leaves: &List<Digest>) -> bool
    ensures { result ≡ (is_body size leaves.now && can_draw state.now) }
{
    is_body(size, leaves) && can_draw(state)
}

/// The root of the tree over the leaves of a body.
pub(crate) fn tree_of(leaves: &List<Digest>) -> Digest
    requires { 0 < length leaves.now }
    ensures { result ≡ root_of_digests leaves.now }
{
    let Some(root) = root_of(leaves.as_slice()) else {
        unreachable!();
    };
    root
}
