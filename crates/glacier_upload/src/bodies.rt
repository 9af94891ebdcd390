// What a body is held to before it is taken, and after.
ghost use Rattle.std.specs.Prelude.{◌≡◌, ◌<◌, ◌+◌, nat_lt, length};
ghost use Rattle.glacier_treehash.specs.Roots.{root_of_digests};
ghost use Rattle.glacier_vault.specs.Lawful.{IsLawful};
ghost use Rattle.glacier_upload.specs.Bodies.{room_refusal, body_refusal};

use crate::asks::Found;
use glacier_base::{Digest, List};
use glacier_treehash::root_of;
use glacier_vault::{AccountState, Refusal, blocks_of, refuse_draw, used};

/// Whether so many blocks more are above a quota.
fn is_above(quota: u64, used: u64, need: u64) -> bool
    ensures { result ≡ nat_lt quota (used + need) }
{
    need > quota || used > quota - need
}

/// Why a body of this size isn't taken: there is no room, or no number left to draw.
pub(crate) fn refuse_room(state: &AccountState, quota: u64, size: u64) -> Option<Refusal>
    requires lawful { IsLawful state.now }
    ensures { result ≡ room_refusal quota state.now size }
{
    let used = used(state);
    let need = blocks_of(size);
    if is_above(quota, used, need) {
        return Some(Refusal::NoRoom { used, need, quota });
    }
    refuse_draw(state)
}

/// The root of the tree over leaves, of which there is one at least.
pub(crate) fn root(leaves: &List<Digest>) -> Digest
    requires { 0 < length leaves.now }
    ensures { result ≡ root_of_digests leaves.now }
{
    let Some(root) = root_of(leaves.as_slice()) else {
        unreachable!();
    };
    root
}

/// Why a body isn't the one that was named: its SHA-256 differs, or its tree hash.
pub(crate) fn refuse_body(found: &Found, linear: &Digest, tree: &Digest) -> Option<Refusal>
    requires { 0 < length found.now.leaves }
    ensures { result ≡ body_refusal linear.now tree.now found.now }
{
    if found.linear != *linear {
        return Some(Refusal::ContentMismatch {
            found: found.linear,
            said: *linear,
        });
    }
    let root = root(&found.leaves);
    if root != *tree {
        return Some(Refusal::TreeMismatch {
            found: root,
            said: *tree,
        });
    }
    None
}
