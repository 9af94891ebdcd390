// Nodes of a tree, and the tree hashes of ranges.
ghost use Rattle.std.specs.Prelude.{◌≡◌, ◌-◌, ◌/◌, ◌<◌, ◌≤◌, ◌⊎◌, ◌↔◌, ℕ, List, IsTrue, IsSome, IfSome, length, slice_range};
ghost use Rattle.std.specs.Int.{div_ceil};
ghost use Rattle.glacier_treehash.specs.Leaves.{leaves_of};
ghost use Rattle.glacier_treehash.specs.Nodes.{IsNode, is_node_of, range_root};
ghost use Rattle.glacier_treehash.specs.Roots.{root_of_digests};
ghost use Rattle.glacier_treehash.specs.Tree.{tree_hash_of};

use crate::root::root_of;
use crate::tree::MIB;
use glacier_base::Digest;

const LEAF: u64 = MIB as u64;

/// Whether the bytes from `first` to before `end` are a node of the tree over `size` bytes: a
/// stretch of 2^k leaves that begins at a multiple of its length, or what is left of one at the
/// end. False for a size of 0.
pub fn is_node(size: u64, first: u64, end: u64) -> bool
    ensures node { IsTrue result ↔ IsNode size first end }
    ensures test { result ≡ is_node_of size first end }
    ensures range { IsTrue result → (first < end) × (end ≤ size) }
{
    if first >= end || end > size || first % LEAF != 0 {
        return false;
    }
    let width = (end - first).div_ceil(LEAF).next_power_of_two();
    if first / LEAF % width != 0 {
        return false;
    }
    is_filled(size, first, end, width)
}

/// Whether these bytes are so many whole leaves, or end with all bytes.
fn is_filled(size: u64, first: u64, end: u64, width: u64) -> bool
    requires { first ≤ end }
    ensures { IsTrue result ↔ (end ≡ size) ⊎ ((end - first) / MIB ≡ width) }
{
    end == size || (end - first) / LEAF == width
}

/// The tree hash of the bytes from `first` to before `end`, of `size` bytes with these leaves: None
/// where they are no node.
pub fn range_hash(leaves: &[Digest], size: u64, first: u64, end: u64) -> Option<Digest>
    requires some { 1 ≤ size }
    requires count { length leaves.now ≡ div_ceil size MIB }
    ensures node { IsSome result ↔ IsNode size first end }
    ensures root { IfSome result (λ root.
        root ≡ root_of_digests (slice_range leaves.now (first / MIB) (div_ceil end MIB))) }
    ensures value { result ≡ range_root leaves.now size first end }
    ensures tree_hash { (bytes : List ℕ) → length bytes ≡ size → leaves.now ≡ leaves_of bytes →
        IfSome result (λ digest. digest ≡ tree_hash_of (slice_range bytes first end)) }
{
    if !is_node(size, first, end) {
        return None;
    }
    root_of(leaves_between(leaves, first, end))
}

/// The leaves of the bytes from `first` to before `end`.
fn leaves_between(leaves: &[Digest], first: u64, end: u64) -> &[Digest]
    requires order { first < end }
    requires within { div_ceil end MIB ≤ length leaves.now }
    ensures { result.now ≡ slice_range leaves.now (first / MIB) (div_ceil end MIB) }
{
    &leaves[(first / LEAF) as usize..end.div_ceil(LEAF) as usize]
}
