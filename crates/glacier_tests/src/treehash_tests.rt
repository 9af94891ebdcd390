// Tree hashes of known inputs, by each way to them.
ghost use Rattle.std.specs.Prelude.{◌*◌, ◌<◌, ◌≤◌, ◌^◌, length};

use glacier_base::Digest;
use glacier_treehash::{
    Gate, Linear, MIB, Open, TreeHasher, hash_piece, is_node, range_hash, root_of, tree_hash,
    tree_hash_forked,
};
use std::alloc::{AllocError, Global};
use std::test::Fail;
use std::thread::Threads;

// Tree hashes where byte i is i mod 251, and of a million bytes `a`: docs/TESTING.md says where
// they come from.
const OF_NOTHING: &str = "e3b0c44298fc1c149afbf4c8996fb92427ae41e4649b934ca495991b7852b855";

const OF_A_MILLION: &str = "cdc76e5c9914fb9281a1c7e284d73e67f1809a48a497200e046d39ccc7112cd0";

const OF_3_MIB_AND_1: &str = "66ac946469b53baeeb5d6d4587807d914a28a0b59c4b2f5f105f64d312db56cc";

const OF_5_MIB: &str = "1eccd0ca741241ce114bde6d24a8de044ccee139ef6651bec9006d2f558751ef";

const OF_44_MIB: &str = "d98180bbcdc20e6f77a009fd3f2591d98ebdf252ea77035e283bc8e182018d3f";

// Of leaves of the same bytes, and the plain SHA-256 of two of them.
pub const OF_FIRST: &str = "631b84027d6b9e52b539c4e8373622d23032dfadc64d60af87339c9037e4f769";

pub const OF_SECOND: &str = "729b9155f00261a681000ccd0ff20e750ed3d525b5b1e6fc961837a3bb666fd6";

const OF_FIFTH: &str = "913ce5b1447d28935c8acc3bc64add33b4c092c1eda4d6913e42f41f57b73b11";

const OF_THIRD_AND_FOURTH: &str =
    "9e217b1ceb8db81071f9c6e4a2bf0401a83491d10751ce858a2628f5d699dbdb";

const OF_FIRST_4: &str = "c7d749cd55cefa8ed8fbc208202e18d019b7701f29886f7c5d662d77b3903833";

pub const LINEAR_OF_2_MIB: &str =
    "1e075c8d478ad21844e33e830a695ef03a4d2488b69ee275bd8947618bb1be1e";

/// Bytes of which byte i is i mod 251. No clause speaks of them: a proof would compute so long a
/// list.
pub fn counted(alloc: Global, length: usize) -> Result<Vec<u8>, AllocError> {
    let mut bytes = Vec::with_capacity(alloc, length)?;
    for i in 0..length {
        bytes.push((i % 251) as u8)?;
    }
    Ok(bytes)
}

/// As many bytes `a`.
fn letters(alloc: Global, length: usize) -> Result<Vec<u8>, AllocError> {
    vec![in alloc; b'a'; length]
}

pub fn is_shown(digest: &Digest, text: &str) -> bool {
    digest.text().as_slice() == text.as_bytes()
}

/// The tree hash of the bytes, fed in pieces of these sizes and then of this one.
fn fed(bytes: &[u8], firsts: &[usize], size: usize) -> Digest
    requires some { 0 < size }
    requires fits { length bytes.now ≤ 2 ^ 63 }
{
    let mut hasher = TreeHasher::new();
    let mut start = 0;
    for first in firsts {
        let end = start + (bytes.len() - start).min(*first);
        hasher.feed(&bytes[start..end]);
        start = end;
    }
    while start < bytes.len() {
        let end = start + (bytes.len() - start).min(size);
        hasher.feed(&bytes[start..end]);
        start = end;
    }
    hasher.finish()
}

/// Whether stretches of each of these grains give this tree hash.
fn are_forks_right<R: Threads + Sync>(rt: &R, bytes: &[u8], want: &str) -> bool
    requires { length bytes.now ≤ 2 ^ 63 }
{
    for grain in 1..7u32 {
        if !is_shown(&tree_hash_forked(rt, bytes, grain, &Open), want) {
            return false;
        }
    }
    true
}

/// Whether pieces of each of these sizes give this tree hash.
fn are_pieces_right(bytes: &[u8], want: &str) -> bool
    requires { length bytes.now ≤ 2 ^ 63 }
{
    for size in [1, 63, 65_537, MIB - 1, MIB, MIB + 1, 3 * MIB] {
        if !is_shown(&fed(bytes, &[], size), want) {
            return false;
        }
    }
    true
}

/// Whether each way gives this tree hash.
fn is_known<R: Threads + Sync>(rt: &R, bytes: &[u8], want: &str) -> bool {
    is_shown(&tree_hash(bytes), want)
        && are_forks_right(rt, bytes, want)
        && are_pieces_right(bytes, want)
}

#[test]
fn every_way_gives_the_known_values(rt: HostRuntime) -> Result<(), Fail> {
    let million = letters(rt.alloc(), 1_000_000)?;
    assert!(rt; is_known(&rt, &million, OF_A_MILLION));
    let rows = [
        (0, OF_NOTHING),
        (3 * MIB + 1, OF_3_MIB_AND_1),
        (5 * MIB, OF_5_MIB),
    ];
    for (length, want) in rows {
        let bytes = counted(rt.alloc(), length)?;
        assert!(rt; is_known(&rt, &bytes, want), "{length} bytes");
    }
    Ok(())
}

fn is_44_mib_right(alloc: Global) -> Result<bool, AllocError> {
    let bytes = counted(alloc, 44 * MIB)?;
    let digest = fed(&bytes, &[1, MIB - 1, MIB], 65_537);
    Ok(is_shown(&digest, OF_44_MIB) && is_shown(&tree_hash(&bytes), OF_44_MIB))
}

#[test]
fn pieces_of_many_sizes(rt: HostRuntime) -> Result<(), Fail> {
    assert!(rt; is_44_mib_right(rt.alloc())?);
    Ok(())
}

/// The tree hash of bytes whose whole leaves are handed over as digests.
fn from_leaves(leaves: &[Digest]) -> Digest
    requires some { 0 < length leaves.now }
    requires fits { length leaves.now * MIB ≤ 2 ^ 63 }
{
    let mut hasher = TreeHasher::new();
    hasher.feed_leaves(&leaves[..1]);
    hasher.feed_leaves(&leaves[1..]);
    hasher.finish()
}

/// The digests of the five leaves, where there are five.
fn five_leaves<R: Threads + Sync>(rt: &R, bytes: &[u8]) -> Option<[Digest; 5]> {
    if bytes.len() != 5 * MIB {
        return None;
    }
    let mut leaves = [Digest([0; 32]); 5];
    hash_piece(rt, bytes, &mut Linear::new(), &mut leaves, 1, &Open);
    Some(leaves)
}

/// The tree hash and the five leaves, by a hasher that is fed by two workers.
fn fed_by_two<R: Threads + Sync>(rt: &R, bytes: &[u8]) -> Option<(Digest, [Digest; 5])> {
    if bytes.len() != 5 * MIB {
        return None;
    }
    let mut leaves = [Digest([0; 32]); 5];
    let mut hasher = TreeHasher::new();
    hasher.feed_forked(rt, bytes, &mut leaves, 2, &Open);
    Some((hasher.finish(), leaves))
}

#[test]
fn leaves_and_what_is_made_of_them(rt: HostRuntime) -> Result<(), Fail> {
    let bytes = counted(rt.alloc(), 5 * MIB)?;
    let (digest, leaves) = fed_by_two(&rt, &bytes).ok_or("not five")?;
    let root = root_of(&leaves).ok_or("no root")?;
    for digest in [digest, root, from_leaves(&leaves)] {
        assert!(rt; is_shown(&digest, OF_5_MIB));
    }
    assert!(rt; root_of(&[]).is_none());
    Ok(())
}

/// Nodes of the tree over 5 MiB: their first byte, the byte behind them and their hash.
const NODES: [(u64, u64, &str); 4] = [
    (0, 4 << 20, OF_FIRST_4),
    (4 << 20, 5 << 20, OF_FIFTH),
    (2 << 20, 4 << 20, OF_THIRD_AND_FOURTH),
    (0, 5 << 20, OF_5_MIB),
];

fn is_node_with(leaves: &[Digest; 5], first: u64, end: u64, want: &str) -> bool {
    match range_hash(leaves, 5 << 20, first, end) {
        Some(digest) => is_node(5 << 20, first, end) && is_shown(&digest, want),
        None => false,
    }
}

fn is_no_node(leaves: &[Digest; 5], first: u64, end: u64) -> bool {
    !is_node(5 << 20, first, end) && range_hash(leaves, 5 << 20, first, end).is_none()
}

#[test]
fn nodes_of_5_mib(rt: HostRuntime) -> Result<(), Fail> {
    let bytes = counted(rt.alloc(), 5 * MIB)?;
    let leaves = five_leaves(&rt, &bytes).ok_or("not five")?;
    for (first, end, want) in NODES {
        assert!(rt; is_node_with(&leaves, first, end, want), "{first} to {end}");
    }
    for (first, end) in [(1 << 20, 3 << 20), (0, 10)] {
        assert!(rt; is_no_node(&leaves, first, end), "{first} to {end}");
    }
    assert!(rt; !is_node(0, 0, 0));
    Ok(())
}
