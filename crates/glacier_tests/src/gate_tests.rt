// What is told to a gate while leaves are hashed, and that two leaves are hashed at once.
ghost use Rattle.std.specs.Prelude.{◌≤◌, ◌^◌, length};

use crate::treehash_tests::{LINEAR_OF_2_MIB, OF_FIRST, OF_SECOND, counted, is_shown};
use glacier_base::Digest;
use glacier_treehash::{Gate, Linear, MIB, hash_piece, tree_hash_forked};
use std::sync::atomic::{AtomicU64, Ordering};
use std::test::Fail;
use std::thread::Threads;

/// What was told to a gate: how often it was called, and with which numbers of leaves, summed up.
#[derive(Drop)]
struct Calls {
    count: AtomicU64,
    sum: AtomicU64,
}

impl Gate for Calls {
    fn before_leaf(&self, index: u64) {
        self.count.fetch_add(1, Ordering::SeqCst);
        self.sum.fetch_add(index, Ordering::SeqCst);
    }
}

/// The count and the sum for so many bytes.
fn gate_calls<R: Threads + Sync>(rt: &R, bytes: &[u8]) -> (u64, u64)
    requires { length bytes.now ≤ 2 ^ 63 }
{
    let calls = Calls {
        count: AtomicU64::new(0),
        sum: AtomicU64::new(0),
    };
    tree_hash_forked(rt, bytes, 2, &calls);
    (
        calls.count.load(Ordering::SeqCst),
        calls.sum.load(Ordering::SeqCst),
    )
}

#[test]
fn gate_is_called_for_each_leaf(rt: HostRuntime) -> Result<(), Fail> {
    for (length, want) in [(0, (1, 0)), (3 * MIB + 1, (4, 6))] {
        let bytes = counted(rt.alloc(), length)?;
        assert!(rt; gate_calls(&rt, &bytes) == want, "{length} bytes");
    }
    Ok(())
}

/// Each call waits, at most so many turns, until the other one has come.
#[derive(Drop)]
struct Meeting {
    came: AtomicU64,
    late: AtomicU64,
}

impl Gate for Meeting {
    fn before_leaf(&self, _index: u64) {
        self.came.fetch_add(1, Ordering::SeqCst);
        for _ in 0..100_000_000u64 {
            if self.came.load(Ordering::SeqCst) >= 2 {
                return;
            }
        }
        self.late.fetch_add(1, Ordering::SeqCst);
    }
}

fn new_meeting() -> Meeting {
    Meeting {
        came: AtomicU64::new(0),
        late: AtomicU64::new(0),
    }
}

/// Whether both leaves of a tree are hashed at once.
fn do_forks_meet<R: Threads + Sync>(rt: &R, bytes: &[u8]) -> bool
    requires { length bytes.now ≤ 2 ^ 63 }
{
    let gate = new_meeting();
    tree_hash_forked(rt, bytes, 1, &gate);
    gate.late.load(Ordering::SeqCst) == 0
}

/// The plain hash and those of two leaves, where both leaves are hashed at once.
fn met_piece<R: Threads + Sync>(rt: &R, bytes: &[u8]) -> Option<[Digest; 3]> {
    if bytes.len() != 2 * MIB {
        return None;
    }
    let gate = new_meeting();
    let mut linear = Linear::new();
    let mut leaves = [Digest([0; 32]); 2];
    hash_piece(rt, bytes, &mut linear, &mut leaves, 1, &gate);
    if gate.late.load(Ordering::SeqCst) != 0 {
        return None;
    }
    let [first, second] = leaves;
    Some([linear.finish(), first, second])
}

#[test]
fn two_leaves_at_once(rt: HostRuntime) -> Result<(), Fail> {
    let bytes = counted(rt.alloc(), 2 * MIB)?;
    assert!(rt; do_forks_meet(&rt, &bytes));
    let [linear, first, second] = met_piece(&rt, &bytes).ok_or("one was late")?;
    assert!(rt; is_shown(&linear, LINEAR_OF_2_MIB));
    assert!(rt; is_shown(&first, OF_FIRST));
    assert!(rt; is_shown(&second, OF_SECOND));
    Ok(())
}
