// Bytes of a blob, read back from its blocks.
ghost use Rattle.std.specs.Prelude.{◌≡◌, ◌+◌, ◌-◌, ◌*◌, ◌≤◌, ℕ, List, IsTrue, true, length, min, take, drop, IfOk, OnOk};
ghost use Rattle.glacier_disk.specs.declared.area.Area.TheVariants.{Blobs};
ghost use Rattle.glacier_disk.specs.Calls.{Rests};
ghost use Rattle.glacier_extents.specs.Runs.{block_count};
ghost use Rattle.glacier_bodies.specs.Blobs.{Holds};
ghost use Rattle.glacier_bodies.specs.Calls.{BlobCall};

use crate::Layout;
use glacier_base::Failed;
use glacier_disk::Disk;
use glacier_extents::{BLOCK, read_block};

/// Fills `into` with the bytes of a blob from a place on.
pub fn read_blob<D: Disk>(
    disk: &mut D,
    layout: &Layout,
    at: u64,
    into: &mut [u8],
) -> Result<(), Failed>
    requires open { (D.told disk.old).opened ≡ true }
    requires room { at + length into.old ≤ block_count layout.now * BLOCK }
    ensures bytes { IsTrue D.tells → (bytes : List ℕ) →
        Holds layout.now bytes ((D.told disk.old).reads Blobs) →
        at + length into.old ≤ length bytes →
        OnOk result (into.new ≡ take (length into.old) (drop at bytes)) }
    ensures rests { Rests (D.told disk.old) (D.told disk.new) }
    ensures alone { D.by_disk disk.old disk.new }
    ensures call { BlobCall (D.told disk.old) (D.told disk.new) result }
{
    let count = layout.count();
    let mut done = 0;
    while done < into.len() {
        let place = at + done as u64;
        let skip = place % BLOCK;
        let rest = (into.len() - done) as u64;
        let n = rest.min(BLOCK - skip) as usize;
        let block = layout.block((place / BLOCK) as u32);
        read_block(disk, block, skip as u32, &mut into[done..done + n])?;
        done += n;
    }
    Ok(())
}

/// Fills the front of `into` with the bytes of a blob from a place on, as far as its blocks reach,
/// and says how many these are: none where the place lies behind them.
pub(crate) fn read_front<D: Disk>(
    disk: &mut D,
    layout: &Layout,
    at: u64,
    into: &mut [u8],
) -> Result<usize, Failed>
    requires { (D.told disk.old).opened ≡ true }
    ensures count { IfOk result (λ n. n ≡ min (length into.old)
        (block_count layout.now * BLOCK - at)) }
    ensures bytes { IsTrue D.tells → (bytes : List ℕ) →
        Holds layout.now bytes ((D.told disk.old).reads Blobs) →
        IfOk result (λ n. at + n ≤ length bytes → take n into.new ≡ take n (drop at bytes)) }
    ensures rests { Rests (D.told disk.old) (D.told disk.new) }
    ensures alone { D.by_disk disk.old disk.new }
    ensures call { BlobCall (D.told disk.old) (D.told disk.new) result }
{
    let room = layout.count() as u64 * BLOCK;
    if at >= room {
        return Ok(0);
    }
    let n = (into.len() as u64).min(room - at) as usize;
    read_blob(disk, layout, at, &mut into[..n])?;
    Ok(n)
}
