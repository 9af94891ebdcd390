// The bytes of a block on a disk.
ghost use Rattle.std.specs.Prelude.{◌≡◌, ◌+◌, ◌*◌, ◌<◌, ◌≤◌, IsTrue, true, nat_eq, length, OnOk};
ghost use Rattle.glacier_disk.specs.declared.area.Area.TheVariants.{Blobs};
ghost use Rattle.glacier_disk.specs.Image.{window};
ghost use Rattle.glacier_disk.specs.Calls.{Counted};
ghost use Rattle.glacier_disk.specs.DiskCalls.{ChangeCall, LookCall};
ghost use Rattle.glacier_extents.specs.Places.{HasAt, WritesBlocks};

use crate::run::{BLOCK, BLOCKS};
use glacier_base::Failed;
use glacier_disk::{Area, Disk};

/// Writes 1 to 1,048,576 bytes at the start of a block of Blobs, and nothing outside the block. A
/// call that fails may have written some of them. It takes no memory.
pub fn write_block<D: Disk>(disk: &mut D, block: u32, bytes: &[u8]) -> Result<(), Failed>
    requires open { (D.told disk.old).opened ≡ true }
    requires block { block < BLOCKS }
    requires some { 0 < length bytes.now }
    requires size { length bytes.now ≤ BLOCK }
    ensures wrote { IsTrue D.tells → OnOk result
        (HasAt (block * BLOCK) bytes.now ((D.told disk.new).reads Blobs)) }
    ensures own { IsTrue D.tells → WritesBlocks (nat_eq block) (D.told disk.old) (D.told disk.new) }
    ensures counted { IsTrue D.tells →
        Counted (D.told disk.old).moment (D.told disk.new).moment result }
    ensures alone { D.by_disk disk.old disk.new }
    ensures call { ChangeCall (D.told disk.old) (D.told disk.new) result }
{
    disk.write_at(Area::Blobs, block as u64 * BLOCK, bytes)
}

/// Fills `into` with bytes of a block of Blobs, from a place in it on; the two are together at most
/// 1,048,576 bytes. What was never written reads as 0. It takes no memory.
pub fn read_block<D: Disk>(
    disk: &mut D,
    block: u32,
    skip: u32,
    into: &mut [u8],
) -> Result<(), Failed>
    requires open { (D.told disk.old).opened ≡ true }
    requires block { block < BLOCKS }
    requires inside { skip + length into.old ≤ BLOCK }
    ensures bytes { IsTrue D.tells → OnOk result (into.new ≡
        window ((D.told disk.old).reads Blobs) (block * BLOCK + skip) (length into.old)) }
    ensures counted { IsTrue D.tells →
        Counted (D.told disk.old).moment (D.told disk.new).moment result }
    ensures alone { D.by_disk disk.old disk.new }
    ensures call { LookCall (D.told disk.old) (D.told disk.new) result }
{
    disk.read(Area::Blobs, block as u64 * BLOCK + skip as u64, into)
}
