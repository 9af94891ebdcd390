// A piece of a body, written block after block.
ghost use Rattle.std.specs.Prelude.{◌≡◌, ◌+◌, ◌*◌, ◌≤◌, ◌++◌, ℕ, List, IsTrue, true, length, OnOk};
ghost use Rattle.glacier_disk.specs.declared.area.Area.TheVariants.{Blobs};
ghost use Rattle.glacier_extents.specs.Places.{WritesBlocks};
ghost use Rattle.glacier_extents.specs.Runs.{AreDistinct, block_count, has_block};
ghost use Rattle.glacier_bodies.specs.Blobs.{Holds};
ghost use Rattle.glacier_bodies.specs.Calls.{BlobCall};

use crate::Layout;
use glacier_base::Failed;
use glacier_disk::Disk;
use glacier_extents::{BLOCK, BLOCKS, write_block};

/// Writes bytes to the blocks of a layout from a place on, one after another.
pub(crate) fn write_pieces<D: Disk>(
    disk: &mut D,
    layout: &Layout,
    from: u32,
    bytes: &[u8],
) -> Result<(), Failed>
    requires open { (D.told disk.old).opened ≡ true }
    requires room { from * BLOCK + length bytes.now ≤ block_count layout.now * BLOCK }
    requires bound { block_count layout.now ≤ BLOCKS }
    requires distinct { AreDistinct BLOCKS layout.now }

    // What was stored before them stays, and they stand behind it.
    ensures stored { IsTrue D.tells → (before : List ℕ) → length before ≡ from * BLOCK →
        Holds layout.now before ((D.told disk.old).reads Blobs) →
        Holds layout.now before ((D.told disk.new).reads Blobs) × OnOk result
        (Holds layout.now (before ++ bytes.now) ((D.told disk.new).reads Blobs)) }
    ensures own { IsTrue D.tells →
        WritesBlocks (has_block layout.now) (D.told disk.old) (D.told disk.new) }
    ensures alone { D.by_disk disk.old disk.new }
    ensures call { BlobCall (D.told disk.old) (D.told disk.new) result }
{
    let size = BLOCK as usize;
    for i in 0..bytes.len().div_ceil(size) {
        let start = i * size;
        let end = bytes.len().min(start + size);
        let block = layout.block(from + i as u32);
        write_block(disk, block, &bytes[start..end])?;
    }
    Ok(())
}
