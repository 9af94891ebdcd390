// What is read made durable, and a write with it.
ghost use Rattle.std.specs.Prelude.{◌≡◌, ◌<◌, ◌+◌, ◌^◌, IsTrue, length, true, OnOk};
ghost use Rattle.glacier_disk.specs.DiskCalls.{ChangeCall, LookCall};
ghost use Rattle.glacier_disk.specs.Image.{Becomes, Only, put};
ghost use Rattle.glacier_disk.specs.Moments.{Looks};
ghost use Rattle.glacier_journal.specs.Appending.{WritesPart};

use glacier_base::Failed;
use glacier_disk::{Area, Disk};

/// Makes durable what is read.
pub fn settle<D: Disk>(disk: &mut D) -> Result<(), Failed>
    requires { (D.told disk.old).opened ≡ true }
    ensures durable { IsTrue D.tells → OnOk result
        (Only (D.told disk.old).reads (D.told disk.new).leaves) }
    ensures looks { IsTrue D.tells → Looks (D.told disk.old) (D.told disk.new) }
    ensures alone { D.by_disk disk.old disk.new }
    ensures call { LookCall (D.told disk.old) (D.told disk.new) result }
{
    disk.sync()
}

/// Writes, and syncs.
pub fn write_synced<D: Disk>(disk: &mut D, area: Area, at: u64, bytes: &[u8]) -> Result<(), Failed>
    requires open { (D.told disk.old).opened ≡ true }
    requires room { at + length bytes.now < 2 ^ 63 }
    ensures written { IsTrue D.tells → OnOk result
        (Becomes area (put at bytes.now ((D.told disk.old).reads area))
        (D.told disk.old).reads (D.told disk.new).reads) }
    ensures durable { IsTrue D.tells → OnOk result
        (Only (D.told disk.new).reads (D.told disk.new).leaves) }
    ensures writes { IsTrue D.tells →
        WritesPart area at (length bytes.now) (D.told disk.old) (D.told disk.new) }
    ensures alone { D.by_disk disk.old disk.new }
    ensures call { ChangeCall (D.told disk.old) (D.told disk.new) result }
{
    disk.write_at(area, at, bytes)?;
    settle(disk)?;
    Ok(())
}
