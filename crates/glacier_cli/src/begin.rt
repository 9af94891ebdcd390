// The store of a server: made in its folder, or opened.
ghost use Rattle.std.specs.Prelude.{◌≡◌, IsTrue, true, false, IfErr, OnOk};
ghost use Rattle.glacier_cli.specs.Beginning.{Begins, BeginCounts, BeginsIn, IsReason, of_store};
ghost use Rattle.glacier_store.specs.Calls.{StoreCall};

use crate::command::Serving;
use crate::ending::Ending;
use glacier_disk::Disk;
use glacier_store::{Store, StoreFault};
use std::alloc::Global;

/// The ending that a fault of a store makes.
fn store_ending(fault: StoreFault) -> Ending
    ensures { result ≡ of_store fault }
{
    match fault {
        StoreFault::Disk => Ending::DiskFault,
        StoreFault::Memory => Ending::NoMemory,
        StoreFault::NotAJournal { area, at } => Ending::NotAJournal { area, at },
        StoreFault::NotEmpty { area, size } => Ending::NotEmpty { area, size },
        StoreFault::End { length } => Ending::JournalEnd(length),
    }
}

/// Makes a store on a disk of empty areas, or opens the one that is there.
fn make_or_open<D: Disk>(alloc: Global, is_new: bool, disk: &mut D) -> Result<Store, StoreFault>
    requires { (D.told disk.old).opened ≡ true }
    ensures begins { IsTrue D.tells →
        Begins is_new (D.told disk.old) (D.told disk.new) result }
    ensures reason { IfErr result (IsReason is_new) }
    ensures call { StoreCall (D.told disk.old) (D.told disk.new) result }
    ensures alone { D.by_disk disk.old disk.new }
{
    if is_new {
        Store::create(alloc, disk)
    } else {
        Store::open(alloc, disk)
    }
}

/// Opens the folder, and makes or opens the store in it. Where it can't, the run ends so.
pub(crate) fn begin<D: Disk>(
    alloc: Global,
    serving: &Serving,
    disk: &mut D,
) -> Result<Store, Ending>
    requires { (D.told disk.old).opened ≡ false }
    ensures begins { IsTrue D.tells → BeginsIn serving.now.is_new serving.now.folder.now
        (D.told disk.old) (D.told disk.new) result }
    ensures counts { BeginCounts serving.now.is_new (D.told disk.old) (D.told disk.new) result }
    ensures open { OnOk result ((D.told disk.new).opened ≡ true) }
    ensures alone { D.by_disk disk.old disk.new }
{
    if disk.open(serving.folder).is_err() {
        return Err(Ending::DiskFault);
    }
    match make_or_open(alloc, serving.is_new, disk) {
        Ok(store) => Ok(store),
        Err(fault) => Err(store_ending(fault)),
    }
}
