// A store that is made, or read from a disk.
ghost use Rattle.std.specs.Prelude.{◌≡◌, ◌⊎◌, ℕ, true, IsTrue, IfOk, IfErr};
ghost use Rattle.glacier_disk.specs.declared.area.Area.{Area};
ghost use Rattle.glacier_replay.specs.Made.{IsRest};
ghost use Rattle.glacier_store.specs.Calls.{StoreCall};
ghost use Rattle.glacier_store.specs.Kept.{HoldsNothing};
ghost use Rattle.glacier_store.specs.Calls.{Creates, Opens};

use crate::{Store, StoreFault};
use glacier_bodies::BlobArea;
use glacier_disk::{Area, Disk};
use glacier_journal::Journal;
use glacier_replay::{Accounts, Restored, Unmade, replay_all};
use std::alloc::Global;

impl Store {
    /// Makes a store of no account on a disk of which all areas are empty.
    ///
    /// `Disk` says that a call of the disk failed, `Memory` is want of memory, and `NotEmpty` names
    /// the first area that isn't empty, with its size in bytes.
    pub fn create<D: Disk>(alloc: Global, disk: &mut D) -> Result<Store, StoreFault>
        requires { (D.told disk.old).opened ≡ true }

        ensures nothing { IfOk result HoldsNothing }
        ensures creates { IsTrue D.tells →
            Creates (D.told disk.old) (D.told disk.new) result }

        ensures no_other { IfErr result (λ fault. (fault ≡ StoreFault.Disk)
            ⊎ ((fault ≡ StoreFault.Memory)
            ⊎ ((area : Area) × (size : ℕ) × (fault ≡ StoreFault.NotEmpty area size)))) }
        ensures call { StoreCall (D.told disk.old) (D.told disk.new) result }
        ensures alone { D.by_disk disk.old disk.new }
    {
        let area = BlobArea::new(alloc)?;
        match Journal::create(disk) {
            Ok(journal) => Ok(Store {
                accounts: Accounts::empty(alloc),
                area,
                journal,
            }),
            Err(fault) => Err(StoreFault::from(fault)),
        }
    }

    /// Reads the store that a crash may have left.
    ///
    /// `Disk` says that a call of the disk failed, `Memory` is want of memory, and `NotAJournal`
    /// names the first place that keeps the disk from being one.
    pub fn open<D: Disk>(alloc: Global, disk: &mut D) -> Result<Store, StoreFault>
        requires { (D.told disk.old).opened ≡ true }

        ensures opens { IsTrue D.tells → Opens (D.told disk.old) (D.told disk.new) result }
        ensures rest { IfOk result (λ store. IsRest store.area.free store.area.blobs) }

        ensures no_other { IfErr result (λ fault. (fault ≡ StoreFault.Disk)
            ⊎ ((fault ≡ StoreFault.Memory)
            ⊎ ((area : Area) × (at : ℕ) × (fault ≡ StoreFault.NotAJournal area at)))) }
        ensures call { StoreCall (D.told disk.old) (D.told disk.new) result }
        ensures alone { D.by_disk disk.old disk.new }
    {
        let (journal, payloads) = match Journal::open(alloc, disk) {
            Ok(found) => found,
            Err(fault) => return Err(StoreFault::from(fault)),
        };
        match replay_all(alloc, payloads.as_slice()) {
            Ok(restored) => {
                let Restored { accounts, area } = restored;
                Ok(Store {
                    accounts,
                    area,
                    journal,
                })
            }
            Err(Unmade::At(at)) => Err(StoreFault::NotAJournal {
                area: journal.area,
                at,
            }),
            Err(Unmade::Memory) => Err(StoreFault::Memory),
        }
    }
}
