// Making an empty list.
ghost use Rattle.std.specs.Prelude.{◌≡◌, ◌<◌, ◌⊎◌, [], ℕ, IsTrue, true, Some, None, IfOk, IfErr, OnOk, IsErrOf, length};
ghost use Rattle.glacier_disk.specs.declared.area.Area.{Area};
ghost use Rattle.glacier_disk.specs.Image.{Only};
ghost use Rattle.glacier_disk.specs.Moments.{Looks};
ghost use Rattle.glacier_journal.specs.Breaks.{areas, first_full};
ghost use Rattle.glacier_journal.specs.Calls.{Creates, JournalCall};
ghost use Rattle.glacier_journal.specs.Listed.{IsNew, Listed};

use crate::synced::write_synced;
use crate::{Journal, JournalFault};
use glacier_disk::{Area, Disk};

/// The header and a closed gate.
pub const FIRST: [u8; 17] = *b"glacier journal1\0";

/// Checks that an area is empty.
fn check_empty<D: Disk>(disk: &mut D, area: Area) -> Result<(), JournalFault>
    requires { (D.told disk.old).opened ≡ true }
    ensures empty { IsTrue D.tells → OnOk result (length ((D.told disk.old).reads area) ≡ 0) }
    ensures full { IsTrue D.tells → (a : Area) (size : ℕ) →
        IsErrOf result (JournalFault.NotEmpty a size) →
        (a ≡ area) × (size ≡ length ((D.told disk.old).reads area)) × (0 < size) }
    ensures no_other { IfErr result (λ fault.
        (fault ≡ JournalFault.Disk) ⊎ ((size : ℕ) × (fault ≡ JournalFault.NotEmpty area size))) }
    ensures looks { IsTrue D.tells → Looks (D.told disk.old) (D.told disk.new) }
    ensures alone { D.by_disk disk.old disk.new }
    ensures call { JournalCall (D.told disk.old) (D.told disk.new) result }
{
    let size = disk.size(area)?;
    if size > 0 {
        return Err(JournalFault::NotEmpty { area, size });
    }
    Ok(())
}

/// Checks that all areas are empty.
fn check_all_empty<D: Disk>(disk: &mut D) -> Result<(), JournalFault>
    requires { (D.told disk.old).opened ≡ true }
    ensures empty { IsTrue D.tells → OnOk result (first_full (D.told disk.old).reads areas ≡ None) }
    ensures full { IsTrue D.tells → (area : Area) (size : ℕ) →
        IsErrOf result (JournalFault.NotEmpty area size) →
        first_full (D.told disk.old).reads areas ≡ Some (area, size) }
    ensures no_other { IfErr result (λ fault. (fault ≡ JournalFault.Disk)
        ⊎ ((area : Area) × (size : ℕ) × (fault ≡ JournalFault.NotEmpty area size))) }
    ensures looks { IsTrue D.tells → Looks (D.told disk.old) (D.told disk.new) }
    ensures alone { D.by_disk disk.old disk.new }
    ensures call { JournalCall (D.told disk.old) (D.told disk.new) result }
{
    for area in [Area::Lead, Area::Left, Area::Right, Area::Blobs] {
        match check_empty(disk, area) {
            Ok(()) => {}
            Err(fault) => return Err(fault),
        }
    }
    Ok(())
}

/// Writes an empty list to empty areas.
fn write_first<D: Disk>(disk: &mut D) -> Result<Journal, JournalFault>
    requires { (D.told disk.old).opened ≡ true }
    ensures listed { IsTrue D.tells → first_full (D.told disk.old).reads areas ≡ None →
        IfOk result (λ journal. Listed (D.told disk.new).reads journal.area [] journal.length) }
    ensures made { IsTrue D.tells → first_full (D.told disk.old).reads areas ≡ None →
        OnOk result (IsNew (D.told disk.new).reads) }
    ensures length { IfOk result (λ journal. journal.length ≡ 17) }
    ensures durable { IsTrue D.tells → OnOk result
        (Only (D.told disk.new).reads (D.told disk.new).leaves) }
    ensures no_other { IfErr result (λ fault. fault ≡ JournalFault.Disk) }
    ensures alone { D.by_disk disk.old disk.new }
    ensures call { JournalCall (D.told disk.old) (D.told disk.new) result }
{
    write_synced(disk, Area::Left, 0, &FIRST)?;
    write_synced(disk, Area::Lead, 0, &[0])?;
    Ok(Journal {
        area: Area::Left,
        length: 17,
    })
}

impl Journal {
    /// Makes an empty list on a disk of which all areas are empty. Where one isn't, it answers
    /// `NotEmpty` with the first of them.
    pub fn create<D: Disk>(disk: &mut D) -> Result<Journal, JournalFault>
        requires { (D.told disk.old).opened ≡ true }

        ensures listed { IsTrue D.tells →
            IfOk result (λ journal. Listed (D.told disk.new).reads journal.area [] journal.length) }
        ensures length { IfOk result (λ journal. journal.length ≡ 17) }
        ensures creates { IsTrue D.tells → Creates (D.told disk.old) (D.told disk.new) result }
        ensures no_other { IfErr result (λ fault. (fault ≡ JournalFault.Disk)
            ⊎ ((area : Area) × (size : ℕ) × (fault ≡ JournalFault.NotEmpty area size))) }

        ensures alone { D.by_disk disk.old disk.new }
        ensures call { JournalCall (D.told disk.old) (D.told disk.new) result }
    {
        match check_all_empty(disk) {
            Ok(()) => write_first(disk),
            Err(fault) => Err(fault),
        }
    }
}
