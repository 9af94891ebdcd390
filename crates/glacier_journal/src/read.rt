// Reading a list from a disk.
ghost use Rattle.std.specs.Prelude.{◌≡◌, ◌<◌, ◌≤◌, ◌+◌, ◌^◌, ◌⊎◌, ℕ, IsTrue, length, slice_index, drop, true, IfOk, IfErr, OnOk, IsErrOf};
ghost use Rattle.glacier_disk.specs.declared.area.Area.{Area};
ghost use Rattle.glacier_disk.specs.DiskCalls.{LookCall};
ghost use Rattle.glacier_disk.specs.Image.{window};
ghost use Rattle.glacier_disk.specs.Moments.{Looks};
ghost use Rattle.glacier_journal.specs.Breaks.{Breaks, IsBroken};
ghost use Rattle.glacier_journal.specs.Calls.{JournalCall, ReadsList};
ghost use Rattle.glacier_journal.specs.Listed.{Lists, Picks, bytes_of, placed};
ghost use Rattle.glacier_journal.specs.Steps.{IsClosed, BeginsWith};
ghost use Rattle.glacier_journal.specs.declared.read.Step.TheVariants.{Closed, Record, Broken};

use crate::{JournalFault, Payload};
use glacier_base::{Failed, List, Text};
use glacier_disk::{Area, Disk};
use std::alloc::Global;

/// The most bytes of a payload.
const MOST: u64 = 1 << 26;

/// What stands at a place behind the header.
#[derive(Drop)]
pub enum Step {
    /// A closed gate.
    Closed,
    /// A record of this payload, with a gate behind it.
    Record(Vec<u8>),
    /// Neither.
    Broken,
}

/// Fills `into` from an area.
pub fn look<D: Disk>(disk: &mut D, area: Area, at: u64, into: &mut [u8]) -> Result<(), Failed>
    requires { (D.told disk.old).opened ≡ true }
    ensures bytes { IsTrue D.tells → OnOk result
        (into.new ≡ window ((D.told disk.old).reads area) at (length into.old)) }
    ensures fits { (k : ℕ) → slice_index into.new k < 256 }
    ensures looks { IsTrue D.tells → Looks (D.told disk.old) (D.told disk.new) }
    ensures alone { D.by_disk disk.old disk.new }
    ensures call { LookCall (D.told disk.old) (D.told disk.new) result }
{
    disk.read(area, at, into)
}

/// Reads what stands at a place of an area that has this size.
fn read_step<D: Disk>(
    alloc: Global,
    disk: &mut D,
    area: Area,
    at: u64,
    size: u64,
) -> Result<Step, JournalFault>
    requires open { (D.told disk.old).opened ≡ true }
    requires size { IsTrue D.tells → size ≡ length ((D.told disk.old).reads area) }
    requires within { at ≤ size }
    requires small { size < 2 ^ 63 }
    ensures shows { IsTrue D.tells → IfOk result (λ step.
        (step ≡ Closed → IsClosed (drop at ((D.told disk.old).reads area)))
        × ((bytes : _) → step ≡ Record bytes → BeginsWith (drop at ((D.told disk.old).reads area)) bytes.items)
        × (step ≡ Broken → IsBroken (drop at ((D.told disk.old).reads area)))) }
    ensures inside { IfOk result (λ step. (step ≡ Closed → at < size)
        × ((bytes : _) → step ≡ Record bytes → at + 5 + length bytes.items < size)) }
    ensures looks { IsTrue D.tells → Looks (D.told disk.old) (D.told disk.new) }
    ensures alone { D.by_disk disk.old disk.new }
    ensures call { JournalCall (D.told disk.old) (D.told disk.new) result }
    ensures no_other { IfErr result (λ fault.
        (fault ≡ JournalFault.Disk) ⊎ (fault ≡ JournalFault.Memory)) }
{
    if at == size {
        return Ok(Step::Broken);
    }
    let mut head = [0u8; 5];
    look(disk, area, at, &mut head)?;
    if head[0] == 0 {
        return Ok(Step::Closed);
    }
    let count = u64::from(u32::from_be_bytes([head[1], head[2], head[3], head[4]]));
    if count > MOST || size - at <= count + 5 {
        return Ok(Step::Broken);
    }
    let mut bytes = vec![in alloc; 0u8; count as usize]?;
    look(disk, area, at + 5, &mut bytes)?;
    Ok(Step::Record(bytes))
}

/// Reads the list in an area of this size: its payloads, and where it ends.
pub fn read_list<D: Disk>(
    alloc: Global,
    disk: &mut D,
    area: Area,
    size: u64,
) -> Result<(u64, List<Payload>), JournalFault>
    requires open { (D.told disk.old).opened ≡ true }
    requires size { IsTrue D.tells → size ≡ length ((D.told disk.old).reads area) }
    requires small { size < 2 ^ 63 }
    ensures lists { IsTrue D.tells → IfOk result (λ r.
        Lists ((D.told disk.old).reads area) (bytes_of r.1) r.0) }
    ensures places { IfOk result (λ r. (r.1 ≡ placed 16 (bytes_of r.1)) × (17 ≤ r.0) × (r.0 < 2 ^ 63)) }
    ensures reads { IsTrue D.tells → ReadsList area (D.told disk.old) (D.told disk.new) result }
    ensures no_other { IfErr result (λ fault. (fault ≡ JournalFault.Disk)
        ⊎ ((fault ≡ JournalFault.Memory)
        ⊎ ((a : Area) × (at : ℕ) × (fault ≡ JournalFault.NotAJournal a at)))) }
    ensures alone { D.by_disk disk.old disk.new }
    ensures call { JournalCall (D.told disk.old) (D.told disk.new) result }
{
    let mut head = [0u8; 16];
    look(disk, area, 0, &mut head)?;
    if size < 16 || head != *b"glacier journal1" {
        return Err(JournalFault::NotAJournal { area, at: 0 });
    }
    let mut payloads = List::new(alloc);
    let mut at = 16;
    while at < size {
        match read_step(alloc, disk, area, at, size)? {
            Step::Closed => return Ok((at + 1, payloads)),
            Step::Record(bytes) => {
                let next = at + 5 + bytes.len() as u64;
                let bytes = Text::from_vec(bytes);
                payloads.push(Payload { at, bytes })?;
                at = next;
            }
            Step::Broken => return Err(JournalFault::NotAJournal { area, at }),
        }
    }
    Err(JournalFault::NotAJournal { area, at })
}

/// The area that Lead picks.
pub fn picked<D: Disk>(disk: &mut D) -> Result<Area, JournalFault>
    requires { (D.told disk.old).opened ≡ true }
    ensures picks { IsTrue D.tells → IfOk result (λ area. Picks ((D.told disk.old).reads Area.Lead) area) }
    ensures breaks { IsTrue D.tells → (a : Area) (at : ℕ) → IsErrOf result (JournalFault.NotAJournal a at) →
        Breaks (D.told disk.old).reads a at }
    ensures no_other { IfErr result (λ fault. (fault ≡ JournalFault.Disk)
        ⊎ ((a : Area) × (at : ℕ) × (fault ≡ JournalFault.NotAJournal a at))) }
    ensures looks { IsTrue D.tells → Looks (D.told disk.old) (D.told disk.new) }
    ensures alone { D.by_disk disk.old disk.new }
    ensures call { JournalCall (D.told disk.old) (D.told disk.new) result }
{
    if disk.size(Area::Lead)? == 0 {
        return Err(JournalFault::NotAJournal {
            area: Area::Lead,
            at: 0,
        });
    }
    let mut first = [0u8; 1];
    look(disk, Area::Lead, 0, &mut first)?;
    if first[0] == 0 {
        return Ok(Area::Left);
    }
    Ok(Area::Right)
}
