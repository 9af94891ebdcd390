// Putting a new list in the place of the old one.
ghost use Rattle.std.specs.Prelude.{◌≡◌, ◌<◌, ◌≤◌, ◌+◌, ◌^◌, ◌++◌, [], ◌∷◌, ℕ, IsTrue, length, true, IfOk, IfErr, OnOk, ◌⊎◌};
ghost use Rattle.glacier_disk.specs.declared.area.Area.{Area};
ghost use Rattle.glacier_disk.specs.DiskCalls.{ChangeCall};
ghost use Rattle.glacier_disk.specs.Moments.{LeavesOnly};
ghost use Rattle.glacier_disk.specs.Touches.{Touches};
ghost use Rattle.glacier_journal.specs.Appending.{IsDurable, NowLists, StillLists, WritesUpTo};
ghost use Rattle.glacier_journal.specs.Calls.{EndsAt, JournalCall};
ghost use Rattle.glacier_journal.specs.Listed.{AllList, Lists, Payloads};
ghost use Rattle.glacier_journal.specs.Sides.{is_side, other_side};

use crate::create::FIRST;
use crate::journal::MOST_LENGTH;
use crate::synced::write_synced;
use crate::{Frame, Journal, JournalFault};
use glacier_base::Failed;
use glacier_disk::{Area, Disk};

/// A new list, written to the side that isn't picked. Until it is finished the old list stands.
#[derive(Drop)]
pub struct Swap {
    /// The side in which the new list is written.
    pub area: Area,
    /// The place behind its closed gate, below 2^63.
    pub length: u64,
    ghost side: { IsTrue (is_side area) },
    ghost enough: { 17 ≤ length },
    ghost within: { length < 2 ^ 63 },
}

/// The side that isn't this one.
fn other(area: Area) -> Area
    ensures other { result ≡ other_side area }
    ensures side { IsTrue (is_side result) }
{
    match area {
        Area::Lead => Area::Left,
        Area::Left => Area::Right,
        Area::Right => Area::Left,
        Area::Blobs => Area::Left,
    }
}

/// Writes a list of nothing to an area.
fn begin_at<D: Disk>(disk: &mut D, area: Area) -> Result<(), Failed>
    requires { (D.told disk.old).opened ≡ true }
    ensures writes { IsTrue D.tells → WritesUpTo area 17 (D.told disk.old) (D.told disk.new) }
    ensures begun { IsTrue D.tells → OnOk result (Lists ((D.told disk.new).reads area) [] 17) }
    ensures alone { D.by_disk disk.old disk.new }
    ensures call { ChangeCall (D.told disk.old) (D.told disk.new) result }
{
    disk.cut(area, 0)?;
    disk.write_at(area, 0, &FIRST)?;
    Ok(())
}

impl Journal {
    /// Begins a new list beside this one, in the side that isn't picked. It takes no memory.
    pub fn begin_replace<D: Disk>(self, disk: &mut D) -> Result<Swap, JournalFault>
        requires { (D.told disk.old).opened ≡ true }

        ensures writes { IsTrue D.tells →
            WritesUpTo (other_side self.area) 17 (D.told disk.old) (D.told disk.new) }
        ensures begun { IsTrue D.tells →
            IfOk result (λ swap. Lists ((D.told disk.new).reads swap.area) [] swap.length) }
        ensures area { IfOk result (λ swap. swap.area ≡ other_side self.area) }

        ensures no_other { IfErr result (λ fault. fault ≡ JournalFault.Disk) }

        ensures alone { D.by_disk disk.old disk.new }
        ensures call { JournalCall (D.told disk.old) (D.told disk.new) result }
    {
        let Journal { area, length: _ } = self;
        let area = other(area);
        begin_at(disk, area)?;
        Ok(Swap { area, length: 17 })
    }
}

impl Swap {
    /// Adds a payload to the new list. It takes no memory.
    pub fn add<D: Disk>(self, disk: &mut D, frame: &Frame) -> Result<Swap, JournalFault>
        requires { (D.told disk.old).opened ≡ true }

        ensures writes { IsTrue D.tells → WritesUpTo self.area
            (self.length + (length frame.now + 5)) (D.told disk.old) (D.told disk.new) }
        ensures added { IsTrue D.tells → (payloads : Payloads) →
            Lists ((D.told disk.old).reads self.area) payloads self.length →
            IfOk result (λ swap. Lists ((D.told disk.new).reads swap.area)
            (payloads ++ frame.now ∷ []) swap.length) }
        ensures longer { IfOk result (λ swap. (swap.area ≡ self.area)
            × (swap.length ≡ self.length + (length frame.now + 5))) }
        ensures ends { EndsAt self.length (length frame.now + 5) result }

        ensures alone { D.by_disk disk.old disk.new }
        ensures call { JournalCall (D.told disk.old) (D.told disk.new) result }
    {
        let Swap { area, length } = self;
        let bytes = frame.bytes();
        let more = bytes.len() as u64;
        if length > MOST_LENGTH || more > MOST_LENGTH - length {
            return Err(JournalFault::End { length });
        }
        disk.write_at(area, length, bytes)?;
        disk.write_at(area, length - 1, &[1])?;
        Ok(Swap {
            area,
            length: length + more,
        })
    }

    /// Puts the new list in the old one's place. At any moment of it a crash leaves the old list or
    /// the new one.
    pub fn finish<D: Disk>(self, disk: &mut D) -> Result<Journal, JournalFault>
        requires { (D.told disk.old).opened ≡ true }

        ensures touches { IsTrue D.tells →
            Touches Area.Lead (D.told disk.old) (D.told disk.new) }
        ensures any_moment { IsTrue D.tells → (picked : Area) (olds news : Payloads) (end : ℕ) →
            self.area ≡ other_side picked →
            AllList (D.told disk.old).leaves picked olds end →
            Lists ((D.told disk.old).reads self.area) news self.length →
            LeavesOnly (D.told disk.old) (D.told disk.new) (λ i.
            StillLists (D.told disk.old).leaves Area.Lead picked olds end i
            ⊎ NowLists (D.told disk.old).reads Area.Lead self.area news self.length i) }
        ensures acknowledged { IsTrue D.tells → (picked : Area) (olds news : Payloads) (end : ℕ) →
            self.area ≡ other_side picked →
            AllList (D.told disk.old).leaves picked olds end →
            Lists ((D.told disk.old).reads self.area) news self.length →
            IfOk result (λ journal. IsDurable (D.told disk.old) (D.told disk.new) Area.Lead
            journal.area news journal.length) }

        ensures no_other { IfErr result (λ fault. fault ≡ JournalFault.Disk) }

        ensures alone { D.by_disk disk.old disk.new }
        ensures call { JournalCall (D.told disk.old) (D.told disk.new) result }
    {
        let Swap { area, length } = self;
        let picks = if area == Area::Left { 0u8 } else { 1 };
        disk.sync()?;
        write_synced(disk, Area::Lead, 0, &[picks])?;
        Ok(Journal { area, length })
    }
}
