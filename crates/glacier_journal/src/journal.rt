// A list of payloads in records with gates. A closed gate ends it; what stands behind that gate
// means nothing, so that a record can be written there and count from the moment on at which the
// gate before it is opened.
ghost use Rattle.std.specs.Prelude.{◌≡◌, ◌<◌, ◌≤◌, ◌+◌, ◌^◌, ◌++◌, [], ◌∷◌, ℕ, IsTrue, length, true, IfOk, IfErr, ◌⊎◌};
ghost use Rattle.glacier_disk.specs.declared.area.Area.{Area};
ghost use Rattle.glacier_journal.specs.Appending.{Appends, IsDurable};
ghost use Rattle.glacier_journal.specs.Calls.{EndsAt, JournalCall, Opens};
ghost use Rattle.glacier_journal.specs.Listed.{AllList, Listed, Payloads, bytes_of, placed};

use crate::read::{picked, read_list};
use crate::synced::{settle, write_synced};
use crate::{Frame, JournalFault, Payload};
use glacier_base::List;
use glacier_disk::{Area, Disk};
use std::alloc::Global;

/// The greatest length of a list.
pub(crate) const MOST_LENGTH: u64 = 1 << 62;

/// Where a list of payloads stands on a disk, and where it ends: the place behind its closed gate.
#[derive(Drop)]
pub struct Journal {
    /// The side in which it stands.
    pub area: Area,
    /// The place behind its closed gate, below 2^63.
    pub length: u64,
    ghost enough: { 17 ≤ length },
    ghost within: { length < 2 ^ 63 },
}

impl Journal {
    /// Reads the list that a crash may have left, and gives it with its payloads in order. It syncs
    /// first, so that what it reads is what a crash leaves. Where no list stands it answers
    /// `NotAJournal` with the first place that breaks it.
    pub fn open<D: Disk>(
        alloc: Global,
        disk: &mut D,
    ) -> Result<(Journal, List<Payload>), JournalFault>
        requires { (D.told disk.old).opened ≡ true }

        ensures listed { IsTrue D.tells → IfOk result (λ r.
            Listed (D.told disk.old).reads r.0.area (bytes_of r.1) r.0.length) }
        ensures places { IfOk result (λ r. r.1 ≡ placed 16 (bytes_of r.1)) }
        ensures opens { IsTrue D.tells → Opens (D.told disk.old) (D.told disk.new) result }
        ensures no_other { IfErr result (λ fault. (fault ≡ JournalFault.Disk)
            ⊎ ((fault ≡ JournalFault.Memory)
            ⊎ ((area : Area) × (at : ℕ) × (fault ≡ JournalFault.NotAJournal area at)))) }

        ensures alone { D.by_disk disk.old disk.new }
        ensures call { JournalCall (D.told disk.old) (D.told disk.new) result }
    {
        settle(disk)?;
        let area = match picked(disk) {
            Ok(area) => area,
            Err(fault) => return Err(fault),
        };
        let size = disk.size(area)?;
        match read_list(alloc, disk, area, size) {
            Ok((length, payloads)) => Ok((Journal { area, length }, payloads)),
            Err(fault) => Err(fault),
        }
    }

    /// Adds a payload to the list. At any moment of it a crash leaves the list without the payload
    /// or with it, and nothing else that was on the disk changes. It takes no memory.
    pub fn append<D: Disk>(self, disk: &mut D, frame: &Frame) -> Result<Journal, JournalFault>
        requires { (D.told disk.old).opened ≡ true }

        ensures appends { IsTrue D.tells →
            Appends self.area self.length frame.now (D.told disk.old) (D.told disk.new) }
        ensures acknowledged { IsTrue D.tells → (payloads : Payloads) →
            AllList (D.told disk.old).leaves self.area payloads self.length →
            IfOk result (λ journal. IsDurable (D.told disk.old) (D.told disk.new) self.area
            journal.area (payloads ++ frame.now ∷ []) journal.length) }
        ensures longer { IfOk result (λ journal. (journal.area ≡ self.area)
            × (journal.length ≡ self.length + (length frame.now + 5))) }
        ensures ends { EndsAt self.length (length frame.now + 5) result }

        ensures alone { D.by_disk disk.old disk.new }
        ensures call { JournalCall (D.told disk.old) (D.told disk.new) result }
    {
        let Journal { area, length } = self;
        let bytes = frame.bytes();
        let more = bytes.len() as u64;
        if length > MOST_LENGTH || more > MOST_LENGTH - length {
            return Err(JournalFault::End { length });
        }
        write_synced(disk, area, length, bytes)?;
        write_synced(disk, area, length - 1, &[1])?;
        Ok(Journal {
            area,
            length: length + more,
        })
    }

    /// The place behind the closed gate.
    pub fn length(&self) -> u64
        ensures { result ≡ self.now.length }
    {
        self.length
    }

    /// The area of the list.
    pub fn area(&self) -> Area
        ensures { result ≡ self.now.area }
    {
        self.area
    }
}
