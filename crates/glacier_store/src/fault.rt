// Why a call of the store gives up.
ghost use Rattle.std.specs.Prelude.{◌≡◌};
ghost use Rattle.glacier_store.specs.Faults.{store_fault};
ghost use Rattle.glacier_store.specs.declared.fault.StoreFault.TheVariants.{Memory};

use glacier_disk::Area;
use glacier_journal::JournalFault;

/// Why a call of the store gives up. Places and sizes are in bytes.
#[derive(Clone, Copy, Debug, PartialEq, Eq)]
pub enum StoreFault {
    /// A call of the disk failed, and its count of faults has risen.
    Disk,
    /// Want of memory.
    Memory,
    /// The disk holds no store: this is the first place of an area that keeps it from being one.
    NotAJournal { area: Area, at: u64 },
    /// There is something on the disk already: the first area that isn't empty, and its size.
    NotEmpty { area: Area, size: u64 },
    /// The journal, which has this length, would end past 2^62 with the event.
    End { length: u64 },
}

impl From<JournalFault> for StoreFault {
    ghost from_gives = { λ fault e. e ≡ store_fault fault };

    fn from(fault: JournalFault) -> Self {
        match fault {
            JournalFault::Disk => StoreFault::Disk,
            JournalFault::Memory => StoreFault::Memory,
            JournalFault::NotAJournal { area, at } => StoreFault::NotAJournal { area, at },
            JournalFault::NotEmpty { area, size } => StoreFault::NotEmpty { area, size },
            JournalFault::End { length } => StoreFault::End { length },
        }
    }
}

impl From<glacier_base::Memory> for StoreFault {
    ghost from_gives = { λ _ e. e ≡ Memory };

    fn from(_: glacier_base::Memory) -> Self {
        StoreFault::Memory
    }
}
