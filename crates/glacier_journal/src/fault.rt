// Why a call of the journal gives up.
ghost use Rattle.std.specs.Prelude.{◌≡◌};
ghost use Rattle.glacier_journal.specs.declared.fault.JournalFault.TheVariants.{Disk, Memory};

use glacier_base::Failed;
use glacier_disk::Area;
use std::alloc::{AllocError, AllocFailed};

/// Why a call of the journal gives up.
#[derive(Clone, Copy, Debug, PartialEq, Eq)]
pub enum JournalFault {
    /// A call of the disk failed, and its count of faults has risen.
    Disk,
    /// Want of memory.
    Memory,
    /// No list stands. This is the first place that breaks it: 0 in Lead or for a header, else the
    /// place of a record's gate.
    NotAJournal { area: Area, at: u64 },
    /// Not all areas are empty. This is the first that isn't, in their order, and its size in bytes.
    NotEmpty { area: Area, size: u64 },
    /// The list has this length, and with the record it would end past 2^62.
    End { length: u64 },
}

impl From<Failed> for JournalFault {
    ghost from_gives = { λ _ fault. fault ≡ Disk };

    fn from(_: Failed) -> Self {
        JournalFault::Disk
    }
}

impl From<glacier_base::Memory> for JournalFault {
    ghost from_gives = { λ _ fault. fault ≡ Memory };

    fn from(_: glacier_base::Memory) -> Self {
        JournalFault::Memory
    }
}

impl From<AllocError> for JournalFault {
    ghost from_gives = { λ _ fault. fault ≡ Memory };

    fn from(_: AllocError) -> Self {
        JournalFault::Memory
    }
}

impl<T: Drop> From<AllocFailed<T>> for JournalFault {
    ghost from_gives = { λ _ fault. fault ≡ Memory };

    fn from(_: AllocFailed<T>) -> Self {
        JournalFault::Memory
    }
}
