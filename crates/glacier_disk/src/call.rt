// The calls of a station in memory.
use crate::Area;
use glacier_base::Text;

/// What one call did, as the memory form keeps it.
#[derive(Drop)]
pub enum Call {
    /// Bytes were written.
    Write { area: Area, at: u64, bytes: Text },
    /// An area was cut.
    Cut { area: Area, length: u64 },
    /// All four areas are as they read.
    Sync,
    /// Nothing was changed.
    NoEffect,
    /// A connection was accepted.
    Accept,
    /// Bytes were sent on the last connection.
    Send { bytes: Text },
}
