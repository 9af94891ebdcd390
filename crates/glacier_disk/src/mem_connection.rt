// One connection of the memory form.
ghost use Rattle.std.specs.Prelude.{◌≡◌, ◌<◌, ◌≤◌, ◌++◌, [], ◌∷◌, ℕ, List, min, length, take};
ghost use Rattle.glacier_disk.specs.MemConnections.{connection_of};
ghost use Rattle.glacier_disk.specs.Network.{accepted, wait_of, Takes, TakesNone, SendsPart};

use crate::waits::Waits;
use glacier_base::{FaultCount, Text};
use std::alloc::Global;

#[derive(Drop)]
pub struct MemConnection {
    pub input: Text,
    pub taken: usize,
    pub sent: Vec<u8>,
    pub waits: Waits,
    pub receives_failed: FaultCount,
    pub sends_failed: FaultCount,
}

impl MemConnection {
    pub(crate) fn new(alloc: Global, input: Text) -> MemConnection
        ensures { connection_of result ≡ accepted input }
    {
        MemConnection {
            input,
            taken: 0,
            sent: Vec::new(alloc),
            waits: Waits::new(),
            receives_failed: FaultCount::new(),
            sends_failed: FaultCount::new(),
        }
    }

    /// The waits, with that of a receive that begins now.
    fn one_more_wait(&self) -> Waits
        ensures { result.items ≡ self.now.waits.items ++ wait_of (connection_of self.now) ∷ [] }
    {
        let taken = self.taken.min(self.input.bytes().len());
        self.waits.and(&taken, &self.sent.len())
    }

    /// Takes as many bytes as there are, as fit and as the limit allows.
    pub(crate) fn take(&mut self, into: &mut [u8], limit: usize) -> usize
        ensures size { result ≡ min (length into.old)
            (min limit (length (connection_of self.old).coming)) }
        ensures within { result ≤ length into.old }
        ensures takes { Takes (take result into.new) (connection_of self.old)
            (connection_of self.new) }
        ensures end { 0 < length into.old → 0 < limit → result ≡ 0 →
            (connection_of self.new).coming ≡ [] }
    {
        let input = self.input.bytes();
        let start = self.taken.min(input.len());
        let count = into.len().min(input.len() - start).min(limit);
        into[..count].copy_from_slice(&input[start..start + count]);
        self.waits = self.one_more_wait();
        self.taken = start + count;
        count
    }

    /// A receive that failed.
    pub(crate) fn take_none(&mut self)
        ensures { TakesNone (connection_of self.old) (connection_of self.new) }
    {
        self.waits = self.one_more_wait();
        let _ = self.receives_failed.failed();
    }

    /// A send that failed with no byte sent.
    pub(crate) fn send_none(&mut self)
        ensures { (bytes : List ℕ) → SendsPart 0 bytes (connection_of self.old)
            (connection_of self.new) }
    {
        let _ = self.sends_failed.failed();
    }
}
