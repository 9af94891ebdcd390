// The bytes of a connection that came and weren't handed out yet.
ghost use Rattle.std.specs.Prelude.{◌≡◌, ◌≤◌, ◌<◌, ◌-◌, ◌++◌, ◌==◌, [], length, take, drop, min, Ok, Some, OnOk, vec_len};
ghost use Rattle.std.specs.Io.KnownBytes.{IsAtEnd, Keeps};
ghost use Rattle.glacier_http.specs.declared.limits.TheConstants.{MOST_HEAD};
ghost use Rattle.glacier_host.specs.Held.{to_come};

use crate::streams::receive_now;
use glacier_base::{Failed, Memory};
use glacier_http::MOST_HEAD;
use std::alloc::Global;
use std::io::Read;
use std::marker::Model;

/// How many bytes the buffer has room for first. It doubles, up to `MOST_HEAD`.
const FIRST_ROOM: usize = 1024;

/// The bytes from `start` up to `end` of a buffer that grows with what comes.
#[derive(Drop)]
pub struct HeldBytes {
    buffer: Vec<u8>,
    start: usize,
    end: usize,
}

impl Model for HeldBytes {
    ghost use Rattle.std.specs.Prelude.{◌≡◌, ◌≤◌, ℕ, List, length, take, drop};
    ghost use Rattle.glacier_http.specs.declared.limits.TheConstants.{MOST_HEAD};

    ghost Value = { List ℕ };

    ghost view = { λ h. drop h.start (take h.end h.buffer.items) };

    ghost invariant = { λ h. (h.start ≤ h.end) × (h.end ≤ length h.buffer.items)
        × (length h.buffer.items ≤ MOST_HEAD) };
}

/// Moves a stretch of the buffer to its front.
fn move_front(buffer: &mut [u8], start: usize, end: usize)
    requires order { start ≤ end }
    requires within { end ≤ length buffer.old }
    ensures { take (end - start) buffer.new ≡ drop start (take end buffer.old) }
{
    buffer.copy_within(start..end, 0);
}

/// Makes the buffer longer where it is full, and not as long as it may be.
fn lengthen(buffer: &mut Vec<u8>, end: usize) -> Result<(), Memory>
    requires within { end ≤ vec_len buffer.old }
    requires few { vec_len buffer.old ≤ MOST_HEAD }
    ensures kept { take end buffer.new.items ≡ take end buffer.old.items }
    ensures longer { vec_len buffer.old ≤ vec_len buffer.new }
    ensures few { vec_len buffer.new ≤ MOST_HEAD }
    ensures room { OnOk result (end < MOST_HEAD → end < vec_len buffer.new) }
{
    if end < buffer.len() || end >= MOST_HEAD {
        return Ok(());
    }
    let size = (2 * end).max(FIRST_ROOM).min(MOST_HEAD);
    buffer.resize(size, 0)?;
    Ok(())
}

/// Copies the first bytes to the front of a place, as many as fit.
fn copy_front(bytes: &[u8], into: &mut [u8]) -> usize
    ensures count { result ≡ min (length into.old) (length bytes.now) }
    ensures bytes { take result into.new ≡ take result bytes.now }
{
    let count = into.len().min(bytes.len());
    into[..count].copy_from_slice(&bytes[..count]);
    count
}

impl HeldBytes {
    /// None are held, and no memory is taken.
    pub fn new(alloc: Global) -> HeldBytes
        ensures { result ≡ [] }
    {
        HeldBytes {
            buffer: Vec::new(alloc),
            start: 0,
            end: 0,
        }
    }

    /// The first to come is in front.
    pub fn bytes(&self) -> &[u8]
        ensures { result.now ≡ self.now }
    {
        &self.buffer[self.start..self.end]
    }

    pub fn is_empty(&self) -> bool
        ensures { result ≡ (length self.now == 0) }
    {
        self.start == self.end
    }

    /// Whether the buffer wasn't filled, so that the last read took all that was there.
    pub fn has_room(&self) -> bool {
        self.end < self.buffer.len()
    }

    /// Hands out the first ones, as many as fit. Each is handed out once.
    pub fn hand_out(&mut self, into: &mut [u8]) -> usize
        ensures count { result ≡ min (length into.old) (length self.old) }
        ensures once { self.old ≡ take result into.new ++ self.new }
    {
        let count = copy_front(&self.buffer[self.start..self.end], into);
        self.start += count;
        count
    }

    /// Moves them to the front of the buffer, and makes room behind them, unless `MOST_HEAD` are
    /// held.
    fn make_room(&mut self) -> Result<(), Memory>
        ensures { self.new ≡ self.old }
    {
        move_front(&mut self.buffer, self.start, self.end);
        self.end -= self.start;
        self.start = 0;
        lengthen(&mut self.buffer, self.end)
    }

    /// Reads once from the stream, and holds what came behind the others. It answers `None` where
    /// nothing is there yet or no room is left, and 0 only at the end.
    pub fn fill<R: Read>(&mut self, reader: &mut R) -> Result<Option<usize>, Failed>
        ensures none_lost { Keeps (to_come self.old (R.remaining reader.old))
            (to_come self.new (R.remaining reader.new)) }
        ensures end { result ≡ Ok (Some 0) → IsAtEnd (R.remaining reader.new) }
    {
        if self.make_room().is_err() {
            return Err(Failed);
        }
        if self.end == self.buffer.len() {
            return Ok(None);
        }
        match receive_now(reader, &mut self.buffer[self.end..]) {
            Ok(Some(count)) => {
                self.end += count;
                Ok(Some(count))
            }
            Ok(None) => Ok(None),
            Err(fault) => Err(fault),
        }
    }
}
