// The bytes that were taken and not yet used.
ghost use Rattle.std.specs.Prelude.{◌≡◌, ◌≢◌, ◌<◌, ◌≤◌, ◌-◌, [], ℕ, List, IsTrue, length, take, drop, true, false, IfOk};
ghost use Rattle.glacier_server.specs.Transfer.{Takes, TakesBehind, NoneComing, Keeps, receiving_if, received};

use glacier_base::{Failed, Memory};
use glacier_disk::Station;
use glacier_http::MOST_HEAD;
use std::alloc::Global;
use std::marker::Model;

/// The bytes from `start` up to `end` of a buffer, which keeps as many as are looked at for a head.
#[derive(Drop)]
pub struct ReadBuffer {
    buffer: Vec<u8>,
    start: usize,
    end: usize,
}

impl Model for ReadBuffer {
    ghost use Rattle.std.specs.Prelude.{◌≡◌, ◌≤◌, ℕ, List, length, take, drop};
    ghost use Rattle.glacier_http.specs.declared.limits.TheConstants.{MOST_HEAD};

    ghost Value = { List ℕ };

    ghost view = { λ u. drop u.start (take u.end u.buffer.items) };

    ghost invariant = { λ u. (u.start ≤ u.end) × (u.end ≤ length u.buffer.items)
        × (length u.buffer.items ≡ MOST_HEAD) };
}

/// Moves a stretch of the buffer to its front.
fn move_front(buffer: &mut [u8], start: usize, end: usize)
    requires order { start ≤ end }
    requires within { end ≤ length buffer.old }
    ensures { take (end - start) buffer.new ≡ drop start (take end buffer.old) }
{
    buffer.copy_within(start..end, 0);
}

/// Moves what is unread to the front, and takes bytes behind it.
fn refill<S: Station>(
    station: &mut S,
    buffer: &mut [u8],
    start: usize,
    end: usize,
) -> Result<usize, Failed>
    requires connected { (S.told station.old).connected ≡ true }
    requires order { start ≤ end }
    requires within { end ≤ length buffer.old }
    requires room { end - start < length buffer.old }
    ensures within { IfOk result (λ n. n ≤ length buffer.old - (end - start)) }
    ensures kept { take (end - start) buffer.new ≡ drop start (take end buffer.old) }
    ensures takes { IsTrue S.tells → Takes (S.told station.old) (S.told station.new)
        (received result (drop (end - start) buffer.new)) (λ front. front ≡ [])
        (receiving_if result) }
    ensures end { IsTrue S.tells → result ≡ Ok 0 → NoneComing (S.told station.new) }
    ensures keeps { Keeps (S.told station.old) (S.told station.new) (receiving_if result) }
{
    move_front(buffer, start, end);
    match station.receive(&mut buffer[end - start..]) {
        Ok(count) => Ok(count),
        Err(fault) => Err(fault),
    }
}

impl ReadBuffer {
    /// None are there.
    pub fn new(alloc: Global) -> Result<ReadBuffer, Memory>
        ensures { IfOk result (λ unread. unread ≡ []) }
    {
        let buffer = vec![in alloc; 0u8; MOST_HEAD]?;
        Ok(ReadBuffer {
            buffer,
            start: 0,
            end: 0,
        })
    }

    pub fn bytes(&self) -> &[u8]
        ensures same { result.now ≡ self.now }
        ensures few { length result.now ≤ MOST_HEAD }
    {
        &self.buffer[self.start..self.end]
    }

    /// How many there are.
    pub fn count(&self) -> usize
        ensures same { result ≡ length self.now }
        ensures few { result ≤ MOST_HEAD }
    {
        self.end - self.start
    }

    /// Leaves the first bytes out.
    pub fn skip(&mut self, count: usize)
        requires { count ≤ length self.old }
        ensures { self.new ≡ drop count self.old }
    {
        self.start += count;
    }

    /// Leaves all out.
    pub fn clear(&mut self)
        ensures { self.new ≡ [] }
    {
        self.start = 0;
        self.end = 0;
    }

    /// Takes more bytes. It answers whether any came: none do at the end of the input.
    pub fn fill<S: Station>(&mut self, station: &mut S) -> Result<bool, Failed>
        requires connected { (S.told station.old).connected ≡ true }
        requires room { length self.old < MOST_HEAD }
        ensures takes { IsTrue S.tells → TakesBehind (S.told station.old) (S.told station.new)
            self.old self.new (λ unread. unread ≡ self.old) (receiving_if result) }
        ensures more { result ≡ Ok true → length self.old < length self.new }
        ensures none { result ≢ Ok true → self.new ≡ self.old }
        ensures end { IsTrue S.tells → result ≡ Ok false → NoneComing (S.told station.new) }
        ensures keeps { Keeps (S.told station.old) (S.told station.new) (receiving_if result) }
    {
        match refill(station, &mut self.buffer, self.start, self.end) {
            Ok(count) => {
                self.end = self.end - self.start + count;
                self.start = 0;
                Ok(count > 0)
            }
            Err(fault) => {
                self.end -= self.start;
                self.start = 0;
                Err(fault)
            }
        }
    }
}
