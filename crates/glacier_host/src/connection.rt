// One connection of the listener.
ghost use Rattle.std.specs.Prelude.{◌≡◌, ◌≤◌, length, true, false, IfOk, IfSome};
ghost use Rattle.std.specs.Io.KnownBytes.{Keeps};
ghost use Rattle.glacier_host.specs.declared.connection.Phase.TheVariants.{Open};
ghost use Rattle.glacier_host.specs.declared.course.Course.TheVariants.{Between};
ghost use Rattle.glacier_host.specs.Courses.{after, IsBegun};
ghost use Rattle.glacier_host.specs.Held.{ReadsNow};
ghost use Rattle.glacier_host.specs.Turns.{coming};

use crate::course::Course;
use crate::held_bytes::HeldBytes;
use crate::pace::Pace;
use crate::streams::receive_now;
use crate::watch::Watch;
use glacier_base::Failed;
use glacier_http::{HeadRoom, HeadStep, read_head};
use std::alloc::Global;
use std::io::Read;
use std::net::{OpenStream, Shutdown};
use std::os::fd::AsRawFd;

/// How long a connection that waits may be silent, in milliseconds.
pub const MOST_SILENCE: u64 = 300_000;

/// How long, how many bytes, and with which gap between them what a client still sends is read and
/// thrown away after the last reply. Times are in milliseconds.
const LEAVE_MILLIS: u64 = 1_000;

const LEAVE_GAP: u64 = 250;

const LEAVE_BYTES: usize = 1 << 20;

/// What is expected of a connection.
#[derive(Clone, Copy)]
pub enum Phase {
    /// It waits until its next head is whole, or is handed out.
    Open,
    /// Its head is whole, or its input ended: it waits to be handed out.
    Due,
    /// Its last reply was sent. What it still sends is thrown away, so many bytes at most, until a
    /// time.
    Leaving { until: u64, left: usize },
}

/// What reading from a connection that isn't handed out came to.
#[derive(Clone, Copy)]
pub enum Heard {
    /// It waits for more.
    More,
    /// It is due to be handed out.
    Due,
    /// It is to be closed.
    Over,
}

/// One connection of the listener.
#[derive(Drop)]
pub struct Connection<S: Drop> {
    pub stream: S,
    pub held: HeldBytes,
    pub course: Course,
    pub pace: Option<Pace>,
    pub watch: Watch,
    pub phase: Phase,
    /// The end of its input was read.
    pub is_ended: bool,
    /// Its input ended, or a receive or a send on it failed, as it was told to whom it was handed.
    pub is_over: bool,
    /// It is to be given back: nothing of the next message was handed out.
    pub is_given_back: bool,
    /// The head of its last message asks to close.
    pub asks_to_close: bool,
    /// When its turn began, or it was last seen in it that no other is due.
    pub turn_since: u64,
}

impl<S: Read + OpenStream + AsRawFd + Drop> Connection<S> {
    /// One that was just accepted.
    pub fn new(stream: S, alloc: Global, place: usize, now: u64) -> Connection<S> {
        let descriptor = stream.as_raw_fd();
        Connection {
            stream,
            held: HeldBytes::new(alloc),
            course: Course::Between,
            pace: None,
            watch: Watch::new(place, descriptor, now),
            phase: Phase::Open,
            is_ended: false,
            is_over: false,
            is_given_back: false,
            asks_to_close: false,
            turn_since: now,
        }
    }

    /// When it is to be closed, if nothing comes till then.
    pub fn deadline(&self) -> u64 {
        match self.phase {
            Phase::Open => self.watch.last.saturating_add(MOST_SILENCE),
            Phase::Due => u64::MAX,
            Phase::Leaving { until, .. } => until.min(self.watch.last.saturating_add(LEAVE_GAP)),
        }
    }

    /// Whether what is held begins a message, or never will: then it may be handed out.
    pub fn begins(&mut self, room: &mut HeadRoom) -> bool
        ensures stream { self.new.stream ≡ self.old.stream }
        ensures held { self.new.held ≡ self.old.held }
        ensures begun { result ≡ true → IsBegun self.old.held self.new.course }
        ensures none { result ≡ false → self.old.course ≡ Between → self.new.course ≡ Between }
    {
        if self.held.is_empty() && !self.is_ended {
            return false;
        }
        let step = read_head(self.held.bytes(), room);
        self.course = Course::of(step);
        match step {
            HeadStep::Head(spans) => {
                self.asks_to_close = spans.close;
                true
            }
            HeadStep::Bad(_) => true,
            HeadStep::Need => {
                if self.is_ended {
                    self.course = Course::Rest;
                }
                self.is_ended
            }
        }
    }

    /// The end of its input was read: a read gives it again.
    fn note_end(&mut self)
        ensures stream { self.new.stream ≡ self.old.stream }
        ensures held { self.new.held ≡ self.old.held }
        ensures course { self.new.course ≡ self.old.course }
    {
        self.is_ended = true;
        self.watch.is_hung_up = true;
        self.watch.is_readable = true;
    }

    /// Reads once, and notes what came. It answers whether something did.
    pub fn fill(&mut self, now: u64) -> Result<bool, Failed>
        ensures none_lost { Keeps (coming S.remaining self.old) (coming S.remaining self.new) }
        ensures course { self.new.course ≡ self.old.course }
    {
        match self.held.fill(&mut self.stream) {
            Ok(Some(count)) => {
                self.watch.took(!self.held.has_room(), now);
                if count == 0 {
                    self.note_end();
                }
                Ok(true)
            }
            Ok(None) => {
                self.watch.is_readable = false;
                Ok(false)
            }
            Err(fault) => Err(fault),
        }
    }

    /// Reads from a connection that waits for its next head, until that is whole or nothing more is
    /// there. One whose peer closes it in silence is over.
    #[tactic(auto, using(crate::proofs::HeldLemmas::keeps_twice))]
    fn hear_head(&mut self, now: u64, room: &mut HeadRoom) -> Heard
        ensures none_lost { Keeps (coming S.remaining self.old) (coming S.remaining self.new) }
    {
        for _ in 0..u64::MAX {
            if self.is_ended && self.held.is_empty() {
                return Heard::Over;
            }
            if self.begins(room) {
                return Heard::Due;
            }
            if !self.watch.is_readable {
                return Heard::More;
            }
            if self.fill(now).is_err() {
                return Heard::Over;
            }
        }
        Heard::Over
    }

    /// Reads what a client sends after the last reply, and throws it away.
    fn hear_rest(&mut self, now: u64, until: u64, left: usize) -> Heard {
        let mut buffer = [0u8; 4096];
        let mut left = left;
        for _ in 0..LEAVE_BYTES {
            if !self.watch.is_readable {
                self.phase = Phase::Leaving { until, left };
                return Heard::More;
            }
            match receive_now(&mut self.stream, &mut buffer) {
                Ok(Some(count)) => {
                    if count == 0 || count >= left {
                        return Heard::Over;
                    }
                    left -= count;
                    self.watch.took(count == 4096, now);
                }
                Ok(None) => self.watch.is_readable = false,
                Err(_) => return Heard::Over,
            }
        }
        Heard::Over
    }

    /// Reads from a connection that isn't handed out.
    pub fn hear(&mut self, now: u64, room: &mut HeadRoom) -> Heard
        ensures none_lost { self.old.phase ≡ Open
            → Keeps (coming S.remaining self.old) (coming S.remaining self.new) }
    {
        match self.phase {
            Phase::Open => self.hear_head(now, room),
            Phase::Due => Heard::Due,
            Phase::Leaving { until, left } => self.hear_rest(now, until, left),
        }
    }

    /// It waits again for its next head.
    pub fn give_back(&mut self)
        ensures stream { self.new.stream ≡ self.old.stream }
        ensures held { self.new.held ≡ self.old.held }
        ensures course { self.new.course ≡ self.old.course }
        ensures phase { self.new.phase ≡ Open }
    {
        self.phase = Phase::Open;
        self.is_given_back = false;
        self.pace = None;
    }

    /// Whether its last message is whole, asks to close, and has nothing behind it.
    pub fn is_answered(&self) -> bool {
        matches!(self.course, Course::Between) && self.asks_to_close && self.held.is_empty()
    }

    /// Its last reply was sent: no more is sent on it.
    pub fn leave(&mut self, now: u64) -> Result<(), Failed> {
        if self.stream.shutdown(Shutdown::Write).is_err() {
            return Err(Failed);
        }
        self.phase = Phase::Leaving {
            until: now.saturating_add(LEAVE_MILLIS),
            left: LEAVE_BYTES,
        };
        self.watch.last = now;
        self.watch.is_readable = true;
        Ok(())
    }

    /// Hands out bytes that are held, or else reads into the place at once. It answers `None` where
    /// nothing is there yet, and 0 only at the end, or where the place is empty.
    pub fn hand_out(&mut self, into: &mut [u8]) -> Result<Option<usize>, Failed>
        ensures bound { IfOk result (λ came. IfSome came (λ count. count ≤ length into.old)) }
        ensures bytes { ReadsNow (coming S.remaining self.old) (coming S.remaining self.new)
            result into.new }
        ensures course { self.new.course ≡ self.old.course }
    {
        if self.held.is_empty() {
            return receive_now(&mut self.stream, into);
        }
        Ok(Some(self.held.hand_out(into)))
    }

    /// A read into so much room gave so many bytes.
    pub fn took(&mut self, count: usize, room: usize, now: u64)
        ensures stream { self.new.stream ≡ self.old.stream }
        ensures held { self.new.held ≡ self.old.held }
        ensures course { self.new.course ≡ self.old.course }
    {
        self.watch.took(count == room, now);
        if count == 0 {
            self.note_end();
        }
    }

    /// So many bytes were handed out.
    pub fn handed(&mut self, count: usize, now: u64)
        ensures stream { self.new.stream ≡ self.old.stream }
        ensures held { self.new.held ≡ self.old.held }
        ensures course { self.new.course ≡ after self.old.course count }
    {
        self.course = self.course.after(count);
        match &mut self.pace {
            Some(pace) => pace.moves(count, now),
            None => {}
        }
        if let Course::Between = self.course {
            self.pace = None;
        }
    }
}
