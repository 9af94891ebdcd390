// What is known of a connection's socket from waiting on all.
use std::os::fd::RawFd;

/// A socket, and what was last told of it. Times are in milliseconds.
#[derive(Clone, Copy)]
pub struct Watch {
    /// Its place among the connections, which is its token too.
    pub place: usize,
    pub descriptor: RawFd,
    /// It was registered with the system's set.
    pub is_registered: bool,
    /// It was registered for writing too.
    pub for_writing: bool,
    /// A read may give something.
    pub is_readable: bool,
    /// A write may take something.
    pub is_writable: bool,
    /// Its peer has closed its side, so that a read that gives less than it could isn't the last.
    pub is_hung_up: bool,
    /// When a byte came or a reply was begun last, or it was accepted.
    pub last: u64,
}

impl Watch {
    /// A socket that was just accepted: its first bytes may be there already.
    pub fn new(place: usize, descriptor: RawFd, now: u64) -> Watch {
        Watch {
            place,
            descriptor,
            is_registered: false,
            for_writing: false,
            is_readable: true,
            is_writable: true,
            is_hung_up: false,
            last: now,
        }
    }

    /// An event of the socket.
    pub fn heard(&mut self, readable: bool, writable: bool, hung_up: bool) {
        self.is_readable |= readable || hung_up;
        self.is_writable |= writable || hung_up;
        self.is_hung_up |= hung_up;
    }

    /// A read gave bytes, and whether they filled the room. Where they didn't, nothing more is there,
    /// and the next event tells of more.
    pub fn took(&mut self, filled: bool, now: u64) {
        self.is_readable = filled || self.is_hung_up;
        self.last = now;
    }
}
