// The connections that aren't handed out.
use crate::connection::{Connection, Heard, Phase};
use glacier_base::Memory;
use glacier_http::HeadRoom;
use std::alloc::Global;
use std::collections::VecDeque;
use std::io::Read;
use std::net::OpenStream;
use std::os::fd::AsRawFd;

/// How many connections are held at most.
pub const MOST_HELD: usize = 1024;

/// The connections that aren't handed out, each at its place.
#[derive(Drop)]
pub struct Waiting<S: Drop> {
    places: Vec<Option<Connection<S>>>,
    // The places that are free, and have been taken before.
    free: Vec<usize>,
    // The places of those that are due, the first to become so in front.
    due: VecDeque<usize>,
    // None is to be closed before.
    next_sweep: u64,
}

impl<S: Read + OpenStream + AsRawFd + Drop> Waiting<S> {
    pub fn new(alloc: Global) -> Result<Waiting<S>, Memory> {
        Ok(Waiting {
            places: Vec::with_capacity(alloc, MOST_HELD)?,
            free: Vec::with_capacity(alloc, MOST_HELD)?,
            due: VecDeque::with_capacity(alloc, MOST_HELD)?,
            next_sweep: u64::MAX,
        })
    }

    /// Whether one is due to be handed out.
    pub fn is_due(&self) -> bool {
        !self.due.is_empty()
    }

    /// Whether all that are held are due, but the one that is handed out, so that none can be closed to
    /// make room.
    pub fn is_crowded(&self) -> bool {
        self.due.len() + 1 >= MOST_HELD
    }

    pub fn next_sweep(&self) -> u64 {
        self.next_sweep
    }

    /// A place for one more, where fewer than the most are held.
    pub fn take_place(&mut self) -> Option<usize> {
        if let Some(place) = self.free.pop() {
            return Some(place);
        }
        let place = self.places.len();
        if place >= MOST_HELD || self.places.push(None).is_err() {
            return None;
        }
        Some(place)
    }

    /// A place is free again.
    pub fn free_place(&mut self, place: usize) {
        // There is room, since each place stands here once.
        let _ = self.free.push(place);
    }

    /// Takes the connection out that has been due for the longest: its turn begins.
    pub fn take_due(&mut self, now: u64) -> Option<Connection<S>> {
        for _ in 0..MOST_HELD {
            let place = self.due.pop_front()?;
            if let Some(connection) = self.take(place) {
                let mut connection = connection;
                connection.turn_since = now;
                return Some(connection);
            }
        }
        None
    }

    fn take(&mut self, place: usize) -> Option<Connection<S>> {
        match self.places.get_mut(place) {
            Some(slot) => slot.take(),
            None => None,
        }
    }

    /// Puts a connection at its place, by what was heard of it.
    pub fn put(&mut self, connection: Connection<S>, heard: Heard) {
        let place = connection.watch.place;
        let mut connection = connection;
        match heard {
            Heard::More => {}
            Heard::Due => {
                connection.phase = Phase::Due;
                let _ = self.due.push_back(place);
            }
            Heard::Over => {
                self.free_place(place);
                return;
            }
        }
        self.next_sweep = self.next_sweep.min(connection.deadline());
        if let Some(slot) = self.places.get_mut(place) {
            *slot = Some(connection);
        }
    }

    /// An event of a place: what is there is read.
    pub fn hear(
        &mut self,
        place: usize,
        readable: bool,
        hung_up: bool,
        now: u64,
        room: &mut HeadRoom,
    ) {
        let Some(connection) = self.take(place) else {
            return;
        };
        let mut connection = connection;
        connection.watch.heard(readable, false, hung_up);
        if let Phase::Due = connection.phase {
            if let Some(slot) = self.places.get_mut(place) {
                *slot = Some(connection);
            }
            return;
        }
        let heard = connection.hear(now, room);
        self.put(connection, heard);
    }

    /// Closes those whose time is over.
    pub fn sweep(&mut self, now: u64) {
        if now < self.next_sweep {
            return;
        }
        let mut next = u64::MAX;
        for place in 0..self.places.len() {
            let deadline = self.deadline(place);
            if deadline <= now {
                self.close(place);
            } else {
                next = next.min(deadline);
            }
        }
        self.next_sweep = next;
    }

    fn deadline(&self, place: usize) -> u64 {
        match self.places.get(place) {
            Some(Some(connection)) => connection.deadline(),
            _ => u64::MAX,
        }
    }

    /// Closes the connection at a place.
    fn close(&mut self, place: usize) {
        if let Some(connection) = self.take(place) {
            self.free_place(connection.watch.place);
        }
    }

    /// Closes the one that has been silent for the longest, among those that aren't due. It answers
    /// whether there was one.
    pub fn close_oldest(&mut self) -> bool {
        match oldest(&self.places) {
            Some(place) => {
                self.close(place);
                true
            }
            None => false,
        }
    }
}

/// When a byte of a connection came last, if it is there and not due.
fn silent_since<S: Drop>(slot: &Option<Connection<S>>) -> Option<u64> {
    match slot {
        Some(connection) => match connection.phase {
            Phase::Due => None,
            Phase::Open => Some(connection.watch.last),
            Phase::Leaving { .. } => Some(connection.watch.last),
        },
        None => None,
    }
}

/// The place of the connection that has been silent for the longest, among those that aren't due.
fn oldest<S: Drop>(places: &[Option<Connection<S>>]) -> Option<usize> {
    let mut found: Option<(usize, u64)> = None;
    for place in 0..places.len() {
        let Some(since) = silent_since(&places[place]) else {
            continue;
        };
        found = match found {
            Some((_, best)) if best <= since => found,
            _ => Some((place, since)),
        };
    }
    match found {
        Some((place, _)) => Some(place),
        None => None,
    }
}
