// The listener, the connections that wait, and the wait on all of them.
use crate::clock::millis;
use crate::connection::{Connection, Heard};
use crate::fault::AcceptFault;
use crate::listening::{lengthen_queue, send_at_once};
use crate::registering::{register, register_for_writing};
use crate::waiting::{MOST_HELD, Waiting};
use crate::watch::Watch;
use glacier_base::Failed;
use glacier_http::HeadRoom;
use mio::{Events, Poll};
use std::alloc::Global;
use std::net::{Net, OpenListener, OpenStream, TcpListener};
use std::os::fd::AsRawFd;
use std::time::{Clock, Duration};

/// How many events one wait gives at most.
const MOST_EVENTS: usize = 256;

/// How many newcomers are taken between two waits at most.
const MOST_NEWCOMERS: usize = 64;

/// The listener's token. Those of the connections are their places.
const LISTENER: usize = MOST_HELD;

/// How long after a want of descriptors or memory the next newcomer is taken, in milliseconds, where
/// no connection could be closed instead.
const SHORTAGE_MILLIS: u64 = 100;

/// The listener, and the connections that wait. Times are in milliseconds of one clock.
#[derive(Drop)]
pub struct Network<R: Net + Clock> {
    alloc: Global,
    listener: R::Listener,
    // The streams that it gives send at once.
    gives_prompt: bool,
    poll: Poll,
    events: Events,
    waiting: Waiting<R::Stream>,
    head: HeadRoom,
    now: u64,
    // Newcomers may wait.
    has_newcomers: bool,
    // No newcomer is taken before, for want of descriptors or memory.
    short_until: Option<u64>,
}

impl<R: Net + Clock> Network<R> {
    /// Listens at an address.
    pub fn listen(rt: &R, alloc: Global, at: &str) -> Result<Network<R>, Failed> {
        let Ok(listener) = TcpListener::bind(rt, at) else {
            return Err(Failed);
        };
        if listener.set_nonblocking(true).is_err() {
            return Err(Failed);
        }
        let (Ok(poll), Ok(events)) = (Poll::new(rt), Events::with_capacity(alloc, MOST_EVENTS))
        else {
            return Err(Failed);
        };
        register(&poll, listener.as_raw_fd(), LISTENER)?;
        lengthen_queue(listener.as_raw_fd());
        let gives_prompt = send_at_once(listener.as_raw_fd());
        let (Ok(waiting), Ok(head)) = (Waiting::new(alloc), HeadRoom::new(alloc)) else {
            return Err(Failed);
        };
        Ok(Network {
            alloc,
            listener,
            gives_prompt,
            poll,
            events,
            waiting,
            head,
            now: millis(rt, 0),
            has_newcomers: true,
            short_until: None,
        })
    }

    /// The last reading of the clock.
    pub fn now(&self) -> u64 {
        self.now
    }

    /// Reads the clock.
    pub fn read_clock(&mut self, rt: &R) -> u64 {
        self.now = millis(rt, self.now);
        self.now
    }

    /// The room for the parts of a head.
    pub fn head(&mut self) -> &mut HeadRoom {
        &mut self.head
    }

    /// Whether another connection is due, or none more can be taken before one is closed.
    pub fn others_wait(&self) -> bool {
        self.waiting.is_due() || self.short_until.is_some()
    }

    /// The next connection that is due.
    pub fn next(&mut self, rt: &R) -> Result<Connection<R::Stream>, Failed> {
        for _ in 0..u64::MAX {
            if let Some(connection) = self.waiting.take_due(self.now) {
                return Ok(connection);
            }
            if self.has_newcomers {
                self.take_newcomers()?;
            }
            if !self.waiting.is_due() {
                self.wait_on_all(rt, None, None)?;
            } else if self.has_newcomers {
                // More wait than were taken: those that were taken before have their turn too.
                self.wait_on_all(rt, None, Some(0))?;
            }
        }
        Err(Failed)
    }

    /// Waits until something happens at the socket of the connection that is handed out or at
    /// another, or so many milliseconds are over, and sees to the others.
    pub fn wait(&mut self, rt: &R, watch: &mut Watch, most: u64) -> Result<(), Failed> {
        if !watch.is_registered {
            register(&self.poll, watch.descriptor, watch.place)?;
            watch.is_registered = true;
        }
        self.wait_on_all(rt, Some(watch), Some(most))?;
        if self.has_newcomers {
            self.take_newcomers()?;
        }
        Ok(())
    }

    /// The same, for a socket that is written to.
    pub fn wait_to_send(&mut self, rt: &R, watch: &mut Watch, most: u64) -> Result<(), Failed> {
        register_for_writing(&self.poll, watch)?;
        self.wait(rt, watch, most)
    }

    /// How long a wait may be: until then something is to be done.
    fn patience(&self, most: Option<u64>) -> Option<Duration> {
        let mut until = self.waiting.next_sweep();
        if let Some(most) = most {
            until = until.min(self.now.saturating_add(most));
        }
        if self.has_newcomers && !self.waiting.is_crowded() {
            until = until.min(match self.short_until {
                Some(short) => short,
                None => self.now,
            });
        }
        if until == u64::MAX {
            None
        } else {
            Some(Duration::from_millis(until.saturating_sub(self.now)))
        }
    }

    /// Waits on all sockets, and reads what came on those that aren't handed out.
    fn wait_on_all(
        &mut self,
        rt: &R,
        turn: Option<&mut Watch>,
        most: Option<u64>,
    ) -> Result<(), Failed> {
        let patience = self.patience(most);
        if self.poll.poll(&mut self.events, patience).is_err() {
            return Err(Failed);
        }
        self.read_clock(rt);
        match turn {
            Some(watch) => self.hear_events(watch),
            None => {
                let mut none = Watch::new(usize::MAX, 0, 0);
                self.hear_events(&mut none);
            }
        }
        self.waiting.sweep(self.now);
        Ok(())
    }

    fn hear_events(&mut self, turn: &mut Watch) {
        for event in self.events.iter() {
            let place = event.token().0;
            let hung_up = event.is_read_closed() || event.is_error();
            if place == LISTENER {
                self.has_newcomers = true;
            } else if place == turn.place {
                turn.heard(event.is_readable(), event.is_writable(), hung_up);
            } else {
                self.waiting.hear(
                    place,
                    event.is_readable(),
                    hung_up,
                    self.now,
                    &mut self.head,
                );
            }
        }
    }

    /// Takes the newcomers that wait, a bounded number of them.
    fn take_newcomers(&mut self) -> Result<(), Failed> {
        if let Some(until) = self.short_until {
            if self.now < until {
                return Ok(());
            }
        }
        self.short_until = None;
        for _ in 0..MOST_NEWCOMERS {
            if self.waiting.is_crowded() {
                return Ok(());
            }
            match self.listener.accept() {
                Ok((stream, _)) => self.welcome(stream),
                Err(error) => match AcceptFault::of(&error) {
                    AcceptFault::Passing => {}
                    AcceptFault::NotYet => {
                        self.has_newcomers = false;
                        return Ok(());
                    }
                    AcceptFault::Shortage => {
                        let closed = self.waiting.close_oldest();
                        self.short_until = Some(if closed {
                            self.now
                        } else {
                            self.now.saturating_add(SHORTAGE_MILLIS)
                        });
                        return Ok(());
                    }
                    AcceptFault::Lasting => return Err(Failed),
                },
            }
        }
        Ok(())
    }

    /// Takes a newcomer in, unless an option can't be set on it. Where no place is free, the one that
    /// has been silent for the longest is closed.
    fn welcome(&mut self, stream: R::Stream) {
        let is_prompt = self.gives_prompt || stream.set_nodelay(true).is_ok();
        if !is_prompt || stream.set_nonblocking(true).is_err() {
            return;
        }
        let place = match self.waiting.take_place() {
            Some(place) => place,
            None => {
                self.waiting.close_oldest();
                match self.waiting.take_place() {
                    Some(place) => place,
                    None => return,
                }
            }
        };
        let connection = Connection::new(stream, self.alloc, place, self.now);
        self.seat(connection);
    }

    /// Reads what is there on a connection, and lets it wait for more where that isn't enough.
    fn seat(&mut self, connection: Connection<R::Stream>) {
        let mut connection = connection;
        let mut heard = connection.hear(self.now, &mut self.head);
        if let Heard::More = heard {
            if !connection.watch.is_registered {
                match register(
                    &self.poll,
                    connection.watch.descriptor,
                    connection.watch.place,
                ) {
                    Ok(()) => connection.watch.is_registered = true,
                    Err(_) => heard = Heard::Over,
                }
            }
        }
        self.waiting.put(connection, heard);
    }

    /// Takes back the connection that was handed out: it waits for its next head, or is closed.
    pub fn take_back(&mut self, rt: &R, connection: Connection<R::Stream>) {
        let mut connection = connection;
        if connection.is_given_back {
            connection.give_back();
            self.seat(connection);
            return;
        }
        let place = connection.watch.place;
        if connection.is_over || connection.is_answered() {
            self.waiting.free_place(place);
            return;
        }
        let now = self.read_clock(rt);
        match connection.leave(now) {
            Ok(()) => self.seat(connection),
            Err(_) => self.waiting.free_place(place),
        }
    }
}
