// The sockets and the clock of a station of the system.
ghost use Rattle.std.specs.Prelude.{◌≡◌, ◌≤◌, length, true, is_some, Some, IfOk, OnOk, OnErr};
ghost use Rattle.std.specs.Io.KnownBytes.{Appends};
ghost use Rattle.std.specs.Option.{option_and_then};
ghost use Rattle.glacier_base.specs.ByteStreams.{AppendsPart};
ghost use Rattle.glacier_disk.specs.Calls.{ReceiveCall, SendCall};
ghost use Rattle.glacier_host.specs.Turns.{course_of_turn, place_of_turn, sent_on, HandsOut};

use crate::network::Network;
use crate::{HostStation, turn};
use glacier_base::{Failed, LAST_MOMENT, Moment};
use glacier_disk::{Disk, RawFile, Station};
use std::net::Net;
use std::rt::Files;
use std::time::{Clock, SystemTime, UNIX_EPOCH};

/// A time before 1970, or of a clock that can't be read, is 0, and one past the greatest moment is
/// the greatest.
fn seconds<R: Clock>(rt: &R) -> u64
    ensures { result ≤ LAST_MOMENT }
{
    match SystemTime::now(rt) {
        Ok(time) => match time.duration_since(UNIX_EPOCH) {
            Ok(since) => since.as_secs().min(LAST_MOMENT),
            Err(_) => 0,
        },
        Err(_) => 0,
    }
}

/// Puts a value where one may be.
fn put<T: Drop>(place: &mut Option<T>, value: T)
    ensures { place.new ≡ Some value }
{
    *place = Some(value);
}

impl<R: Files + Net + Clock + Drop> Station for HostStation<R>
where
    R::File: RawFile,
{
    fn listen(&mut self, at: &str) -> Result<(), Failed> {
        let bound = Network::listen(&self.rt, self.alloc, at);
        match self.accept_faults.counted(bound) {
            Ok(network) => {
                put(&mut self.network, network);
                Ok(())
            }
            Err(fault) => Err(fault),
        }
    }

    fn accept(&mut self) -> Result<bool, Failed> {
        let accepted = match &mut self.network {
            Some(network) => network.next(&self.rt),
            None => unreachable!(),
        };
        match self.accept_faults.counted(accepted) {
            Ok(connection) => {
                put(&mut self.turn, connection);
                Ok(true)
            }
            Err(fault) => Err(fault),
        }
    }

    fn receive(&mut self, into: &mut [u8]) -> Result<usize, Failed>
        requires { is_some self.old.turn ≡ true }
        ensures within { IfOk result (λ n. n ≤ length into.old) }
        ensures bytes { HandsOut (place_of_turn R.Stream.remaining self.old.turn)
            (place_of_turn R.Stream.remaining self.new.turn) result into.new }
        ensures call { ReceiveCall (⟦<HostStation<R> as Disk>⟧.told self.old)
            (⟦<HostStation<R> as Disk>⟧.told self.new) result }
    {
        match (&mut self.network, &mut self.turn) {
            (Some(network), Some(connection)) => match turn::receive(
                &self.rt, network, connection, into,
            ) {
                Ok(count) => {
                    connection.is_over |= connection.is_ended;
                    Ok(count)
                }
                Err(_) => {
                    connection.is_over = true;
                    Err(self.receive_faults.failed())
                }
            },
            _ => Err(self.receive_faults.failed()),
        }
    }

    fn send(&mut self, bytes: &[u8]) -> Result<(), Failed>
        requires { is_some self.old.turn ≡ true }
        ensures whole { OnOk result (Appends
            (option_and_then (sent_on R.Stream.contents) self.old.turn)
            (option_and_then (sent_on R.Stream.contents) self.new.turn) bytes.now) }
        ensures part { OnErr result (AppendsPart
            (option_and_then (sent_on R.Stream.contents) self.old.turn)
            (option_and_then (sent_on R.Stream.contents) self.new.turn) bytes.now) }
        ensures course { course_of_turn self.new.turn ≡ course_of_turn self.old.turn }
        ensures call { SendCall (⟦<HostStation<R> as Disk>⟧.told self.old)
            (⟦<HostStation<R> as Disk>⟧.told self.new) result }
    {
        match (&mut self.network, &mut self.turn) {
            (Some(network), Some(connection)) => match turn::send(
                &self.rt, network, connection, bytes,
            ) {
                Ok(()) => Ok(()),
                Err(_) => {
                    connection.is_over = true;
                    Err(self.send_faults.failed())
                }
            },
            _ => Err(self.send_faults.failed()),
        }
    }

    fn hang_up(&mut self) {
        if let (Some(network), Some(connection)) = (&mut self.network, self.turn.take()) {
            network.take_back(&self.rt, connection);
        }
        self.turn = None;
    }

    fn now(&mut self) -> Moment {
        match Moment::new(seconds(&self.rt)) {
            Some(moment) => moment,
            None => unreachable!(),
        }
    }
}
