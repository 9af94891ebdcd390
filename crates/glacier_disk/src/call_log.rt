// All that has happened to a station in memory: each call is kept, so that what a crash may leave
// is told by its data.
ghost use Rattle.std.specs.Prelude.{◌≡◌, ◌<◌, ◌≤◌, ◌+◌, ◌++◌, [], ◌∷◌, min, ℕ, List, length, take, true, false, is_some, is_ok, OnOk, OnErr, IfOk, vec_len, vec_capacity};
ghost use Rattle.std.specs.List.{concat};
ghost use Rattle.std.proofs.Props.{props};
ghost use Rattle.glacier_disk.specs.Calls.{Receives};
ghost use Rattle.glacier_disk.specs.Contents.{image_of};
ghost use Rattle.glacier_disk.specs.Image.{in_order, put, Becomes, TornWrite, TornCut, Only, Follows};
ghost use Rattle.glacier_disk.specs.MemConnections.{connections_on};
ghost use Rattle.glacier_disk.specs.Network.{accepted, sent_on, AllSent, PartSent, OnLast, Sends, SendsPart};
ghost use Rattle.glacier_disk.specs.Log.{after_calls, left_after, Still, Passes};
ghost use Rattle.glacier_disk.specs.Sent.{sent_after, PassesWith};

use crate::Area;
use crate::areas::{copied, cut_in};
use crate::call::Call;
use crate::contents::Contents;
use crate::log_entry::{note, send, write};
use crate::mem_connection::MemConnection;
use glacier_base::{Failed, List, Memory, Text};
use std::alloc::Global;

#[derive(Drop)]
pub struct CallLog {
    alloc: Global,
    pub now: Contents,
    pub first: Contents,
    pub calls: Vec<Call>,
    pub planned: List<u64>,
    pub past: Vec<MemConnection>,
    pub last: Option<MemConnection>,
    pub sent: Vec<u8>,
    ghost replays: { image_of now ≡ after_calls calls.items (image_of first) } by { Prim.hlevel props },
    ghost sends: { sent_on (connections_on past.items last) ≡ sent_after calls.items } by { Prim.hlevel props },
    ghost whole: { sent.items ≡ concat (sent_after calls.items) } by { Prim.hlevel props },
    ghost room: { is_some last ≡ true → vec_len past < vec_capacity past } by { Prim.hlevel props },
}

impl CallLog {
    ghost use Rattle.glacier_disk.specs.LogCalls.{Logged, KeepsConnections, ConnectionCall};

    pub(crate) fn new(
        alloc: Global,
        areas: [Text; 4],
        planned: List<u64>,
    ) -> Result<CallLog, Memory>
        ensures areas { IfOk result (λ log. in_order (image_of log.now) ≡ areas) }
        ensures first { IfOk result (λ log. image_of log.first ≡ image_of log.now) }
        ensures calls { IfOk result (λ log. log.calls.items ≡ []) }
        ensures plan { IfOk result (λ log. log.planned ≡ planned) }
        ensures past { IfOk result (λ log. log.past.items ≡ []) }
        ensures none { IfOk result (λ log. log.last ≡ None) }
    {
        let now = Contents::of_texts(areas);
        let first = copied(alloc, &now)?;
        Ok(CallLog {
            alloc,
            now,
            first,
            calls: Vec::new(alloc),
            planned,
            past: Vec::new(alloc),
            last: None,
            sent: Vec::new(alloc),
        })
    }

    /// A call that changes nothing, or fails.
    pub(crate) fn look(&mut self) -> Result<(), Failed>
        ensures still { Still (image_of self.old.first) (image_of self.new.first)
            self.old.calls.items self.new.calls.items (image_of self.old.now)
            (image_of self.new.now) }
        ensures time { PassesWith (image_of self.old.first) (image_of self.new.first)
            self.old.calls.items self.new.calls.items
            (AllSent (connections_on self.new.past.items self.new.last)) }
        ensures connections { KeepsConnections self.old self.new }
        ensures now { self.new.now ≡ self.old.now }
        ensures logged { Logged self.old self.new result }
    {
        note(&mut self.calls, self.planned.as_slice(), Call::NoEffect)
    }

    pub(crate) fn sync(&mut self) -> Result<(), Failed>
        ensures durable { OnOk result (Only (image_of self.old.now)
            (left_after (image_of self.new.first) self.new.calls.items)) }
        ensures still { Still (image_of self.old.first) (image_of self.new.first)
            self.old.calls.items self.new.calls.items (image_of self.old.now)
            (image_of self.new.now) }
        ensures connections { KeepsConnections self.old self.new }
        ensures logged { Logged self.old self.new result }
    {
        match note(&mut self.calls, self.planned.as_slice(), Call::Sync) {
            Ok(()) => Ok(()),
            Err(failed) => Err(failed),
        }
    }

    pub(crate) fn write(&mut self, area: Area, at: u64, bytes: &[u8]) -> Result<(), Failed>
        ensures written { OnOk result (Becomes area (put at bytes.now (image_of self.old.now area))
            (image_of self.old.now) (image_of self.new.now)) }
        ensures part { OnErr result (TornWrite area (min at (length (image_of self.old.now area)))
            (at + length bytes.now) (image_of self.old.now) (image_of self.new.now)) }
        ensures crash { Follows (TornWrite area (min at (length (image_of self.old.now area)))
            (at + length bytes.now)) (left_after (image_of self.old.first) self.old.calls.items)
            (left_after (image_of self.new.first) self.new.calls.items) }
        ensures time { Passes (image_of self.old.first) (image_of self.new.first)
            self.old.calls.items self.new.calls.items }
        ensures connections { KeepsConnections self.old self.new }
        ensures logged { Logged self.old self.new result }
    {
        match write(
            self.alloc,
            &mut self.now,
            &mut self.calls,
            self.planned.as_slice(),
            area,
            at,
            bytes,
        ) {
            Ok(()) => Ok(()),
            Err(failed) => Err(failed),
        }
    }

    pub(crate) fn cut(&mut self, area: Area, length: u64) -> Result<(), Failed>
        ensures cut { OnOk result (Becomes area (take length (image_of self.old.now area))
            (image_of self.old.now) (image_of self.new.now)) }
        ensures part { OnErr result (TornCut area length (image_of self.old.now)
            (image_of self.new.now)) }
        ensures crash { Follows (TornCut area length)
            (left_after (image_of self.old.first) self.old.calls.items)
            (left_after (image_of self.new.first) self.new.calls.items) }
        ensures time { Passes (image_of self.old.first) (image_of self.new.first)
            self.old.calls.items self.new.calls.items }
        ensures connections { KeepsConnections self.old self.new }
        ensures logged { Logged self.old self.new result }
    {
        match note(
            &mut self.calls,
            self.planned.as_slice(),
            Call::Cut { area, length },
        ) {
            Ok(()) => {
                cut_in(&mut self.now, area, length as usize);
                Ok(())
            }
            Err(failed) => Err(failed),
        }
    }

    /// Takes the first input that waits, as the next connection.
    pub(crate) fn accept(&mut self, waiting: &mut Vec<Text>) -> Result<(), Failed>
        requires some { 0 < vec_len waiting.old }
        requires free { is_some self.old.last ≡ false }
        ensures next { OnOk result ((input : List ℕ)
            × (waiting.old.items ≡ input ∷ waiting.new.items)
            × (connections_on self.new.past.items self.new.last ≡ connections_on
            self.old.past.items self.old.last ++ accepted input ∷ [])) }
        ensures failed { OnErr result ((waiting.new ≡ waiting.old)
            × (connections_on self.new.past.items self.new.last
            ≡ connections_on self.old.past.items self.old.last)) }
        ensures connected { is_some self.new.last ≡ is_ok result }
        ensures still { Still (image_of self.old.first) (image_of self.new.first)
            self.old.calls.items self.new.calls.items (image_of self.old.now)
            (image_of self.new.now) }
        ensures time { PassesWith (image_of self.old.first) (image_of self.new.first)
            self.old.calls.items self.new.calls.items
            (AllSent (connections_on self.new.past.items self.new.last)) }
        ensures logged { Logged self.old self.new result }
    {
        if self.past.reserve(1).is_err() {
            return Err(Failed);
        }
        match note(&mut self.calls, self.planned.as_slice(), Call::Accept) {
            Ok(()) => {
                self.last = Some(MemConnection::new(self.alloc, waiting.remove(0)));
                Ok(())
            }
            Err(failed) => Err(failed),
        }
    }

    /// Takes as many bytes as are coming, as fit and as the limit allows.
    pub(crate) fn receive(&mut self, into: &mut [u8], limit: usize) -> Result<usize, Failed>
        requires some { is_some self.old.last ≡ true }
        requires limit { 0 < length into.old → 0 < limit }
        ensures receives { Receives into.old into.new
            (connections_on self.old.past.items self.old.last)
            (connections_on self.new.past.items self.new.last) result }
        ensures size { IfOk result (λ n. OnLast
            (λ from to. n ≡ min (length into.old) (min limit (length from.coming)))
            (connections_on self.old.past.items self.old.last)
            (connections_on self.new.past.items self.new.last)) }
        ensures within { IfOk result (λ n. n ≤ length into.old) }
        ensures time { PassesWith (image_of self.old.first) (image_of self.new.first)
            self.old.calls.items self.new.calls.items
            (AllSent (connections_on self.new.past.items self.new.last)) }
        ensures call { ConnectionCall self.old self.new }
        ensures logged { Logged self.old self.new result }
    {
        match &mut self.last {
            Some(connection) => {
                match note(&mut self.calls, self.planned.as_slice(), Call::NoEffect) {
                    Ok(()) => Ok(connection.take(into, limit)),
                    Err(failed) => {
                        connection.take_none();
                        Err(failed)
                    }
                }
            }
            None => unreachable!(),
        }
    }

    /// A send that fails has sent nothing.
    pub(crate) fn send(&mut self, bytes: &[u8]) -> Result<(), Failed>
        requires { is_some self.old.last ≡ true }
        ensures sends { OnOk result (OnLast (Sends bytes.now)
            (connections_on self.old.past.items self.old.last)
            (connections_on self.new.past.items self.new.last)) }
        ensures failed { OnErr result (OnLast (SendsPart 0 bytes.now)
            (connections_on self.old.past.items self.old.last)
            (connections_on self.new.past.items self.new.last)) }
        ensures time { OnOk result (PassesWith (image_of self.old.first) (image_of self.new.first)
            self.old.calls.items self.new.calls.items
            (PartSent bytes.now (connections_on self.old.past.items self.old.last))) }
        ensures no_time { OnErr result (PassesWith (image_of self.old.first)
            (image_of self.new.first) self.old.calls.items self.new.calls.items
            (PartSent (take 0 bytes.now) (connections_on self.old.past.items self.old.last))) }
        ensures call { ConnectionCall self.old self.new }
        ensures logged { Logged self.old self.new result }
    {
        match &mut self.last {
            Some(connection) => match send(
                self.alloc,
                connection,
                &mut self.sent,
                &mut self.calls,
                self.planned.as_slice(),
                bytes,
            ) {
                Ok(()) => Ok(()),
                Err(failed) => {
                    connection.send_none();
                    Err(failed)
                }
            },
            None => unreachable!(),
        }
    }

    pub(crate) fn hang_up(&mut self)
        ensures last { is_some self.new.last ≡ false }
        ensures connections { connections_on self.new.past.items self.new.last ≡ connections_on
            self.old.past.items self.old.last }
        ensures calls { self.new.calls ≡ self.old.calls }
        ensures images { (self.new.now ≡ self.old.now) × (self.new.first ≡ self.old.first) }
        ensures plan { self.new.planned ≡ self.old.planned }
    {
        match self.last.take() {
            Some(connection) => self.past.push_reserved(connection),
            None => {}
        }
    }
}
