// The connection that is handed out: what is received and sent on it.
ghost use Rattle.std.specs.Prelude.{◌≡◌, ◌<◌, ◌≤◌, length, IfOk, IfSome, Ok, true, OnOk, OnErr};
ghost use Rattle.std.specs.Io.KnownBytes.{Appends, Keeps, WriteAppends};
ghost use Rattle.glacier_base.specs.ByteStreams.{AppendsPart};
ghost use Rattle.glacier_host.specs.declared.course.Course.TheVariants.{Between};
ghost use Rattle.glacier_host.specs.Turns.{coming, place, HandsOut, MayHandOut};

use crate::connection::{Connection, MOST_SILENCE};
use crate::course::Course;
use crate::network::Network;
use crate::pace::Pace;
use crate::streams::send_now;
use glacier_base::Failed;
use glacier_http::{HeadStep, read_head};
use std::net::Net;
use std::time::Clock;

/// How long a turn may last, in milliseconds, before others that are due have theirs between two of its
/// messages.
const MOST_TURN: u64 = 10;

/// Waits inside a message until its client may have sent more. One that is too slow is a fault.
fn wait_inside<R: Net + Clock>(
    rt: &R,
    network: &mut Network<R>,
    connection: &mut Connection<R::Stream>,
) -> Result<(), Failed>
    ensures stream { connection.new.stream ≡ connection.old.stream }
    ensures held { connection.new.held ≡ connection.old.held }
    ensures course { connection.new.course ≡ connection.old.course }
{
    let now = network.read_clock(rt);
    let mut pace = match connection.pace {
        Some(pace) => pace,
        None => Pace::new(now),
    };
    let is_slow = pace.is_too_slow(now, network.others_wait());
    connection.pace = Some(pace);
    if is_slow {
        return Err(Failed);
    }
    network.wait(rt, &mut connection.watch, pace.left(now))
}

/// Waits until its client may take more of a reply. One that is too slow is a fault.
fn wait_to_send<R: Net + Clock>(
    rt: &R,
    network: &mut Network<R>,
    connection: &mut Connection<R::Stream>,
    pace: &mut Pace,
) -> Result<(), Failed>
    ensures stream { connection.new.stream ≡ connection.old.stream }
    ensures held { connection.new.held ≡ connection.old.held }
    ensures course { connection.new.course ≡ connection.old.course }
{
    let now = network.read_clock(rt);
    if pace.is_too_slow(now, network.others_wait()) {
        return Err(Failed);
    }
    network.wait_to_send(rt, &mut connection.watch, pace.left(now))
}

/// Hands out what may be handed out of a message, or waits for more of it.
fn take_part<R: Net + Clock>(
    rt: &R,
    network: &mut Network<R>,
    connection: &mut Connection<R::Stream>,
    into: &mut [u8],
) -> Result<Option<usize>, Failed>
    requires { 0 < length into.old }
    ensures bound { IfOk result (λ came. IfSome came (λ count. count ≤ length into.old)) }
    ensures bytes { MayHandOut (place R.Stream.remaining connection.old)
        (place R.Stream.remaining connection.new) result into.new }
{
    if connection.held.is_empty() && !connection.watch.is_readable {
        return match wait_inside(rt, network, connection) {
            Ok(()) => Ok(None),
            Err(fault) => Err(fault),
        };
    }
    let most = connection.course.most(into.len());
    if most == 0 {
        connection.course = Course::Between;
        return Ok(None);
    }
    let was_held = !connection.held.is_empty();
    match connection.hand_out(&mut into[..most]) {
        Ok(Some(count)) => {
            if !was_held {
                connection.took(count, most, network.now());
            }
            connection.handed(count, network.now());
            Ok(Some(count))
        }
        Ok(None) => {
            connection.watch.is_readable = false;
            Ok(None)
        }
        Err(fault) => Err(fault),
    }
}

/// Whether the turn goes on with its next message: it hasn't lasted for long, or no other is due, which
/// is seen to then.
fn goes_on<R: Net + Clock>(
    rt: &R,
    network: &mut Network<R>,
    connection: &mut Connection<R::Stream>,
) -> Result<bool, Failed>
    ensures stream { connection.new.stream ≡ connection.old.stream }
    ensures held { connection.new.held ≡ connection.old.held }
    ensures course { connection.new.course ≡ connection.old.course }
{
    if network.now().saturating_sub(connection.turn_since) < MOST_TURN {
        return Ok(true);
    }
    network.wait(rt, &mut connection.watch, 0)?;
    connection.turn_since = network.now();
    Ok(!network.others_wait())
}

/// Between two messages: finds where the next begins, or reads, or waits. Nothing of it is handed out
/// yet, and the connection is given back where another is due and the next isn't there or the turn has
/// lasted for long, or where the next doesn't come for long.
fn find_next<R: Net + Clock>(
    rt: &R,
    network: &mut Network<R>,
    connection: &mut Connection<R::Stream>,
) -> Result<bool, Failed>
    requires { connection.old.course ≡ Between }
    ensures bytes { Keeps (coming R.Stream.remaining connection.old)
        (coming R.Stream.remaining connection.new) }
    ensures back { result ≡ Ok true → connection.new.course ≡ Between }
{
    if connection.begins(network.head()) {
        if goes_on(rt, network, connection)? {
            return Ok(false);
        }
        connection.course = Course::Between;
        connection.is_given_back = true;
        return Ok(true);
    }
    if network.others_wait()
        || network.now().saturating_sub(connection.watch.last) >= MOST_SILENCE
    {
        connection.is_given_back = true;
        return Ok(true);
    }
    if connection.watch.is_readable {
        return match connection.fill(network.now()) {
            Ok(_) => Ok(false),
            Err(fault) => Err(fault),
        };
    }
    match network.wait(rt, &mut connection.watch, MOST_SILENCE) {
        Ok(()) => Ok(false),
        Err(fault) => Err(fault),
    }
}

/// Hands out bytes of the next message or of the one that was begun, waits for them, or answers 0:
/// at the end of the input, or where the connection is to be given back.
fn receive_once<R: Net + Clock>(
    rt: &R,
    network: &mut Network<R>,
    connection: &mut Connection<R::Stream>,
    into: &mut [u8],
) -> Result<Option<usize>, Failed>
    requires { 0 < length into.old }
    ensures bound { IfOk result (λ came. IfSome came (λ count. count ≤ length into.old)) }
    ensures bytes { MayHandOut (place R.Stream.remaining connection.old)
        (place R.Stream.remaining connection.new) result into.new }
{
    if let Course::Between = connection.course {
        return match find_next(rt, network, connection) {
            Ok(true) => Ok(Some(0)),
            Ok(false) => Ok(None),
            Err(fault) => Err(fault),
        };
    }
    take_part(rt, network, connection, into)
}

/// Hands out bytes of the connection's input: those of one message at most, and none of the next
/// before its head is whole.
#[tactic(auto, using(crate::proofs::HeldLemmas::keeps_twice, crate::proofs::CourseLemmas::goes_none, crate::proofs::CourseLemmas::goes_on, crate::proofs::CourseLemmas::hands_out))]
pub fn receive<R: Net + Clock>(
    rt: &R,
    network: &mut Network<R>,
    connection: &mut Connection<R::Stream>,
    into: &mut [u8],
) -> Result<usize, Failed>
    ensures bound { IfOk result (λ count. count ≤ length into.old) }
    ensures bytes { HandsOut (place R.Stream.remaining connection.old)
        (place R.Stream.remaining connection.new) result into.new }
{
    if into.is_empty() {
        return Ok(0);
    }
    for _ in 0..u64::MAX {
        match receive_once(rt, network, connection, into) {
            Ok(Some(count)) => return Ok(count),
            Ok(None) => {}
            Err(fault) => return Err(fault),
        }
    }
    Err(Failed)
}

/// Sends some of the bytes, and tells how many. Where none can be sent yet, it waits, and answers 0.
#[tactic(auto, using(crate::proofs::HeldLemmas::appends_none))]
fn send_once<R: Net + Clock>(
    rt: &R,
    network: &mut Network<R>,
    connection: &mut Connection<R::Stream>,
    pace: &mut Pace,
    bytes: &[u8],
) -> Result<usize, Failed>
    ensures bound { IfOk result (λ count. count ≤ length bytes.now) }
    ensures bytes { WriteAppends (R.Stream.contents connection.old.stream)
        (R.Stream.contents connection.new.stream) result bytes.now }
    ensures held { connection.new.held ≡ connection.old.held }
    ensures course { connection.new.course ≡ connection.old.course }
{
    let count = match send_now(&mut connection.stream, bytes) {
        Ok(count) => count,
        Err(fault) => return Err(fault),
    };
    if count > 0 {
        pace.moves(count, network.now());
        return Ok(count);
    }
    match wait_to_send(rt, network, connection, pace) {
        Ok(()) => Ok(0),
        Err(fault) => Err(fault),
    }
}

/// Sends all bytes, or a first part of them and then answers `Failed`. Where in a message it is stays so.
#[tactic(auto, using(crate::proofs::HeldLemmas::appends_whole))]
pub fn send<R: Net + Clock>(
    rt: &R,
    network: &mut Network<R>,
    connection: &mut Connection<R::Stream>,
    bytes: &[u8],
) -> Result<(), Failed>
    ensures whole { OnOk result (Appends (R.Stream.contents connection.old.stream)
        (R.Stream.contents connection.new.stream) bytes.now) }
    ensures part { OnErr result (AppendsPart (R.Stream.contents connection.old.stream)
        (R.Stream.contents connection.new.stream) bytes.now) }
    ensures held { connection.new.held ≡ connection.old.held }
    ensures course { connection.new.course ≡ connection.old.course }
{
    let now = network.read_clock(rt);
    connection.watch.last = now;
    let mut pace = Pace::new(now);
    let mut done = 0;
    for _ in 0..u64::MAX {
        if done == bytes.len() {
            return Ok(());
        }
        done += send_once(rt, network, connection, &mut pace, &bytes[done..])?;
    }
    Err(Failed)
}
