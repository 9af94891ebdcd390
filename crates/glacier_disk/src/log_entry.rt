// One call more in the log of a station in memory.
ghost use Rattle.std.specs.Prelude.{◌≡◌, ◌<◌, ◌≤◌, ◌+◌, ◌++◌, length, OnOk, OnErr, IsErr, vec_len, vec_capacity};
ghost use Rattle.std.specs.List.{Contains};
ghost use Rattle.glacier_disk.specs.Contents.{image_of};
ghost use Rattle.glacier_disk.specs.Log.{after_call, Noted, Quietly};
ghost use Rattle.glacier_disk.specs.MemConnections.{connection_of};
ghost use Rattle.glacier_disk.specs.Network.{Sends};
ghost use Rattle.glacier_disk.specs.declared.call.Call.TheVariants.{Send, Write};

use crate::Area;
use crate::areas::put_in;
use crate::bytes::extend_reserved;
use crate::call::Call;
use crate::contents::Contents;
use crate::mem_connection::MemConnection;
use glacier_base::{Failed, Text};
use std::alloc::Global;

/// Makes room for a call in the log, and logs a failure that was planned.
#[tactic(auto, using(crate::proofs::Noting::noting))]
fn admits(calls: &mut Vec<Call>, planned: &[u64]) -> Result<(), Failed>
    ensures ok { OnOk result (calls.new.items ≡ calls.old.items) }
    ensures room { OnOk result (vec_len calls.new < vec_capacity calls.new) }
    ensures err { OnErr result (Quietly calls.old.items calls.new.items) }
    ensures counted { OnErr result (length calls.new.items ≤ length calls.old.items + 1) }
    ensures planned { Contains planned.now (length calls.old.items) → IsErr result }
{
    if calls.reserve(1).is_err() {
        return Err(Failed);
    }
    let number = calls.len() as u64;
    if planned.contains(&number) {
        calls.push_reserved(Call::NoEffect);
        return Err(Failed);
    }
    Ok(())
}

/// Logs a call, unless its failure was planned.
#[tactic(auto, using(crate::proofs::Noting::noting))]
pub(crate) fn note(calls: &mut Vec<Call>, planned: &[u64], call: Call) -> Result<(), Failed>
    ensures { Noted call planned.now calls.old.items calls.new.items result }
{
    admits(calls, planned)?;
    calls.push_reserved(call);
    Ok(())
}

/// Writes into an area and logs it. A call that fails writes nothing.
#[tactic(auto, using(crate::proofs::Noting::noting))]
pub(crate) fn write(
    alloc: Global,
    now: &mut Contents,
    calls: &mut Vec<Call>,
    planned: &[u64],
    area: Area,
    at: u64,
    bytes: &[u8],
) -> Result<(), Failed>
    ensures noted { Noted (Write area at bytes.now) planned.now calls.old.items calls.new.items
        result }
    ensures ok { OnOk result (image_of now.new ≡ after_call (Write area at bytes.now)
        (image_of now.old)) }
    ensures err { OnErr result (image_of now.new ≡ image_of now.old) }
{
    let Ok(copy) = Text::of(alloc, bytes) else {
        return Err(Failed);
    };
    admits(calls, planned)?;
    match put_in(now, area, at, bytes) {
        Ok(()) => {}
        Err(_) => return Err(Failed),
    }
    calls.push_reserved(Call::Write {
        area,
        at,
        bytes: copy,
    });
    Ok(())
}

fn note_sent(
    alloc: Global,
    calls: &mut Vec<Call>,
    planned: &[u64],
    bytes: &[u8],
) -> Result<(), Failed>
    ensures { Noted (Send bytes.now) planned.now calls.old.items calls.new.items result }
{
    match Text::of(alloc, bytes) {
        Ok(copy) => note(calls, planned, Call::Send { bytes: copy }),
        Err(_) => Err(Failed),
    }
}

/// Keeps bytes in three places: with the connection, with all that was sent, and in the log.
pub(crate) fn send(
    alloc: Global,
    connection: &mut MemConnection,
    sent: &mut Vec<u8>,
    calls: &mut Vec<Call>,
    planned: &[u64],
    bytes: &[u8],
) -> Result<(), Failed>
    ensures noted { Noted (Send bytes.now) planned.now calls.old.items calls.new.items result }
    ensures connection { OnOk result (Sends bytes.now (connection_of connection.old)
        (connection_of connection.new)) }
    ensures all { OnOk result (sent.new.items ≡ sent.old.items ++ bytes.now) }
    ensures same_connection { OnErr result (connection_of connection.new ≡
        connection_of connection.old) }
    ensures same { OnErr result (sent.new.items ≡ sent.old.items) }
{
    if connection.sent.reserve(bytes.len()).is_err() || sent.reserve(bytes.len()).is_err() {
        return Err(Failed);
    }
    note_sent(alloc, calls, planned, bytes)?;
    extend_reserved(&mut connection.sent, bytes);
    extend_reserved(sent, bytes);
    Ok(())
}
