// Sending the output of a job.
ghost use Rattle.std.specs.Prelude.{◌≡◌, ◌<◌, ◌≤◌, [], IsTrue, length, take, drop, IfOk};
ghost use Rattle.glacier_replay.specs.Changes.{State};
ghost use Rattle.glacier_server.specs.Machine.{IsPrintableIn};
ghost use Rattle.glacier_server.specs.Outputs.{IsHeldIn, IsReady, IsThere, OnlySends, SendsOutput, SendsPiece, ShowsFault, failing_by};
ghost use Rattle.glacier_server.specs.Texts.{head_of_output, promised, text_of_output};
ghost use Rattle.glacier_store.specs.Outputs.{stretch_bytes};

use crate::reply_sender::Stamp;
use glacier_disk::Station;
use glacier_http::{Reply, write_head};
use glacier_machine::{Output, Stretch};
use glacier_store::Store;

/// Why an output wasn't sent whole.
#[derive(Clone, Copy, Debug, PartialEq, Eq)]
pub enum OutputFault {
    /// A send failed.
    Send,
    /// A call of the disk failed.
    Disk,
}

/// How many bytes the head of an output promises.
fn length_of(stretch: &Stretch) -> u64
    ensures { result ≡ promised stretch.now }
{
    stretch.end.saturating_sub(stretch.first)
}

/// Prints the head of an output into a buffer, and answers how many bytes it has.
#[tactic(auto, unfolding(crate::specs::Texts::head_of_output))]
fn print_head(output: &Output, reply: &Reply, stamp: &Stamp, into: &mut [u8]) -> usize
    requires { IsPrintableIn (length into.old) reply.now }
    ensures head { take result into.new
        ≡ head_of_output output.now.stretch reply.now stamp.now.date stamp.now.close }
    ensures within { result ≤ length into.old }
{
    write_head(
        reply,
        length_of(&output.stretch),
        stamp.date,
        stamp.close,
        into,
    )
}

/// Reads bytes of an output from a place on, as many as there is room for, and sends them. It
/// answers how many these are.
fn send_piece<S: Station>(
    station: &mut S,
    store: &Store,
    output: &Output,
    at: u64,
    piece: &mut [u8],
) -> Result<usize, OutputFault>
    requires ready { IsReady (S.told station.old) }
    requires there { IsThere store.now.accounts output.now }
    requires some { 0 < length piece.old }
    requires behind { at < promised output.now.stretch }
    ensures sends { IsTrue S.tells → (state : State) →
        IsHeldIn (S.told station.old) store.now state →
        SendsPiece (S.told station.old) (S.told station.new) (take (length piece.old)
        (drop at (stretch_bytes state output.now.account output.now.stretch))) result }
    ensures some { IfOk result (λ n. 0 < n) }
    ensures within { IfOk result (λ n. n ≤ length piece.old) }
    ensures only { OnlySends (S.told station.old) (S.told station.new) (failing_by result) }
    ensures fault { ShowsFault result (S.told station.old) (S.told station.new) }
{
    match store.read_output(station, &output.account, &output.stretch, at, piece) {
        Ok(count) => {
            match station.send(&piece[..count]) {
                Ok(()) => Ok(count),
                Err(_) => Err(OutputFault::Send),
            }
        }
        Err(_) => Err(OutputFault::Disk),
    }
}

/// Sends the bytes of an output, piece after piece.
fn send_pieces<S: Station>(
    station: &mut S,
    store: &Store,
    output: &Output,
    buffer: &mut [u8],
) -> Result<(), OutputFault>
    requires ready { IsReady (S.told station.old) }
    requires there { IsThere store.now.accounts output.now }
    requires room { 0 < length buffer.old }
    ensures sends { IsTrue S.tells → (state : State) →
        IsHeldIn (S.told station.old) store.now state →
        SendsOutput (S.told station.old) (S.told station.new) []
        (stretch_bytes state output.now.account output.now.stretch)
        (promised output.now.stretch) result }
    ensures only { OnlySends (S.told station.old) (S.told station.new) (failing_by result) }
    ensures fault { ShowsFault result (S.told station.old) (S.told station.new) }
{
    let length = length_of(&output.stretch);
    let mut sent = 0;
    while sent < length {
        let most = (buffer.len() as u64).min(length - sent) as usize;
        match send_piece(station, store, output, sent, &mut buffer[..most]) {
            Ok(count) => sent += count as u64,
            Err(fault) => return Err(fault),
        }
    }
    Ok(())
}

/// Sends an output: the head of its reply, and behind it the bytes of the stretch, in pieces of as
/// many bytes as the buffer has. It takes no memory.
///
/// An error says why the text wasn't sent whole.
pub fn send_output<S: Station>(
    station: &mut S,
    store: &Store,
    output: &Output,
    reply: &Reply,
    stamp: &Stamp,
    buffer: &mut [u8],
) -> Result<(), OutputFault>
    requires ready { IsReady (S.told station.old) }
    requires there { IsThere store.now.accounts output.now }
    requires printable { IsPrintableIn (length buffer.old) reply.now }
    ensures sends { IsTrue S.tells → (state : State) →
        IsHeldIn (S.told station.old) store.now state →
        SendsOutput (S.told station.old) (S.told station.new)
        (head_of_output output.now.stretch reply.now stamp.now.date stamp.now.close)
        (text_of_output state output.now reply.now stamp.now.date stamp.now.close) (promised output.now.stretch) result }
    ensures only { OnlySends (S.told station.old) (S.told station.new) (failing_by result) }
    ensures fault { ShowsFault result (S.told station.old) (S.told station.new) }
{
    let end = print_head(output, reply, stamp, buffer);
    match station.send(&buffer[..end]) {
        Ok(()) => send_pieces(station, store, output, buffer),
        Err(_) => Err(OutputFault::Send),
    }
}
