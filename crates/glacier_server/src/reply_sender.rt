// Sending a reply.
ghost use Rattle.std.specs.Prelude.{◌≡◌, ◌++◌, ◌≤◌, [], IsTrue, length, take, true, IfSome, OnOk, OnErr, None, if◌then◌else◌};
ghost use Rattle.glacier_http.specs.Interim.{interim_text};
ghost use Rattle.glacier_server.specs.Machine.{IsPrintableIn};
ghost use Rattle.glacier_server.specs.Texts.{text_of_reply};
ghost use Rattle.glacier_server.specs.Transfer.{SentAll, SentPart, Keeps, sending_if};

use glacier_base::{Failed, Moment};
use glacier_disk::Station;
use glacier_http::{HeadSpans, Reply, interim, write_head};

/// The head of a reply has at most so many bytes.
pub const MOST_HEAD_TEXT: usize = 1024;

/// A reply of so many bytes goes out at once.
pub const MOST_AT_ONCE: usize = 16_384;

/// What a connection adds to a reply.
#[derive(Clone, Copy)]
pub struct Stamp {
    pub date: Moment,
    pub close: bool,
}

/// What stands in a buffer of a reply's text: so many bytes, and whether they are the whole text,
/// or its head alone.
#[derive(Clone, Copy)]
struct Printed {
    end: usize,
    whole: bool,
}

/// Copies a text behind the first bytes of a buffer, where there is room, and answers how many stand
/// there then.
fn put_behind(buffer: &mut [u8], at: usize, text: &[u8]) -> Option<usize>
    requires { at ≤ length buffer.old }
    ensures some { IfSome result (λ end. take end buffer.new ≡ take at buffer.old ++ text.now) }
    ensures within { IfSome result (λ end. end ≤ length buffer.old) }
    ensures none { result ≡ None → buffer.new ≡ buffer.old }
{
    let room = buffer.len() - at;
    if text.len() > room {
        return None;
    }
    let end = at + text.len();
    buffer[at..end].copy_from_slice(text);
    Some(end)
}

/// Prints a reply's head into a buffer, and its body behind it where there is room. It takes no
/// memory.
#[tactic(auto, unfolding(crate::specs::Texts::text_of_reply))]
fn print(reply: &Reply, stamp: &Stamp, into: &mut [u8]) -> Printed
    requires { IsPrintableIn (length into.old) reply.now }
    ensures within { result.end ≤ length into.old }
    ensures text { take result.end into.new ++ (if result.whole then [] else reply.now.body)
        ≡ text_of_reply reply.now stamp.now.date stamp.now.close }
{
    let body = reply.body.bytes();
    let head = write_head(reply, body.len() as u64, stamp.date, stamp.close, into);
    match put_behind(into, head, body) {
        Some(end) => Printed { end, whole: true },
        None => Printed {
            end: head,
            whole: false,
        },
    }
}

/// Sends the interim line that asks for the body of this head, where there is one. It takes no memory.
pub fn send_interim<S: Station>(station: &mut S, spans: &HeadSpans) -> Result<(), Failed>
    requires { (S.told station.old).connected ≡ true }
    ensures sent { IsTrue S.tells → OnOk result (SentAll (S.told station.old) (S.told station.new)
        (interim_text spans.now.expect spans.now.content_length)) }
    ensures failed { IsTrue S.tells → OnErr result (SentPart (S.told station.old) (S.told
        station.new) (interim_text spans.now.expect spans.now.content_length)) }
    ensures keeps { Keeps (S.told station.old) (S.told station.new) (sending_if result) }
{
    let line = interim(spans.expect, spans.content_length);
    if line.is_empty() {
        return Ok(());
    }
    match station.send(line) {
        Ok(()) => Ok(()),
        Err(fault) => Err(fault),
    }
}

/// Sends a reply: at once where its text fits into the buffer, and else its body behind its head. It
/// takes no memory.
pub fn send_reply<S: Station>(
    station: &mut S,
    reply: &Reply,
    stamp: &Stamp,
    buffer: &mut [u8],
) -> Result<(), Failed>
    requires connected { (S.told station.old).connected ≡ true }
    requires printable { IsPrintableIn (length buffer.old) reply.now }
    ensures sent { IsTrue S.tells → OnOk result (SentAll (S.told station.old) (S.told station.new)
        (text_of_reply reply.now stamp.now.date stamp.now.close)) }
    ensures failed { IsTrue S.tells → OnErr result (SentPart (S.told station.old) (S.told
        station.new) (text_of_reply reply.now stamp.now.date stamp.now.close)) }
    ensures keeps { Keeps (S.told station.old) (S.told station.new) (sending_if result) }
{
    let printed = print(reply, stamp, buffer);
    match station.send(&buffer[..printed.end]) {
        Ok(()) => {
            if printed.whole {
                return Ok(());
            }
            match station.send(reply.body.bytes()) {
                Ok(()) => Ok(()),
                Err(fault) => Err(fault),
            }
        }
        Err(fault) => Err(fault),
    }
}
