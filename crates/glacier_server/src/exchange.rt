// One message more on a connection.
ghost use Rattle.std.specs.Prelude.{◌≡◌, ◌+◌, [], ◌==◌, ◌<◌, ◌≤◌, ◌^◌, IsTrue, length, Some, None, true, IfOk, IfErr, OnErr};
ghost use Rattle.glacier_http.specs.Messages.{bad as Bad, last_end, end_of_rest};
ghost use Rattle.glacier_http.specs.Step.{IsStep};
ghost use Rattle.glacier_http.specs.declared.head_spans.HeadStep.TheVariants as step;
ghost use Rattle.glacier_server.specs.Exchange.{Exchanges, Standing, BadStands, standing, failing_in, failing_on, end_for, end_for_some};
ghost use Rattle.glacier_server.specs.Breaking.{BreaksOff};
ghost use Rattle.glacier_server.specs.Served.{failing_of};
ghost use Rattle.glacier_server.specs.Breaking.{HasBroken};
ghost use Rattle.glacier_server.specs.declared.end.ServeFault.TheVariants as fault;
ghost use Rattle.glacier_server.specs.Transfer.{Keeps};
ghost use Rattle.glacier_server.specs.Does.{nothing};
ghost use Rattle.glacier_server.specs.Placed.{placed_as};
ghost use Rattle.glacier_replay.specs.Changes.{State};
ghost use Rattle.glacier_store.specs.Kept.{Kept};

use crate::admission::is_bulk_at;
use crate::buffers::Buffers;
use crate::end::{End, ServeFault};
use crate::next_head::next_head;
use crate::read_buffer::ReadBuffer;
use crate::reply_sender::{MOST_AT_ONCE, Stamp, send_reply};
use crate::service::Service;
use glacier_base::Memory;
use glacier_disk::Station;
use glacier_http::{BadHead, HeadSpans, HeadStep, MOST_MESSAGES};
use glacier_store::Store;
use std::thread::Threads;

/// The end that a bad head makes.
fn bad_end(count: u64) -> End
    requires { count < MOST_MESSAGES }
    ensures end { (cause : _) → end_for_some (last_end count (Bad cause)) ≡ Some result }
    ensures of_none { failing_of result ≡ nothing }
{
    if count + 1 == MOST_MESSAGES {
        End::Bound
    } else {
        End::Refused
    }
}

/// The end of an input that has no last message.
fn ended(unread: &ReadBuffer) -> End
    ensures end { result ≡ end_for (end_of_rest unread.now) }
    ensures of_none { failing_of result ≡ nothing }
{
    let bytes = unread.bytes();
    if bytes.is_empty() {
        End::Closed
    } else {
        End::Cut {
            taken: bytes.len() as u64,
        }
    }
}

impl<R: Threads + Sync> Service<'_, R> {
    /// Answers a bad head, which ends the connection.
    #[tactic(auto, using(crate::proofs::KeepLemmas::kept))]
    fn refuse<S: Station>(
        &self,
        station: &mut S,
        buffer: &mut [u8],
        cause: BadHead,
        count: u64,
    ) -> Result<End, Memory>
        requires connected { (S.told station.old).connected ≡ true }
        requires room { length buffer.old ≡ MOST_AT_ONCE }
        requires below { count < MOST_MESSAGES }
        ensures exchange { IsTrue S.tells → (from : Standing) → BadStands from count cause →
            IfOk result (λ end. Exchanges self.now.config.now from
            (standing (count + 1) from.unread from.placed) (S.told station.old) (S.told station.new)
            (Some end)) }
        ensures broken { IsTrue S.tells → (from : Standing) → BadStands from count cause →
            OnErr result (BreaksOff self.now.config.now from (S.told station.old) (S.told
            station.new) fault.Memory) }
        ensures keeps { Keeps (S.told station.old) (S.told station.new) (failing_on result) }
    {
        let date = station.now();
        let reply = match self.reply_to_bad(cause) {
            Ok(reply) => reply,
            Err(error) => return Err(error),
        };
        let stamp = Stamp { date, close: true };
        match send_reply(station, &reply, &stamp, buffer) {
            Ok(()) => Ok(bad_end(count)),
            Err(_) => Ok(End::SendFault),
        }
    }

    /// Answers the message whose good head stands at the front of the unread bytes.
    #[tactic(auto, using(crate::proofs::KeepLemmas::kept))]
    fn answer<S: Station>(
        &self,
        station: &mut S,
        buffers: &mut Buffers,
        store: Store,
        spans: &HeadSpans,
        count: u64,
    ) -> Result<(Option<End>, Store), ServeFault>
        requires connected { (S.told station.old).connected ≡ true }
        requires open { (S.told station.old).opened ≡ true }
        requires good { IsStep buffers.old.unread buffers.old.head (step.Head spans.now) }
        requires small { spans.now.content_length ≤ 2 ^ 33 }
        requires below { count < MOST_MESSAGES }
        ensures exchange { IsTrue S.tells → (state : State) →
            Kept (S.told station.old) store state →
            IfOk result (λ r. (after : State) × Exchanges self.now.config.now
            (standing count buffers.old.unread (placed_as store state))
            (standing (count + 1) buffers.new.unread (placed_as r.1 after))
            (S.told station.old) (S.told station.new) r.0) }
        ensures broken { IsTrue S.tells → (state : State) →
            Kept (S.told station.old) store state →
            IfErr result (BreaksOff self.now.config.now
            (standing count buffers.old.unread (placed_as store state)) (S.told station.old) (S.told station.new)) }
        ensures fault { IfErr result
            (λ fault. HasBroken fault (S.told station.old) (S.told station.new)) }
        ensures below { IfOk result (λ r. r.0 ≡ None → count + 1 < MOST_MESSAGES) }
        ensures keeps { Keeps (S.told station.old) (S.told station.new) (failing_in result) }
    {
        let reading = station.now();
        if is_bulk_at(buffers, spans) {
            self.answer_bulk(station, buffers, store, spans, count, reading)
        } else {
            self.answer_plain(station, buffers, store, spans, count, reading)
        }
    }

    /// Takes and answers one message more, or finds that there is none.
    #[tactic(auto, using(crate::proofs::KeepLemmas::kept))]
    pub fn one_message<S: Station>(
        &self,
        station: &mut S,
        buffers: &mut Buffers,
        store: Store,
        count: u64,
    ) -> Result<(Option<End>, Store), ServeFault>
        requires connected { (S.told station.old).connected ≡ true }
        requires open { (S.told station.old).opened ≡ true }
        requires below { count < MOST_MESSAGES }
        ensures exchange { IsTrue S.tells → (state : State) →
            Kept (S.told station.old) store state →
            IfOk result (λ r. (after : State) × Exchanges self.now.config.now
            (standing count buffers.old.unread (placed_as store state))
            (standing (count + 1) buffers.new.unread (placed_as r.1 after))
            (S.told station.old) (S.told station.new) r.0) }
        ensures broken { IsTrue S.tells → (state : State) →
            Kept (S.told station.old) store state →
            IfErr result (BreaksOff self.now.config.now
            (standing count buffers.old.unread (placed_as store state)) (S.told station.old) (S.told station.new)) }
        ensures fault { IfErr result
            (λ fault. HasBroken fault (S.told station.old) (S.told station.new)) }
        ensures below { IfOk result (λ r. r.0 ≡ None → count + 1 < MOST_MESSAGES) }
        ensures keeps { Keeps (S.told station.old) (S.told station.new) (failing_in result) }
    {
        match next_head(station, &mut buffers.head, &mut buffers.unread) {
            Ok(HeadStep::Head(spans)) => {
                match self.answer(station, buffers, store, &spans, count) {
                    Ok((end, store)) => Ok((end, store)),
                    Err(fault) => Err(fault),
                }
            }
            Ok(HeadStep::Bad(cause)) => {
                match self.refuse(station, &mut buffers.reply, cause, count) {
                    Ok(end) => Ok((Some(end), store)),
                    Err(_) => Err(ServeFault::Memory),
                }
            }
            Ok(HeadStep::Need) => Ok((Some(ended(&buffers.unread)), store)),
            Err(_) => Ok((Some(End::ReadFault), store)),
        }
    }
}
