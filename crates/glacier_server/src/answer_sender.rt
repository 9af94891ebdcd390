// Sending what is answered to a message.
ghost use Rattle.std.specs.Prelude.{◌≡◌, ◌+◌, ◌<◌, ◌≤◌, IsTrue, IfOk, IfErr, None, length, true};
ghost use Rattle.glacier_replay.specs.Changes.{State};
ghost use Rattle.glacier_server.specs.Breaking.{BreaksOff, HasBroken};
ghost use Rattle.glacier_server.specs.Does.{nothing};
ghost use Rattle.glacier_server.specs.Done.{HasDone};
ghost use Rattle.glacier_server.specs.Exchange.{Exchanges, Standing, end_of_good, failing_at, failing_in, standing};
ghost use Rattle.glacier_server.specs.Machine.{IsPrintableIn};
ghost use Rattle.glacier_server.specs.Outputs.{IsHeldIn, IsReady, IsWhole, SendsAnswer, ShowsFault, failing_by};
ghost use Rattle.glacier_server.specs.Placed.{placed_as};
ghost use Rattle.glacier_server.specs.Texts.{text_of_answer};
ghost use Rattle.glacier_server.specs.Transfer.{Keeps};

use crate::answered::Answered;
use crate::buffers::Buffers;
use crate::end::{End, ServeFault};
use crate::output_sender::{OutputFault, send_output};
use crate::reply_sender::{MOST_AT_ONCE, MOST_HEAD_TEXT, Stamp, send_reply};
use crate::service::Service;
use glacier_base::Moment;
use glacier_disk::Station;
use glacier_http::MOST_MESSAGES;
use glacier_store::Store;
use std::thread::Threads;

/// The end that a good message makes, if any.
fn good_end(count: u64, close: bool) -> Option<End>
    requires { count < MOST_MESSAGES }
    ensures end { result ≡ end_of_good count close }
    ensures of_none { failing_at result ≡ nothing }
    ensures below { result ≡ None → count + 1 < MOST_MESSAGES }
{
    if count + 1 == MOST_MESSAGES {
        Some(End::Bound)
    } else if close {
        Some(End::Closed)
    } else {
        None
    }
}

/// Sends the text of an answer. It takes no memory.
#[tactic(auto, using(crate::proofs::KeepLemmas::kept))]
fn send_text<S: Station>(
    station: &mut S,
    store: &Store,
    answered: &Answered,
    stamp: &Stamp,
    buffer: &mut [u8],
) -> Result<(), OutputFault>
    requires ready { IsReady (S.told station.old) }
    requires printable { IsPrintableIn (length buffer.old) answered.now.reply }
    requires whole { IsWhole store.now.accounts answered.now.output }
    requires some { 0 < length buffer.old }
    ensures sends { IsTrue S.tells → (state : State) →
        IsHeldIn (S.told station.old) store.now state →
        SendsAnswer (S.told station.old) (S.told station.new) answered.now.output
        (text_of_answer state answered.now stamp.now.date stamp.now.close) result }
    ensures keeps { Keeps (S.told station.old) (S.told station.new) (failing_by result) }
    ensures fault { ShowsFault result (S.told station.old) (S.told station.new) }
{
    match &answered.output {
        Some(output) => send_output(station, store, output, &answered.reply, stamp, buffer),
        None => match send_reply(station, &answered.reply, stamp, buffer) {
            Ok(()) => Ok(()),
            Err(_) => Err(OutputFault::Send),
        },
    }
}

impl<R: Threads + Sync> Service<'_, R> {
    /// Sends the answer to the message at the front of the unread bytes, of which so many are its
    /// own, and all of whose events are kept.
    #[tactic(auto, using(crate::proofs::KeepLemmas::kept))]
    pub fn send_answer<S: Station>(
        &self,
        station: &mut S,
        buffers: &mut Buffers,
        store: Store,
        answered: &Answered,
        used: usize,
        close: bool,
        count: u64,
        reading: Moment,
    ) -> Result<(Option<End>, Store), ServeFault>
        requires connected { (S.told station.old).connected ≡ true }
        requires open { (S.told station.old).opened ≡ true }
        requires used { used ≤ length buffers.old.unread }
        requires below { count < MOST_MESSAGES }
        requires printable { IsPrintableIn MOST_HEAD_TEXT answered.now.reply }
        requires whole { IsWhole store.accounts answered.now.output }
        ensures exchange { IsTrue S.tells → (old : S) (from : Standing) (state : State) →
            from.count ≡ count → from.unread ≡ buffers.old.unread →
            HasDone self.now.config.now from used close (placed_as store state) answered.now reading
            (S.told old) (S.told station.old) →
            IfOk result (λ r. (after : State) × Exchanges self.now.config.now from
            (standing (count + 1) buffers.new.unread (placed_as r.1 after))
            (S.told old) (S.told station.new) r.0) }
        ensures broken { IsTrue S.tells → (old : S) (from : Standing) (state : State) →
            from.count ≡ count → from.unread ≡ buffers.old.unread →
            HasDone self.now.config.now from used close (placed_as store state) answered.now reading
            (S.told old) (S.told station.old) →
            IfErr result (BreaksOff self.now.config.now from (S.told old) (S.told station.new)) }
        ensures fault { IfErr result
            (λ fault. HasBroken fault (S.told station.old) (S.told station.new)) }
        ensures below { IfOk result (λ r. r.0 ≡ None → count + 1 < MOST_MESSAGES) }
        ensures keeps { Keeps (S.told station.old) (S.told station.new) (failing_in result) }
    {
        let end = good_end(count, close);
        let stamp = Stamp {
            date: reading,
            close: end.is_some(),
        };
        match send_text(station, &store, answered, &stamp, &mut buffers.reply) {
            Ok(()) => {
                buffers.unread.skip(used);
                Ok((end, store))
            }
            Err(OutputFault::Send) => Ok((Some(End::SendFault), store)),
            Err(OutputFault::Disk) => Err(ServeFault::Disk),
        }
    }
}
