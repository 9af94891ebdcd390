// Messages whose bodies are taken before they are looked at.
ghost use Rattle.std.specs.Prelude.{◌≡◌, ◌+◌, ◌<◌, ◌≤◌, ◌^◌, IsTrue, IfOk, IfErr, None, true, false};
ghost use Rattle.glacier_http.specs.Step.{IsStep};
ghost use Rattle.glacier_http.specs.declared.head_spans.HeadStep.TheVariants as step;
ghost use Rattle.glacier_replay.specs.Changes.{State};
ghost use Rattle.glacier_server.specs.Begun.{HasBegun, HasRead, IsBulkAt};
ghost use Rattle.glacier_server.specs.Breaking.{BreaksOff, HasBroken};
ghost use Rattle.glacier_server.specs.Exchange.{Exchanges, failing_in, standing};
ghost use Rattle.glacier_server.specs.Placed.{Placed, placed_as};
ghost use Rattle.glacier_server.specs.Transfer.{Keeps};

use crate::body::front_of;
use crate::buffers::Buffers;
use crate::end::{End, ServeFault};
use crate::message_body::take_message;
use crate::reply_sender::send_interim;
use crate::service::Service;
use glacier_base::Moment;
use glacier_disk::Station;
use glacier_http::{HeadSpans, MOST_MESSAGES};
use glacier_store::Store;
use std::thread::Threads;

impl<R: Threads + Sync> Service<'_, R> {
    /// Answers the message at the front of the unread bytes, for whose good head what is due was done.
    #[tactic(auto, using(crate::proofs::KeepLemmas::kept))]
    fn answer_begun<S: Station>(
        &self,
        station: &mut S,
        buffers: &mut Buffers,
        store: Store,
        spans: &HeadSpans,
        count: u64,
        reading: Moment,
    ) -> Result<(Option<End>, Store), ServeFault>
        requires connected { (S.told station.old).connected ≡ true }
        requires open { (S.told station.old).opened ≡ true }
        requires good { IsStep buffers.old.unread buffers.old.head (step.Head spans.now) }
        requires small { spans.now.content_length ≤ 2 ^ 33 }
        requires below { count < MOST_MESSAGES }
        requires plain { IsBulkAt buffers.old.unread false }
        ensures exchange { IsTrue S.tells → (old : S) (state : State) →
            HasBegun self.now.config.now (standing count buffers.old.unread (placed_as store state))
            (placed_as store state) reading (S.told old) (S.told station.old) →
            IfOk result (λ r. (after : State) × Exchanges self.now.config.now
            (standing count buffers.old.unread (placed_as store state))
            (standing (count + 1) buffers.new.unread (placed_as r.1 after))
            (S.told old) (S.told station.new) r.0) }
        ensures broken { IsTrue S.tells → (old : S) (state : State) →
            HasBegun self.now.config.now (standing count buffers.old.unread (placed_as store state))
            (placed_as store state) reading (S.told old) (S.told station.old) →
            IfErr result (BreaksOff self.now.config.now
            (standing count buffers.old.unread (placed_as store state)) (S.told old) (S.told station.new)) }
        ensures fault { IfErr result
            (λ fault. HasBroken fault (S.told station.old) (S.told station.new)) }
        ensures below { IfOk result (λ r. r.0 ≡ None → count + 1 < MOST_MESSAGES) }
        ensures keeps { Keeps (S.told station.old) (S.told station.new) (failing_in result) }
    {
        let used = match take_message(
            station,
            &mut buffers.body,
            &buffers.unread,
            &buffers.head,
            spans,
        ) {
            Ok(used) => used,
            Err(end) => return Ok((Some(end), store)),
        };
        let lent = &*buffers;
        let kept = front_of(&lent.body, spans.content_length);
        let replied = self.reply_to_message(station, store, lent, spans, kept, reading);
        let (answered, store) = match replied {
            Ok(replied) => replied,
            Err(fault) => return Err(fault),
        };
        self.send_answer(
            station,
            buffers,
            store,
            &answered,
            used,
            spans.close,
            count,
            reading,
        )
    }

    /// Answers the message at the front of the unread bytes, whose body is taken before it is looked
    /// at.
    #[tactic(auto, using(crate::proofs::KeepLemmas::kept))]
    pub fn answer_plain<S: Station>(
        &self,
        station: &mut S,
        buffers: &mut Buffers,
        store: Store,
        spans: &HeadSpans,
        count: u64,
        reading: Moment,
    ) -> Result<(Option<End>, Store), ServeFault>
        requires connected { (S.told station.old).connected ≡ true }
        requires open { (S.told station.old).opened ≡ true }
        requires good { IsStep buffers.old.unread buffers.old.head (step.Head spans.now) }
        requires small { spans.now.content_length ≤ 2 ^ 33 }
        requires below { count < MOST_MESSAGES }
        requires plain { IsBulkAt buffers.old.unread false }
        ensures exchange { IsTrue S.tells → (old : S) (state : State) →
            HasRead (placed_as store state) reading (S.told old) (S.told station.old) →
            IfOk result (λ r. (after : State) × Exchanges self.now.config.now
            (standing count buffers.old.unread (placed_as store state))
            (standing (count + 1) buffers.new.unread (placed_as r.1 after))
            (S.told old) (S.told station.new) r.0) }
        ensures broken { IsTrue S.tells → (old : S) (state : State) →
            HasRead (placed_as store state) reading (S.told old) (S.told station.old) →
            IfErr result (BreaksOff self.now.config.now
            (standing count buffers.old.unread (placed_as store state)) (S.told old) (S.told station.new)) }
        ensures fault { IfErr result
            (λ fault. HasBroken fault (S.told station.old) (S.told station.new)) }
        ensures below { IfOk result (λ r. r.0 ≡ None → count + 1 < MOST_MESSAGES) }
        ensures keeps { Keeps (S.told station.old) (S.told station.new) (failing_in result) }
    {
        match send_interim(station, spans) {
            Ok(()) => self.answer_begun(station, buffers, store, spans, count, reading),
            Err(_) => Ok((Some(End::SendFault), store)),
        }
    }
}
