// Messages that are decided at their heads: their bodies stream into the store.
ghost use Rattle.std.specs.Prelude.{◌≡◌, ◌+◌, ◌<◌, ◌≤◌, ◌^◌, IsTrue, IfOk, IfErr, None, true, length};
ghost use Rattle.glacier_extents.specs.Places.{block_size};
ghost use Rattle.glacier_http.specs.Step.{IsStep};
ghost use Rattle.glacier_http.specs.declared.head_spans.HeadStep.TheVariants as step;
ghost use Rattle.glacier_replay.specs.Changes.{State};
ghost use Rattle.glacier_server.specs.Admissions.{AdmitsAt};
ghost use Rattle.glacier_server.specs.declared.admission.Admission.TheVariants.{Refused, Taken};
ghost use Rattle.glacier_server.specs.Begun.{HasBegun, HasRead, IsBulkAt};
ghost use Rattle.glacier_server.specs.Breaking.{BreaksOff, HasBroken};
ghost use Rattle.glacier_server.specs.Exchange.{Exchanges, failing_in, standing};
ghost use Rattle.glacier_server.specs.Machine.{IsPrintableIn};
ghost use Rattle.glacier_server.specs.Placed.{Placed, placed_as};
ghost use Rattle.glacier_server.specs.Transfer.{Keeps};
ghost use Rattle.glacier_upload.specs.Single.{upload_refusal};
ghost use Rattle.glacier_vault.specs.Accounts.{account_in};

use crate::admission::Admission;
use crate::buffers::Buffers;
use crate::end::{End, ServeFault};
use crate::extent::extent_of;
use crate::message_body::take_message;
use crate::outcome::only_reply;
use crate::reply_sender::{MOST_HEAD_TEXT, send_interim};
use crate::service::Service;
use crate::upload::{BodyEnd, take_upload};
use glacier_base::Moment;
use glacier_disk::Station;
use glacier_http::{HeadSpans, MOST_MESSAGES, Reply};
use glacier_store::Store;
use glacier_upload::UploadAsk;
use glacier_vault::Rules;
use std::thread::Threads;

impl<R: Threads + Sync> Service<'_, R> {
    /// Throws the body away of a message that is refused whatever its body is, and sends the reply.
    #[tactic(auto, using(crate::proofs::KeepLemmas::kept))]
    fn answer_refused<S: Station>(
        &self,
        station: &mut S,
        buffers: &mut Buffers,
        store: Store,
        spans: &HeadSpans,
        reply: Reply,
        count: u64,
        reading: Moment,
    ) -> Result<(Option<End>, Store), ServeFault>
        requires connected { (S.told station.old).connected ≡ true }
        requires open { (S.told station.old).opened ≡ true }
        requires good { IsStep buffers.old.unread buffers.old.head (step.Head spans.now) }
        requires small { spans.now.content_length ≤ 2 ^ 33 }
        requires below { count < MOST_MESSAGES }
        requires bulk { IsBulkAt buffers.old.unread true }
        requires printable { IsPrintableIn MOST_HEAD_TEXT reply }
        ensures exchange { IsTrue S.tells → (old : S) (before : Placed) (state : State) →
            HasBegun self.now.config.now (standing count buffers.old.unread before)
            (placed_as store state) reading (S.told old) (S.told station.old) →
            AdmitsAt self.now.config.now (standing count buffers.old.unread before) reading
            spans.now.content_length store (Refused reply) →
            IfOk result (λ r. (after : State) × Exchanges self.now.config.now
            (standing count buffers.old.unread before)
            (standing (count + 1) buffers.new.unread (placed_as r.1 after))
            (S.told old) (S.told station.new) r.0) }
        ensures broken { IsTrue S.tells → (old : S) (before : Placed) (state : State) →
            HasBegun self.now.config.now (standing count buffers.old.unread before)
            (placed_as store state) reading (S.told old) (S.told station.old) →
            AdmitsAt self.now.config.now (standing count buffers.old.unread before) reading
            spans.now.content_length store (Refused reply) →
            IfErr result (BreaksOff self.now.config.now
            (standing count buffers.old.unread before) (S.told old) (S.told station.new)) }
        ensures fault { IfErr result
            (λ fault. HasBroken fault (S.told station.old) (S.told station.new)) }
        ensures below { IfOk result (λ r. r.0 ≡ None → count + 1 < MOST_MESSAGES) }
        ensures keeps { Keeps (S.told station.old) (S.told station.new) (failing_in result) }
    {
        let taken = take_message(
            station,
            &mut buffers.body,
            &buffers.unread,
            &buffers.head,
            spans,
        );
        match taken {
            Ok(used) => {
                let answered = only_reply(reply);
                self.send_answer(
                    station,
                    buffers,
                    store,
                    &answered,
                    used,
                    spans.close,
                    count,
                    reading,
                )
            }
            Err(end) => Ok((Some(end), store)),
        }
    }

    /// Takes the body of an upload that nothing refuses before it, keeps its event, and sends the
    /// reply.
    #[tactic(auto, using(crate::proofs::KeepLemmas::kept))]
    fn answer_upload<S: Station>(
        &self,
        station: &mut S,
        buffers: &mut Buffers,
        store: Store,
        spans: &HeadSpans,
        rules: &Rules,
        m: Moment,
        ask: &UploadAsk,
        count: u64,
        reading: Moment,
    ) -> Result<(Option<End>, Store), ServeFault>
        requires connected { (S.told station.old).connected ≡ true }
        requires open { (S.told station.old).opened ≡ true }
        requires good { IsStep buffers.old.unread buffers.old.head (step.Head spans.now) }
        requires small { spans.now.content_length ≤ 2 ^ 33 }
        requires below { count < MOST_MESSAGES }
        requires bulk { IsBulkAt buffers.old.unread true }
        requires time { (account_in store.accounts rules.now.account).last ≤ m }
        requires admitted { upload_refusal rules.now.quota
            (account_in store.accounts rules.now.account) ask.now ≡ None }
        requires size { ask.now.size ≡ spans.now.content_length }
        ensures exchange { IsTrue S.tells → (old : S) (before : Placed) (state : State) →
            HasBegun self.now.config.now (standing count buffers.old.unread before)
            (placed_as store state) reading (S.told old) (S.told station.old) →
            AdmitsAt self.now.config.now (standing count buffers.old.unread before) reading
            spans.now.content_length store (Taken rules.now m ask.now) →
            IfOk result (λ r. (after : State) × Exchanges self.now.config.now
            (standing count buffers.old.unread before)
            (standing (count + 1) buffers.new.unread (placed_as r.1 after))
            (S.told old) (S.told station.new) r.0) }
        ensures broken { IsTrue S.tells → (old : S) (before : Placed) (state : State) →
            HasBegun self.now.config.now (standing count buffers.old.unread before)
            (placed_as store state) reading (S.told old) (S.told station.old) →
            AdmitsAt self.now.config.now (standing count buffers.old.unread before) reading
            spans.now.content_length store (Taken rules.now m ask.now) →
            IfErr result (BreaksOff self.now.config.now
            (standing count buffers.old.unread before) (S.told old) (S.told station.new)) }
        ensures fault { IfErr result
            (λ fault. HasBroken fault (S.told station.old) (S.told station.new)) }
        ensures below { IfOk result (λ r. r.0 ≡ None → count + 1 < MOST_MESSAGES) }
        ensures keeps { Keeps (S.told station.old) (S.told station.new) (failing_in result) }
    {
        let length = buffers.unread.count();
        let extent = extent_of(spans, length);
        let here = &buffers.unread.bytes()[spans.head_length as usize..extent.used];
        let piece = &mut buffers.piece;
        match take_upload(
            self.rt,
            self.alloc,
            station,
            piece,
            store,
            rules,
            m,
            ask,
            here,
            extent.left,
        ) {
            Ok(BodyEnd::Done(reply, store)) => {
                let answered = only_reply(reply);
                self.send_answer(
                    station,
                    buffers,
                    store,
                    &answered,
                    extent.used,
                    spans.close,
                    count,
                    reading,
                )
            }
            Ok(BodyEnd::Cut(left, store)) => {
                let end = End::Cut {
                    taken: length as u64 + (extent.left - left),
                };
                Ok((Some(end), store))
            }
            Ok(BodyEnd::Failed(store)) => Ok((Some(End::ReadFault), store)),
            Err(fault) => Err(fault),
        }
    }

    /// Answers the message at the front of the unread bytes, which is decided at its head: time passes
    /// for its account, and its body is taken or thrown away.
    #[tactic(auto, using(crate::proofs::KeepLemmas::kept))]
    pub fn answer_bulk<S: Station>(
        &self,
        station: &mut S,
        buffers: &mut Buffers,
        store: Store,
        spans: &HeadSpans,
        count: u64,
        reading: Moment,
    ) -> Result<(Option<End>, Store), ServeFault>
        requires connected { (S.told station.old).connected ≡ true }
        requires open { (S.told station.old).opened ≡ true }
        requires good { IsStep buffers.old.unread buffers.old.head (step.Head spans.now) }
        requires small { spans.now.content_length ≤ 2 ^ 33 }
        requires below { count < MOST_MESSAGES }
        requires bulk { IsBulkAt buffers.old.unread true }
        ensures exchange { IsTrue S.tells → (old : S) (state : State) →
            HasRead (placed_as store state) reading (S.told old) (S.told station.old) →
            IfOk result (λ r. (after : State) × Exchanges self.now.config.now
            (standing count buffers.old.unread (placed_as store state))
            (standing (count + 1) buffers.new.unread (placed_as r.1 after))
            (S.told old) (S.told station.new) r.0) }
        ensures broken { IsTrue S.tells → (old : S) (state : State) →
            HasRead (placed_as store state) reading (S.told old) (S.told station.old) →
            IfErr result (BreaksOff self.now.config.now
            (standing count buffers.old.unread (placed_as store state)) (S.told old) (S.told station.new)) }
        ensures fault { IfErr result
            (λ fault. HasBroken fault (S.told station.old) (S.told station.new)) }
        ensures below { IfOk result (λ r. r.0 ≡ None → count + 1 < MOST_MESSAGES) }
        ensures keeps { Keeps (S.told station.old) (S.told station.new) (failing_in result) }
    {
        let admitted = self.admit_message(station, store, buffers, spans, reading);
        let (admission, store) = match admitted {
            Ok(admitted) => admitted,
            Err(fault) => return Err(fault),
        };
        match send_interim(station, spans) {
            Ok(()) => match admission {
                Admission::Refused(reply) => {
                    self.answer_refused(station, buffers, store, spans, reply, count, reading)
                }
                Admission::Taken(rules, m, ask) => self.answer_upload(
                    station, buffers, store, spans, &rules, m, &ask, count, reading,
                ),
            },
            Err(_) => Ok((Some(End::SendFault), store)),
        }
    }
}
