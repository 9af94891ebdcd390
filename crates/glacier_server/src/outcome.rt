// The machine's outcome of each message.
ghost use Rattle.std.specs.Prelude.{◌≡◌, ◌≤◌, [], ℕ, List, length, None, option_map, IsTrue, true, false, IfOk};
ghost use Rattle.glacier_http.specs.Spans.{IsGood};
ghost use Rattle.glacier_machine.specs.Outcomes.{refusal_outcome, request_outcome, rules_of, one};
ghost use Rattle.glacier_replies.specs.Messages.{HasAsciiText};
ghost use Rattle.glacier_replies.specs.Refusals.{head_refusal};
ghost use Rattle.glacier_machine.specs.Actions.{HasOrder, stores_body};
ghost use Rattle.glacier_machine.specs.Asks.{is_bulk_head};
ghost use Rattle.glacier_machine.specs.SignedRequests.{IsBodyKept};
ghost use Rattle.glacier_server.specs.Begun.{IsBulkAt};
ghost use Rattle.glacier_server.specs.Outputs.{IsWhole};
ghost use Rattle.glacier_server.specs.Texts.{answered_of};
ghost use Rattle.glacier_server.specs.Events.{KeepsOutcome, IsCallFault, IsFault};
ghost use Rattle.glacier_vault.specs.Accounts.{account_in};
ghost use Rattle.glacier_server.specs.Front.{AtFront};
ghost use Rattle.glacier_server.specs.Machine.{HasShortNames, IsAsked, IsPrintableIn, IsRead, asked_outcome, told_of, told_head};
ghost use Rattle.glacier_server.specs.Breaking.{ShowsDisk};

use crate::answered::Answered;
use crate::buffers::Buffers;
use crate::end::ServeFault;
use crate::reply_sender::MOST_HEAD_TEXT;
use crate::service::Service;
use glacier_base::{Account, Memory, Moment};
use glacier_disk::Disk;
use glacier_http::{BadHead, Head, HeadSpans, Reply};
use glacier_machine::{
    Action, Output, Request, Stretch, bad_head_refusal, read_request, refusal_reply,
};
use glacier_store::{Store, StoreFault};
use glacier_vault::{Refusal, Rules};
use std::alloc::Global;
use std::thread::Threads;

/// The reply to what is refused.
#[tactic(auto, using(crate::proofs::ReplyLemmas::refused_printable))]
pub(crate) fn reply_to_refused(alloc: Global, refusal: &Refusal) -> Result<Reply, Memory>
    requires { HasAsciiText refusal.now }
    ensures reply { IfOk result (λ r. r ≡ (refusal_outcome refusal.now).reply) }
    ensures printable { IfOk result (IsPrintableIn MOST_HEAD_TEXT) }
{
    refusal_reply(alloc, refusal)
}

/// An account has 12 digits, and a vault's name at most 255 bytes.
fn names_are_short(rules: &Rules, action: &Action)
    ensures { HasShortNames rules.now action.now }
{
    let _account = rules.account.bytes();
    match action {
        Action::CreateVault { vault } => {
            let _name = vault.bytes();
        }
        Action::BeginJob(ask) => {
            let _name = ask.vault.bytes();
        }
        _ => {}
    }
}

/// What a fault of a store's call is to the server.
pub(crate) fn fault_of(fault: StoreFault) -> ServeFault
    requires { IsCallFault fault }
    ensures { IsFault fault result }
{
    match fault {
        StoreFault::Disk => ServeFault::Disk,
        StoreFault::Memory => ServeFault::Memory,
        StoreFault::End { length } => ServeFault::JournalEnd { length },
        StoreFault::NotAJournal { .. } => unreachable!(),
        StoreFault::NotEmpty { .. } => unreachable!(),
    }
}

/// The answer of a reply that has its body itself.
pub(crate) fn only_reply(reply: Reply) -> Answered
    ensures { result ≡ record { reply = reply; output = None } }
{
    Answered {
        reply,
        output: None,
    }
}

/// The output that a stretch of an account is, if there is one.
fn output_of(account: Account, stretch: Option<Stretch>) -> Option<Output>
    ensures { result ≡ option_map (λ stretch. record { account = account; stretch = stretch }) stretch }
{
    let stretch = stretch?;
    Some(Output { account, stretch })
}

impl<R: Threads + Sync> Service<'_, R> {
    /// Does an action on an account at the moment `m`, and keeps what it changes.
    fn reply_to_action<D: Disk>(
        &self,
        disk: &mut D,
        store: Store,
        rules: &Rules,
        m: Moment,
        action: &Action,
    ) -> Result<(Answered, Store), ServeFault>
        requires open { (D.told disk.old).opened ≡ true }
        requires time { (account_in store.accounts rules.now.account).last ≤ m }
        requires plain { stores_body action.now ≡ false }
        requires order { HasOrder action.now }
        ensures answer { IfOk result (λ r. r.0
            ≡ answered_of (asked_outcome rules.now m (Ok action.now) [] store.accounts)) }
        ensures printable { IfOk result (λ r. IsPrintableIn MOST_HEAD_TEXT r.0.reply) }
        ensures whole { IfOk result (λ r. IsWhole r.1.accounts r.0.output) }
        ensures keeps { IsTrue D.tells → KeepsOutcome (D.told disk.old) (D.told disk.new) store
            (asked_outcome rules.now m (Ok action.now) [] store.accounts) result }
        ensures fault { ShowsDisk result (D.told disk.old) (D.told disk.new) }
        ensures alone { D.by_disk disk.old disk.new }
    {
        names_are_short(rules, action);
        match store.apply(self.alloc, disk, rules, m, action) {
            Ok((store, answer)) => {
                let output = output_of(rules.account, answer.stretch);
                let reply = answer.reply;
                Ok((Answered { reply, output }, store))
            }
            Err(fault) => Err(fault_of(fault)),
        }
    }

    /// Does what is asked of an account at the moment `m`, up to which time has passed.
    fn reply_to_asked<D: Disk>(
        &self,
        disk: &mut D,
        store: Store,
        rules: &Rules,
        m: Moment,
        asked: &Result<Action, Refusal>,
    ) -> Result<(Answered, Store), ServeFault>
        requires open { (D.told disk.old).opened ≡ true }
        requires time { (account_in store.accounts rules.now.account).last ≤ m }
        requires asked { IsAsked asked.now }
        ensures answer { IfOk result (λ r. r.0
            ≡ answered_of (asked_outcome rules.now m asked.now [] store.accounts)) }
        ensures printable { IfOk result (λ r. IsPrintableIn MOST_HEAD_TEXT r.0.reply) }
        ensures whole { IfOk result (λ r. IsWhole r.1.accounts r.0.output) }
        ensures keeps { IsTrue D.tells → KeepsOutcome (D.told disk.old) (D.told disk.new) store
            (asked_outcome rules.now m asked.now [] store.accounts) result }
        ensures fault { ShowsDisk result (D.told disk.old) (D.told disk.new) }
        ensures alone { D.by_disk disk.old disk.new }
    {
        match asked {
            Ok(action) => self.reply_to_action(disk, store, rules, m, action),
            Err(refusal) => match reply_to_refused(self.alloc, refusal) {
                Ok(reply) => Ok((only_reply(reply), store)),
                Err(_) => Err(ServeFault::Memory),
            },
        }
    }

    /// Lets time pass for the account of a request, and does what it asks for. What that changes is
    /// kept.
    fn reply_to_request<D: Disk>(
        &self,
        disk: &mut D,
        store: Store,
        request: &Request,
        reading: Moment,
    ) -> Result<(Answered, Store), ServeFault>
        requires open { (D.told disk.old).opened ≡ true }
        requires asked { IsAsked request.now.asked }
        ensures answer { IfOk result (λ r. r.0 ≡ answered_of (told_of
            (rules_of self.now.config.now request.now.account) store.accounts request.now []
            reading)) }
        ensures printable { IfOk result (λ r. IsPrintableIn MOST_HEAD_TEXT r.0.reply) }
        ensures whole { IfOk result (λ r. IsWhole r.1.accounts r.0.output) }
        ensures keeps { IsTrue D.tells → KeepsOutcome (D.told disk.old) (D.told disk.new) store
            (told_of (rules_of self.now.config.now request.now.account) store.accounts request.now
            [] reading) result }
        ensures fault { ShowsDisk result (D.told disk.old) (D.told disk.new) }
        ensures alone { D.by_disk disk.old disk.new }
    {
        let rules = self.config.rules(request.account);
        let m = store.accounts.last(&request.account).later(reading);
        match store.pass(self.alloc, disk, &request.account, m) {
            Ok(store) => self.reply_to_asked(disk, store, &rules, m, &request.asked),
            Err(fault) => Err(fault_of(fault)),
        }
    }

    /// The reply to what was read of a message, whose events are kept.
    fn reply_to_read<D: Disk>(
        &self,
        disk: &mut D,
        store: Store,
        request: &Result<Request, Refusal>,
        reading: Moment,
    ) -> Result<(Answered, Store), ServeFault>
        requires open { (D.told disk.old).opened ≡ true }
        requires read { IsRead request.now }
        ensures answer { IfOk result (λ r. r.0 ≡ answered_of
            (request_outcome self.now.config.now store.accounts request.now [] reading)) }
        ensures printable { IfOk result (λ r. IsPrintableIn MOST_HEAD_TEXT r.0.reply) }
        ensures whole { IfOk result (λ r. IsWhole r.1.accounts r.0.output) }
        ensures keeps { IsTrue D.tells → KeepsOutcome (D.told disk.old) (D.told disk.new) store
            (request_outcome self.now.config.now store.accounts request.now [] reading) result }
        ensures fault { ShowsDisk result (D.told disk.old) (D.told disk.new) }
        ensures alone { D.by_disk disk.old disk.new }
    {
        match request {
            Ok(request) => self.reply_to_request(disk, store, request, reading),
            Err(refusal) => match reply_to_refused(self.alloc, refusal) {
                Ok(reply) => Ok((only_reply(reply), store)),
                Err(_) => Err(ServeFault::Memory),
            },
        }
    }

    /// The reply to a good head with a body of this length, of which this is kept. The events are
    /// kept.
    fn reply_to_head<D: Disk>(
        &self,
        disk: &mut D,
        store: Store,
        head: &Head<'_>,
        size: u64,
        kept: &[u8],
        reading: Moment,
    ) -> Result<(Answered, Store), ServeFault>
        requires open { (D.told disk.old).opened ≡ true }
        requires plain { is_bulk_head head.now ≡ false }
        ensures answer { (body : List ℕ) → length body ≡ size → IsBodyKept kept.now body →
            IfOk result (λ r. r.0 ≡ answered_of
            (told_head self.now.config.now store.accounts head.now body reading)) }
        ensures printable { IfOk result (λ r. IsPrintableIn MOST_HEAD_TEXT r.0.reply) }
        ensures whole { IfOk result (λ r. IsWhole r.1.accounts r.0.output) }
        ensures keeps { IsTrue D.tells → (body : List ℕ) → length body ≡ size →
            IsBodyKept kept.now body → KeepsOutcome (D.told disk.old) (D.told disk.new) store
            (told_head self.now.config.now store.accounts head.now body reading) result }
        ensures fault { ShowsDisk result (D.told disk.old) (D.told disk.new) }
        ensures alone { D.by_disk disk.old disk.new }
    {
        match read_request(self.alloc, self.config, head, size, kept, reading) {
            Ok(request) => self.reply_to_read(disk, store, &request, reading),
            Err(_) => Err(ServeFault::Memory),
        }
    }

    /// The reply to the message at the front of the unread bytes, by its head and what is kept of
    /// its body. The events are kept before it answers.
    pub fn reply_to_message<D: Disk>(
        &self,
        disk: &mut D,
        store: Store,
        buffers: &Buffers,
        spans: &HeadSpans,
        kept: &[u8],
        reading: Moment,
    ) -> Result<(Answered, Store), ServeFault>
        requires open { (D.told disk.old).opened ≡ true }
        requires good { IsGood buffers.now.unread buffers.now.head spans.now }
        requires plain { IsBulkAt buffers.now.unread false }
        ensures answer { AtFront buffers.now.unread spans.now kept.now (λ m. IfOk result
            (λ r. r.0 ≡ answered_of (one self.now.config.now store.accounts m reading))) }
        ensures printable { IfOk result (λ r. IsPrintableIn MOST_HEAD_TEXT r.0.reply) }
        ensures whole { IfOk result (λ r. IsWhole r.1.accounts r.0.output) }
        ensures keeps { IsTrue D.tells → AtFront buffers.now.unread spans.now kept.now
            (λ m. KeepsOutcome (D.told disk.old) (D.told disk.new) store
            (one self.now.config.now store.accounts m reading) result) }
        ensures fault { ShowsDisk result (D.told disk.old) (D.told disk.new) }
        ensures alone { D.by_disk disk.old disk.new }
    {
        let head = spans.view(buffers.unread.bytes(), &buffers.head);
        self.reply_to_head(disk, store, &head, spans.content_length, kept, reading)
    }

    /// The reply to a bad head, after which the connection closes.
    pub fn reply_to_bad(&self, cause: BadHead) -> Result<Reply, Memory>
        ensures reply { IfOk result (λ r. r ≡ (refusal_outcome (head_refusal cause)).reply) }
        ensures printable { IfOk result (IsPrintableIn MOST_HEAD_TEXT) }
    {
        reply_to_refused(self.alloc, &bad_head_refusal(cause))
    }
}
