// Whether the body of a message that is decided at its head is taken.
ghost use Rattle.std.specs.Prelude.{◌≡◌, ◌≤◌, [], ℕ, List, Ok, IsTrue, true, IfOk};
ghost use Rattle.httparse.specs.Grammar.{RequestHead};
ghost use Rattle.glacier_http.specs.Head.{Reads};
ghost use Rattle.glacier_http.specs.Messages.{good as Good};
ghost use Rattle.glacier_http.specs.Spans.{IsGood};
ghost use Rattle.glacier_machine.specs.Actions.{HasSize, stores_body};
ghost use Rattle.glacier_machine.specs.Asks.{is_bulk_head};
ghost use Rattle.glacier_machine.specs.Outcomes.{one, request_outcome, rules_of};
ghost use Rattle.glacier_vault.specs.Accounts.{account_in};
ghost use Rattle.glacier_server.specs.Admissions.{IsAdmission, IsPrintableRefusal, IsStored, IsStoredIn};
ghost use Rattle.glacier_server.specs.Begun.{IsBulkAt};
ghost use Rattle.glacier_server.specs.Breaking.{ShowsDisk};
ghost use Rattle.glacier_server.specs.Events.{KeepsEvents};
ghost use Rattle.glacier_server.specs.Machine.{asked_outcome, told_head, told_of};

use crate::buffers::Buffers;
use crate::end::ServeFault;
use crate::outcome::{fault_of, reply_to_refused};
use crate::reply_sender::MOST_HEAD_TEXT;
use crate::service::Service;
use glacier_base::{Memory, Moment};
use glacier_disk::Disk;
use glacier_http::{Head, HeadSpans, Reply};
use glacier_machine::{Action, Request, is_bulk, read_request};
use glacier_store::Store;
use glacier_upload::UploadAsk;
use glacier_vault::{Refusal, Rules};
use std::alloc::Global;
use std::thread::Threads;

/// What becomes of a message that is decided at its head, once time has passed for its account.
#[derive(Drop)]
pub enum Admission {
    /// It is refused, whatever its body is.
    Refused(Reply),
    /// It is an upload that nothing refuses before its body, at this moment.
    Taken(Rules, Moment, UploadAsk),
}

/// Whether the message at the front of the unread bytes is decided at its head.
pub fn is_bulk_at(buffers: &Buffers, spans: &HeadSpans) -> bool
    requires { IsGood buffers.now.unread buffers.now.head spans.now }
    ensures { IsBulkAt buffers.now.unread result }
{
    let head = spans.view(buffers.unread.bytes(), &buffers.head);
    is_bulk(&head)
}

impl<R: Threads + Sync> Service<'_, R> {
    /// Refuses an action at the moment `m`, or takes its body.
    fn admit_action(
        &self,
        store: &Store,
        rules: Rules,
        m: Moment,
        action: &Action,
    ) -> Result<Admission, Memory>
        requires time { (account_in store.now.accounts rules.account).last ≤ m }
        requires stores { stores_body action.now ≡ true }
        ensures admits { (n : ℕ) → HasSize n action.now → IfOk result (IsAdmission
            (λ body. asked_outcome rules m (Ok action.now) body store.now.accounts) n store.now) }
        ensures printable { IfOk result (IsPrintableRefusal MOST_HEAD_TEXT) }
    {
        if let Some(refusal) = store.admit(&rules, m, action) {
            let reply = reply_to_refused(self.alloc, &refusal)?;
            return Ok(Admission::Refused(reply));
        }
        match action {
            Action::Upload(ask) => Ok(Admission::Taken(rules, m, *ask)),
            _ => unreachable!(),
        }
    }

    /// Refuses what is asked for at the moment `m`, or takes its body.
    fn admit_asked(
        &self,
        store: &Store,
        rules: Rules,
        m: Moment,
        asked: &Result<Action, Refusal>,
    ) -> Result<Admission, Memory>
        requires time { (account_in store.now.accounts rules.account).last ≤ m }
        requires asked { IsStored asked.now }
        ensures admits { (n : ℕ) → IfOk asked.now (HasSize n) → IfOk result (IsAdmission
            (λ body. asked_outcome rules m asked.now body store.now.accounts) n store.now) }
        ensures printable { IfOk result (IsPrintableRefusal MOST_HEAD_TEXT) }
    {
        match asked {
            Ok(action) => self.admit_action(store, rules, m, action),
            Err(refusal) => {
                let reply = reply_to_refused(self.alloc, refusal)?;
                Ok(Admission::Refused(reply))
            }
        }
    }

    /// Lets time pass for the account of a request, and refuses it or takes its body.
    fn admit_request<D: Disk>(
        &self,
        disk: &mut D,
        store: Store,
        request: &Request,
        reading: Moment,
    ) -> Result<(Admission, Store), ServeFault>
        requires open { (D.told disk.old).opened ≡ true }
        requires asked { IsStored request.now.asked }
        ensures admits { (n : ℕ) → IfOk request.now.asked (HasSize n) → IfOk result (λ r. IsAdmission
            (λ body. told_of (rules_of self.now.config.now request.now.account) store.accounts
            request.now body reading) n r.1 r.0) }
        ensures printable { IfOk result (λ r. IsPrintableRefusal MOST_HEAD_TEXT r.0) }
        ensures keeps { IsTrue D.tells → KeepsEvents (D.told disk.old) (D.told disk.new) store
            (told_of (rules_of self.now.config.now request.now.account) store.accounts
            request.now [] reading).passed [] result }
        ensures fault { ShowsDisk result (D.told disk.old) (D.told disk.new) }
        ensures alone { D.by_disk disk.old disk.new }
    {
        let rules = self.config.rules(request.account);
        let m = store.accounts.last(&request.account).later(reading);
        let store = match store.pass(self.alloc, disk, &request.account, m) {
            Ok(store) => store,
            Err(fault) => return Err(fault_of(fault)),
        };
        match self.admit_asked(&store, rules, m, &request.asked) {
            Ok(admission) => Ok((admission, store)),
            Err(_) => Err(ServeFault::Memory),
        }
    }

    /// Refuses what was read of a message, or takes its body.
    fn admit_read<D: Disk>(
        &self,
        disk: &mut D,
        store: Store,
        request: &Result<Request, Refusal>,
        reading: Moment,
    ) -> Result<(Admission, Store), ServeFault>
        requires open { (D.told disk.old).opened ≡ true }
        requires read { IsStoredIn request.now }
        ensures admits { (n : ℕ) → IfOk request.now (λ request. IfOk request.asked (HasSize n)) →
            IfOk result (λ r. IsAdmission (λ body. request_outcome self.now.config.now store.accounts
            request.now body reading) n r.1 r.0) }
        ensures printable { IfOk result (λ r. IsPrintableRefusal MOST_HEAD_TEXT r.0) }
        ensures keeps { IsTrue D.tells → KeepsEvents (D.told disk.old) (D.told disk.new) store
            (request_outcome self.now.config.now store.accounts request.now [] reading).passed [] result }
        ensures fault { ShowsDisk result (D.told disk.old) (D.told disk.new) }
        ensures alone { D.by_disk disk.old disk.new }
    {
        match request {
            Ok(request) => self.admit_request(disk, store, request, reading),
            Err(refusal) => match reply_to_refused(self.alloc, refusal) {
                Ok(reply) => Ok((Admission::Refused(reply), store)),
                Err(_) => Err(ServeFault::Memory),
            },
        }
    }

    /// Refuses a message with this head, or takes its body, which has so many bytes.
    fn admit_head<D: Disk>(
        &self,
        disk: &mut D,
        store: Store,
        head: &Head<'_>,
        size: u64,
        reading: Moment,
    ) -> Result<(Admission, Store), ServeFault>
        requires open { (D.told disk.old).opened ≡ true }
        requires bulk { is_bulk_head head.now ≡ true }
        ensures admits { IfOk result (λ r. IsAdmission (λ body.
            told_head self.now.config.now store.accounts head.now body reading) size r.1 r.0) }
        ensures printable { IfOk result (λ r. IsPrintableRefusal MOST_HEAD_TEXT r.0) }
        ensures keeps { IsTrue D.tells → KeepsEvents (D.told disk.old) (D.told disk.new) store
            (told_head self.now.config.now store.accounts head.now [] reading).passed [] result }
        ensures fault { ShowsDisk result (D.told disk.old) (D.told disk.new) }
        ensures alone { D.by_disk disk.old disk.new }
    {
        match read_request(self.alloc, self.config, head, size, &[], reading) {
            Ok(request) => self.admit_read(disk, store, &request, reading),
            Err(_) => Err(ServeFault::Memory),
        }
    }

    /// Refuses the message at the front of the unread bytes, or takes its body, by its head alone. Time
    /// passes for its account before, and that is kept.
    pub fn admit_message<D: Disk>(
        &self,
        disk: &mut D,
        store: Store,
        buffers: &Buffers,
        spans: &HeadSpans,
        reading: Moment,
    ) -> Result<(Admission, Store), ServeFault>
        requires open { (D.told disk.old).opened ≡ true }
        requires good { IsGood buffers.now.unread buffers.now.head spans.now }
        requires bulk { IsBulkAt buffers.now.unread true }
        ensures admits { (h : RequestHead) (behind : List ℕ) → Reads buffers.now.unread h behind →
            IfOk result (λ r. IsAdmission
            (λ body. one self.now.config.now store.accounts (Good h body) reading)
            spans.now.content_length r.1 r.0) }
        ensures printable { IfOk result (λ r. IsPrintableRefusal MOST_HEAD_TEXT r.0) }
        ensures keeps { IsTrue D.tells → (h : RequestHead) (behind : List ℕ) →
            Reads buffers.now.unread h behind → KeepsEvents (D.told disk.old) (D.told disk.new) store
            (one self.now.config.now store.accounts (Good h []) reading).passed [] result }
        ensures fault { ShowsDisk result (D.told disk.old) (D.told disk.new) }
        ensures alone { D.by_disk disk.old disk.new }
    {
        let head = spans.view(buffers.unread.bytes(), &buffers.head);
        self.admit_head(disk, store, &head, spans.content_length, reading)
    }
}
