// The body of an upload that nothing refuses before it: it is taken, and its event is kept.
ghost use Rattle.std.specs.Prelude.{◌≡◌, ◌≤◌, ◌+◌, ℕ, [], List as Items, None, IsTrue, IfOk, IfErr, length, true};
ghost use Rattle.std.specs.Int.{div_ceil};
ghost use Rattle.hex.specs.Hex.{encode_lower};
ghost use Rattle.glacier_bodies.specs.BlobAreas.{IsOpen};
ghost use Rattle.glacier_bodies.specs.Blobs.{Holds};
ghost use Rattle.glacier_bodies.specs.Bodies.{HasTaken, body_runs, body_taken};
ghost use Rattle.glacier_disk.specs.declared.area.Area.TheVariants.{Blobs};
ghost use Rattle.glacier_extents.specs.Places.{block_size};
ghost use Rattle.glacier_extents.specs.Runs.{block_count};
ghost use Rattle.glacier_replay.specs.Made.{IsRest};
ghost use Rattle.glacier_store.specs.Calls.{OnlyFree};
ghost use Rattle.glacier_store.specs.Kept.{IsRestBeside};
ghost use Rattle.glacier_upload.specs.Single.{upload_refusal};
ghost use Rattle.glacier_vault.specs.Accounts.{account_in};
ghost use Rattle.glacier_server.specs.Breaking.{ShowsDisk};
ghost use Rattle.glacier_server.specs.Machine.{IsPrintableIn};
ghost use Rattle.glacier_server.specs.Streams.{IsPieceFor};
ghost use Rattle.glacier_server.specs.Transfer.{Keeps};
ghost use Rattle.glacier_server.specs.UploadCalls.{EndsUpload, HasOpened};
ghost use Rattle.glacier_server.specs.Uploads.{BreaksUpload, HasEndedBody, IsPrintableEnd, IsWithinEnd, events_with, failing_at, reply_with, upload_of};

use crate::end::ServeFault;
use crate::outcome::fault_of;
use crate::reply_sender::MOST_HEAD_TEXT;
use crate::upload_stream::{StreamFault, stream_body};
use glacier_base::{Memory, Moment};
use glacier_bodies::Body;
use glacier_disk::{Disk, Station};
use glacier_http::Reply;
use glacier_store::Store;
use glacier_upload::UploadAsk;
use glacier_vault::Rules;
use std::alloc::Global;
use std::thread::Threads;

/// How the body of an upload ended.
#[derive(Drop)]
pub enum BodyEnd {
    /// All of it was taken: this is the reply to the upload, whose event is kept.
    Done(Reply, Store),
    /// The input ended where so many of its bytes were missing, and nothing is kept of it.
    Cut(u64, Store),
    /// A receive failed, and nothing is kept of it.
    Failed(Store),
}

/// An account has 12 digits, a vault's name at most 255 bytes, and a tree hash 64 digits.
fn names_are_short(rules: &Rules, ask: &UploadAsk)
    ensures account { length rules.now.account ≡ 12 }
    ensures name { length ask.now.vault ≤ 255 }
    ensures tree { length (encode_lower ask.now.tree) ≡ 64 }
{
    let _account = rules.account.bytes();
    let _name = ask.vault.bytes();
    let text = ask.tree.text();
    prove!(text.len() == 64);
}

/// Opens the body of an upload, in as many free blocks as it needs. After an error nothing has
/// changed.
fn begin_upload(alloc: Global, store: &mut Store, ask: &UploadAsk) -> Result<Body, Memory>
    ensures opened { IfOk result (HasOpened store.old store.new ask.now.size) }
    ensures same { OnlyFree store.old store.new }
{
    store.begin_body(alloc, ask.size)
}

/// Gives back the blocks of a body that isn't whole.
fn give_back(store: &mut Store, body: Body)
    requires { IsOpen store.old.area (body_runs body) }
    ensures rest { IsRestBeside (body_runs body) store.old.area.free store.old.area.blobs →
        IsRest store.new.area.free store.new.area.blobs }
    ensures same { OnlyFree store.old store.new }
{
    store.drop_body(body);
}

/// Does an upload whose body was taken whole, and keeps its event. It answers the reply.
fn end_upload<D: Disk>(
    alloc: Global,
    disk: &mut D,
    store: Store,
    rules: &Rules,
    m: Moment,
    ask: &UploadAsk,
    body: Body,
) -> Result<(Reply, Store), ServeFault>
    requires open { (D.told disk.old).opened ≡ true }
    requires time { (account_in store.accounts rules.now.account).last ≤ m }
    requires admitted { upload_refusal rules.now.quota
        (account_in store.accounts rules.now.account) ask.now ≡ None }
    requires body { IsOpen store.area (body_runs body) }
    requires whole { (body_taken body ≡ ask.now.size)
        × (block_count (body_runs body) ≡ div_ceil ask.now.size block_size) }
    requires some { (message : Items ℕ) × HasTaken body message }
    ensures reply { (message : Items ℕ) → HasTaken body message →
        IfOk result (λ r. r.0 ≡ reply_with (upload_of store rules.now m ask.now [] 0) message) }
    ensures printable { IfOk result (λ r. IsPrintableIn MOST_HEAD_TEXT r.0) }
    ensures ends { IsTrue D.tells → (message : Items ℕ) → HasTaken body message →
        Holds (body_runs body) message ((D.told disk.old).reads Blobs) →
        EndsUpload (D.told disk.old) (D.told disk.new) store (body_runs body)
        (events_with (upload_of store rules.now m ask.now [] 0) message) result }
    ensures fault { ShowsDisk result (D.told disk.old) (D.told disk.new) }
    ensures alone { D.by_disk disk.old disk.new }
{
    names_are_short(rules, ask);
    match store.end_body(alloc, disk, rules, m, ask, body) {
        Ok((store, answer)) => Ok((answer.reply, store)),
        Err(fault) => Err(fault_of(fault)),
    }
}

/// Takes the body of an upload that nothing refuses before it, at the moment `m`, up to which time
/// has passed: `here` are its first bytes, which were read with the head, and `missing` more are to
/// come. They stream by the lent buffer, of whole blocks, into free blocks of the store. Once the
/// body is whole the upload is done, and its event is kept before this answers. Where the input ends
/// in the body, or a receive fails, its blocks are given back, and nothing is kept.
///
/// After an error there is no store: `Disk` says that a call of the disk failed, `Memory` that
/// memory or free blocks are wanting, and `JournalEnd` that the journal has no room for the event.
pub fn take_upload<S: Station, R: Threads + Sync>(
    rt: &R,
    alloc: Global,
    station: &mut S,
    piece: &mut [u8],
    store: Store,
    rules: &Rules,
    m: Moment,
    ask: &UploadAsk,
    here: &[u8],
    missing: u64,
) -> Result<BodyEnd, ServeFault>
    requires connected { (S.told station.old).connected ≡ true }
    requires open { (S.told station.old).opened ≡ true }
    requires time { (account_in store.accounts rules.now.account).last ≤ m }
    requires admitted { upload_refusal rules.now.quota
        (account_in store.accounts rules.now.account) ask.now ≡ None }
    requires size { ask.now.size ≡ length here.now + missing }
    requires piece { IsPieceFor (length piece.old) (length here.now) }
    ensures ended { IsTrue S.tells → IfOk result (HasEndedBody
        (upload_of store rules.now m ask.now here.now missing) (length piece.old)
        (S.told station.old) (S.told station.new)) }
    ensures broken { IsTrue S.tells → IfErr result (BreaksUpload
        (upload_of store rules.now m ask.now here.now missing) (length piece.old)
        (S.told station.old) (S.told station.new)) }
    ensures printable { IfOk result (IsPrintableEnd MOST_HEAD_TEXT) }
    ensures within { IfOk result (IsWithinEnd missing) }
    ensures fault { ShowsDisk result (S.told station.old) (S.told station.new) }
    ensures keeps { Keeps (S.told station.old) (S.told station.new) (failing_at result) }
{
    let mut store = store;
    let mut body = match begin_upload(alloc, &mut store, ask) {
        Ok(body) => body,
        Err(_) => return Err(ServeFault::Memory),
    };
    match stream_body(rt, station, &store, &mut body, piece, here, missing) {
        Ok(left) => {
            if left > 0 {
                give_back(&mut store, body);
                return Ok(BodyEnd::Cut(left, store));
            }
            match end_upload(alloc, station, store, rules, m, ask, body) {
                Ok((reply, store)) => Ok(BodyEnd::Done(reply, store)),
                Err(fault) => Err(fault),
            }
        }
        Err(StreamFault::Receive) => {
            give_back(&mut store, body);
            Ok(BodyEnd::Failed(store))
        }
        Err(StreamFault::Disk) => Err(ServeFault::Disk),
    }
}
