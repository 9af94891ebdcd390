// A connection from its first byte to its end.
ghost use Rattle.std.specs.Prelude.{◌≡◌, ◌+◌, ◌<◌, IsTrue, true, IfOk, IfErr};
ghost use Rattle.glacier_server.specs.Headline.{HeadlineLast};
ghost use Rattle.glacier_server.specs.Served.{ServedLast, failing_to};
ghost use Rattle.glacier_server.specs.Breaking.{PartLast, HasBroken};
ghost use Rattle.glacier_server.specs.Transfer.{Keeps};
ghost use Rattle.glacier_server.specs.Placed.{placed_as};
ghost use Rattle.glacier_replay.specs.Changes.{State};
ghost use Rattle.glacier_store.specs.Kept.{Kept};

use crate::buffers::Buffers;
use crate::end::{End, ServeFault};
use crate::service::Service;
use glacier_disk::Station;
use glacier_machine::Config;
use glacier_store::Store;
use std::alloc::Global;
use std::thread::Threads;

impl<R: Threads + Sync> Service<'_, R> {
    /// Answers the messages of the open connection, one after another, until it ends.
    #[tactic(auto, using(crate::proofs::KeepLemmas::kept))]
    pub fn serve_open<S: Station>(
        &self,
        station: &mut S,
        buffers: &mut Buffers,
        store: Store,
    ) -> Result<(End, Store), ServeFault>
        requires connected { (S.told station.old).connected ≡ true }
        requires open { (S.told station.old).opened ≡ true }
        ensures served { IsTrue S.tells → (state : State) → Kept (S.told station.old) store state →
            IfOk result (λ r. (after : State) × ServedLast self.now.config.now
            (S.told station.old) (S.told station.new) (placed_as store state)
            (placed_as r.1 after) r.0) }
        ensures broken { IsTrue S.tells → (state : State) → Kept (S.told station.old) store state →
            IfErr result (λ fault. PartLast self.now.config.now
            (S.told station.old) (S.told station.new) (placed_as store state) fault) }
        ensures fault { IfErr result
            (λ fault. HasBroken fault (S.told station.old) (S.told station.new)) }
        ensures keeps { Keeps (S.told station.old) (S.told station.new) (failing_to result) }
    {
        buffers.unread.clear();
        let mut store = store;
        let mut count = 0;
        'messages: loop {
            match self.one_message(station, buffers, store, count) {
                Ok((None, after)) => {
                    store = after;
                    count += 1;
                }
                Ok((Some(end), after)) => return Ok((end, after)),
                Err(fault) => return Err(fault),
            }
        }
    }
}

/// Answers the messages of the open connection, one after another, until it ends. The memory for a
/// connection's buffers is taken first, and a message's events are kept before a byte of its reply
/// is sent.
///
/// After an error there is no store. `Disk` says that a call of the disk failed, `JournalEnd` that
/// the journal has no room for the events of a message, and `Memory` is want of memory; no byte of
/// the reply to the last message was sent then.
pub fn serve_connection<R: Threads + Sync, S: Station>(
    rt: &R,
    alloc: Global,
    station: &mut S,
    store: Store,
    config: &Config,
) -> Result<(End, Store), ServeFault>
    requires connected { (S.told station.old).connected ≡ true }
    requires open { (S.told station.old).opened ≡ true }
    ensures served { IsTrue S.tells → (state : State) → Kept (S.told station.old) store state →
        IfOk result (λ r. (after : State) × ServedLast config.now (S.told station.old)
        (S.told station.new) (placed_as store state) (placed_as r.1 after) r.0) }
    ensures broken { IsTrue S.tells → (state : State) → Kept (S.told station.old) store state →
        IfErr result (λ fault. PartLast config.now (S.told station.old) (S.told station.new)
        (placed_as store state) fault) }
    ensures headline { IsTrue S.tells → (state : State) → Kept (S.told station.old) store state →
        HeadlineLast config.now (S.told station.old) (S.told station.new) (placed_as store state) }
    ensures fault { IfErr result
        (λ fault. HasBroken fault (S.told station.old) (S.told station.new)) }
    ensures keeps { Keeps (S.told station.old) (S.told station.new) (failing_to result) }
{
    let service = Service { rt, alloc, config };
    let mut buffers = match Buffers::new(alloc) {
        Ok(buffers) => buffers,
        Err(_) => return Err(ServeFault::Memory),
    };
    match service.serve_open(station, &mut buffers, store) {
        Ok((end, after)) => Ok((end, after)),
        Err(fault) => Err(fault),
    }
}
