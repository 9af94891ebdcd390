// The connections that come, one after another.
ghost use Rattle.std.specs.Prelude.{◌≡◌, ◌+◌, ◌<◌, ◌≤◌, IsTrue, true, false, IfOk, IfErr, if◌then◌else◌};
ghost use Rattle.glacier_server.specs.Headline.{Headline};
ghost use Rattle.glacier_server.specs.Breaking.{ShowsDisk};
ghost use Rattle.glacier_server.specs.Serving.{Serves, Breaks, Broken, CameBy, JustAccepted, ServesOn, ShowsFault};
ghost use Rattle.glacier_server.specs.Placed.{placed_as};
ghost use Rattle.glacier_replay.specs.Changes.{State};
ghost use Rattle.glacier_store.specs.Kept.{Kept};

use crate::buffers::Buffers;
use crate::end::ServeFault;
use crate::service::Service;
use glacier_disk::Station;
use glacier_machine::Config;
use glacier_store::Store;
use std::alloc::Global;
use std::thread::Threads;

impl<R: Threads + Sync> Service<'_, R> {
    /// Serves the connection that was just accepted, and closes it.
    fn serve_accepted<S: Station>(
        &self,
        station: &mut S,
        buffers: &mut Buffers,
        store: Store,
    ) -> Result<Store, ServeFault>
        requires connected { (S.told station.old).connected ≡ true }
        requires open { (S.told station.old).opened ≡ true }
        ensures served { IsTrue S.tells → (old : S) (state : State) →
            Kept (S.told station.old) store state →
            JustAccepted (S.told old) (S.told station.old) (placed_as store state) →
            IfOk result (λ left. (after : State) × Serves self.now.config.now
            (S.told old) (S.told station.new) (placed_as store state) (placed_as left after) 1) }
        ensures broken { IsTrue S.tells → (old : S) (state : State) →
            Kept (S.told station.old) store state →
            JustAccepted (S.told old) (S.told station.old) (placed_as store state) →
            IfErr result (λ fault. Breaks self.now.config.now
            (S.told old) (S.told station.new) (placed_as store state) 1 fault) }
        ensures fault { ShowsDisk result (S.told station.old) (S.told station.new) }
        ensures kept { (S.told station.old).listener.listening ≡ true →
            ServesOn (S.told station.old) (S.told station.new) }
        ensures listener { (S.told station.new).listener ≡ (S.told station.old).listener }
    {
        match self.serve_open(station, buffers, store) {
            Ok((_, after)) => {
                station.hang_up();
                Ok(after)
            }
            Err(fault) => {
                station.hang_up();
                Err(fault)
            }
        }
    }

    /// Serves the next connection. It answers false where none comes.
    fn serve_next<S: Station>(
        &self,
        station: &mut S,
        buffers: &mut Buffers,
        store: Store,
    ) -> Result<(bool, Store), ServeFault>
        requires listening { (S.told station.old).listener.listening ≡ true }
        requires free { (S.told station.old).connected ≡ false }
        requires open { (S.told station.old).opened ≡ true }
        ensures served { IsTrue S.tells → (state : State) → Kept (S.told station.old) store state →
            IfOk result (λ r. (after : State) × Serves self.now.config.now
            (S.told station.old) (S.told station.new) (placed_as store state)
            (placed_as r.1 after) (if r.0 then 1 else 0)) }
        ensures broken { IsTrue S.tells → (state : State) → Kept (S.told station.old) store state →
            IfErr result (λ fault. Breaks self.now.config.now
            (S.told station.old) (S.told station.new) (placed_as store state) 1 fault) }
        ensures came { IsTrue S.tells → CameBy result (λ r. if r.0 then 1 else 0) 1
            (S.told station.old) (S.told station.new) }
        ensures kept { ServesOn (S.told station.old) (S.told station.new) }
        ensures fault { ShowsFault result (S.told station.old) (S.told station.new) }
    {
        match station.accept() {
            Ok(true) => match self.serve_accepted(station, buffers, store) {
                Ok(after) => Ok((true, after)),
                Err(fault) => Err(fault),
            },
            Ok(false) => Ok((false, store)),
            Err(_) => Err(ServeFault::Accept),
        }
    }
}

/// Serves so many connections, one after another, or all that come where they are fewer. It answers
/// how many it served. A connection on which a call of the network fails ends alone. The memory for
/// a connection's buffers is taken once, before the first connection.
///
/// After an error there is no store. `Disk` says that a call of the disk failed, `JournalEnd` that
/// the journal has no room for the events of a message, `Memory` is want of memory, and `Accept`
/// says that an accept failed.
#[tactic(auto, using(crate::proofs::KeepLemmas::on_then))]
pub fn serve<R: Threads + Sync, S: Station>(
    rt: &R,
    alloc: Global,
    station: &mut S,
    store: Store,
    config: &Config,
    connections: u64,
) -> Result<(u64, Store), ServeFault>
    requires listening { (S.told station.old).listener.listening ≡ true }
    requires free { (S.told station.old).connected ≡ false }
    requires open { (S.told station.old).opened ≡ true }
    ensures served { IsTrue S.tells → (state : State) → Kept (S.told station.old) store state →
        IfOk result (λ r. (after : State) × Serves config.now (S.told station.old)
        (S.told station.new) (placed_as store state) (placed_as r.1 after) r.0) }
    ensures broken { IsTrue S.tells → IfErr result (λ fault. Broken config.now
        (S.told station.old) (S.told station.new) store connections fault) }
    ensures headline { IsTrue S.tells → (state : State) → Kept (S.told station.old) store state →
        Headline config.now (S.told station.old) (S.told station.new) (placed_as store state) }
    ensures most { IfOk result (λ r. r.0 ≤ connections) }
    ensures came { IsTrue S.tells → CameBy result (λ r. r.0) connections
        (S.told station.old) (S.told station.new) }
    ensures kept { ServesOn (S.told station.old) (S.told station.new) }
    ensures fault { ShowsFault result (S.told station.old) (S.told station.new) }
{
    let service = Service { rt, alloc, config };
    let mut buffers = match Buffers::new(alloc) {
        Ok(buffers) => buffers,
        Err(_) => return Err(ServeFault::Memory),
    };
    let mut store = store;
    let mut count = 0;
    'connections: while count < connections {
        match service.serve_next(station, &mut buffers, store) {
            Ok((true, after)) => {
                store = after;
                count += 1;
            }
            Ok((false, after)) => return Ok((count, after)),
            Err(fault) => return Err(fault),
        }
    }
    Ok((count, store))
}
