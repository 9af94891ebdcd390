// Serving what a folder holds, at an address.
ghost use Rattle.std.specs.Prelude.{◌≡◌, IsTrue, false};
ghost use Rattle.glacier_cli.specs.FileUse.{KeepsContents, file_use};
ghost use Rattle.glacier_cli.specs.Program.{FolderEnds, HeadlineOf, ServeEnds, of_server};
ghost use Rattle.glacier_cli.specs.Serving.{Headline};
ghost use Rattle.glacier_cli.specs.Forms.{serve_words};
ghost use Rattle.glacier_cli.specs.StationUse.{config_of, delays_of, station_use};

use crate::begin::begin;
use crate::command::Serving;
use crate::ending::Ending;
use crate::keys::read_keys;
use glacier_base::Files;
use glacier_disk::Station;
use glacier_server::{Config, ServeFault, serve};
use glacier_sigv4::KeyRing;
use glacier_store::first_over;
use std::alloc::Global;
use std::thread::Threads;

/// How many seconds retrieval jobs take, by their tier: as many as are named, or else what Amazon's
/// tiers take at most.
fn delays_of(delay: Option<u32>) -> [u32; 3]
    ensures { result ≡ delays_of delay }
{
    match delay {
        Some(delay) => [delay, delay, delay],
        None => [300, 14_400, 28_800],
    }
}

/// What a server is told for the accounts of this ring.
fn config_of(ring: KeyRing, serving: &Serving) -> Config
    ensures { result ≡ config_of ring (serve_words serving.now) }
{
    Config {
        region: serving.region,
        ring,
        delays: delays_of(serving.delay),
    }
}

/// The ending that a fault of a server makes.
fn server_ending(fault: ServeFault) -> Ending
    ensures { result ≡ of_server fault }
{
    match fault {
        ServeFault::Disk => Ending::DiskFault,
        ServeFault::Memory => Ending::NoMemory,
        ServeFault::JournalEnd { length } => Ending::JournalEnd(length),
        ServeFault::Accept => Ending::ListenerFault,
    }
}

/// Makes or opens the store in the folder, listens at the address, and serves the accounts of the
/// ring on the connections that come, one after another.
fn serve_folder<R: Threads + Sync, S: Station>(
    rt: &R,
    alloc: Global,
    ring: KeyRing,
    serving: &Serving,
    station: &mut S,
) -> Ending
    requires closed { (S.told station.old).opened ≡ false }
    requires not_listening { (S.told station.old).listener.listening ≡ false }
    requires not_connected { (S.told station.old).connected ≡ false }
    ensures ends { FolderEnds (station_use S.tells (S.told station.old) (S.told station.new))
        ring (serve_words serving.now) result }
    ensures headline { IsTrue S.tells →
        Headline (station_use S.tells (S.told station.old) (S.told station.new))
        ring (serve_words serving.now) }
{
    let store = match begin(alloc, serving, station) {
        Ok(store) => store,
        Err(ending) => return ending,
    };
    if let Some(over) = first_over(&store.accounts, &ring) {
        return Ending::OverQuota(over);
    }
    if station.listen(serving.address).is_err() {
        return Ending::ListenerFault;
    }
    let config = config_of(ring, serving);
    match serve(rt, alloc, station, store, &config, serving.connections) {
        Ok((count, _)) => Ending::Served(count),
        Err(fault) => server_ending(fault),
    }
}

/// Reads the key file, and then serves its accounts from the folder, at the address.
pub(crate) fn serve_keys<R: Threads + Sync, F: Files, S: Station>(
    rt: &R,
    alloc: Global,
    serving: &Serving,
    files: &mut F,
    station: &mut S,
) -> Ending
    requires closed { (S.told station.old).opened ≡ false }
    requires not_listening { (S.told station.old).listener.listening ≡ false }
    requires not_connected { (S.told station.old).connected ≡ false }
    ensures ends { ServeEnds (file_use F.tells (F.told files.old) (F.told files.new))
        (station_use S.tells (S.told station.old) (S.told station.new))
        (serve_words serving.now) result }
    ensures headline { IsTrue S.tells →
        HeadlineOf (file_use F.tells (F.told files.old) (F.told files.new))
        (station_use S.tells (S.told station.old) (S.told station.new)) (serve_words serving.now) }
    ensures contents { KeepsContents (file_use F.tells (F.told files.old) (F.told files.new)) }
{
    match read_keys(alloc, serving.keys, files) {
        Ok(ring) => serve_folder(rt, alloc, ring, serving, station),
        Err(ending) => ending,
    }
}
