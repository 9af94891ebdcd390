// Connections of a station in memory: what is sent on each, to the byte, and how it ends.
ghost use Rattle.std.specs.Prelude.{◌≡◌, true, false, OnSome};

use crate::calls::{accepts, listens, opens};
use crate::plans::{Plan, mem_plan};
use glacier_base::Region;
use glacier_disk::{MemStation, Station};
use glacier_machine::Config;
use glacier_server::{End, serve, serve_connection};
use glacier_sigv4::KeyRing;
use glacier_store::Store;
use std::alloc::Global;
use std::thread::Threads;

/// Two accounts.
const KEYS: &[u8] =
    b"111122223333 AKIDEXAMPLE wJalrXUtnFEMI/K7MDENG+bPxRfiCYEXAMPLEKEY 64\n444455556666 AKIDOTHER another/secret 64\n";

pub fn config(alloc: Global) -> Option<Config> {
    let region = Region::parse(b"us-east-1")?;
    let ring = KeyRing::read(alloc, KEYS).ok()?;
    Some(Config {
        region,
        ring,
        delays: [300, 14_400, 28_800],
    })
}

/// One input and an empty one, in these pieces and with these failures, where the clock stands at
/// Friday, 25 May 2012, 00:24:53 UTC.
fn plan<'a>(inputs: &'a [&'a [u8]], pieces: &'a [usize], faults: &'a [u64]) -> Plan<'a> {
    Plan {
        lead: "",
        left: "",
        inputs,
        pieces,
        seconds: &[1_337_905_493],
        faults,
    }
}

fn created<S: Station>(alloc: Global, station: &mut S) -> Option<Store>
    requires { (S.told station.old).opened ≡ true }
    ensures open { OnSome result ((S.told station.new).opened ≡ true) }
    ensures listening { (S.told station.new).listener.listening ≡
        (S.told station.old).listener.listening }
    ensures connected { (S.told station.new).connected ≡ (S.told station.old).connected }
{
    match Store::create(alloc, station) {
        Ok(store) => Some(store),
        Err(_) => None,
    }
}

/// Makes a store in the folder, and listens. The nine calls of the disk come first.
fn store_at<S: Station>(alloc: Global, station: &mut S) -> Option<Store>
    requires closed { (S.told station.old).opened ≡ false }
    requires listening { (S.told station.old).listener.listening ≡ false }
    requires free { (S.told station.old).connected ≡ false }
    ensures open { OnSome result ((S.told station.new).opened ≡ true) }
    ensures listening { OnSome result ((S.told station.new).listener.listening ≡ true) }
    ensures free { OnSome result ((S.told station.new).connected ≡ false) }
{
    if !opens(station) {
        return None;
    }
    match created(alloc, station) {
        Some(store) => { if listens(station) { Some(store) } else { None } }
        None => None,
    }
}

fn connection_end<R: Threads + Sync, S: Station>(
    rt: &R,
    alloc: Global,
    station: &mut S,
    store: Store,
) -> Option<End>
    requires open { (S.told station.old).opened ≡ true }
    requires connected { (S.told station.old).connected ≡ true }
{
    match config(alloc) {
        Some(config) => match serve_connection(rt, alloc, station, store, &config) {
            Ok((end, _)) => Some(end),
            Err(_) => None,
        },
        None => None,
    }
}

fn accepted_end<R: Threads + Sync, S: Station>(
    rt: &R,
    alloc: Global,
    station: &mut S,
    store: Store,
) -> Option<End>
    requires open { (S.told station.old).opened ≡ true }
    requires listening { (S.told station.old).listener.listening ≡ true }
    requires free { (S.told station.old).connected ≡ false }
{
    if accepts(station) {
        connection_end(rt, alloc, station, store)
    } else {
        None
    }
}

/// How the first connection ends.
fn first_end<R: Threads + Sync, S: Station>(rt: &R, alloc: Global, station: &mut S) -> Option<End>
    requires closed { (S.told station.old).opened ≡ false }
    requires listening { (S.told station.old).listener.listening ≡ false }
    requires free { (S.told station.old).connected ≡ false }
{
    match store_at(alloc, station) {
        Some(store) => accepted_end(rt, alloc, station, store),
        None => None,
    }
}

fn serve_some<R: Threads + Sync, S: Station>(
    rt: &R,
    alloc: Global,
    station: &mut S,
    store: Store,
) -> Option<u64>
    requires open { (S.told station.old).opened ≡ true }
    requires listening { (S.told station.old).listener.listening ≡ true }
    requires free { (S.told station.old).connected ≡ false }
{
    match config(alloc) {
        Some(config) => match serve(rt, alloc, station, store, &config, 9) {
            Ok((count, _)) => Some(count),
            Err(_) => None,
        },
        None => None,
    }
}

/// How many connections are served, where none of the station's accepts fails.
fn served<R: Threads + Sync, S: Station>(rt: &R, alloc: Global, station: &mut S) -> Option<u64>
    requires closed { (S.told station.old).opened ≡ false }
    requires listening { (S.told station.old).listener.listening ≡ false }
    requires free { (S.told station.old).connected ≡ false }
{
    match store_at(alloc, station) {
        Some(store) => serve_some(rt, alloc, station, store),
        None => None,
    }
}

/// How the first connection ends, and whether these bytes were sent.
pub fn held<R: Threads + Sync>(
    rt: &R,
    alloc: Global,
    plan: &Plan,
    output: &[u8],
) -> Option<(Option<End>, bool)> {
    let mut station = MemStation::new(alloc, mem_plan(alloc, plan)?).ok()?;
    let end = first_end(rt, alloc, &mut station);
    Some((end, station.sent() == output))
}

/// How many connections are served.
fn served_by<R: Threads + Sync>(rt: &R, alloc: Global, plan: &Plan) -> Option<Option<u64>> {
    let mut station = MemStation::new(alloc, mem_plan(alloc, plan)?).ok()?;
    Some(served(rt, alloc, &mut station))
}

/// So many bounds of receives.
pub fn bounds(alloc: Global, bound: usize, count: usize) -> Option<Vec<usize>> {
    vec![in alloc; bound; count].ok()
}

/// How an input in pieces of at most so many bytes ends.
fn end_of<R: Threads + Sync>(rt: &R, alloc: Global, input: &str, piece: usize) -> Option<End> {
    let pieces = bounds(alloc, piece, 400)?;
    let inputs = [input.as_bytes(), b"".as_slice()];
    let (end, _) = held(rt, alloc, &plan(&inputs, &pieces, &[]), b"")?;
    end
}

/// Inputs, and how each ends.
const ENDS: [(&str, End); 7] = [
    ("", End::Closed),
    ("GET /a HTTP/1.1\r\n\r\n", End::Closed),
    ("GET /a HTTP/1.1\r\n", End::Cut { taken: 17 }),
    (
        "GET /a HTTP/1.1\r\n\r\nPUT /b HTTP/1.1\r\nContent-Length: 10\r\n\r\n1234",
        End::Cut { taken: 43 },
    ),
    (
        "GET /a HTTP/1.1\r\nConnection: close\r\n\r\nGET",
        End::Closed,
    ),
    ("GET /a HTTP/1.1\r\n\r\n\0GET", End::Refused),
    (
        "PUT /a HTTP/1.1\r\nContent-Length: 2\r\n\r\n12GET *",
        End::Cut { taken: 5 },
    ),
];

#[test]
fn ends(rt: HostRuntime) {
    for (input, end) in ENDS {
        for piece in [1, 7, 400] {
            assert!(rt;
                end_of(&rt, rt.alloc(), input, piece) == Some(end),
                "{piece} of {input}"
            );
        }
    }
}

/// The call that fails, how the first connection ends and how many connections are served. Behind
/// the nine calls that make a store they are listen, accept, receive, send, receive.
const FAULTS: [(u64, Option<End>, Option<u64>); 6] = [
    (9, None, None),
    (10, None, None),
    (11, Some(End::ReadFault), Some(2)),
    (12, Some(End::SendFault), Some(2)),
    (13, Some(End::ReadFault), Some(2)),
    (99, Some(End::Closed), Some(2)),
];

/// Whether a request whose call with this number fails ends so, and so many are served.
fn is_fault_kept<R: Threads + Sync>(
    rt: &R,
    alloc: Global,
    fault: u64,
    end: Option<End>,
    count: Option<u64>,
) -> bool {
    let inputs = [b"GET /a HTTP/1.1\r\n\r\n".as_slice(), b"".as_slice()];
    let faults = [fault];
    let plan = plan(&inputs, &[], &faults);
    match held(rt, alloc, &plan, b"") {
        Some((ended, _)) => ended == end && served_by(rt, alloc, &plan) == Some(count),
        None => false,
    }
}

#[test]
fn faults_end_one_connection(rt: HostRuntime) {
    for (fault, end, count) in FAULTS {
        assert!(rt;
            is_fault_kept(&rt, rt.alloc(), fault, end, count),
            "{fault}"
        );
    }
}
