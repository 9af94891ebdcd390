// A vault made and deleted on a connection, with a call that fails and a stop behind it: what
// opening finds, beside the bytes that had been sent.
ghost use Rattle.std.specs.Prelude.{◌≡◌, ◌≤◌, false, length, true};
ghost use Rattle.glacier_disk.specs.Memory.{calls_of};

use crate::calls::{listens, opens};
use crate::plans::{Plan, mem_plan, plan_of};
use crate::server_tests::config;
use crate::signed_replies::{DELETED, MADE_VAULT};
use crate::signed_requests::{DELETE_VAULT, PUT_VAULT};
use crate::store_tests::{Subject, found, row_subject};
use glacier_base::Text;
use glacier_disk::{MemPlan, MemStation, Station, Torn};
use glacier_server::serve;
use glacier_store::{Store, StoreFault};
use std::alloc::Global;
use std::thread::Threads;

fn listen_and_serve<R: Threads + Sync, S: Station>(
    rt: &R,
    alloc: Global,
    station: &mut S,
    store: Store,
) -> bool
    requires open { (S.told station.old).opened ≡ true }
    requires deaf { (S.told station.old).listener.listening ≡ false }
    requires free { (S.told station.old).connected ≡ false }
{
    if !listens(station) {
        return false;
    }
    match config(alloc) {
        Some(config) => serve(rt, alloc, station, store, &config, 9).is_ok(),
        None => false,
    }
}

/// Opens the store and serves what comes. It answers whether no call of the disk or of the listener
/// failed.
fn serve_folder<R: Threads + Sync, S: Station>(rt: &R, alloc: Global, station: &mut S) -> bool
    requires closed { (S.told station.old).opened ≡ false }
    requires deaf { (S.told station.old).listener.listening ≡ false }
    requires free { (S.told station.old).connected ≡ false }
{
    if !opens(station) {
        return false;
    }
    match Store::open(alloc, station) {
        Ok(store) => listen_and_serve(rt, alloc, station, store),
        Err(_) => false,
    }
}

/// Two requests on one connection to a store that was just made, of which the call with this number
/// fails. The clock stands at Friday, 25 May 2012, 00:24:53 UTC.
fn session(alloc: Global, fault: u64) -> Option<MemPlan> {
    let input = [PUT_VAULT, DELETE_VAULT].concat(alloc).ok()?;
    let plan = Plan {
        lead: "\0",
        left: "glacier journal1\0",
        inputs: &[input.as_bytes()],
        pieces: &[],
        seconds: &[1_337_905_493],
        faults: &[fault],
    };
    mem_plan(alloc, &plan)
}

/// Whether a stop may leave this when so many bytes had been sent: no account while no byte of the
/// first reply was, the vault while none of the second was, and an account without it once all of
/// the first were.
fn is_allowed(found: Result<Option<bool>, StoreFault>, sent: usize) -> bool {
    match found {
        Ok(None) => sent == 0,
        Ok(Some(true)) => sent <= MADE_VAULT.len(),
        Ok(Some(false)) => sent >= MADE_VAULT.len(),
        Err(_) => false,
    }
}

fn reopened(
    alloc: Global,
    areas: [Text; 4],
    subject: &Subject,
) -> Option<Result<Option<bool>, StoreFault>> {
    let mut station = MemStation::new(alloc, plan_of(alloc, areas)).ok()?;
    Some(found(alloc, &mut station, subject))
}

/// Whether opening finds what is allowed beside so many bytes, behind a stop after so many calls.
fn is_left(
    alloc: Global,
    station: &MemStation,
    calls: u64,
    torn: Torn,
    subject: &Subject,
) -> Option<Result<Option<bool>, StoreFault>>
    requires { calls ≤ length (calls_of station.now) }
{
    let areas = station.stopped(calls, torn).ok()?;
    reopened(alloc, areas, subject)
}

/// Whether what stops leave behind all calls is allowed beside the bytes sent.
fn all_allowed(alloc: Global, station: &MemStation, subject: &Subject) -> Option<bool> {
    let sent = station.sent().len();
    for torn in [Torn::Old, Torn::New, Torn::Junk(0), Torn::Junk(255)] {
        let found = is_left(alloc, station, station.calls(), torn, subject)?;
        if !is_allowed(found, sent) {
            return Some(false);
        }
    }
    Some(true)
}

fn is_kept<R: Threads + Sync>(rt: &R, alloc: Global, fault: u64) -> Option<bool> {
    let subject = row_subject()?;
    let mut station = MemStation::new(alloc, session(alloc, fault)?).ok()?;
    let _is_served = serve_folder(rt, alloc, &mut station);
    let is_allowed = all_allowed(alloc, &station, &subject) == Some(true);
    Some(is_allowed)
}

#[test]
fn what_was_answered_is_found_again(rt: HostRuntime) {
    for fault in 0..40 {
        assert!(rt; is_kept(&rt, rt.alloc(), fault) == Some(true), "{fault}");
    }
}

/// Whether a stop after each of the calls leaves a store.
fn all_open(alloc: Global, station: &MemStation, subject: &Subject) -> Option<bool> {
    for calls in 0..station.calls() {
        for torn in [Torn::Old, Torn::New, Torn::Junk(0), Torn::Junk(255)] {
            if is_left(alloc, station, calls, torn, subject)?.is_err() {
                return Some(false);
            }
        }
    }
    Some(true)
}

fn is_gone(alloc: Global, station: &MemStation, subject: &Subject) -> bool {
    is_left(alloc, station, station.calls(), Torn::Old, subject) == Some(Ok(Some(false)))
}

fn is_sent(alloc: Global, station: &MemStation) -> Option<bool> {
    let output = [MADE_VAULT, DELETED].concat(alloc).ok()?;
    Some(station.sent() == output.as_bytes())
}

/// Whether a session of which no call fails is answered in full, and leaves an account without the
/// vault.
fn is_answered<R: Threads + Sync>(rt: &R, alloc: Global) -> Option<bool> {
    let subject = row_subject()?;
    let mut station = MemStation::new(alloc, session(alloc, 999)?).ok()?;
    let is_served = serve_folder(rt, alloc, &mut station);
    let is_whole = all_open(alloc, &station, &subject) == Some(true);
    let is_gone = is_gone(alloc, &station, &subject);
    Some(is_served && is_whole && is_gone && is_sent(alloc, &station) == Some(true))
}

#[test]
fn a_session_is_answered_and_kept(rt: HostRuntime) {
    assert!(rt; is_answered(&rt, rt.alloc()) == Some(true));
}
