// Planned failures, pieces and readings of a station in memory.
ghost use Rattle.std.specs.Prelude.{◌≡◌, false, true};

use crate::calls::{accepts, listens, opens};
use crate::plans::{Plan, mem_plan};
use glacier_base::Moment;
use glacier_disk::{Area, MemPlan, MemStation, Station};
use std::alloc::Global;

/// One input of five bytes, four bytes in the left area, two bounds of receives, and these failures.
pub fn plan(alloc: Global, faults: &[u64]) -> Option<MemPlan> {
    let plan = Plan {
        lead: "",
        left: "abcd",
        inputs: &[b"hello"],
        pieces: &[2, 0],
        seconds: &[],
        faults,
    };
    mem_plan(alloc, &plan)
}

/// The first four of the calls that can fail, each once.
fn take_input<S: Station>(station: &mut S, into: &mut [u8]) -> bool
    requires closed { (S.told station.old).opened ≡ false }
    requires deaf { (S.told station.old).listener.listening ≡ false }
    requires free { (S.told station.old).connected ≡ false }
    ensures open { result ≡ true → (S.told station.new).opened ≡ true }
    ensures connected { result ≡ true → (S.told station.new).connected ≡ true }
{
    opens(station) && listens(station) && accepts(station) && station.receive(into).is_ok()
}

/// The other six.
fn change_and_send<S: Station>(station: &mut S, into: &mut [u8]) -> bool
    requires open { (S.told station.old).opened ≡ true }
    requires connected { (S.told station.old).connected ≡ true }
{
    station.write_at(Area::Left, 0, b"x").is_ok()
        && station.read(Area::Left, 0, into).is_ok()
        && matches!(station.size(Area::Left), Ok(1..))
        && station.cut(Area::Left, 1).is_ok()
        && station.sync().is_ok()
        && station.send(b"y").is_ok()
}

/// Each call that can fail, once, and those that can't. Whether none failed.
fn call_each<S: Station>(station: &mut S, into: &mut [u8]) -> bool
    requires closed { (S.told station.old).opened ≡ false }
    requires deaf { (S.told station.old).listener.listening ≡ false }
    requires free { (S.told station.old).connected ≡ false }
{
    if take_input(station, into) && change_and_send(station, into) {
        station.hang_up();
        let _ = station.now();
        return true;
    }
    false
}

/// The call that fails; Left and all bytes sent.
type Fault = (u64, &'static str, &'static str);

const FAULTS: [Fault; 11] = [
    (0, "abcd", ""),
    (1, "abcd", ""),
    (2, "abcd", ""),
    (3, "abcd", ""),
    (4, "abcd", ""),
    (5, "xbcd", ""),
    (6, "xbcd", ""),
    (7, "xbcd", ""),
    (8, "x", ""),
    (9, "x", ""),
    // No call of the run.
    (10, "x", "y"),
];

/// Whether so many calls were made, and left these bytes in Left and sent these.
fn is_left(station: &MemStation, calls: u64, left: &str, sent: &str) -> bool {
    station.calls() == calls
        && station.area(Area::Left) == left.as_bytes()
        && station.sent() == sent.as_bytes()
}

/// Whether that call and no other fails, and changes nothing.
fn fails(alloc: Global, fault: &Fault) -> Option<bool> {
    let (number, left, sent) = *fault;
    let mut station = MemStation::new(alloc, plan(alloc, &[number])?).ok()?;
    let is_done = call_each(&mut station, &mut [0; 4]);
    let calls = number.saturating_add(1).min(10);
    Some(is_done == (number >= 10) && is_left(&station, calls, left, sent))
}

#[test]
fn a_planned_call_fails(rt: HostRuntime) {
    for row in &FAULTS {
        assert!(rt; fails(rt.alloc(), row) == Some(true), "at {}", row.0);
    }
}

/// Whether the open connection's input comes in pieces of these sizes.
fn comes_in<S: Station>(station: &mut S, sizes: &[usize]) -> bool
    requires { (S.told station.old).connected ≡ true }
    ensures { (S.told station.new).listener.listening ≡ (S.told station.old).listener.listening }
{
    let mut into = [0u8; 3];
    for size in sizes {
        if station.receive(&mut into) != Ok(*size) {
            return false;
        }
    }
    true
}

/// Accepts the next connection and hangs up. Whether its input comes in pieces of these sizes.
fn next_comes_in<S: Station>(station: &mut S, sizes: &[usize]) -> bool
    requires listening { (S.told station.old).listener.listening ≡ true }
    requires free { (S.told station.old).connected ≡ false }
    ensures listening { result ≡ true → (S.told station.new).listener.listening ≡ true }
    ensures free { result ≡ true → (S.told station.new).connected ≡ false }
{
    if accepts(station) && comes_in(station, sizes) {
        station.hang_up();
        return true;
    }
    false
}

/// Whether no connection comes.
fn none_comes<S: Station>(station: &mut S) -> bool
    requires listening { (S.told station.old).listener.listening ≡ true }
    requires free { (S.told station.old).connected ≡ false }
{
    station.accept() == Ok(false)
}

/// Whether the first input comes in pieces of two, then of one for the bound 0, then all that is
/// left and fits, and the end; and whether a second one comes in these, or none where there are none.
fn come_in<S: Station>(station: &mut S, second: Option<&[usize]>) -> bool
    requires deaf { (S.told station.old).listener.listening ≡ false }
    requires free { (S.told station.old).connected ≡ false }
{
    if !listens(station) || !next_comes_in(station, &[2, 1, 2, 0]) {
        return false;
    }
    match second {
        Some(sizes) => next_comes_in(station, sizes),
        None => none_comes(station),
    }
}

fn is_taken(alloc: Global, more: Option<&[u8]>, second: Option<&[usize]>) -> Option<bool> {
    let mut station = MemStation::new(alloc, plan(alloc, &[])?).ok()?;
    if let Some(bytes) = more {
        let _ = station.add_connection(bytes);
    }
    Some(come_in(&mut station, second))
}

#[test]
fn an_input_comes_in_the_planned_pieces(rt: HostRuntime) {
    assert!(rt; is_taken(rt.alloc(), None, None) == Some(true));
    assert!(rt; is_taken(rt.alloc(), Some(b"more"), Some(&[3, 1, 0])) == Some(true));
}

/// Three readings.
fn readings<S: Station>(station: &mut S) -> [u64; 3] {
    let first = station.now().seconds();
    let second = station.now().seconds();
    [first, second, station.now().seconds()]
}

/// Three readings of a clock with these moments.
fn with_moments(alloc: Global, moments: &[u64]) -> Option<[u64; 3]> {
    let mut station = MemStation::new(alloc, plan(alloc, &[])?).ok()?;
    for seconds in moments {
        if let Some(moment) = Moment::new(*seconds) {
            let _ = station.add_moment(moment);
        }
    }
    Some(readings(&mut station))
}

#[test]
fn a_clock_reads_the_planned_moments(rt: HostRuntime) {
    assert!(rt; with_moments(rt.alloc(), &[]) == Some([0, 0, 0]));
    assert!(rt; with_moments(rt.alloc(), &[7, 5]) == Some([7, 5, 5]));
    assert!(rt; with_moments(rt.alloc(), &[7, 5, 6, 8]) == Some([7, 5, 6]));
}
