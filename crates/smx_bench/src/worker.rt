//! Turns of clients' workers and one towards the centre, over links in memory, on one thread.
ghost use Rattle.std.specs.Prelude.{◌≡◌};
ghost use Rattle.smx_shared.specs.Views.{locks_of};

mod carrier;
mod flood;
mod hall;
mod member;

use crate::figures::{NOT_MADE, no_memory, push, stopped};
use crate::lane;
use crate::seats::{Drawer, Seat, last_drawer, open, seat_at};
use carrier::{Carrier, session};
use flood::Flood;
use hall::{nanos_of_idle_turn, nanos_of_requests};
use member::Member;
use smx_client::Desk;
use smx_lane::Limits;
use smx_memory_link::{FlagGate, Nobody};
use smx_session::{Account, Rules};
use smx_shared::{Door, Exchange};
use smx_slots::{ClientEnds, LaneEnds, ends_of};
use std::alloc::{AllocError, Global};
use std::io;
use std::rt::Clock;
use std::sync::Wait;
use std::sync::atomic::{AtomicBool, AtomicU64};

/// How many entries a lane's history may have.
const HISTORY: u32 = 100_000;

const LIMITS: Limits = Limits {
    queue: 1_024,
    window: 1_000,
    client: 16,
    history: HISTORY,
};

/// How many requests are answered in a case, over all clients.
const REQUESTS: u64 = 640_000;

/// Prints with 1 and with 64 clients the nanoseconds of the lane's own round; and then those of a
/// request and its response through a client's worker and the one towards the centre, with what the
/// peers in memory do, and of a turn of each worker that does nothing.
pub(crate) fn run<R: Wait + Print + Clock>(rt: &R, alloc: Global) -> io::Result<()> {
    lane::measure(rt, alloc, 1, 1_000)?;
    lane::measure(rt, alloc, 64, 1_000)?;
    match desk(alloc) {
        Ok(desk) => measure_all(rt, alloc, &desk),
        Err(_) => Err(no_memory()),
    }
}

// Who may bind: one account without a prefix.
fn desk(alloc: Global) -> Result<Desk, AllocError> {
    let mut accounts = Vec::new(alloc);
    let mut prefixes = Vec::new(alloc);
    accounts.push(Account {
        system_id: Vec::from_slice(alloc, b"a")?,
        password: Vec::from_slice(alloc, b"p")?,
        rules: Rules::none(),
    })?;
    prefixes.push(Vec::new(alloc))?;
    Ok(Desk { accounts, prefixes })
}

fn measure_all<R: Wait + Print + Clock>(rt: &R, alloc: Global, desk: &Desk) -> io::Result<()> {
    for &clients in &[1, 64] {
        measure(rt, alloc, desk, clients)?;
    }
    Ok(())
}

// Makes the lane of a case, and prints its figures.
fn measure<R: Wait + Print + Clock>(
    rt: &R,
    alloc: Global,
    desk: &Desk,
    clients: usize,
) -> io::Result<()> {
    let (exchange, mut door, taps) = open(rt, alloc, LIMITS, 1)?;
    let drawer = last_drawer(&exchange, taps)?;
    measure_at(rt, alloc, desk, &exchange, &mut door, drawer, clients)
}

// Makes the worker towards the centre and the ends of all boxes.
fn measure_at<R: Wait + Print + Clock>(
    rt: &R,
    alloc: Global,
    desk: &Desk,
    at: &Exchange,
    door: &mut Door,
    drawer: Drawer,
    clients: usize,
) -> io::Result<()>
    requires { locks_of door.old.fronts ≡ at.now }
{
    match ends_of(rt, alloc, clients, 1, 4) {
        Ok((ends, lanes)) => {
            let carrier = carrier_of(alloc, drawer, lanes);
            measure_beside(rt, alloc, desk, at, door, ends, carrier)
        }
        Err(_) => Err(no_memory()),
    }
}

fn measure_beside<R: Wait + Print + Clock>(
    rt: &R,
    alloc: Global,
    desk: &Desk,
    at: &Exchange,
    door: &mut Door,
    ends: Vec<ClientEnds>,
    carrier: io::Result<Carrier>,
) -> io::Result<()>
    requires { locks_of door.old.fronts ≡ at.now }
{
    match carrier {
        Ok(mut carrier) => measure_workers(rt, alloc, desk, at, door, ends, &mut carrier),
        Err(stopped) => Err(stopped),
    }
}

// The worker that has the ends of the last lane.
fn carrier_of<'a>(
    alloc: Global,
    drawer: Drawer<'a>,
    lanes: Vec<LaneEnds>,
) -> io::Result<Carrier<'a>> {
    let mut lanes = lanes;
    match (session(alloc), lanes.pop()) {
        (Ok(session), Some(ends)) => {
            Carrier::new(alloc, drawer, session, ends, HISTORY as usize)
        }
        (Err(_), _) => Err(no_memory()),
        (_, None) => Err(stopped(NOT_MADE)),
    }
}

// Makes the clients' workers.
fn measure_workers<R: Wait + Print + Clock>(
    rt: &R,
    alloc: Global,
    desk: &Desk,
    at: &Exchange,
    door: &mut Door,
    ends: Vec<ClientEnds>,
    carrier: &mut Carrier,
) -> io::Result<()>
    requires { locks_of door.old.fronts ≡ at.now }
{
    let answered = AtomicU64::new(0);
    let open = AtomicBool::new(true);
    let mut members = make_members(rt, alloc, desk, at, door, ends, &answered)?;
    print_figures(
        rt,
        &mut members,
        carrier,
        &mut FlagGate::new(&open),
        &mut Nobody::new(),
        &answered,
    )
}

fn print_figures<R: Wait + Print + Clock>(
    rt: &R,
    members: &mut [Member],
    carrier: &mut Carrier,
    gate: &mut FlagGate,
    nobody: &mut Nobody,
    answered: &AtomicU64,
) -> io::Result<()> {
    let nanos = nanos_of_requests(rt, members, carrier, gate, nobody, answered, REQUESTS)?;
    let request = nanos / REQUESTS;
    let clients = members.len();
    let Some(first) = members.first_mut() else {
        return Err(stopped(NOT_MADE));
    };
    let client = nanos_of_idle_turn(first, rt, gate, nobody)?;
    let centre = nanos_of_idle_turn(carrier, rt, gate, nobody)?;
    println!(rt; "{clients} clients: {request} ns a request through both workers")?;
    println!(rt; "a turn that does nothing: client {client} ns, centre {centre} ns")
}

// A worker for each of these ends, whose clients together submit the requests of a case.
fn make_members<'a, R: Wait>(
    rt: &R,
    alloc: Global,
    desk: &'a Desk,
    at: &'a Exchange,
    door: &mut Door,
    ends: Vec<ClientEnds>,
    answered: &'a AtomicU64,
) -> io::Result<Vec<Member<'a>>>
    requires { locks_of door.old.fronts ≡ at.now }
{
    let each = REQUESTS / (ends.len() as u64).max(1);
    let mut members = Vec::new(alloc);
    for ends in ends {
        let seat = seat_at(rt, at, door)?;
        let member = make_member(alloc, seat, desk, ends, answered, each)?;
        push(&mut members, member)?;
    }
    Ok(members)
}

fn make_member<'a>(
    alloc: Global,
    seat: Seat<'a>,
    desk: &'a Desk,
    ends: ClientEnds,
    answered: &'a AtomicU64,
    each: u64,
) -> io::Result<Member<'a>> {
    match Flood::new(alloc, answered, each) {
        Ok(flood) => Member::new(alloc, seat, desk, ends, flood),
        Err(_) => Err(no_memory()),
    }
}
