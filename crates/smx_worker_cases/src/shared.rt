//! Doors, ports and taps: calls as rows, each with its answer.
ghost use Rattle.std.specs.Prelude.{◌≡◌};
ghost use Rattle.smx_shared.specs.Views.{locks_of};
ghost use Rattle.smx_shared.specs.Making.{AreStarts};

use crate::hall::{Brought, Client, Hall, Line, enter, hold, lanes_of, lines_of};
use smx_history::{Failed, Limits};
use smx_lane::{Entry, Lane, Load, Sent};
use smx_lock::{Spent, TryFault};
use smx_pdu::{Body, Pdu};
use smx_shared::{
    Door, DownFault, EnterFault, Exchange, ExpiryFault, FailFault, Starts, SubmitFault, TakeFault,
    TryTakeFault, TurnFault, UpFault,
};
use std::alloc::Global;
use std::process::Abort;
use std::sync::Wait;

mod comparing;
mod full;
mod lists;
mod loads;
mod making;
mod scenes;
mod threads;
mod turning;

const LAST: u64 = 1 << 62;

// A call with what it answers: of the client at this place, or of the tap of this lane.
#[derive(Clone, Copy)]
enum Step {
    // One client more enters, or a fault keeps it out.
    Enters(Option<EnterFault>),
    Asks(usize, Ask),
    Serves(usize, Serve),
    // The client leaves, with no lane spent or with one, and those behind it move up.
    Leaves(usize, bool),
    // So much is on the lane.
    Weighs(usize, Load),
}

// A response is told by its status and its number.
#[derive(Clone, Copy)]
enum Ask {
    Submit(u32, Result<usize, SubmitFault>),
    Collect(usize, Result<Option<(u32, u32)>, Spent>),
    TryCollect(Result<Option<(u32, u32)>, TryFault>),
}

// What is taken is told by its client and its number upstream, and what a turn over hands out by how
// many entries there are.
#[derive(Clone, Copy)]
enum Serve {
    Take(u64, Result<(u64, u32), TakeFault>),
    TryTake(Result<(u64, u32), TryTakeFault>),
    Answer(u32, Brought),
    Expire(u64, u64, Result<Failed, ExpiryFault>),
    Down(Result<(), DownFault>),
    Fail(Result<Failed, FailFault>),
    Up(Result<(), UpFault>),
    // Where so many entries are wanted.
    TurnOver(usize, Result<Option<usize>, TurnFault>),
}

fn told<E>(found: Result<Option<Pdu>, E>) -> Result<Option<(u32, u32)>, E> {
    match found {
        Ok(Some(pdu)) => Ok(Some((pdu.status, pdu.number))),
        Ok(None) => Ok(None),
        Err(fault) => Err(fault),
    }
}

fn taken<E>(found: Result<Sent, E>) -> Result<(u64, u32), E> {
    match found {
        Ok(sent) => Ok((sent.request.client, sent.upstream)),
        Err(fault) => Err(fault),
    }
}

fn handed(
    rt: &impl Abort,
    found: Result<Option<Vec<Entry>>, TurnFault>,
) -> Result<Option<usize>, TurnFault> {
    match found {
        Ok(Some(entries)) => Ok(Some(entries.len())),
        Ok(None) => Ok(None),
        Err(TurnFault::NoMemory) => panic!(rt; "out of memory"),
        Err(fault) => Err(fault),
    }
}

impl Client<'_> {
    fn holds<R: Wait>(&mut self, rt: &R, alloc: Global, ask: Ask) -> bool {
        match ask {
            Ask::Submit(own, want) => self.submit(rt, own, Body::empty(alloc)) == want,
            Ask::Collect(lane, want) => told(self.collect(rt, lane)) == want,
            Ask::TryCollect(want) => told(self.try_collect()) == want,
        }
    }

    fn try_collect(&mut self) -> Result<Option<Pdu>, TryFault> {
        if self.port.lanes() == 0 {
            return Ok(None);
        }
        self.port.try_collect(self.at, 0)
    }
}

impl Line<'_> {
    fn holds<R: Wait + Abort>(&mut self, rt: &R, alloc: Global, serve: Serve) -> bool {
        match serve {
            Serve::Take(now, want) => taken(self.tap.take(self.at, rt, now)) == want,
            Serve::TryTake(want) => taken(self.tap.try_take(self.at, 0)) == want,
            Serve::Answer(number, want) => self.answer(rt, number, Body::empty(alloc)) == want,
            Serve::Expire(now, age, want) => {
                self.tap.fail_expired(self.at, rt, now, age) == want
            }
            Serve::Down(want) => self.tap.down(self.at, rt) == want,
            Serve::Fail(want) => self.tap.fail(self.at, rt) == want,
            Serve::Up(want) => self.tap.up(self.at, rt) == want,
            Serve::TurnOver(wanted, want) => {
                handed(rt, self.tap.turn_over(self.at, rt, wanted)) == want
            }
        }
    }
}

// The clients that entered, and the lines of the lanes.
#[derive(Drop)]
struct Room<'a> {
    clients: Vec<Client<'a>>,
    lines: Vec<Line<'a>>,
}

impl<'a> Room<'a> {
    fn holds<R: Wait + Abort>(
        &mut self,
        rt: &R,
        alloc: Global,
        at: &'a Exchange,
        door: &mut Door,
        step: Step,
    ) -> bool
        requires { locks_of door.old.fronts ≡ at.now }
        ensures { locks_of door.new.fronts ≡ at.now }
    {
        match step {
            Step::Enters(want) => self.enters(rt, at, door) == want,
            Step::Asks(place, ask) => match self.clients.get_mut(place) {
                Some(client) => client.holds(rt, alloc, ask),
                None => false,
            },
            Step::Serves(lane, serve) => match self.lines.get_mut(lane) {
                Some(line) => line.holds(rt, alloc, serve),
                None => false,
            },
            Step::Weighs(lane, want) => {
                lane < door.lanes() && door.load(at, rt, lane) == Ok(want)
            }
            Step::Leaves(place, want) => {
                place < self.clients.len() && self.clients.remove(place).leave(rt) == want
            }
        }
    }

    // Why no client more enters.
    fn enters<R: Wait + Abort>(
        &mut self,
        rt: &R,
        at: &'a Exchange,
        door: &mut Door,
    ) -> Option<EnterFault>
        requires { locks_of door.old.fronts ≡ at.now }
        ensures { locks_of door.new.fronts ≡ at.now }
    {
        match enter(rt, at, door) {
            Ok(client) => {
                self.clients.push(client).expect(rt, "out of memory");
                None
            }
            Err(EnterFault::NoMemory) => panic!(rt; "out of memory"),
            Err(fault) => Some(fault),
        }
    }
}

fn play<'a, R: Wait + Abort>(
    rt: &R,
    alloc: Global,
    at: &'a Exchange,
    door: &mut Door,
    room: &mut Room<'a>,
    steps: &[Step],
)
    requires { locks_of door.old.fronts ≡ at.now }
    ensures { locks_of door.new.fronts ≡ at.now }
{
    for place in 0..steps.len() {
        let held = room.holds(rt, alloc, at, door, steps[place]);
        hold(rt, held, 0, place);
    }
}

// The lanes of an exchange of so many lanes after these steps.
fn lanes_after<R: Wait + Abort>(
    rt: &R,
    alloc: Global,
    limits: Limits,
    lanes: usize,
    starts: Starts,
    steps: &[Step],
) -> Vec<Lane>
    requires { AreStarts starts }
{
    let Hall {
        exchange,
        mut door,
        taps,
    } = Hall::new(rt, alloc, limits, lanes, starts);
    let mut room = Room {
        clients: Vec::new(alloc),
        lines: lines_of(alloc, &exchange, taps).expect(rt, "out of memory"),
    };
    play(rt, alloc, &exchange, &mut door, &mut room, steps);
    drop(room);
    lanes_of(rt, exchange, door)
}
