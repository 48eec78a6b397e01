//! An exchange with its tokens, and a client of it.
ghost use Rattle.std.specs.Prelude.{◌≡◌, slice_get, Some, All, IfSome};
ghost use Rattle.smx_shared.specs.Views.{locks_of};
ghost use Rattle.smx_shared.specs.Making.{AreStarts};

use smx_history::{Answered, Kind, Limits};
use smx_lane::Lane;
use smx_lock::Spent;
use smx_pdu::command::{RESPONSE, SUBMIT_SM};
use smx_pdu::{Body, Pdu};
use smx_shared::{Door, EnterFault, Exchange, Offer, Port, Starts, SubmitFault, Tap};
use std::alloc::{AllocError, Global};
use std::process::Abort;
use std::sync::Wait;

pub const ROOMY: Limits = Limits {
    queue: 10,
    window: 10,
    client: 10,
    history: 1_000,
};

#[derive(Drop)]
pub struct Hall {
    pub exchange: Exchange,
    pub door: Door,
    pub taps: Vec<Tap>,
    ghost door_fits: { locks_of door.fronts ≡ exchange },
    ghost taps_fit: { All (λ t. slice_get exchange t.lane ≡ Some t.front.lock) taps.items },
}

impl Hall {
    pub fn new<R: Wait + Abort>(
        rt: &R,
        alloc: Global,
        limits: Limits,
        lanes: usize,
        starts: Starts,
    ) -> Hall
        requires { AreStarts starts }
    {
        match Exchange::new_at(rt, alloc, limits, lanes, starts) {
            Ok((exchange, door, taps)) => Hall {
                exchange,
                door,
                taps,
            },
            Err(unmade) => panic!(rt; "no exchange: {:?}", unmade.fault),
        }
    }

    pub fn roomy<R: Wait + Abort>(rt: &R, alloc: Global, lanes: usize) -> Hall {
        Hall::new(rt, alloc, ROOMY, lanes, Starts::FIRST)
    }
}

/// The lanes of an exchange that ends.
pub fn lanes_of(rt: &impl Abort, exchange: Exchange, door: Door) -> Vec<Lane>
    requires { locks_of door.fronts ≡ exchange }
{
    let lanes = exchange.finish(door).ok();
    lanes.expect(rt, "a lane is out")
}

pub fn last_tap(at: &Exchange, taps: &mut Vec<Tap>) -> Option<Tap>
    requires { All (λ t. slice_get at.now t.lane ≡ Some t.front.lock) taps.old.items }
    ensures taps { All (λ t. slice_get at.now t.lane ≡ Some t.front.lock) taps.new.items }
    ensures tap { IfSome result (λ t. slice_get at.now t.lane ≡ Some t.front.lock) }
{
    taps.pop()
}

/// How many entries are of the kind.
pub fn count_of(lane: &Lane, kind: Kind) -> usize {
    let mut count: usize = 0;
    for entry in lane.entries() {
        if entry.kind == kind {
            count = count.saturating_add(1);
        }
    }
    count
}

/// A port with its exchange.
#[derive(Drop)]
pub struct Client<'a> {
    pub at: &'a Exchange,
    pub port: Port,
    ghost fits: { locks_of port.fronts ≡ at.now },
}

impl Client<'_> {
    /// Submits a submit_sm under its own number.
    pub fn submit<R: Wait>(&mut self, rt: &R, own: u32, body: Body) -> Result<usize, SubmitFault> {
        let offer = Offer {
            own,
            command: SUBMIT_SM,
            body,
        };
        match self.port.submit(self.at, rt, offer) {
            Ok(lane) => Ok(lane),
            Err((_, fault)) => Err(fault),
        }
    }

    /// The oldest response on the lane. There is none on a lane that isn't.
    pub fn collect<R: Wait>(&mut self, rt: &R, lane: usize) -> Result<Option<Pdu>, Spent> {
        if lane >= self.port.lanes() {
            return Ok(None);
        }
        self.port.collect(self.at, rt, lane)
    }

    /// Whether it left with no lane spent.
    pub fn leave<R: Wait>(self, rt: &R) -> bool {
        let Client { at, port, .. } = self;
        port.leave(at, rt).is_ok()
    }
}

pub fn enter<'a, R: Wait>(
    rt: &R,
    at: &'a Exchange,
    door: &mut Door,
) -> Result<Client<'a>, EnterFault>
    requires { locks_of door.old.fronts ≡ at.now }
    ensures { locks_of door.new.fronts ≡ at.now }
{
    match door.enter(at, rt) {
        Ok(port) => Ok(Client { at, port }),
        Err((fault, _)) => Err(fault),
    }
}

/// A tap with its exchange.
#[derive(Drop)]
pub struct Line<'a> {
    pub at: &'a Exchange,
    pub tap: Tap,
    ghost fits: { slice_get at.now tap.lane ≡ Some tap.front.lock },
}

/// What becomes of a response: of one to no request its number is told.
#[derive(Clone, Copy, PartialEq, Eq)]
pub enum Brought {
    To(u64),
    Late,
    Unknown(u32),
    Spent,
}

fn outcome_of(answer: Result<Answered, (Pdu, Spent)>) -> Brought {
    match answer {
        Ok(Answered::Queued { client }) => Brought::To(client),
        Ok(Answered::Late { .. }) => Brought::Late,
        Ok(Answered::Unknown(pdu)) => Brought::Unknown(pdu.number),
        Err(_) => Brought::Spent,
    }
}

impl Line<'_> {
    pub fn bring<R: Wait>(&mut self, rt: &R, response: Pdu) -> Brought {
        outcome_of(self.tap.answer(self.at, rt, response))
    }

    /// Brings submit_sm_resp under this number upstream.
    pub fn answer<R: Wait>(&mut self, rt: &R, number: u32, body: Body) -> Brought {
        let response = Pdu {
            command: RESPONSE | SUBMIT_SM,
            status: 0,
            number,
            body,
        };
        self.bring(rt, response)
    }
}

/// The line of the last lane.
pub fn last_line<'a, R: Abort>(rt: &R, at: &'a Exchange, taps: Vec<Tap>) -> Line<'a>
    requires { All (λ t. slice_get at.now t.lane ≡ Some t.front.lock) taps.items }
{
    let mut taps = taps;
    let tap = last_tap(at, &mut taps).expect(rt, "there is a lane");
    Line { at, tap }
}

/// The lines of all lanes.
pub fn lines_of<'a>(
    alloc: Global,
    at: &'a Exchange,
    taps: Vec<Tap>,
) -> Result<Vec<Line<'a>>, AllocError>
    requires { All (λ t. slice_get at.now t.lane ≡ Some t.front.lock) taps.items }
{
    let mut lines = Vec::new(alloc);
    for tap in taps {
        lines.push(Line { at, tap })?;
    }
    Ok(lines)
}

/// Whether there is one lane, and its entries are of these kinds, in order.
pub fn is_of(lanes: &[Lane], kinds: &[Kind]) -> bool {
    let [lane] = lanes else {
        return false;
    };
    let mut rest = kinds;
    for entry in lane.entries() {
        match rest.split_first() {
            Some((kind, behind)) if entry.kind == *kind => rest = behind,
            _ => return false,
        }
    }
    rest.is_empty()
}

/// Names the step that doesn't hold.
pub fn hold(rt: &impl Abort, held: bool, case: usize, step: usize) {
    assert!(rt; held, "case {case}, step {step}");
}
