//! Ports and taps, each beside the exchange that it came from.
ghost use Rattle.std.specs.Prelude.{◌≡◌, slice_get, Some, All, IfOk};
ghost use Rattle.smx_shared.specs.Views.{locks_of};

use crate::figures::{NOT_MADE, stopped};
use smx_lane::{Answered, Limits};
use smx_lock::Spent;
use smx_pdu::command::{RESPONSE, SUBMIT_SM};
use smx_pdu::{Body, Pdu};
use smx_shared::{Door, Exchange, Offer, Port, TakeFault, Tap};
use std::alloc::Global;
use std::io;
use std::sync::Wait;

/// A client that has entered.
#[derive(Drop)]
pub(crate) struct Seat<'a> {
    pub at: &'a Exchange,
    pub port: Port,
    ghost fits: { locks_of port.fronts ≡ at.now },
}

/// A lane's tap.
#[derive(Drop)]
pub(crate) struct Drawer<'a> {
    pub at: &'a Exchange,
    pub tap: Tap,
    ghost fits: { slice_get at.now tap.lane ≡ Some tap.front.lock },
}

/// Empty lanes with their door and taps.
pub(crate) fn open<R: Wait>(
    rt: &R,
    alloc: Global,
    limits: Limits,
    lanes: usize,
) -> io::Result<(Exchange, Door, Vec<Tap>)>
    ensures door { IfOk result (λ made. locks_of made.1.fronts ≡ made.0) }
    ensures taps { IfOk result (λ made.
        All (λ t. slice_get made.0 t.lane ≡ Some t.front.lock) made.2.items) }
{
    match Exchange::new(rt, alloc, limits, lanes) {
        Ok(made) => Ok(made),
        Err(unmade) => Err(stopped(unmade.fault)),
    }
}

/// The next client.
pub(crate) fn seat_at<'a, R: Wait>(
    rt: &R,
    at: &'a Exchange,
    door: &mut Door,
) -> io::Result<Seat<'a>>
    requires { locks_of door.old.fronts ≡ at.now }
    ensures at { IfOk result (λ seat. seat.at.now ≡ at.now) }
    ensures door { locks_of door.new.fronts ≡ at.now }
{
    match door.enter(at, rt) {
        Ok(port) => Ok(Seat { at, port }),
        Err((fault, _)) => Err(stopped(fault)),
    }
}

/// The tap of the last lane.
pub(crate) fn last_drawer<'a>(at: &'a Exchange, taps: Vec<Tap>) -> io::Result<Drawer<'a>>
    requires { All (λ t. slice_get at.now t.lane ≡ Some t.front.lock) taps.items }
{
    let mut taps = taps;
    match taps.pop() {
        Some(tap) => Ok(Drawer { at, tap }),
        None => Err(stopped(NOT_MADE)),
    }
}

impl Seat<'_> {
    /// Submits a submit_sm without a body, and tells whether a lane accepted it.
    pub(crate) fn submit<R: Wait>(&mut self, rt: &R, alloc: Global) -> bool {
        let offer = Offer {
            own: 7,
            command: SUBMIT_SM,
            body: Body::empty(alloc),
        };
        self.port.submit(self.at, rt, offer).is_ok()
    }

    /// Whether there was a response on the lane whose turn it is.
    pub(crate) fn collect<R: Wait>(&mut self, rt: &R, turn: usize) -> Result<bool, Spent> {
        let lanes = self.port.lanes();
        if lanes == 0 {
            return Ok(false);
        }
        match self.port.collect(self.at, rt, turn % lanes) {
            Ok(response) => Ok(response.is_some()),
            Err(spent) => Err(spent),
        }
    }
}

impl Drawer<'_> {
    /// Takes a request and answers it, and tells whether the response was queued.
    pub(crate) fn serve<R: Wait>(&mut self, rt: &R) -> Result<bool, TakeFault> {
        match self.tap.take(self.at, rt, 0) {
            Ok(sent) => Ok(self.answer(rt, sent.upstream, sent.request.body)),
            Err(fault) => Err(fault),
        }
    }

    // Answers the request with this number, and tells whether the response was queued.
    fn answer<R: Wait>(&mut self, rt: &R, number: u32, body: Body) -> bool {
        let response = Pdu {
            command: RESPONSE | SUBMIT_SM,
            status: 0,
            number,
            body,
        };
        let answered = self.tap.answer(self.at, rt, response);
        matches!(answered, Ok(Answered::Queued { .. }))
    }

    /// Turns the lane over where it has so many notes of the tap, and tells whether it had.
    pub(crate) fn turn_over<R: Wait>(&mut self, rt: &R, least: usize) -> bool {
        matches!(self.tap.turn_over(self.at, rt, least), Ok(Some(_)))
    }
}
