//! The token that takes from one lane.
ghost use Rattle.std.specs.Prelude.{◌≡◌, ◌++◌, ◌≤◌, [], length, vec_capacity, slice_get, Some};
ghost use Rattle.smx_shared.specs.Taps.{known_of, known_by_take, known_by_takes, known_by_answer, known_by_answers};
ghost use Rattle.smx_shared.specs.Batches.{TakesAll, BringsAll};
ghost use Rattle.smx_shared.specs.Serving.{Turns, Takes, TriesTake, Brings};

use crate::batch::Takings;
use crate::exchange::Exchange;
use crate::fault::{TakeFault, TryTakeFault, TurnFault};
use crate::lane_call::{Answering, Taking, TurningOver};
use crate::lane_seat::LaneSeat;
use crate::spare::SpareList;
use smx_history::{Answered, Entry};
use smx_lane::{Sent, Settled};
use smx_lock::{Spent, TryFault};
use smx_pdu::Pdu;
use std::alloc::AllocError;
use std::marker::Model;
use std::sync::Wait;

mod expiry;
mod links;

/// The right to take from one lane and to bring its answers. It is used with the exchange that
/// made it.
#[derive(Drop)]
pub struct Tap {
    lane: usize,
    pub(crate) seat: LaneSeat,
}

impl Model for Tap {
    ghost use Rattle.smx_shared.specs.Views.{TapView};

    ghost Value = { TapView };

    ghost view = { λ t. record { lane = t.lane; front = t.seat } };
}

impl Tap {
    pub(crate) fn new(lane: usize, seat: LaneSeat) -> Tap
        ensures { result ≡ record { lane = lane; front = seat } }
    {
        Tap { lane, seat }
    }

    /// The number of its lane, from 0.
    pub fn lane(&self) -> usize
        ensures { result ≡ self.now.lane }
    {
        self.lane
    }

    /// Takes the lane's oldest request, which is to go upstream under the number given. The moment
    /// is in milliseconds, from any start; one below that of the lane's last take counts as that. It
    /// may wait.
    #[inline(always)]
    pub fn take<R: Wait>(&mut self, at: &Exchange, rt: &R, now: u64) -> Result<Sent, TakeFault>
        requires { slice_get at.now self.old.lane ≡ Some self.old.front.lock }
        ensures same { (self.new.lane ≡ self.old.lane)
            × (self.new.front.lock ≡ self.old.front.lock) }
        ensures served { Takes self.old.front self.new.front now result }
        ensures known { known_of self.new.front.mine
            ≡ known_of self.old.front.mine ++ known_by_take result }
    {
        match self.seat.hold(rt, &at.locks[self.lane], Taking { now }) {
            Ok(Ok(sent)) => Ok(sent),
            Ok(Err(refusal)) => Err(TakeFault::Refused(refusal)),
            Err(_) => Err(TakeFault::Spent),
        }
    }

    /// Takes what is queued, the oldest first: at most 16 requests, and at most 65,536 octets of PDUs,
    /// in one hold. The moment is as in `take`. It may wait. The list is made in `room`, which is empty
    /// and has 16 places; it takes no memory.
    #[inline(always)]
    pub fn take_all<R: Wait>(
        &mut self,
        at: &Exchange,
        rt: &R,
        now: u64,
        room: Vec<Sent>,
    ) -> Result<Takings, Spent>
        requires lock { slice_get at.now self.old.lane ≡ Some self.old.front.lock }
        requires room { (room.items ≡ []) × (16 ≤ vec_capacity room) }
        ensures same { (self.new.lane ≡ self.old.lane)
            × (self.new.front.lock ≡ self.old.front.lock) }
        ensures served { TakesAll self.old.front self.new.front now result }
        ensures known { known_of self.new.front.mine
            ≡ known_of self.old.front.mine ++ known_by_takes result }
    {
        match self.seat.take_all(rt, &at.locks[self.lane], now, room) {
            Ok(taken) => Ok(taken),
            Err(spent) => Err(spent),
        }
    }

    /// `take` without waiting: `Busy` where another caller has the lane.
    pub fn try_take(&mut self, at: &Exchange, now: u64) -> Result<Sent, TryTakeFault>
        requires { slice_get at.now self.old.lane ≡ Some self.old.front.lock }
        ensures same { (self.new.lane ≡ self.old.lane)
            × (self.new.front.lock ≡ self.old.front.lock) }
        ensures served { TriesTake self.old.front self.new.front now result }
        ensures known { known_of self.new.front.mine
            ≡ known_of self.old.front.mine ++ known_by_take result }
    {
        match self.seat.try_hold(&at.locks[self.lane], Taking { now }) {
            Ok(Ok(sent)) => Ok(sent),
            Ok(Err(refusal)) => Err(TryTakeFault::Refused(refusal)),
            Err((_, TryFault::Spent)) => Err(TryTakeFault::Spent),
            Err((_, TryFault::Busy)) => Err(TryTakeFault::Busy),
        }
    }

    /// Hands out what all callers of the lane noted since its last shift, where that is `least`
    /// entries or more; else it answers `None`, and nothing changed. The lane then goes on with no
    /// entries. Doors and ports turn a lane over whose history is full, and let go what it has
    /// stored: whoever wants each entry calls this often enough. The lane's requests, its window,
    /// its responses and its clients stay.
    ///
    /// It takes memory for one new list, of as many places as the limits' `history`; the old list is
    /// handed out by move. It may wait.
    pub fn turn_over<R: Wait>(
        &mut self,
        at: &Exchange,
        rt: &R,
        least: usize,
    ) -> Result<Option<Vec<Entry>>, TurnFault>
        requires { slice_get at.now self.old.lane ≡ Some self.old.front.lock }
        ensures same { (self.new.lane ≡ self.old.lane)
            × (self.new.front.lock ≡ self.old.front.lock) }
        ensures served { Turns (λ es. es.items) self.old.front self.new.front least result }
        ensures known { known_of self.new.front.mine ≡ known_of self.old.front.mine }
    {
        match self
            .seat
            .hold(rt, &at.locks[self.lane], TurningOver { least })
        {
            Ok(Ok(entries)) => Ok(entries),
            Ok(Err(AllocError)) => Err(TurnFault::NoMemory),
            Err(_) => Err(TurnFault::Spent),
        }
    }

    /// Brings a response from upstream to its client. It may wait.
    pub fn answer<R: Wait>(
        &mut self,
        at: &Exchange,
        rt: &R,
        response: Pdu,
    ) -> Result<Answered, (Pdu, Spent)>
        requires { slice_get at.now self.old.lane ≡ Some self.old.front.lock }
        ensures same { (self.new.lane ≡ self.old.lane)
            × (self.new.front.lock ≡ self.old.front.lock) }
        ensures served { Brings self.old.front self.new.front response result }
        ensures known { known_of self.new.front.mine
            ≡ known_of self.old.front.mine ++ known_by_answer response result }
    {
        match self
            .seat
            .hold(rt, &at.locks[self.lane], Answering { response })
        {
            Ok(answered) => Ok(answered),
            Err((made, spent)) => Err((made.response, spent)),
        }
    }

    /// Brings responses from upstream to their clients, in one hold, and tells what became of each, in
    /// their order; their list, empty, is kept in `spare`. It may wait. The list is made in `room`, which is
    /// empty and has a place for each; it takes no memory.
    #[inline(always)]
    pub fn answer_all<R: Wait>(
        &mut self,
        at: &Exchange,
        rt: &R,
        responses: Vec<Pdu>,
        room: Vec<Settled>,
        spare: &mut SpareList<Pdu>,
    ) -> Result<Vec<Settled>, (Vec<Pdu>, Spent)>
        requires lock { slice_get at.now self.old.lane ≡ Some self.old.front.lock }
        requires room { (room.items ≡ []) × (length responses.items ≤ vec_capacity room) }
        ensures same { (self.new.lane ≡ self.old.lane)
            × (self.new.front.lock ≡ self.old.front.lock) }
        ensures served { BringsAll self.old.front self.new.front responses.items result }
        ensures known { known_of self.new.front.mine
            ≡ known_of self.old.front.mine ++ known_by_answers responses.items result }
    {
        match self
            .seat
            .answer_all(rt, &at.locks[self.lane], responses, room, spare)
        {
            Ok(settled) => Ok(settled),
            Err((responses, spent)) => Err((responses, spent)),
        }
    }
}
