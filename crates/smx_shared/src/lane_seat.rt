//! A seat on one lane. Each call of the lane is made in one hold of its lock.
ghost use Rattle.std.specs.Prelude.{◌≡◌, ◌≤◌, ◌<◌, ◌^◌, ◌+◌, [], length, vec_capacity, MatchResult};
ghost use Rattle.smx_lane.specs.declared.call.Call.TheVariants as call;
ghost use Rattle.smx_lock.specs.Fronts.{IsSpent, Refused};
ghost use Rattle.smx_shared.specs.Batches.{CollectsServe, TakesServe, BringsAll};
ghost use Rattle.smx_shared.specs.Serving.{CallServes, LoadServes, SplitServes, SplitFails, Waited};
ghost use Rattle.smx_shared.specs.Steps.{MayCall, MaySubmit, ServesList};

use crate::accepting::{AcceptingAll, Landings};
use crate::batch::{Collected, Landing, Takings};
use crate::batching::{BringingAll, Brought, CollectingAll, TakingAll};
use crate::lane_call::{Calling, LaneCall, Weighing};
use crate::offer::Offer;
use crate::spare::SpareList;
use smx_history::Response;
use smx_lane::{Lane, Load, Sent, Settled};
use smx_lock::{SeatInPlace, Spent, TicketLock, TryFault};
use smx_pdu::Pdu;
use std::marker::Model;
use std::sync::Wait;

/// A seat on one lane. Contracts see its front. It can't be named outside the crate.
#[derive(Drop)]
pub struct LaneSeat {
    pub(crate) seat: SeatInPlace<Lane>,
}

impl Model for LaneSeat {
    ghost use Rattle.smx_lock.specs.Fronts.{Front};
    ghost use Rattle.smx_history.specs.declared.limits.Limits.{Limits};
    ghost use Rattle.smx_history.specs.declared.note.Note.{Note};

    ghost Value = { Front Note Limits };

    ghost view = { λ t. t.seat };
}

impl LaneSeat {
    // Makes the call in one hold, for which it may wait.
    #[inline(always)]
    pub(crate) fn hold<R: Wait, C: LaneCall>(
        &mut self,
        rt: &R,
        lock: &TicketLock<Lane>,
        made: C,
    ) -> Result<C::Answer, (C, Spent)>
        requires lock { self.old.lock ≡ lock.now }
        requires may { MayCall self.old (C.call made) }
        ensures lock { self.new.lock ≡ self.old.lock }
        ensures served { MatchResult result
            (λ answer. CallServes self.old self.new (C.call made self.old.number) (C.reply answer))
            (λ e. (e.0 ≡ made) × IsSpent self.old self.new) }
    {
        match self.seat.hold(rt, lock, Calling { made }) {
            Ok(answer) => Ok(answer),
            Err((calling, spent)) => Err((calling.made, spent)),
        }
    }

    // The same without waiting.
    pub(crate) fn try_hold<C: LaneCall>(
        &mut self,
        lock: &TicketLock<Lane>,
        made: C,
    ) -> Result<C::Answer, (C, TryFault)>
        requires lock { self.old.lock ≡ lock.now }
        requires may { MayCall self.old (C.call made) }
        ensures lock { self.new.lock ≡ self.old.lock }
        ensures served { MatchResult result
            (λ answer. CallServes self.old self.new (C.call made self.old.number) (C.reply answer))
            (λ e. (e.0 ≡ made) × Refused self.old self.new e.1) }
    {
        match self.seat.try_hold(lock, Calling { made }) {
            Ok(answer) => Ok(answer),
            Err((calling, fault)) => Err((calling.made, fault)),
        }
    }

    // Collects what waits for a client, in one hold, for which it may wait.
    #[inline(always)]
    pub(crate) fn collect_all<R: Wait>(
        &mut self,
        rt: &R,
        lock: &TicketLock<Lane>,
        client: u64,
        room: Vec<Response>,
    ) -> Result<Collected, Spent>
        requires lock { self.old.lock ≡ lock.now }
        requires room { (room.items ≡ []) × (16 ≤ vec_capacity room) }
        requires may { MayCall self.old (λ by. call.Collect by client) }
        ensures lock { self.new.lock ≡ self.old.lock }
        ensures served { Waited (CollectsServe self.old self.new client) self.old self.new result }
    {
        match self.seat.hold(rt, lock, CollectingAll { client, room }) {
            Ok(collected) => Ok(collected),
            Err((_, spent)) => Err(spent),
        }
    }

    // Takes what is queued, in one hold, for which it may wait.
    #[inline(always)]
    pub(crate) fn take_all<R: Wait>(
        &mut self,
        rt: &R,
        lock: &TicketLock<Lane>,
        now: u64,
        room: Vec<Sent>,
    ) -> Result<Takings, Spent>
        requires lock { self.old.lock ≡ lock.now }
        requires room { (room.items ≡ []) × (16 ≤ vec_capacity room) }
        ensures lock { self.new.lock ≡ self.old.lock }
        ensures served { Waited (TakesServe self.old self.new now) self.old self.new result }
    {
        match self.seat.hold(rt, lock, TakingAll { now, room }) {
            Ok(taken) => Ok(taken),
            Err((_, spent)) => Err(spent),
        }
    }

    // Brings responses, in one hold, for which it may wait.
    #[inline(always)]
    pub(crate) fn answer_all<R: Wait>(
        &mut self,
        rt: &R,
        lock: &TicketLock<Lane>,
        responses: Vec<Pdu>,
        room: Vec<Settled>,
        spare: &mut SpareList<Pdu>,
    ) -> Result<Vec<Settled>, (Vec<Pdu>, Spent)>
        requires lock { self.old.lock ≡ lock.now }
        requires room { (room.items ≡ []) × (length responses.items ≤ vec_capacity room) }
        ensures lock { self.new.lock ≡ self.old.lock }
        ensures served { BringsAll self.old self.new responses.items result }
    {
        match self.seat.hold(rt, lock, BringingAll { responses, room }) {
            Ok(Brought { settled, responses }) => {
                spare.keep(responses);
                Ok(settled)
            }
            Err((section, spent)) => Err((section.responses, spent)),
        }
    }

    // Submits a client's list, in one hold, for which it may wait.
    #[inline(always)]
    pub(crate) fn submit_all<R: Wait>(
        &mut self,
        rt: &R,
        lock: &TicketLock<Lane>,
        client: u64,
        first: u64,
        offers: Vec<Offer>,
        room: Vec<Landing>,
    ) -> Result<Landings, (Vec<Offer>, Spent)>
        requires lock { self.old.lock ≡ lock.now }
        requires may { MaySubmit self.old client first }
        requires first { (0 < first) × (first ≤ 2 ^ 62 + 1) }
        requires room { (room.items ≡ []) × (length offers.items ≤ vec_capacity room) }
        ensures lock { self.new.lock ≡ self.old.lock }
        ensures served { ServesList self.old self.new client first offers.items result }
    {
        let section = AcceptingAll {
            client,
            first,
            offers,
            room,
        };
        match self.seat.hold(rt, lock, section) {
            Ok(landings) => Ok(landings),
            Err((section, spent)) => Err((section.offers, spent)),
        }
    }

    // How much the lane holds, in one hold, for which it may wait.
    pub(crate) fn load<R: Wait>(&mut self, rt: &R, lock: &TicketLock<Lane>) -> Result<Load, Spent>
        requires lock { self.old.lock ≡ lock.now }
        ensures lock { self.new.lock ≡ self.old.lock }
        ensures served { Waited (LoadServes self.old self.new) self.old self.new result }
    {
        match self.seat.hold(rt, lock, Weighing) {
            Ok(load) => Ok(load),
            Err((_, spent)) => Err(spent),
        }
    }

    // A new seat, which has seen what this one finds.
    pub(crate) fn split<R: Wait>(
        &mut self,
        rt: &R,
        lock: &TicketLock<Lane>,
    ) -> Result<LaneSeat, Spent>
        requires lock { self.old.lock ≡ lock.now }
        ensures lock { self.new.lock ≡ self.old.lock }
        ensures served { MatchResult result (λ s. SplitServes self.old self.new s)
            (λ _. SplitFails self.old self.new) }
    {
        match self.seat.split(rt, lock) {
            Ok(seat) => Ok(LaneSeat { seat }),
            Err(spent) => Err(spent),
        }
    }
}
