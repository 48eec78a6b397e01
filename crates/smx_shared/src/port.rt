//! The token of a client, with a seat on each lane.
ghost use Rattle.std.specs.Prelude.{◌≡◌, ◌+◌, true, false, List, [], ◌++◌, ◌<◌, ◌≤◌, ◌^◌, length, vec_capacity, IfOk, IfErr, OnOk, OnErr};
ghost use Rattle.smx_shared.specs.Views.{locks_of};
ghost use Rattle.smx_shared.specs.Landings.{SubmitsAll, accepted_all};
ghost use Rattle.smx_shared.specs.Offers.{Accepted, accepted_by};
ghost use Rattle.smx_shared.specs.Steps.{HaveAdmitted};
ghost use Rattle.smx_shared.specs.Ports.{IsPort, HasAccepted};
ghost use Rattle.smx_shared.specs.Leaving.{HasLeft};
ghost use Rattle.smx_shared.specs.Collecting.{Collects, CollectsAll, TriesCollect};
ghost use Rattle.smx_shared.specs.Submits.{Submitted, Refuses};

use crate::accepting::Landings;
use crate::batch::{Collected, Landing};
use crate::departed::Departed;
use crate::exchange::Exchange;
use crate::fault::SubmitFault;
use crate::lane_call::Collecting;
use crate::lane_seat::LaneSeat;
use crate::naming::{named, unnamed};
use crate::offer::Offer;
use crate::retire::retire_all;
use crate::spare::SpareList;
use crate::submit::try_ring;
use smx_history::Response;
use smx_lock::{Spent, TryFault};
use smx_pdu::Pdu;
use smx_ticket_core::MOST;
use std::marker::Model;
use std::sync::Wait;

/// One client's right to submit, to collect and to leave. It is used with the exchange that made
/// it. A port that is dropped leaves its client admitted.
#[derive(Drop)]
pub struct Port {
    client: u64,
    first: u64,
    next: u64,
    pub(crate) seats: Vec<LaneSeat>,
}

impl Model for Port {
    ghost use Rattle.smx_shared.specs.Views.{PortView};
    ghost use Rattle.smx_shared.specs.Ports.{IsPort};

    ghost Value = { PortView };

    ghost view = { λ p. record {
      client = p.client;
      first = p.first;
      next = p.next;
      fronts = p.seats.items;
    } };

    ghost invariant = { λ p. IsPort
        (record { client = p.client; first = p.first; next = p.next; fronts = p.seats.items }) };
}

impl Port {
    // The port of a client that has just entered.
    pub(crate) fn new(client: u64, first: u64, seats: Vec<LaneSeat>) -> Port
        requires lanes { (0 < length seats.items) × (length seats.items ≤ 16) }
        requires first { (0 < first) × (first ≤ 2 ^ 62) }
        requires admitted { HaveAdmitted client seats.items }
        ensures port { result
            ≡ record { client = client; first = first; next = first; fronts = seats.items } }
        ensures listed { HasAccepted result [] }
    {
        Port {
            client,
            first,
            next: first,
            seats,
        }
    }

    /// Hands a request to the first lane that has room for it, and answers which: lane
    /// `(n - 1) % lanes` first for ordinal n, then the following ones in a ring. A lane whose history
    /// is full is turned over first, so it is full for its history only where what it holds takes
    /// all the room. It may wait at each lane.
    pub fn submit<R: Wait>(
        &mut self,
        at: &Exchange,
        rt: &R,
        offer: Offer,
    ) -> Result<usize, (Offer, SubmitFault)>
        requires { locks_of self.old.fronts ≡ at.now }
        ensures ok { IfOk result (Submitted self.old offer self.new) }
        ensures err { IfErr result (λ e. (e.0 ≡ offer) × Refuses self.old offer self.new e.1) }
        ensures listed { (all : List Accepted) → HasAccepted self.old all
            → HasAccepted self.new (all ++ accepted_by offer result) }
        ensures locks { locks_of self.new.fronts ≡ locks_of self.old.fronts }
    {
        if self.next > MOST {
            return Err((offer, SubmitFault::Exhausted));
        }
        let request = named(self.client, self.next, offer);
        let start = (self.next as usize - 1) % self.seats.len();
        match try_ring(rt, &mut self.seats, at.locks.as_slice(), start, request) {
            Ok(lane) => {
                self.next += 1;
                Ok(lane)
            }
            Err((request, fault)) => Err((unnamed(request), fault)),
        }
    }

    /// Submits each of these to the one lane, in order and in one hold, and tells what became of each.
    /// Where the tickets are spent they come back; else their list, empty, is kept in `spare`. It may wait.
    /// The list is made in `room`, which is empty and has a place for each; it takes no memory.
    pub fn submit_all<R: Wait>(
        &mut self,
        at: &Exchange,
        rt: &R,
        offers: Vec<Offer>,
        room: Vec<Landing>,
        spare: &mut SpareList<Offer>,
    ) -> Result<Vec<Landing>, (Vec<Offer>, Spent)>
        requires locks { locks_of self.old.fronts ≡ at.now }
        requires lane { length self.old.fronts ≡ 1 }
        requires room { (room.items ≡ []) × (length offers.items ≤ vec_capacity room) }
        ensures served { SubmitsAll self.old offers.items self.new result }
        ensures same { self.new ≡ record self.old {
          next = self.old.next + length (accepted_all offers.items result);
          fronts = self.new.fronts;
        } }
        ensures listed { (all : List Accepted) → HasAccepted self.old all
            → HasAccepted self.new (all ++ accepted_all offers.items result) }
        ensures locks { locks_of self.new.fronts ≡ locks_of self.old.fronts }
    {
        let client = self.client;
        let next = self.next;
        match self.seats[0].submit_all(rt, &at.locks[0], client, next, offers, room) {
            Ok(
                Landings {
                    landings,
                    next,
                    offers,
                },
            ) => {
                self.next = next;
                spare.keep(offers);
                Ok(landings)
            }
            Err((offers, spent)) => Err((offers, spent)),
        }
    }

    /// The client's oldest response on the lane, with the client's own number. It may wait.
    pub fn collect<R: Wait>(
        &mut self,
        at: &Exchange,
        rt: &R,
        lane: usize,
    ) -> Result<Option<Pdu>, Spent>
        requires locks { locks_of self.old.fronts ≡ at.now }
        requires lane { lane < length self.old.fronts }
        ensures served { Collects lane self.old self.new result }
        ensures same { self.new ≡ record self.old { fronts = self.new.fronts } }
        ensures listed { (all : List Accepted) → HasAccepted self.old all
            → HasAccepted self.new all }
        ensures locks { locks_of self.new.fronts ≡ locks_of self.old.fronts }
    {
        let client = self.client;
        match self.seats[lane].hold(rt, &at.locks[lane], Collecting { client }) {
            Ok(response) => Ok(response),
            Err((_, spent)) => Err(spent),
        }
    }

    /// What waits for the client on the lane, the oldest first, with the client's own numbers: at most
    /// 16 responses, and at most 65,536 octets of PDUs, in one hold. It may wait. The list is made in
    /// `room`, which is empty and has 16 places; it takes no memory.
    #[inline(always)]
    pub fn collect_all<R: Wait>(
        &mut self,
        at: &Exchange,
        rt: &R,
        lane: usize,
        room: Vec<Response>,
    ) -> Result<Collected, Spent>
        requires locks { locks_of self.old.fronts ≡ at.now }
        requires lane { lane < length self.old.fronts }
        requires room { (room.items ≡ []) × (16 ≤ vec_capacity room) }
        ensures served { CollectsAll lane self.old self.new result }
        ensures same { self.new ≡ record self.old { fronts = self.new.fronts } }
        ensures listed { (all : List Accepted) → HasAccepted self.old all
            → HasAccepted self.new all }
        ensures locks { locks_of self.new.fronts ≡ locks_of self.old.fronts }
    {
        let client = self.client;
        match self.seats[lane].collect_all(rt, &at.locks[lane], client, room) {
            Ok(collected) => Ok(collected),
            Err(spent) => Err(spent),
        }
    }

    /// `collect` without waiting: `Busy` where another caller has the lane.
    pub fn try_collect(&mut self, at: &Exchange, lane: usize) -> Result<Option<Pdu>, TryFault>
        requires locks { locks_of self.old.fronts ≡ at.now }
        requires lane { lane < length self.old.fronts }
        ensures served { TriesCollect lane self.old self.new result }
        ensures same { self.new ≡ record self.old { fronts = self.new.fronts } }
        ensures listed { (all : List Accepted) → HasAccepted self.old all
            → HasAccepted self.new all }
        ensures locks { locks_of self.new.fronts ≡ locks_of self.old.fronts }
    {
        let client = self.client;
        match self.seats[lane].try_hold(&at.locks[lane], Collecting { client }) {
            Ok(response) => Ok(response),
            Err((_, fault)) => Err(fault),
        }
    }

    /// Retires the client on each lane that isn't spent, and gives the seats back. `Spent` comes
    /// where some lane is, and there alone. It may wait at each lane, and takes no memory.
    pub fn leave<R: Wait>(self, at: &Exchange, rt: &R) -> Result<Departed, (Departed, Spent)>
        requires { locks_of self.fronts ≡ at.now }
        ensures ok { IfOk result (HasLeft true self) }
        ensures err { IfErr result (λ e. HasLeft false self e.0) }
    {
        let Port {
            client,
            first: _,
            next: _,
            mut seats,
        } = self;
        let all = retire_all(rt, &mut seats, at.locks.as_slice(), client);
        let departed = Departed {
            client,
            seats,
            barred: None,
        };
        if all {
            Ok(departed)
        } else {
            Err((departed, Spent))
        }
    }

    /// The client's number.
    pub fn client(&self) -> u64
        ensures { result ≡ self.now.client }
    {
        self.client
    }

    /// How many lanes there are.
    pub fn lanes(&self) -> usize
        ensures { result ≡ length self.now.fronts }
    {
        self.seats.len()
    }

    /// What a port keeps: there is a list of its accepts, with a lane for each, such that they have
    /// the ordinals from its first to its last, one each and in order, and each is in the port's own
    /// notes on its lane and on no other. On each lane these notes admit the client, and none
    /// retires it. That the list is that of the answers of `submit`, the clauses `listed` say.
    pub fn law(&self)
        ensures { IsPort self.now }
    {
        let _ = &self.client;
    }
}
