//! The token that enters clients.
ghost use Rattle.std.specs.Prelude.{◌≡◌, ◌<◌, [], length, IfOk, IfErr};
ghost use Rattle.smx_shared.specs.Views.{locks_of};
ghost use Rattle.smx_shared.specs.Ports.{HasAccepted};
ghost use Rattle.smx_shared.specs.Entering.{Admits, RefusesEntry};
ghost use Rattle.smx_shared.specs.Loads.{Loads};

use crate::admit::admit_all;
use crate::departed::Departed;
use crate::exchange::Exchange;
use crate::fault::EnterFault;
use crate::lane_seat::LaneSeat;
use crate::port::Port;
use crate::retire::retire_all;
use smx_lane::Load;
use smx_lock::Spent;
use smx_ticket_core::MOST;
use std::marker::Model;
use std::sync::Wait;

/// The right to enter clients. It is used with the exchange that made it.
#[derive(Drop)]
pub struct Door {
    pub(crate) next: u64,
    pub(crate) ordinal: u64,
    pub(crate) seats: Vec<LaneSeat>,
}

impl Model for Door {
    ghost use Rattle.smx_shared.specs.Views.{DoorView};
    ghost use Rattle.smx_shared.specs.Entering.{IsDoor};

    ghost Value = { DoorView };

    ghost view = { λ d. record { next = d.next; ordinal = d.ordinal; fronts = d.seats.items } };

    ghost invariant = { λ d. IsDoor
        (record { next = d.next; ordinal = d.ordinal; fronts = d.seats.items }) };
}

impl Door {
    /// Enters the next client: its port has a seat on every lane. It may wait at each lane, twice:
    /// the door's seat makes the new one, which admits the client, and turns the lane over before
    /// where its history is full. So `HistoryFull` comes only where what a lane holds takes all the
    /// room of its history. At a refusal after the first the client is retired again on the lanes
    /// that it entered, which may wait once more, but for those whose tickets are spent, and its
    /// seats come back.
    pub fn enter<R: Wait>(&mut self, at: &Exchange, rt: &R) -> Result<Port, (EnterFault, Departed)>
        requires { locks_of self.old.fronts ≡ at.now }
        ensures ok { IfOk result (Admits self.old self.new) }
        ensures listed { IfOk result (λ port. HasAccepted port []) }
        ensures err { IfErr result (λ e. RefusesEntry self.old self.new e.0 e.1) }
        ensures client { IfErr result (λ e. e.1.client ≡ self.old.next) }
        ensures locks { locks_of self.new.fronts ≡ locks_of self.old.fronts }
    {
        let client = self.next;
        if client > MOST {
            return Err((EnterFault::Exhausted, Departed::seatless(at.alloc, client)));
        }
        self.next += 1;
        let Ok(mut seats) = Vec::with_capacity(at.alloc, self.seats.len()) else {
            return Err((EnterFault::NoMemory, Departed::seatless(at.alloc, client)));
        };
        let locks = at.locks.as_slice();
        match admit_all(rt, &mut self.seats, &mut seats, locks, client) {
            Ok(()) => Ok(Port::new(client, self.ordinal, seats)),
            Err((fault, barred)) => {
                let entered = seats.len();
                retire_all(rt, &mut seats, &locks[..entered], client);
                Err((
                    fault,
                    Departed {
                        client,
                        seats,
                        barred,
                    },
                ))
            }
        }
    }

    /// How many lanes there are.
    pub fn lanes(&self) -> usize
        ensures { result ≡ length self.now.fronts }
    {
        self.seats.len()
    }

    /// How much a lane holds: what is queued and under way there, since when, and its history. It may
    /// wait, changes nothing and takes no memory.
    pub fn load<R: Wait>(&mut self, at: &Exchange, rt: &R, lane: usize) -> Result<Load, Spent>
        requires locks { locks_of self.old.fronts ≡ at.now }
        requires lane { lane < length self.old.fronts }
        ensures served { Loads lane self.old self.new result }
        ensures same { self.new ≡ record self.old { fronts = self.new.fronts } }
        ensures locks { locks_of self.new.fronts ≡ locks_of self.old.fronts }
    {
        self.seats[lane].load(rt, &at.locks[lane])
    }
}
