//! The lanes, each under its lock.
ghost use Rattle.std.specs.Prelude.{◌≡◌, ◌<◌, ◌≤◌, [], length, slice_get, vec_capacity, Some, All, IfOk, IfErr};
ghost use Rattle.smx_shared.specs.Ending.{AreGiven, GivesBefore};
ghost use Rattle.smx_shared.specs.Views.{locks_of};
ghost use Rattle.smx_shared.specs.Making.{AreStarts, first_starts, Opens, IsUnused, IsUnmadeFor};
ghost use Rattle.smx_shared.specs.Tokens.{SawOneHistory};

use crate::door::Door;
use crate::fault::{MakeFault, StateOut};
use crate::lane_seat::LaneSeat;
use crate::opening::{make_locks, split_taps};
use crate::starts::Starts;
use crate::tap::Tap;
use crate::token::{HasSeat, Token};
use crate::unmade::Unmade;
use smx_history::Limits;
use smx_lane::Lane;
use smx_lock::TicketLock;
use std::alloc::Global;
use std::marker::Model;
use std::sync::Wait;

/// The lanes that doors, ports and taps share. Contracts see its lanes' locks, each with the limits
/// of its lane.
#[derive(Drop)]
pub struct Exchange {
    pub(crate) locks: Vec<TicketLock<Lane>>,
    // Empty, with room for all the lanes.
    pub(crate) room: Vec<Lane>,
    pub(crate) alloc: Global,
}

impl Model for Exchange {
    ghost use Rattle.std.specs.Prelude.{List, [], length, ◌≡◌, ◌≤◌, vec_capacity};
    ghost use Rattle.smx_lock.specs.Fronts.{LockId};
    ghost use Rattle.smx_history.specs.declared.limits.Limits.{Limits};

    ghost Value = { List (LockId Limits) };

    ghost view = { λ e. e.locks.items };

    ghost invariant = { λ e. (e.room.items ≡ []) × (length e.locks.items ≤ vec_capacity e.room) };
}

impl Exchange {
    /// Empty lanes under the limits, with a door and, for each lane in order, a tap. It holds each
    /// lane once, and may wait there. The seat of a lane whose tickets are spent comes back.
    pub fn new<R: Wait>(
        rt: &R,
        alloc: Global,
        limits: Limits,
        lanes: usize,
    ) -> Result<(Exchange, Door, Vec<Tap>), Unmade>
        ensures ok { IfOk result
            (λ made. Opens lanes limits first_starts made.0 made.1 made.2.items) }
        ensures taps { IfOk result (λ made. All
            (λ t. slice_get made.0 t.lane ≡ Some t.front.lock) made.2.items) }
        ensures empty { IfOk result (λ made. All IsUnused made.1.fronts
            × All (λ t. IsUnused t.front) made.2.items) }
        ensures err { IfErr result (IsUnmadeFor lanes limits) }
    {
        Exchange::new_at(rt, alloc, limits, lanes, Starts::FIRST)
    }

    /// The same with the counts started elsewhere: for tests of their ends.
    pub fn new_at<R: Wait>(
        rt: &R,
        alloc: Global,
        limits: Limits,
        lanes: usize,
        starts: Starts,
    ) -> Result<(Exchange, Door, Vec<Tap>), Unmade>
        requires { AreStarts starts }
        ensures ok { IfOk result (λ made. Opens lanes limits starts made.0 made.1 made.2.items) }
        ensures taps { IfOk result (λ made. All
            (λ t. slice_get made.0 t.lane ≡ Some t.front.lock) made.2.items) }
        ensures empty { IfOk result (λ made. All IsUnused made.1.fronts
            × All (λ t. IsUnused t.front) made.2.items) }
        ensures err { IfErr result (IsUnmadeFor lanes limits) }
    {
        if lanes == 0 || lanes > 16 {
            return Err(Unmade::because(MakeFault::BadLanes));
        }
        let (locks, mut seats) = match make_locks(alloc, limits, lanes, starts.ticket) {
            Ok(made) => made,
            Err(fault) => return Err(Unmade::because(fault)),
        };
        let Ok(room) = Vec::with_capacity(alloc, lanes) else {
            return Err(Unmade::because(MakeFault::NoMemory));
        };
        let Ok(mut taps) = Vec::with_capacity(alloc, lanes) else {
            return Err(Unmade::because(MakeFault::NoMemory));
        };
        if let Err(seat) = split_taps(rt, &mut seats, &mut taps, locks.as_slice()) {
            return Err(Unmade::spent(seat));
        }
        let door = Door {
            next: starts.client,
            ordinal: starts.ordinal,
            seats,
        };
        Ok((Exchange { locks, room, alloc }, door, taps))
    }

    /// Two tokens have seen one history of the lane: what one has seen there begins with what the
    /// other has. Both stay as they were. It never waits, takes no memory, and at run time is three
    /// loads.
    // No clause says that the two have different numbers on the lane. That shows only at run time, in
    // the entries that they leave.
    pub fn compare<A: Token, B: HasSeat>(&self, one: &mut A, other: &mut B, lane: usize)
        requires one { A.fits one.old self.now lane }
        requires other { B.fits other.old self.now lane }
        ensures same { (one.new ≡ one.old) × (other.new ≡ other.old) }
        ensures one_history { SawOneHistory (A.front_on one.old lane) (B.front_on other.old lane) }
    {
        one.compare_token(self, lane, other);
    }

    /// Ends the lanes' locks and gives the lanes, in order. Each agrees with a history that begins
    /// with all that the door had seen there, in which the door's notes are those that it made
    /// before. `StateOut` names the first lane that was not in its place; the lanes before it come
    /// beside it, and those after it are lost.
    // As of the lock's own `finish`, no clause says that the lane named was not in its place: tests
    // show both answers, and which lane.
    pub fn finish(self, door: Door) -> Result<Vec<Lane>, (StateOut, Vec<Lane>)>
        requires { locks_of door.fronts ≡ self }
        ensures ok { IfOk result (λ lanes. AreGiven door.fronts lanes.items) }
        ensures err { IfErr result (λ e. GivesBefore e.0.lane door.fronts e.1.items) }
    {
        let Exchange {
            locks,
            room,
            alloc: _,
        } = self;
        let Door { seats, .. } = door;
        finish_all(locks, seats, room)
    }
}

// Ends each lock by its seat, and puts the lanes into a list that has room for them.
fn finish_all(
    locks: Vec<TicketLock<Lane>>,
    seats: Vec<LaneSeat>,
    room: Vec<Lane>,
) -> Result<Vec<Lane>, (StateOut, Vec<Lane>)>
    requires locks { locks_of seats.items ≡ locks.items }
    requires none { room.items ≡ [] }
    requires room { length locks.items ≤ vec_capacity room }
    ensures ok { IfOk result (λ lanes. AreGiven seats.items lanes.items) }
    ensures err { IfErr result (λ e. GivesBefore e.0.lane seats.items e.1.items) }
{
    let mut lanes = room;
    let mut rest = locks.into_iter();
    for seat in seats {
        let Some(lock) = rest.next() else {
            unreachable!()
        };
        match lock.finish(seat.seat.into_seat()) {
            Ok(lane) => lanes.push_reserved(lane),
            Err(_) => return Err((StateOut { lane: lanes.len() }, lanes)),
        }
    }
    Ok(lanes)
}
