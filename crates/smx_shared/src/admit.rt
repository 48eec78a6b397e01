//! How a client enters its lanes.
ghost use Rattle.std.specs.Prelude.{◌≡◌, ℕ, ◌≤◌, [], length, vec_capacity, take, IfOk, IfErr, OnOk};
ghost use Rattle.smx_shared.specs.Views.{locks_of};
ghost use Rattle.smx_shared.specs.Entering.{Enters, Entered, Barred, StopsAt};

use crate::fault::EnterFault;
use crate::lane_call::Admitting;
use crate::lane_seat::LaneSeat;
use smx_lane::{AdmitFault, Lane};
use smx_lock::TicketLock;
use std::sync::Wait;

// A seat of the client on one lane, made by the door's seat. At a refusal the seat comes back, where
// it was made.
fn admit_on<R: Wait>(
    rt: &R,
    seat: &mut LaneSeat,
    lock: &TicketLock<Lane>,
    client: u64,
) -> Result<LaneSeat, (EnterFault, Option<LaneSeat>)>
    requires { seat.old.lock ≡ lock.now }
    ensures lock { seat.new.lock ≡ seat.old.lock }
    ensures ok { IfOk result (Enters client seat.old seat.new) }
    ensures err { IfErr result (λ e. Barred client e.0 e.1 seat.old seat.new) }
{
    let mut guest = match seat.split(rt, lock) {
        Ok(guest) => guest,
        Err(_) => return Err((EnterFault::Spent, None)),
    };
    match guest.hold(rt, lock, Admitting { client }) {
        Ok(Ok(())) => Ok(guest),
        Ok(Err(AdmitFault::Known)) => Err((EnterFault::Known, Some(guest))),
        Ok(Err(AdmitFault::HistoryFull)) => Err((EnterFault::HistoryFull, Some(guest))),
        Ok(Err(AdmitFault::NoMemory)) => Err((EnterFault::NoMemory, Some(guest))),
        Err(_) => Err((EnterFault::Spent, Some(guest))),
    }
}

// Seats of the client on all lanes, up to the first that refuses it. Of that one the seat comes back,
// where it was made.
pub(crate) fn admit_all<R: Wait>(
    rt: &R,
    seats: &mut Vec<LaneSeat>,
    made: &mut Vec<LaneSeat>,
    locks: &[TicketLock<Lane>],
    client: u64,
) -> Result<(), (EnterFault, Option<LaneSeat>)>
    requires locks { locks_of seats.old.items ≡ locks.now }
    requires none { made.old.items ≡ [] }
    requires room { length seats.old.items ≤ vec_capacity made.old }
    ensures made { locks_of made.new.items
        ≡ take (length made.new.items) (locks_of seats.old.items) }
    ensures ok { OnOk result
        (Entered (length seats.old.items) client seats.old.items seats.new.items made.new.items) }
    ensures err { IfErr result (λ e. StopsAt (length made.new.items) client e.0
        seats.old.items seats.new.items made.new.items e.1) }
{
    let count = seats.len();
    for lane in 0..count {
        match admit_on(rt, &mut seats[lane], &locks[lane], client) {
            Ok(seat) => made.push_reserved(seat),
            Err(barred) => return Err(barred),
        }
    }
    Ok(())
}
