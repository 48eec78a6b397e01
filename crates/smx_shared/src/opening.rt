//! How the lanes of an exchange are made.
ghost use Rattle.std.specs.Prelude.{◌≡◌, ◌≤◌, ◌^◌, [], length, map, vec_capacity, None, IfOk, IfErr, OnOk};
ghost use Rattle.smx_lock.specs.Fronts.{first_front};
ghost use Rattle.smx_history.specs.Room.{AreLimits};
ghost use Rattle.smx_lane.specs.Faults.{IsLaneFault};
ghost use Rattle.smx_shared.specs.Views.{locks_of};
ghost use Rattle.smx_shared.specs.Making.{AreLanes, AreLocks, IsMakeFault, IsStuck, Tapped};

use crate::fault::MakeFault;
use crate::lane_seat::LaneSeat;
use crate::tap::Tap;
use smx_history::Limits;
use smx_lane::{Lane, LaneFault};
use smx_lock::{SeatInPlace, TicketLock};
use std::alloc::Global;
use std::sync::Wait;

// One lane under its lock, and the lock's first seat.
fn make_lock(
    alloc: Global,
    limits: Limits,
    ticket: u64,
) -> Result<(TicketLock<Lane>, LaneSeat), LaneFault>
    requires { ticket ≤ 2 ^ 62 }
    ensures limits { OnOk result (AreLimits limits) }
    ensures fixed { IfOk result (λ made. made.0.fixed ≡ limits) }
    ensures seat { IfOk result (λ made. made.1 ≡ first_front made.0) }
    ensures err { IfErr result (IsLaneFault limits) }
{
    let lane = Lane::new(alloc, limits)?;
    match TicketLock::new_at(alloc, lane, ticket) {
        Ok((lock, seat)) => Ok((
            lock,
            LaneSeat {
                seat: SeatInPlace::new(seat),
            },
        )),
        Err(_) => Err(LaneFault::NoMemory),
    }
}

// The locks of so many lanes, and the first seat of each.
pub(crate) fn make_locks(
    alloc: Global,
    limits: Limits,
    lanes: usize,
    ticket: u64,
) -> Result<(Vec<TicketLock<Lane>>, Vec<LaneSeat>), MakeFault>
    requires lanes { AreLanes lanes }
    requires ticket { ticket ≤ 2 ^ 62 }
    ensures limits { OnOk result (AreLimits limits) }
    ensures locks { IfOk result (λ made. AreLocks lanes limits made.0.items) }
    ensures seats { IfOk result (λ made. made.1.items ≡ map first_front made.0.items) }
    ensures err { IfErr result (λ fault. IsMakeFault lanes limits fault None) }
{
    let mut locks = Vec::new(alloc);
    let mut seats = Vec::new(alloc);
    for _ in 0..lanes {
        let (lock, seat) = match make_lock(alloc, limits, ticket) {
            Ok(made) => made,
            Err(LaneFault::BadLimits) => return Err(MakeFault::BadLimits),
            Err(LaneFault::NoMemory) => return Err(MakeFault::NoMemory),
        };
        if locks.push(lock).is_err() {
            return Err(MakeFault::NoMemory);
        }
        if seats.push(seat).is_err() {
            return Err(MakeFault::NoMemory);
        }
    }
    Ok((locks, seats))
}

// One hold of each lane makes its tap's seat. Where one has no ticket or no seat left its first seat
// comes back.
pub(crate) fn split_taps<R: Wait>(
    rt: &R,
    seats: &mut Vec<LaneSeat>,
    taps: &mut Vec<Tap>,
    locks: &[TicketLock<Lane>],
) -> Result<(), LaneSeat>
    requires locks { locks_of seats.old.items ≡ locks.now }
    requires none { taps.old.items ≡ [] }
    requires room { length seats.old.items ≤ vec_capacity taps.old }
    ensures ok { OnOk result
        (Tapped (length seats.old.items) seats.old.items seats.new.items taps.new.items) }
    ensures err { IfErr result (IsStuck seats.old.items) }
{
    let count = seats.len();
    for lane in 0..count {
        match seats[lane].split(rt, &locks[lane]) {
            Ok(seat) => taps.push_reserved(Tap::new(lane, seat)),
            Err(_) => return Err(seats.swap_remove(lane)),
        }
    }
    Ok(())
}
