//! How a client leaves its lanes.
ghost use Rattle.std.specs.Prelude.{◌≡◌, ℕ, length, slice_get, Some};
ghost use Rattle.smx_lock.specs.Fronts.{Front};
ghost use Rattle.smx_history.specs.declared.limits.Limits.{Limits};
ghost use Rattle.smx_history.specs.declared.note.Note.{Note};
ghost use Rattle.smx_shared.specs.Views.{locks_of};
ghost use Rattle.smx_shared.specs.Ports.{IsMemberBy};
ghost use Rattle.smx_shared.specs.Leaving.{LeavesBelow, Retired};

use crate::lane_call::Retiring;
use crate::lane_seat::LaneSeat;
use smx_lane::Lane;
use smx_lock::TicketLock;
use std::sync::Wait;

// Retires the client on each lane that isn't spent, and answers whether none is.
pub(crate) fn retire_all<R: Wait>(
    rt: &R,
    seats: &mut Vec<LaneSeat>,
    locks: &[TicketLock<Lane>],
    client: u64,
) -> bool
    requires locks { locks_of seats.old.items ≡ locks.now }
    requires own { (k : ℕ) (f : Front Note Limits) → slice_get seats.old.items k ≡ Some f
        → IsMemberBy client f }
    ensures left { LeavesBelow (length seats.old.items) client seats.old.items seats.new.items }
    ensures all { Retired result (length seats.old.items) client seats.old.items seats.new.items }
{
    let count = seats.len();
    let mut all = true;
    for lane in 0..count {
        match seats[lane].hold(rt, &locks[lane], Retiring { client }) {
            Ok(Ok(())) => {}
            Ok(Err(_)) => unreachable!(),
            Err(_) => all = false,
        }
    }
    all
}
