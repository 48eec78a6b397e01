//! How a request goes round the lanes.
ghost use Rattle.std.specs.Prelude.{◌≡◌, ◌<◌, length, IfOk, IfErr};
ghost use Rattle.smx_shared.specs.Views.{locks_of};
ghost use Rattle.smx_shared.specs.Submits.{AcceptsOn, StopsOn};
ghost use Rattle.smx_shared.specs.Steps.{LeadUpTo};

use crate::fault::SubmitFault;
use crate::lane_call::Accepting;
use crate::lane_seat::LaneSeat;
use smx_history::Request;
use smx_lane::Lane;
use smx_lock::TicketLock;
use std::sync::Wait;

// Tries all lanes, in a ring from `start`.
pub(crate) fn try_ring<R: Wait>(
    rt: &R,
    seats: &mut Vec<LaneSeat>,
    locks: &[TicketLock<Lane>],
    start: usize,
    request: Request,
) -> Result<usize, (Request, SubmitFault)>
    requires start { start < length seats.old.items }
    requires locks { locks_of seats.old.items ≡ locks.now }
    requires own { LeadUpTo request seats.old.items }
    requires ordinal { 0 < request.ordinal }
    ensures ok { IfOk result (AcceptsOn start request seats.old.items seats.new.items) }
    ensures err { IfErr result (λ e. (e.0 ≡ request)
        × StopsOn start request seats.old.items seats.new.items e.1) }
{
    let count = seats.len();
    let mut rest = request;
    for k in 0..count {
        let lane = (start + k) % count;
        match seats[lane].hold(rt, &locks[lane], Accepting { request: rest }) {
            Ok(Ok(())) => return Ok(lane),
            Ok(Err((back, _))) => rest = back,
            Err((made, _)) => return Err((made.request, SubmitFault::Spent)),
        }
    }
    Err((rest, SubmitFault::AllFull))
}
