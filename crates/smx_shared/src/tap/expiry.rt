//! Requests that a tap's caller waits for no longer.
ghost use Rattle.std.specs.Prelude.{◌≡◌, slice_get, Some};
ghost use Rattle.smx_shared.specs.Taps.{known_of};
ghost use Rattle.smx_shared.specs.Serving.{Expires};

use super::Tap;
use crate::exchange::Exchange;
use crate::fault::ExpiryFault;
use crate::lane_call::Expiring;
use smx_history::Failed;
use std::sync::Wait;

impl Tap {
    /// Gives up one request that was taken at least `age` milliseconds before `now` and not answered,
    /// whether the lane is up or down; its client is told as by `fail`. A moment below that of the
    /// lane's last take counts as that. It may wait, and takes no memory; where no request is so old
    /// it looks at the oldest alone.
    pub fn fail_expired<R: Wait>(
        &mut self,
        at: &Exchange,
        rt: &R,
        now: u64,
        age: u64,
    ) -> Result<Failed, ExpiryFault>
        requires { slice_get at.now self.old.lane ≡ Some self.old.front.lock }
        ensures same { (self.new.lane ≡ self.old.lane)
            × (self.new.front.lock ≡ self.old.front.lock) }
        ensures served { Expires self.old.front self.new.front now age result }
        ensures known { known_of self.new.front.mine ≡ known_of self.old.front.mine }
    {
        match self
            .seat
            .hold(rt, &at.locks[self.lane], Expiring { now, age })
        {
            Ok(Ok(failed)) => Ok(failed),
            Ok(Err(refusal)) => Err(ExpiryFault::Refused(refusal)),
            Err(_) => Err(ExpiryFault::Spent),
        }
    }
}
