//! A tap's link upstream: it is lost, what was taken fails, and there is one again.
ghost use Rattle.std.specs.Prelude.{◌≡◌, slice_get, Some};
ghost use Rattle.smx_shared.specs.Taps.{known_of};
ghost use Rattle.smx_shared.specs.Serving.{GoesDown, Fails, ComesUp};

use super::Tap;
use crate::exchange::Exchange;
use crate::fault::{DownFault, FailFault, UpFault};
use crate::lane_call::{ComingUp, Failing, GoingDown};
use smx_history::Failed;
use std::sync::Wait;

impl Tap {
    /// The lane's link upstream is lost: until it comes up it accepts nothing and gives nothing to
    /// take. What is queued waits, and what was taken may still be answered, or fails. It may wait,
    /// and takes no memory.
    pub fn down<R: Wait>(&mut self, at: &Exchange, rt: &R) -> Result<(), DownFault>
        requires { slice_get at.now self.old.lane ≡ Some self.old.front.lock }
        ensures same { (self.new.lane ≡ self.old.lane)
            × (self.new.front.lock ≡ self.old.front.lock) }
        ensures served { GoesDown self.old.front self.new.front result }
        ensures known { known_of self.new.front.mine ≡ known_of self.old.front.mine }
    {
        match self.seat.hold(rt, &at.locks[self.lane], GoingDown) {
            Ok(Ok(done)) => Ok(done),
            Ok(Err(refusal)) => Err(DownFault::Refused(refusal)),
            Err(_) => Err(DownFault::Spent),
        }
    }

    /// Gives up one request that was taken and not answered, on a lane that is down. Its client is
    /// told by a response that waits for it: that of submit_sm, submit_multi and data_sm with
    /// ESME_RSUBMITFAIL, for the others generic_nack with ESME_RSYSERR (SMPP 3.4, section 5.1.3). It
    /// may wait, and takes no memory.
    pub fn fail<R: Wait>(&mut self, at: &Exchange, rt: &R) -> Result<Failed, FailFault>
        requires { slice_get at.now self.old.lane ≡ Some self.old.front.lock }
        ensures same { (self.new.lane ≡ self.old.lane)
            × (self.new.front.lock ≡ self.old.front.lock) }
        ensures served { Fails self.old.front self.new.front result }
        ensures known { known_of self.new.front.mine ≡ known_of self.old.front.mine }
    {
        match self.seat.hold(rt, &at.locks[self.lane], Failing) {
            Ok(Ok(failed)) => Ok(failed),
            Ok(Err(refusal)) => Err(FailFault::Refused(refusal)),
            Err(_) => Err(FailFault::Spent),
        }
    }

    /// There is a link upstream again: the lane accepts requests and gives them to take. It may wait,
    /// and takes no memory.
    pub fn up<R: Wait>(&mut self, at: &Exchange, rt: &R) -> Result<(), UpFault>
        requires { slice_get at.now self.old.lane ≡ Some self.old.front.lock }
        ensures same { (self.new.lane ≡ self.old.lane)
            × (self.new.front.lock ≡ self.old.front.lock) }
        ensures served { ComesUp self.old.front self.new.front result }
        ensures known { known_of self.new.front.mine ≡ known_of self.old.front.mine }
    {
        match self.seat.hold(rt, &at.locks[self.lane], ComingUp) {
            Ok(Ok(done)) => Ok(done),
            Ok(Err(refusal)) => Err(UpFault::Refused(refusal)),
            Err(_) => Err(UpFault::Spent),
        }
    }
}
