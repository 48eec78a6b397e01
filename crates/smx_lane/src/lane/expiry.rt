//! Requests that are given up: their link was lost, or they were taken too long ago.
ghost use Rattle.std.specs.Prelude.{◌≡◌, ℕ, slice_get, IfOk, IfErr, OnErr, Some, None};
ghost use Rattle.smx_history.specs.Answering.{IsExpired, IsGivenUp};
ghost use Rattle.smx_history.specs.Replies.{expired_in};

use super::Lane;
use super::responses::{facing, settling};
use smx_history::{Failed, Kind, NoneExpired, Place, failure};

impl Lane {
    // Takes the request of the place out of the window. Its client is told where it has not retired.
    pub(super) fn give_up(&mut self, by: u64, place: &Place) -> Failed
        requires { (i : ℕ) × (slice_get self.old.window i ≡ Some place.now) }
        ensures given_up { IsGivenUp self.old by place.now result self.new }
        ensures limits { self.new.limits ≡ self.old.limits }
    {
        self.window.remove(place.upstream);
        let response = failure(self.roster.alloc(), place);
        let entry = settling(Kind::Fail, by, place, &response);
        self.entries.push_reserved(entry);
        let client = place.client;
        if !self.roster.put(client, facing(place, response)) {
            return Failed::Late { client };
        }
        Failed::Queued { client }
    }

    /// Gives up one request that was taken at least `age` milliseconds before `now` and not answered, whether there is
    /// a link or none; its client is told as by `fail`. A moment below that of the last take counts as that. Where no
    /// request is so old, this looks at the oldest alone, and not at the window. It takes no memory.
    pub fn fail_expired(&mut self, by: u64, now: u64, age: u64) -> Result<Failed, NoneExpired>
        ensures expired { IfOk result (λ failed. IsExpired self.old by now age failed self.new) }
        ensures none { IfErr result (λ _. expired_in self.old now age ≡ None) }
        ensures err { OnErr result (self.new ≡ self.old) }
        ensures limits { self.new.limits ≡ self.old.limits }
    {
        let Some(place) = self.window.expired(now, age) else {
            return Err(NoneExpired);
        };
        Ok(self.give_up(by, &place))
    }
}
