//! What the check of a finished history counts as it goes.
ghost use Rattle.std.specs.Prelude.{◌≡◌, []};
ghost use Rattle.smx_legal.specs.Checks.{Counted};

/// Totals of the entries so far, over all shifts: there may be more of them than a `usize` can count.
#[derive(Clone, Copy, Debug)]
pub struct Totals {
    /// The greatest client admitted, or 0.
    pub greatest: u64,
    /// Takes.
    pub taken: u128,
    /// Requests that are accepted and not taken.
    pub queued: u128,
    /// Requests that are taken and not answered.
    pub unanswered: u128,
    /// Responses that are not collected, of the clients that are present.
    pub waiting: u128,
    /// Clients that were admitted and have not retired.
    pub present: u128,
    /// Whether the lane is up.
    pub up: bool,
}

impl Totals {
    /// The totals of no entries.
    pub fn none() -> Totals
        ensures counted { Counted [] result }
        ensures taken { result.taken ≡ 0 }
    {
        Totals {
            greatest: 0,
            taken: 0,
            queued: 0,
            unanswered: 0,
            waiting: 0,
            present: 0,
            up: true,
        }
    }
}
