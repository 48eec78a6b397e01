//! The binds of a client that were refused.

/// How many binds of one connection are refused: with the last of them it is closed.
const MOST: u32 = 3;

/// How long after one refusal the next is answered at the earliest, in milliseconds. A moment is the
/// millisecond that is under way, so this is one more than what passes at least.
const PAUSE: u64 = 101;

/// The binds of a client that were refused.
#[derive(Clone, Copy)]
pub(crate) struct Refusals {
    count: u32,
    // The moment of the last one.
    latest: u64,
}

impl Refusals {
    /// None yet.
    pub const fn new() -> Refusals {
        Refusals {
            count: 0,
            latest: 0,
        }
    }

    /// One was refused at this moment.
    pub fn add(&mut self, now: u64) {
        self.count = self.count.saturating_add(1);
        self.latest = now;
    }

    /// Whether one more may be refused at this moment.
    pub fn may_refuse(self, now: u64) -> bool {
        self.count == 0 || (!self.is_over() && now >= self.latest.saturating_add(PAUSE))
    }

    /// Whether so many were refused that the connection is closed.
    pub fn is_over(self) -> bool {
        self.count >= MOST
    }

    /// Whether another one may wait for its moment, which a tick finds.
    pub fn is_paced(self, now: u64) -> bool {
        self.count > 0 && now < self.latest.saturating_add(PAUSE.saturating_mul(4))
    }
}
