//! A client that takes no octet.

/// What was seen of a socket last: how many octets wait there, what went over its link, since which moment
/// both are so, and whether that was long.
#[derive(Clone, Copy)]
pub(crate) struct Stillness {
    waiting: usize,
    traffic: u64,
    since: u64,
    is_long: bool,
}

impl Stillness {
    /// Nothing was seen yet.
    pub const fn new() -> Stillness {
        Stillness {
            waiting: 0,
            traffic: 0,
            since: 0,
            is_long: false,
        }
    }

    /// Looks at a socket: whether octets wait there of which it took none for so long, in milliseconds, as an
    /// earlier look found too: what was taken while the program stood still is seen between the two.
    pub fn look(&mut self, waiting: usize, traffic: u64, now: u64, most: u64) -> bool {
        if waiting == 0 || waiting != self.waiting || traffic != self.traffic {
            *self = Stillness {
                waiting,
                traffic,
                since: now,
                is_long: false,
            };
        }
        let was_long = self.is_long;
        self.is_long = now.saturating_sub(self.since) >= most;
        was_long && self.is_long
    }
}
