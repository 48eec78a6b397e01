//! The moments of the loop, and what is due at each.

use crate::herald::Herald;
use crate::log::wall;
use crate::lookup::Lookups;
use crate::teller::Teller;
use smx_client::Desk;
use smx_config::{Config, Timers};
use smx_notice::Notice;
use smx_slots::is_poll_due;
use std::alloc::Global;
use std::rt::Clock;
use std::sync::Wait;
use std::time::Instant;

/// How often each lane is turned in any case, in milliseconds.
pub(crate) const TICK: u64 = 100;

/// How long the lanes may take at the start, in milliseconds, until clients are let in of whom none
/// is bound.
pub(crate) const GRACE: u64 = 1_000;

/// What holds at a moment: the settings, the milliseconds since the start, and whether the end is
/// near; and by what lines are said, to whom.
#[derive(Clone, Copy)]
pub(crate) struct Moment<'d> {
    pub alloc: Global,
    // What was served by from the start on.
    pub config: &'d Config,
    // What was read last of these two.
    pub timers: Timers,
    pub desk: &'d Desk,
    pub teller: &'d Teller,
    pub herald: &'d Herald,
    pub lookups: &'d Lookups,
    pub now: u64,
    // The milliseconds since 1970-01-01 UTC.
    pub wall: u64,
    // The nanoseconds behind these milliseconds: a number by chance, below 1,000,000.
    pub chance: u64,
    pub stopping: bool,
}

impl Moment<'_> {
    /// Says a line at this moment.
    pub fn say<R: Wait>(&self, rt: &R, notice: Notice<'_>) {
        self.teller.say(rt, self.now, self.wall, notice);
    }
}

/// The moment, and what is counted from one to the next.
#[derive(Clone, Copy)]
pub(crate) struct Pace<'d> {
    pub moment: Moment<'d>,
    start: Instant,
    // The moment of the last tick.
    ticked: u64,
    // How many passes there were since events were asked for, at which moment that was, and whether they
    // were waited for since the clock was read.
    passes: u64,
    polled: u64,
    has_waited: bool,
}

impl<'d> Pace<'d> {
    /// From this moment on, which is 0.
    pub fn new(moment: Moment<'d>, start: Instant) -> Pace<'d> {
        Pace {
            moment,
            start,
            ticked: 0,
            passes: 0,
            polled: 0,
            has_waited: false,
        }
    }

    /// Reads the clock: whether a tick is due. A wait that took longer than it may was interrupted, as where
    /// the program stood still: then events are asked for anew.
    pub fn look<R: Clock>(&mut self, rt: &R) -> bool {
        let before = self.moment.now;
        if let Ok(passed) = self.start.elapsed(rt) {
            self.moment.now = u64::try_from(passed.as_millis()).unwrap_or(u64::MAX);
            self.moment.chance = u64::from(passed.subsec_nanos() % 1_000_000);
        }
        self.moment.wall = self
            .moment
            .wall
            .saturating_add(self.moment.now.saturating_sub(before));
        let is_soon = self.moment.now < before.saturating_add(2 * TICK);
        if std::mem::take(&mut self.has_waited) && is_soon {
            self.polled = self.moment.now;
        }
        if self.moment.now < self.ticked.saturating_add(TICK) {
            return false;
        }
        self.ticked = self.moment.now;
        self.moment.wall = wall(rt);
        true
    }

    /// Whether events are asked for before the next pass, where an unbound party is ready or none is.
    pub fn is_poll_due(&self, has_unbound: bool) -> bool {
        is_poll_due(self.moment.now, self.polled, self.passes, has_unbound)
    }

    /// Events are asked for at this moment.
    pub fn polls(&mut self) {
        self.polled = self.moment.now;
        self.passes = 0;
    }

    /// Events are waited for: they come at the moment that is read next, where that is soon.
    pub fn waits(&mut self) {
        self.has_waited = true;
    }

    /// A pass is over.
    pub fn has_passed(&mut self) {
        self.passes = self.passes.saturating_add(1);
    }
}
