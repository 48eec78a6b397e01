//! Lines that may come often: so many of a kind are said a second, and the others are counted.

use crate::log::Log;
use smx_config::Config;
use smx_notice::{Meter, Notice, RunNews};
use std::cell::Cell;
use std::sync::{Arc, Wait};

/// Where lines are said, and the meter of those that clients cause.
#[derive(Drop)]
pub(crate) struct Teller {
    log: Arc<Log>,
    meter: Cell<Meter>,
}

impl Teller {
    pub fn new(log: Arc<Log>) -> Teller {
        Teller {
            log,
            meter: Cell::new(Meter::new()),
        }
    }

    // Whether it may be said, which is counted where it is of a kind that is.
    fn admits(&self, notice: Notice<'_>) -> bool {
        let Some(kind) = notice.metered_kind() else {
            return true;
        };
        let mut meter = self.meter.get();
        let is_said = meter.admits(kind);
        self.meter.set(meter);
        is_said
    }

    // Says a line at this moment, in milliseconds since the start and since 1970, or counts it where too
    // many of its kind came.
    pub fn say<R: Wait>(&self, rt: &R, now: u64, wall: u64, notice: Notice<'_>) {
        self.settle(rt, now, wall);
        if self.log.passes(rt, notice) && self.admits(notice) {
            self.log.tell(rt, wall, notice);
        }
    }

    // The end: says of each kind how many lines were left out since the last time that it was said.
    pub fn end<R: Wait>(&self, rt: &R, wall: u64) {
        self.settle(rt, u64::MAX, wall);
    }

    // From now on lines are written as this configuration says.
    pub fn renew<R: Wait>(&self, rt: &R, config: &Config) {
        self.log.write_by(rt, config);
    }

    // Says of each kind how many lines were left out, once their second is over.
    pub fn settle<R: Wait>(&self, rt: &R, now: u64, wall: u64) {
        let mut meter = self.meter.get();
        let left_out = meter.settle(now / 1_000);
        self.meter.set(meter);
        if let Some(tally) = left_out {
            self.log
                .tell(rt, wall, Notice::Run(RunNews::LeftOut(tally)));
        }
    }
}
