//! What a service manager is told of the run.

use crate::log::Log;
use smx_notice::{Counts, Service};
use std::cell::Cell;
use std::sync::{Arc, Wait};

/// How often it is told that the loop turns, in milliseconds.
const BEAT: u64 = 5_000;

/// How often at most it is told who is bound, in milliseconds.
const PAUSE: u64 = 1_000;

/// Tells a service manager that the proxy is ready, who is bound, and that the loop turns.
#[derive(Drop)]
pub(crate) struct Herald {
    // None where there is no service manager.
    lines: Option<Arc<Log>>,
    // What it was told last of who is bound, and the moments from which on it is told again, in
    // milliseconds.
    counts: Cell<Option<Counts>>,
    looks: Cell<u64>,
    beats: Cell<u64>,
}

impl Herald {
    pub fn new(lines: Option<Arc<Log>>) -> Herald {
        Herald {
            lines,
            counts: Cell::new(None),
            looks: Cell::new(0),
            beats: Cell::new(0),
        }
    }

    /// Says a line.
    pub fn say<R: Wait>(&self, rt: &R, line: Service<'_>) {
        if let Some(lines) = &self.lines {
            lines.say(rt, line);
        }
    }

    /// Whether it is time to look at who is bound, which counts as done then.
    pub fn looks(&self, now: u64) -> bool {
        if self.lines.is_none() || now < self.looks.get() {
            return false;
        }
        self.looks.set(now.saturating_add(PAUSE));
        true
    }

    /// Tells who is bound, where that changed, and that the loop turns, where that is due.
    pub fn tell<R: Wait>(&self, rt: &R, now: u64, counts: Counts) {
        if self.counts.get() != Some(counts) {
            self.counts.set(Some(counts));
            self.say(rt, Service::Counts(counts));
        }
        if now >= self.beats.get() {
            self.beats.set(now.saturating_add(BEAT));
            self.say(rt, Service::Alive);
        }
    }
}
