//! How the next link to an upstream comes about.

use crate::pace::Moment;
use smx_config::Timers;
use std::alloc::Global;
use std::net::SocketAddr;
use std::sync::Wait;

/// How the next link comes about: its name is looked up, and each address of it is tried.
#[derive(Drop)]
pub(crate) struct Course {
    // From which moment on the name is looked up, in milliseconds.
    due: u64,
    // How long the last pause was, but for what chance added: 0 where the next is the first.
    pause: u64,
    // Its look-up is under way.
    is_asked: bool,
    // The addresses that are still to be tried, the next one last.
    addresses: Vec<SocketAddr>,
}

/// What is to be done now.
#[derive(Drop)]
pub(crate) enum Way {
    /// Nothing.
    Waits,
    /// No address is known, for this reason.
    Unknown(String),
    /// This address is to be tried.
    To(SocketAddr),
}

// The pause behind this one, in milliseconds.
fn pause_after(last: u64, timers: Timers) -> u64 {
    let twice = last.saturating_mul(2);
    twice.min(timers.reconnect_most).max(timers.reconnect)
}

// The pause with as many millionths of its tenth more.
fn lengthened(pause: u64, millionths: u64) -> u64 {
    let more = (pause / 10).saturating_mul(millionths) / 1_000_000;
    pause.saturating_add(more)
}

impl Course {
    /// It is begun at once.
    pub fn new(alloc: Global) -> Course {
        Course {
            due: 0,
            pause: 0,
            is_asked: false,
            addresses: Vec::new(alloc),
        }
    }

    /// Whether a further address is to be tried.
    pub fn has_more(&self) -> bool {
        !self.addresses.is_empty()
    }

    /// The next pause is the first.
    pub fn begin_anew(&mut self) {
        self.pause = 0;
    }

    /// The next link begins anew after a pause, which is twice the last one.
    pub fn delay(&mut self, moment: &Moment<'_>) {
        let Moment {
            timers,
            now,
            chance,
            ..
        } = *moment;
        self.pause = pause_after(self.pause, timers);
        let pause = lengthened(self.pause, chance);
        self.addresses.clear();
        self.due = now.saturating_add(pause);
    }

    /// In how many milliseconds from this moment the next link begins.
    pub fn rest(&self, now: u64) -> u64 {
        if self.has_more() {
            0
        } else {
            self.due.saturating_sub(now)
        }
    }

    // What the look-up found, where it is over.
    fn heed<R: Wait>(&mut self, rt: &R, moment: &Moment<'_>, lane: usize) -> Way {
        let Some(found) = moment.lookups.take(rt, lane) else {
            return Way::Waits;
        };
        self.is_asked = false;
        match found {
            Ok(addresses) => self.addresses = addresses,
            Err(reason) => return Way::Unknown(reason),
        }
        match self.addresses.pop() {
            Some(address) => Way::To(address),
            None => Way::Unknown(String::new(moment.alloc)),
        }
    }

    // Begins anew: an address in digits is known at once, and a name is looked up.
    fn begin<R: Wait>(&mut self, rt: &R, moment: &Moment<'_>, lane: usize, name: &str) -> Way {
        if let Ok(address) = name.parse::<SocketAddr>() {
            return Way::To(address);
        }
        let Moment { alloc, lookups, .. } = *moment;
        self.is_asked = lookups.ask(rt, lane, name);
        if self.is_asked {
            Way::Waits
        } else {
            Way::Unknown(String::new(alloc))
        }
    }

    /// What is to be done at this moment for a lane's link by this name. It never waits.
    pub fn next<R: Wait>(&mut self, rt: &R, moment: &Moment<'_>, lane: usize, name: &str) -> Way {
        if let Some(address) = self.addresses.pop() {
            return Way::To(address);
        }
        if self.is_asked {
            return self.heed(rt, moment, lane);
        }
        if moment.now < self.due {
            return Way::Waits;
        }
        self.begin(rt, moment, lane, name)
    }
}
