//! The loop: it turns who has something to do, writes, and waits for events.

use crate::addresses::Addresses;
use crate::entrance::Entrance;
use crate::guests::Guests;
use crate::lane::Lane;
use crate::linking::tend_all;
use crate::pace::{GRACE, Moment, Pace};
use crate::parties::{flush, heed, pass};
use crate::queues::Queues;
use crate::remote::Remote;
use crate::status::Survey;
use mio::{Events, Poll};
use smx_notice::{Counts, Ended};
use std::net::Net;
use std::rt::Clock;
use std::sync::Wait;
use std::time::Duration;

/// How many passes one reading of the clock may serve, and how many parties of the first class one of them
/// may turn that another follows.
const PASSES: u64 = 4;

const SHORT: usize = 8;

/// Where no more than a client and its lane moved octets these are written at once, and where so many did
/// that each write has much.
const PAIR: usize = 2;

const MANY: usize = 16;

/// How long octets may be held back, in milliseconds.
const HELD: u64 = 1;

/// Turns the workers of all lanes and clients.
#[derive(Drop)]
pub(crate) struct Loop<'d> {
    pub pace: Pace<'d>,
    pub poll: Poll,
    pub events: Events,
    pub lanes: Vec<Lane>,
    pub guests: Guests<'d>,
    pub entrance: Entrance,
    pub queues: Queues,
    pub addresses: Addresses,
    pub survey: Survey,
}

impl<'d> Loop<'d> {
    // Lets those in who wait.
    fn let_in<R: Wait>(&mut self, rt: &R) {
        self.entrance.let_in(
            rt,
            self.poll.registry(),
            &self.pace.moment,
            &mut self.guests,
            &mut self.queues,
            &mut self.addresses,
        );
    }

    // Lets clients in from now on, where a lane is bound, or the lanes had time enough.
    fn open(&mut self) {
        if self.entrance.is_open {
            return;
        }
        let mut is_open = self.pace.moment.now >= GRACE;
        for lane in self.lanes.as_slice() {
            is_open |= lane.is_bound();
        }
        if is_open {
            self.entrance.is_open = true;
            self.entrance.more = true;
        }
    }

    // Who is bound.
    fn counts(&self) -> Counts {
        Counts {
            bound: self.lanes.iter().filter(|lane| lane.is_bound()).count(),
            upstreams: self.lanes.len(),
            clients: self.guests.bound(),
        }
    }

    // Connects each lane that has no link, and turns each; and what hangs is tried again.
    fn tick<R: Wait + Net>(&mut self, rt: &R) {
        let moment = self.pace.moment;
        let registry = self.poll.registry();
        self.queues.unstall(&self.guests);
        tend_all(
            rt,
            registry,
            &moment,
            &mut self.lanes,
            &mut self.queues,
            &mut self.addresses,
        );
        moment.teller.settle(rt, moment.now, moment.wall);
        if moment.herald.looks(moment.now) {
            moment.herald.tell(rt, moment.now, self.counts());
        }
        self.guests
            .let_late_go(rt, &moment, &mut self.queues, &mut self.addresses);
        self.guests.settle_all(&mut self.queues, moment.now);
        self.entrance.try_again();
    }

    // Turns each lane and bound client that is ready once, and then one of the others.
    fn pass<R: Wait>(&mut self, rt: &R) {
        let is_gone = pass(
            rt,
            &self.pace.moment,
            &mut self.lanes,
            &mut self.guests,
            &mut self.queues,
            &mut self.addresses,
        );
        self.pace.has_passed();
        if is_gone {
            self.entrance.try_again();
        }
        for _ in 0..self.lanes.len() {
            let Some(lane) = self.queues.next_to_weigh() else {
                break;
            };
            self.weigh(rt, lane);
        }
    }

    // Asks a lane how much it holds.
    #[inline(never)]
    fn weigh<R: Wait>(&mut self, rt: &R, lane: usize) {
        let Moment { config, now, .. } = self.pace.moment;
        let load = self.entrance.gateway.load(rt, lane);
        if let (Some(place), Some(load)) = (self.lanes.get_mut(lane), load) {
            if place.note_load(load, config.limits.window as usize) {
                self.queues.pressure.note(now);
            }
        }
    }

    // Writes what waits, but for what may wait for a round.
    fn flush(&mut self) {
        if self.queues.pressure.is_on(self.pace.moment.now) {
            let ledger = Some(&self.addresses.ledger);
            flush(&self.lanes, &self.guests, &mut self.queues, ledger);
        } else {
            flush(&self.lanes, &self.guests, &mut self.queues, None);
        }
    }

    // Waits for events, at most so many milliseconds, where that has a limit.
    fn wait(&mut self, limit: Option<u64>) -> Result<(), Ended> {
        self.pace.polls();
        let time = limit.map(Duration::from_millis);
        if self.poll.poll(&mut self.events, time).is_err() {
            return Err(Ended::NoEvents);
        }
        let mut connects = false;
        for event in self.events.iter() {
            connects |= heed(event, &self.lanes, &self.guests, &mut self.queues);
        }
        self.entrance.more |= connects;
        Ok(())
    }

    // Writes what waits and asks for events, where that is due.
    fn look(&mut self) -> Result<(), Ended> {
        if self
            .pace
            .is_poll_due(!self.queues.schedule.has_no_unbound())
        {
            self.flush();
            self.wait(Some(0))?;
        }
        Ok(())
    }

    // Makes a pass, and a few more where that was short and somebody is ready still. Events are asked for in
    // between where that is due.
    fn make_passes<R: Wait>(&mut self, rt: &R) -> Result<(), Ended> {
        for _ in 0..PASSES {
            if self.queues.schedule.is_empty() {
                break;
            }
            self.look()?;
            let is_short = self.queues.schedule.firsts() <= SHORT;
            self.pass(rt);
            if !is_short {
                break;
            }
        }
        Ok(())
    }

    // Where nobody is ready, and a few sockets have octets to be written, asks for events once more before,
    // and serves what came: so each write has more, and wakes its peer less often. What a pressed lane says is
    // written at once.
    fn gather<R: Wait>(&mut self, rt: &R) -> Result<(), Ended> {
        let dirty = self.queues.dirty();
        let is_pressed = self.queues.pressure.is_on(self.pace.moment.now);
        if !self.queues.schedule.is_empty() || dirty <= PAIR || dirty > MANY || is_pressed {
            return Ok(());
        }
        self.wait(Some(0))?;
        self.make_passes(rt)?;
        self.flush();
        Ok(())
    }

    // For how many milliseconds events may be waited for, where nothing else limits it to less than that.
    fn limit(&self, limit: Option<u64>) -> Option<u64> {
        let hurries = self.entrance.has_more()
            || self.survey.is_under_way()
            || self.queues.is_hurried();
        if hurries {
            return Some(0);
        }
        if self.queues.dirty() > 0 {
            Some(HELD)
        } else {
            limit
        }
    }

    /// Reads the clock and does what is due then, makes a few passes, and, where nobody is ready after
    /// them, waits, at most so many milliseconds where that has a limit.
    pub fn round<R: Wait + Clock + Net>(
        &mut self,
        rt: &R,
        limit: Option<u64>,
    ) -> Result<(), Ended> {
        let is_due = self.pace.look(rt);
        self.queues.pressure.begin_round();
        if self.queues.take_hurry() || is_due {
            self.tick(rt);
        }
        self.open();
        self.let_in(rt);
        self.tell_some(rt);
        self.make_passes(rt)?;
        self.gather(rt)?;
        if self.queues.schedule.is_empty() {
            self.flush();
        }
        if self.queues.schedule.is_empty() {
            self.pace.waits();
            return self.wait(self.limit(limit));
        }
        Ok(())
    }

    // Does what it was asked for. What is due at a tick is due at once.
    fn heed<R: Wait>(&mut self, rt: &R, remote: &Remote) {
        if !remote.take_call() {
            return;
        }
        self.queues.hurry();
        if remote.take_telling() {
            self.survey.begin();
        }
        if let Some(read) = remote.take_read(rt) {
            self.reload(rt, &read);
        }
    }

    /// Connects each lane, and goes on until it is told to stop.
    pub fn run<R: Wait + Clock + Net>(&mut self, rt: &R, remote: &Remote) -> Ended {
        self.tick(rt);
        for _ in rt.forever() {
            if remote.is_stopping() {
                return self.stop(rt, remote);
            }
            self.heed(rt, remote);
            if let Err(ended) = self.round(rt, remote.limit()) {
                return ended;
            }
        }
        unreachable!()
    }
}
