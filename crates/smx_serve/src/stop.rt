//! The end in order.

use crate::parties::{are_idle, are_settled};
use crate::remote::Remote;
use crate::turning::Loop;
use smx_notice::{Ended, Notice, RunNews, Service};
use std::net::Net;
use std::rt::Clock;
use std::sync::Wait;

/// How long what waits may take to be written, and then the centre to answer the unbinds, in
/// milliseconds each.
const PATIENCE: u64 = 2_000;

impl<'d> Loop<'d> {
    // Whether nobody is ready, nothing waits for a socket, and, where the lanes are to end or the
    // clients to close, they have.
    fn is_settled(&mut self, lanes_end: bool, clients_close: bool) -> bool {
        are_idle(&self.lanes, &self.guests, &mut self.queues)
            && are_settled(&self.lanes, &self.guests, lanes_end, clients_close)
    }

    // Turns whoever is ready, writes and waits until all is settled, at most so long.
    fn settle<R: Wait + Clock + Net>(
        &mut self,
        rt: &R,
        lanes_end: bool,
        clients_close: bool,
    ) -> Result<(), Ended> {
        let until = self.pace.moment.now.saturating_add(PATIENCE);
        for _ in rt.forever() {
            if self.pace.moment.now >= until || self.is_settled(lanes_end, clients_close) {
                return Ok(());
            }
            self.round(rt, Some(10))?;
        }
        unreachable!()
    }

    // Lets nobody in, and no further request: a client may send that to another proxy.
    fn shut(&mut self, rt: &impl Wait) {
        let moment = &self.pace.moment;
        self.entrance.close(self.poll.registry());
        self.addresses.ledger.drain();
        self.guests
            .dismiss_strangers(rt, moment, &mut self.queues, &mut self.addresses);
    }

    // Awaits the requests that are under way, for as long as the configuration says, or until it is told
    // to stop once more.
    fn await_answers<R: Wait + Clock + Net>(
        &mut self,
        rt: &R,
        remote: &Remote,
    ) -> Result<(), Ended> {
        let moment = &self.pace.moment;
        let until = moment.now.saturating_add(moment.timers.stop);
        for _ in rt.forever() {
            let is_drained = self.addresses.ledger.under_way() == 0;
            if is_drained || remote.is_hurried() || self.pace.moment.now >= until {
                return Ok(());
            }
            self.round(rt, Some(10))?;
        }
        unreachable!()
    }

    // Answers the requests that are under way still as at a lost link.
    fn give_up<R: Wait>(&mut self, rt: &R) {
        let now = self.pace.moment.now;
        for lane in self.lanes.iter_mut() {
            lane.give_up(rt, &mut self.queues, &mut self.addresses, now);
        }
        self.queues.add_slots();
    }

    // Awaits or answers each request that is under way, and lets the clients have the answers.
    fn drain<R: Wait + Clock + Net>(&mut self, rt: &R, remote: &Remote) -> Result<(), Ended> {
        let requests = self.addresses.ledger.under_way();
        self.pace
            .moment
            .say(rt, Notice::Run(RunNews::Draining(requests)));
        self.shut(rt);
        let before = self.queues.failed;
        self.await_answers(rt, remote)?;
        if self.addresses.ledger.under_way() > 0 {
            self.give_up(rt);
        }
        self.settle(rt, false, false)?;
        let failed = self.queues.failed.saturating_sub(before);
        self.pace.moment.say(
            rt,
            Notice::Run(RunNews::Drained {
                answered: requests.saturating_sub(failed),
                failed,
            }),
        );
        Ok(())
    }

    // Unbinds each client, and awaits its answer for a second, or, where it is told to stop once more, until
    // what it was sent is written.
    fn part_from_clients<R: Wait + Clock + Net>(
        &mut self,
        rt: &R,
        remote: &Remote,
    ) -> Result<(), Ended> {
        let moment = &self.pace.moment;
        self.guests
            .unbind_all(rt, moment, &mut self.queues, &mut self.addresses);
        for _ in rt.forever() {
            if self.guests.are_gone() {
                break;
            }
            if remote.is_hurried() {
                self.settle(rt, false, false)?;
                break;
            }
            self.round(rt, Some(10))?;
        }
        let moment = &self.pace.moment;
        self.guests
            .dismiss(rt, moment, &mut self.queues, &mut self.addresses);
        self.settle(rt, false, false)
    }

    // Unbinds each lane that is bound, and lets the clients read what was written.
    fn part_from_centres<R: Wait + Clock + Net>(&mut self, rt: &R) -> Result<(), Ended> {
        self.pace.moment.stopping = true;
        let mut any = false;
        for lane in self.lanes.iter_mut() {
            any |= lane.stop();
        }
        if any {
            self.queues.add_lanes();
        }
        self.settle(rt, any, true)
    }

    // The end, part by part.
    fn end<R: Wait + Clock + Net>(&mut self, rt: &R, remote: &Remote) -> Result<(), Ended> {
        self.drain(rt, remote)?;
        self.part_from_clients(rt, remote)?;
        self.part_from_centres(rt)
    }

    /// Lets nobody in, answers each request that was read, lets the clients go, writes what waits, unbinds
    /// upstream, and ends.
    pub fn stop<R: Wait + Clock + Net>(&mut self, rt: &R, remote: &Remote) -> Ended {
        let moment = &self.pace.moment;
        moment.say(rt, Notice::Run(RunNews::Stopping));
        moment.herald.say(rt, Service::Stopping);
        let ended = match self.end(rt, remote) {
            Ok(()) => Ended::Stopped,
            Err(ended) => ended,
        };
        let moment = &self.pace.moment;
        moment.teller.end(rt, moment.wall);
        ended
    }
}
