//! A worker towards a centre, beside its socket.

use crate::addresses::Addresses;
use crate::mail::Counted;
use crate::pace::Moment;
use crate::queues::{OCTETS, Progress, Queues, TURNS, is_enough, is_read_out};
use crate::seats::{Carrier, Drawer};
use crate::upstreams::{connect, session_of};
use mio::Registry;
use smx_config::Upstream;
use smx_notice::LinkLoss;
use smx_session::UpstreamState;
use smx_slots::{Guide, LaneBell, LaneEnds};
use smx_socket::Socket;
use smx_turns::{End, Fault, RunEnd};
use std::io;
use std::net::{Net, SocketAddr};
use std::rc::Rc;
use std::sync::Wait;

/// How long a link has to be bound for the next pause to be the first again, in milliseconds.
const HELD: u64 = 60_000;

/// A turn that settles requests of clients ends once so many octets went over its link: so each client has
/// more responses at once, and fewer turns.
const MORE: u64 = 8_192;

/// A worker beside its socket.
#[derive(Drop)]
pub(crate) struct Linked {
    pub carrier: Carrier,
    pub socket: Rc<Socket>,
    // When it began to connect, and the moment of its last turn.
    pub begun: u64,
    pub turned: u64,
    // Since when it was bound, where its session stood after the last turn, and whether its worker has
    // ended.
    pub bound: Option<u64>,
    pub state: UpstreamState,
    pub over: bool,
    // How many requests of clients its last turn settled, and whether its window is full since, as its lane said:
    // then a client's next request is nothing for it before octets or an answer come; and when it was asked last.
    pub settled: usize,
    pub is_full: bool,
    pub weighed: u64,
    // How many octets had gone over its link at its last whole turn. None where the next one is to be whole.
    pub whole: Option<u64>,
    // Whether its last turn left nothing to do, bound.
    pub is_idle: bool,
}

/// What a worker is made of, beside its link.
#[derive(Drop)]
pub(crate) struct Spare {
    pub drawer: Drawer,
    pub ends: LaneEnds,
}

/// What a turn of a worker did.
#[derive(Clone, Copy)]
pub(crate) struct Turned {
    pub end: RunEnd,
    // It is bound since.
    pub newly_bound: bool,
}

impl Linked {
    // Why its link was lost where a turn of its worker ended by this fault.
    fn loss_by(&self, fault: Fault) -> LinkLoss {
        if fault == Fault::Link && !self.socket.has_given() {
            LinkLoss::Unreached(self.socket.failure())
        } else {
            LinkLoss::Fault(fault)
        }
    }

    /// Why it has ended, where it wasn't told to.
    pub fn farewell(&self, end: RunEnd) -> LinkLoss {
        if let RunEnd::Fault(fault) = end {
            return self.loss_by(fault);
        }
        match self.carrier.ending() {
            Some(End::Refused(status)) => LinkLoss::Refused(status),
            Some(End::BadLength) => LinkLoss::BadLength,
            Some(End::Silent) => LinkLoss::Silent,
            Some(End::LaneDown) => LinkLoss::LaneDown,
            Some(End::Left | End::Stopped) => LinkLoss::Unbound,
            Some(End::LinkEnded) | None => LinkLoss::Closed,
        }
    }

    /// Whether it was bound for long.
    pub fn has_held(&self, now: u64) -> bool {
        match self.bound {
            Some(bound) => now >= bound.saturating_add(HELD),
            None => false,
        }
    }

    // Whether a turn that did something left nothing to do, as another one would only find: all that came is
    // decided, no answer waits in the return box, and what was said is taken now. What comes from now on
    // makes the lane ready. Where octets moved, requests that are overdue may be left for a tick.
    fn is_through(&mut self, may_wait: bool, rang: bool, before: u64) -> bool {
        self.state == UpstreamState::Bound
            && !may_wait
            && is_read_out(&self.socket)
            && self.carrier.offer_rest()
            && (!rang || self.socket.traffic() != before)
    }

    // Makes a whole turn: how that ended.
    fn run_whole<R: Wait>(
        &mut self,
        rt: &R,
        gate: &mut Counted<'_, LaneBell<'_>>,
        guide: &mut Guide<'_>,
        now: u64,
    ) -> RunEnd {
        self.whole = Some(self.socket.traffic());
        self.turned = now;
        let (end, state) = self.carrier.run(rt, gate, guide, now, 1);
        self.state = state;
        end
    }

    // Goes on with its last turn, where that was in this same millisecond, no answer waits in the return box and few
    // octets went over its link since the last whole turn; where nothing came of that turn, and nothing can be read,
    // it only takes what clients queued. None where a whole turn is wanted.
    fn go_on<R: Wait>(
        &mut self,
        rt: &R,
        gate: &mut Counted<'_, LaneBell<'_>>,
        guide: &mut Guide<'_>,
        lane: usize,
        now: u64,
    ) -> Option<RunEnd> {
        let was_idle = std::mem::take(&mut self.is_idle);
        let whole = self.whole?;
        let is_same = now == self.turned && self.state == UpstreamState::Bound;
        if !is_same || gate.mail.may_wait(lane) || is_enough(whole, self.socket.traffic(), OCTETS) {
            return None;
        }
        if was_idle && is_read_out(&self.socket) {
            return self.carrier.take_between(rt, gate);
        }
        let end = self.carrier.resume(rt, gate, guide, now);
        self.state = self.carrier.state();
        end
    }

    // Runs the worker turn by turn, until it is idle, a client is to be turned first, or the party's turn
    // is over: how that ended.
    fn run<R: Wait>(
        &mut self,
        rt: &R,
        gate: &mut Counted<'_, LaneBell<'_>>,
        guide: &mut Guide<'_>,
        lane: usize,
        now: u64,
    ) -> RunEnd {
        let before = self.socket.traffic();
        for _ in 0..TURNS {
            let end = match self.go_on(rt, gate, guide, lane, now) {
                Some(end) => end,
                None => self.run_whole(rt, gate, guide, now),
            };
            if end != RunEnd::Turns {
                return end;
            }
            if self.is_through(gate.mail.may_wait(lane), gate.gate.has_rung(), before) {
                return RunEnd::Idle;
            }
            let most = if gate.settled > 0 { MORE } else { OCTETS };
            if is_enough(before, self.socket.traffic(), most) {
                return end;
            }
        }
        RunEnd::Turns
    }

    /// Its next turn is a whole one.
    pub fn wants_turn(&mut self) {
        self.is_full = false;
        self.whole = None;
    }

    // Whether a turn would only find what the last one left, in this same millisecond.
    fn is_sated(&self, may_wait: bool, now: u64) -> bool {
        self.is_full && now == self.turned && !may_wait && is_read_out(&self.socket)
    }

    // Takes in how a turn of its worker ended. Its lane is to be asked whether its window is full where it was, and
    // once a millisecond where a turn did nothing.
    fn heed(&mut self, queues: &mut Queues, lane: usize, progress: Progress) {
        let was_full = std::mem::take(&mut self.is_full);
        let is_idle = progress.end == RunEnd::Idle && self.state == UpstreamState::Bound;
        let may_be_full = !(progress.moved || progress.rang) && self.weighed != self.turned;
        if is_idle && (was_full || may_be_full) {
            self.weighed = self.turned;
            queues.weigh(lane);
        }
        queues.was_turned(lane, progress);
        if progress.moved {
            queues.empty_boxes();
        }
    }

    /// Makes a turn of the lane; who is told of something is ready then.
    pub fn turn<R: Wait>(
        &mut self,
        rt: &R,
        queues: &mut Queues,
        addresses: &mut Addresses,
        lane: usize,
        now: u64,
    ) -> Turned {
        if self.is_sated(addresses.mail.may_wait(lane), now) {
            return Turned {
                end: RunEnd::Idle,
                newly_bound: false,
            };
        }
        let before = self.socket.traffic();
        let bell = LaneBell::new(
            queues.lanes,
            &mut queues.schedule,
            &addresses.roll,
            &mut addresses.ledger,
            &mut addresses.hints,
        );
        let mut guide = Guide::new(&mut addresses.routes, &addresses.roll);
        let mut gate = Counted {
            gate: bell,
            mail: &mut addresses.mail,
            slot: None,
            settled: 0,
        };
        let end = self.run(rt, &mut gate, &mut guide, lane, now);
        self.over = matches!(end, RunEnd::Left | RunEnd::Fault(_));
        self.is_idle = end == RunEnd::Idle && self.state == UpstreamState::Bound;
        self.settled = gate.settled;
        let progress = Progress {
            end,
            moved: self.socket.traffic() != before,
            rang: gate.gate.has_rung(),
            writable: self.socket.is_writable(),
        };
        if self.is_idle {
            addresses.mail.mark(lane, false);
        }
        self.heed(queues, lane, progress);
        let newly_bound = self.state == UpstreamState::Bound && self.bound.is_none();
        if newly_bound {
            self.bound = Some(now);
        }
        Turned { end, newly_bound }
    }
}

/// A worker over a new connection to this address, or what it would have been made of, and the system's
/// reason, if it is one.
pub(crate) fn link_to<R: Wait + Net>(
    rt: &R,
    registry: &Registry,
    moment: &Moment<'_>,
    upstream: &Upstream,
    spare: Spare,
    address: SocketAddr,
) -> Result<Linked, (Spare, Option<io::Error>)> {
    let Moment {
        alloc,
        timers,
        now,
        ..
    } = *moment;
    let lane = spare.drawer.tap.lane();
    let Some(session) = session_of(alloc, upstream, timers.enquire, now) else {
        return Err((spare, None));
    };
    let (socket, link) = match connect(rt, alloc, registry, address, lane) {
        Ok(wired) => wired,
        Err(reason) => return Err((spare, reason)),
    };
    let Spare { drawer, ends } = spare;
    match Carrier::new(rt, alloc, drawer, session, ends, link, timers.response) {
        Ok(carrier) => Ok(Linked {
            carrier,
            socket,
            begun: now,
            turned: now,
            bound: None,
            state: UpstreamState::Binding,
            over: false,
            settled: 0,
            is_full: false,
            weighed: now,
            whole: None,
            is_idle: false,
        }),
        Err((drawer, ends)) => Err((Spare { drawer, ends }, None)),
    }
}
