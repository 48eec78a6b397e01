//! Tokens and workers beside the exchange that made them.
ghost use Rattle.std.specs.Prelude.{◌≡◌, ◌≢◌, ◌≤◌, length, slice_get, Some, None, true, false};
ghost use Rattle.std.specs.Arc.{arc_value};
ghost use Rattle.smx_shared.specs.Views.{locks_of};
ghost use Rattle.smx_turns.specs.declared.end.Fault.{Fault};
ghost use Rattle.smx_turns.specs.Endings.{ending_of};
ghost use Rattle.smx_upstream.specs.Events.{worth};
ghost use Rattle.smx_client.specs.declared.stage.Stage.{Stage};
ghost use Rattle.smx_session.specs.declared.upstream_state.UpstreamState.{UpstreamState};

use smx_box::{Got, Receiver};
use smx_client::{ClientWorker, Closed, Desk, Refusal, SpareLists, run_client};
use smx_config::Timers;
use smx_lane::Load;
use smx_pdu::{MAX_PDU, Pdu};
use smx_session::{ClientState, UpstreamSession, UpstreamState};
use smx_shared::{Door, EnterFault, Exchange, Port, Tap};
use smx_slots::{ClientEnds, LaneEnds};
use smx_socket::SocketLink;
use smx_turns::{Directory, End, Gate, RunEnd, TurnEnd};
use smx_upstream::{
    Closed as Ended, LastRequest, Parts, UpstreamWorker, give_up_queued, run_upstream,
};
use std::alloc::Global;
use std::sync::{Arc, Wait};

/// A lane's tap.
#[derive(Drop)]
pub(crate) struct Drawer {
    pub at: Arc<Exchange>,
    pub tap: Tap,
    // How many entries its lane's history may have.
    pub history: usize,
    ghost fits: { slice_get (arc_value at) tap.lane ≡ Some tap.front.lock },
}

/// The door.
#[derive(Drop)]
pub(crate) struct Gateway {
    pub at: Arc<Exchange>,
    pub door: Door,
    ghost fits: { locks_of door.fronts ≡ arc_value at },
}

/// A client's port.
#[derive(Drop)]
pub(crate) struct Entrant {
    pub at: Arc<Exchange>,
    pub port: Port,
    ghost fits: { locks_of port.fronts ≡ arc_value at },
}

/// A client's worker.
#[derive(Drop)]
pub(crate) struct Member<'d> {
    at: Arc<Exchange>,
    worker: ClientWorker<'d, SocketLink>,
    // A turn of it failed: it is only closed.
    over: bool,
    ghost fits: { locks_of worker.port.fronts ≡ arc_value at },
    ghost goes_on: { over ≡ false → worker.stage ≢ Stage.Closed → worker.wire.failed ≡ None },
}

/// An upstream worker.
#[derive(Drop)]
pub(crate) struct Carrier {
    at: Arc<Exchange>,
    worker: UpstreamWorker<SocketLink>,
    history: usize,
    // It has ended, or a turn of it failed: it is turned no more.
    over: bool,
    ghost fits: { slice_get (arc_value at) worker.stand.tap.lane
        ≡ Some worker.stand.tap.front.lock },
    ghost goes_on: { over ≡ false → worker.held ≡ None },
}

impl Drawer {
    // The lane takes no requests until a worker brings it up.
    pub fn lower<R: Wait>(&mut self, rt: &R) {
        let _ = self.tap.down(&self.at, rt);
    }

    // What is queued on the lane fails, of which the gate is told. How many requests that were.
    pub fn give_up_queued<R: Wait, G: Gate>(&mut self, rt: &R, gate: &mut G, now: u64) -> usize {
        give_up_queued(&mut self.tap, &self.at, rt, gate, now).failed
    }

    // The lane lets go what was noted there, where that is an eighth of its history.
    pub fn turn_over<R: Wait>(&mut self, rt: &R) {
        let _ = self.tap.turn_over(&self.at, rt, self.history / 8);
    }
}

// How a run ends whose turn ended so.
fn run_end(end: TurnEnd) -> RunEnd {
    match end {
        TurnEnd::Worked => RunEnd::Turns,
        TurnEnd::Filled => RunEnd::Filled,
        TurnEnd::Idle => RunEnd::Idle,
        TurnEnd::Done => RunEnd::Left,
    }
}

// Lets the answers go that wait in a return box.
fn empty<R: Wait>(rt: &R, answers: &mut Receiver<Pdu>) {
    for _ in 0..answers.places() {
        match answers.get(rt) {
            Ok(Got::Empty) | Err(_) => return,
            Ok(_) => {}
        }
    }
}

impl Gateway {
    // Enters the next client.
    pub fn enter<R: Wait>(&mut self, rt: &R) -> Result<Entrant, EnterFault> {
        let Ok(at) = Arc::try_clone(&self.at) else {
            return Err(EnterFault::NoMemory);
        };
        match self.door.enter(&self.at, rt) {
            Ok(port) => Ok(Entrant { at, port }),
            Err((fault, _)) => Err(fault),
        }
    }

    // How much a lane holds. None where there is no such lane, or it takes no more calls.
    pub fn load<R: Wait>(&mut self, rt: &R, lane: usize) -> Option<Load> {
        if lane >= self.door.lanes() {
            return None;
        }
        self.door.load(&self.at, rt, lane).ok()
    }
}

impl Entrant {
    pub fn client(&self) -> u64 {
        self.port.client()
    }

    // Lets the client leave at once.
    pub fn leave<R: Wait>(self, rt: &R) {
        let Entrant { at, port } = self;
        let _ = port.leave(&at, rt);
    }

    // Whether there is a sender for each lane, and places as a window has them.
    fn fits_ends(&self, ends: &ClientEnds, places: u32) -> bool
        ensures { result ≡ true → (length ends.now.senders.items ≡ length self.now.port.fronts)
            × (1 ≤ places) × (places ≤ 256) }
    {
        ends.senders.len() == self.port.lanes() && (1..=256).contains(&places)
    }
}

impl<'d> Member<'d> {
    // A worker for a client that has entered, by the timers of its silence and its messages. Where there
    // is no memory for it the client leaves, and the ends come back.
    pub fn new<R: Wait>(
        rt: &R,
        alloc: Global,
        entrant: Entrant,
        desk: &'d Desk,
        ends: ClientEnds,
        places: u32,
        link: SocketLink,
        timers: Timers,
        now: u64,
    ) -> Result<Member<'d>, ClientEnds> {
        if !entrant.fits_ends(&ends, places) {
            entrant.leave(rt);
            return Err(ends);
        }
        let Entrant { at, port } = entrant;
        let ClientEnds { inbox, senders } = ends;
        match ClientWorker::new(
            alloc,
            port,
            desk,
            inbox,
            senders,
            places,
            link,
            timers.client_silence,
            timers.message,
            now,
        ) {
            Ok(worker) => Ok(Member {
                at,
                worker,
                over: false,
            }),
            Err((port, inbox, senders, _)) => {
                let _ = port.leave(&at, rt);
                Err(ClientEnds { inbox, senders })
            }
        }
    }

    // Turns it at a moment for as long as there is something to do, at most so often: how that ended,
    // and where its session stands.
    pub fn run<R: Wait, G: Gate, D: Directory>(
        &mut self,
        rt: &R,
        gate: &mut G,
        directory: &mut D,
        now: u64,
        turns: u64,
    ) -> (RunEnd, ClientState) {
        if self.over {
            return (RunEnd::Left, ClientState::Ended);
        }
        let end = run_client(&mut self.worker, &self.at, rt, gate, directory, now, turns);
        if let RunEnd::Fault(_) = end {
            self.over = true;
        }
        (end, self.worker.state())
    }

    // Exchanges the lists that its worker keeps for these.
    pub fn swap_lists(&mut self, lists: &mut SpareLists) {
        self.worker.swap_lists(lists);
    }

    // Why its session has ended, where it has.
    pub fn ending(&self) -> Option<End> {
        self.worker.ending()
    }

    // The last bind of it that was refused.
    pub fn refused(&self) -> Option<&Refusal> {
        self.worker.refused()
    }

    // The index of the account by which it is bound.
    pub fn account(&self) -> Option<usize> {
        self.worker.account()
    }

    // How many octets it said that its socket hasn't taken.
    pub fn unsent(&self) -> usize {
        self.worker.unsent()
    }

    // Offers its socket what it said, where no turn ended as that is much: whether all of it was taken.
    pub fn offer_rest(&mut self) -> bool {
        self.worker.unsent() < MAX_PDU
            && self.worker.offer_rest().is_ok()
            && self.worker.unsent() == 0
    }

    // Sends its client unbind. False where it isn't bound, or there was no memory.
    pub fn stop(&mut self) -> bool {
        !self.over && self.worker.stop() == Ok(true)
    }

    // Lets the client go. The ends come back, and whether a lane has an answer to a message of it.
    pub fn close<R: Wait, D: Directory>(self, rt: &R, directory: &mut D) -> (ClientEnds, bool) {
        let Member { at, worker, .. } = self;
        let Closed {
            inbox,
            senders,
            answered,
            ..
        } = worker.close(&at, rt, directory);
        (ClientEnds { inbox, senders }, answered)
    }
}

impl Carrier {
    // A worker for a lane, whose return box is emptied: what waits there answers messages of an
    // earlier link. Where there is no memory for it the tap and the ends come back.
    pub fn new<R: Wait>(
        rt: &R,
        alloc: Global,
        drawer: Drawer,
        session: UpstreamSession,
        ends: LaneEnds,
        link: SocketLink,
        response_timer: u64,
    ) -> Result<Carrier, (Drawer, LaneEnds)>
        requires { session.state ≡ UpstreamState.Binding }
    {
        let Drawer { at, tap, history } = drawer;
        let LaneEnds {
            mut answers,
            senders,
            owed,
        } = ends;
        empty(rt, &mut answers);
        let parts = Parts {
            link,
            tap,
            session,
            answers,
            senders,
            owed,
        };
        match UpstreamWorker::new(alloc, parts, history, response_timer) {
            Ok(worker) => Ok(Carrier {
                at,
                worker,
                history,
                over: false,
            }),
            Err(parts) => {
                let Parts {
                    tap,
                    answers,
                    senders,
                    owed,
                    ..
                } = parts;
                let ends = LaneEnds {
                    answers,
                    senders,
                    owed,
                };
                Err((Drawer { at, tap, history }, ends))
            }
        }
    }

    // Ends it: its lane goes down, what was taken and not answered fails, of which the gate is told, and no
    // answer that waits for this link goes out. The tap and the ends come back, and how many requests
    // failed.
    pub fn close<R: Wait, G: Gate>(self, rt: &R, gate: &mut G) -> (Drawer, LaneEnds, usize) {
        let Carrier {
            at,
            worker,
            history,
            ..
        } = self;
        let Ended {
            tap,
            mut answers,
            senders,
            owed,
            lost,
            ..
        } = worker.close(&at, rt, gate);
        empty(rt, &mut answers);
        let drawer = Drawer { at, tap, history };
        let ends = LaneEnds {
            answers,
            senders,
            owed,
        };
        (drawer, ends, lost.failed)
    }

    // Why its session has ended, where it has.
    pub fn ending(&self) -> Option<End> {
        self.worker.ending()
    }

    // Offers its socket what it said, where no turn ended as that is much: whether all of it was taken.
    pub fn offer_rest(&mut self) -> bool {
        self.worker.unsent() < MAX_PDU
            && self.worker.offer_rest().is_ok()
            && self.worker.unsent() == 0
    }

    // The request that went out last over its link.
    pub fn last_request(&self) -> Option<LastRequest> {
        self.worker.last_request()
    }

    // Fails each request that was taken and not answered, and each that is queued, of which the gate is
    // told; the link stays. How many requests that were.
    pub fn give_up<R: Wait, G: Gate>(&mut self, rt: &R, gate: &mut G, now: u64) -> usize {
        self.worker.give_up(&self.at, rt, gate, now)
    }

    // Ends its session in order. False where it wasn't bound, or there was no memory: then nothing is
    // to be waited for.
    pub fn stop(&mut self) -> bool {
        !self.over && self.worker.stop() == Ok(true)
    }

    // Turns it at a moment for as long as there is something to do, at most so often: how that ended,
    // and where its session stands.
    pub fn run<R: Wait, G: Gate, D: Directory>(
        &mut self,
        rt: &R,
        gate: &mut G,
        directory: &mut D,
        now: u64,
        turns: u64,
    ) -> (RunEnd, UpstreamState) {
        if self.over {
            return (RunEnd::Left, UpstreamState::Ended);
        }
        let at = &self.at;
        let end = run_upstream(&mut self.worker, at, rt, gate, directory, || now, turns);
        if let RunEnd::Left | RunEnd::Fault(_) = end {
            self.over = true;
        }
        (end, self.worker.state())
    }

    // Whether its last turn may be gone on with, at the same moment: nothing waits to be written, and its session
    // isn't over.
    fn may_go_on(&self) -> bool
        ensures over { result ≡ true → self.now.over ≡ false }
        ensures none { result ≡ true → length self.now.worker.wire.unsent ≡ 0 }
        ensures goes_on { result ≡ true → ending_of worth self.now.worker.events ≡ None }
    {
        !self.over && self.worker.unsent() == 0 && self.worker.ending().is_none()
    }

    // Goes on with its last turn, at the same moment: how that ended. None where a whole turn is wanted.
    pub fn resume<R: Wait, G: Gate, D: Directory>(
        &mut self,
        rt: &R,
        gate: &mut G,
        directory: &mut D,
        now: u64,
    ) -> Option<RunEnd> {
        if !self.may_go_on() {
            return None;
        }
        match self.worker.resume(&self.at, rt, gate, directory, now) {
            Ok(end) => {
                self.over = end == TurnEnd::Done;
                Some(run_end(end))
            }
            Err(fault) => {
                self.over = true;
                Some(RunEnd::Fault(fault))
            }
        }
    }

    // The same, where it only takes requests.
    pub fn take_between<R: Wait, G: Gate>(&mut self, rt: &R, gate: &mut G) -> Option<RunEnd> {
        if !self.may_go_on() {
            return None;
        }
        match self.worker.take_between(&self.at, rt, gate) {
            Ok(end) => {
                self.over = end == TurnEnd::Done;
                Some(run_end(end))
            }
            Err(fault) => {
                self.over = true;
                Some(RunEnd::Fault(fault))
            }
        }
    }

    // Where its session stands.
    pub fn state(&self) -> UpstreamState {
        self.worker.state()
    }
}
