//! A worker over a link in memory whose other end follows a script: steps as rows, each with what is
//! to be found.
ghost use Rattle.std.specs.Prelude.{◌≡◌, slice_get, Some, None, IfSome, false};
ghost use Rattle.smx_shared.specs.Views.{locks_of};
ghost use Rattle.smx_session.specs.declared.upstream_state.UpstreamState.{UpstreamState};

use crate::hall::{Client, Hall, enter, hold, lanes_of, last_tap};
use crate::stand::{Piece, World, body_of, link_to, name_want, script, took};
use smx_box::{Boxed, Got, Receiver, Sender};
use smx_lane::Lane;
use smx_link::Link;
use smx_memory_link::{MemoryLink, Script};
use smx_pdu::{Bind, Pdu};
use smx_routes::MoWindow;
use smx_session::{UpstreamBind, UpstreamSession, UpstreamState};
use smx_shared::{Door, Exchange, SubmitFault, Tap};
use smx_turns::{End, MoItem, RunEnd};
use smx_upstream::{Closed, LastRequest, Parts, UpstreamWorker, run_upstream};
use std::alloc::Global;
use std::process::Abort;
use std::sync::Wait;

mod abandoned;
mod burst;
mod hostile;
mod passing;
mod rows;
mod timers;

// bind_transceiver of `proxy` with the password `pw`, and the centre's answer.
const BIND: [u8; 30] = [
    0, 0, 0, 0x1E, 0, 0, 0, 9, 0, 0, 0, 0, 0x7F, 0xFF, 0xFF, 0xFD, b'p', b'r', b'o', b'x', b'y', 0,
    b'p', b'w', 0, 0, 0x34, 0, 0, 0,
];

const BOUND: [u8; 23] = [
    0, 0, 0, 0x17, 0x80, 0, 0, 9, 0, 0, 0, 0, 0x7F, 0xFF, 0xFF, 0xFD, b'c', b'e', b'n', b't', b'r',
    b'e', 0,
];

// submit_sm 1 to the address `1`, and its response with the message_id `1`.
const SUBMIT: [u8; 34] = [
    0, 0, 0, 0x22, 0, 0, 0, 4, 0, 0, 0, 0, 0, 0, 0, 1, 0, 0, 0, 0, 0, 0, b'1', 0, 0, 0, 0, 0, 0, 0,
    0, 0, 0, 0,
];

const RESPONSE: [u8; 18] = [
    0, 0, 0, 0x12, 0x80, 0, 0, 4, 0, 0, 0, 0, 0, 0, 0, 1, b'1', 0,
];

// The same submit_sm where the window's first place is given once more: its number is then
// 1,024 x 1 + 0 + 1. Its response has the message_id `2`.
const SECOND: [u8; 34] = [
    0, 0, 0, 0x22, 0, 0, 0, 4, 0, 0, 0, 0, 0, 0, 4, 1, 0, 0, 0, 0, 0, 0, b'1', 0, 0, 0, 0, 0, 0, 0,
    0, 0, 0, 0,
];

const SECOND_RESPONSE: [u8; 18] = [
    0, 0, 0, 0x12, 0x80, 0, 0, 4, 0, 0, 0, 0, 0, 0, 4, 1, b'2', 0,
];

// deliver_sm 3 to the address `4915`, and a client's answer.
const MESSAGE: [u8; 37] = [
    0, 0, 0, 0x25, 0, 0, 0, 5, 0, 0, 0, 0, 0, 0, 0, 3, 0, 0, 0, 0, 0, 0, b'4', b'9', b'1', b'5', 0,
    0, 0, 0, 0, 0, 0, 0, 0, 0, 0,
];

// The message's body.
const TEXT: [u8; 21] = [
    0, 0, 0, 0, 0, 0, b'4', b'9', b'1', b'5', 0, 0, 0, 0, 0, 0, 0, 0, 0, 0, 0,
];

const ANSWER: [u8; 17] = [0, 0, 0, 0x11, 0x80, 0, 0, 5, 0, 0, 0, 0, 0, 0, 0, 3, 0];

// The proxy's enquire_link, which it sends where the centre was silent (SMPP 3.4, section 4.11.1).
const ENQUIRY: [u8; 16] = [
    0, 0, 0, 0x10, 0, 0, 0, 0x15, 0, 0, 0, 0, 0x7F, 0xFF, 0xFF, 0xFE,
];

// What a client is told: its response, the second one, and ESME_RSUBMITFAIL without a body (SMPP 3.4,
// section 5.1.3).
const ANSWERED: Option<(u32, &[u8])> = Some((0, b"1\0"));

const ANSWERED_SECOND: Option<(u32, &[u8])> = Some((0, b"2\0"));

const FAILED: Option<(u32, &[u8])> = Some((0x45, b""));

// What is done, and what is found.
#[derive(Clone, Copy)]
enum Step<'s> {
    // The client submits the request to the address `1` under the number 7.
    Submits(Result<usize, SubmitFault>),
    // The status and the body of its next response.
    Collects(Option<(u32, &'s [u8])>),
    // The number and the body of the next message for client 1 from lane 0.
    Gets(Option<(u32, &'s [u8])>),
    // The client answers the message of this number, with this status and a body of so many zeros.
    Answers(u32, u32, usize),
    // The worker is turned at this moment, at most so often, and goes on where a message fills the box.
    Runs(u64, u64, RunEnd),
    // The same, until a message fills the box.
    Fills(u64, u64),
    // It is to end, and says whether it was bound.
    Stops(bool),
    Stands(UpstreamState),
    // How its work ended.
    Ended(Option<End>),
    // Whose request was sent last over the link, and its command.
    Last(Option<(u64, u32)>),
    // How often the gate was asked, and told.
    Asked(u64),
    Told(u64),
    // At this moment all is given up: so many requests.
    GivesUp(u64, usize),
    // The worker is closed. Its link took just this, one part after another.
    Closes(&'s [&'s [u8]]),
    // The same, and so many requests failed. Another worker goes on over a link with these pieces.
    GoesOn(usize, &'s [&'s [u8]], &'s [Piece<'s>]),
}

/// A worker with its exchange.
#[derive(Drop)]
pub struct Seat<'a, L: Link + Drop> {
    pub at: &'a Exchange,
    pub worker: UpstreamWorker<L>,
    // A fault ended a run.
    faulty: bool,
    ghost fits: { slice_get at.now worker.stand.tap.lane ≡ Some worker.stand.tap.front.lock },
    ghost goes_on: { faulty ≡ false → worker.held ≡ None },
}

impl<'a, L: Link + Drop> Seat<'a, L> {
    pub fn new(
        rt: &impl Abort,
        alloc: Global,
        at: &'a Exchange,
        parts: Parts<L>,
        history: usize,
    ) -> Seat<'a, L>
        requires lock { slice_get at.now parts.tap.lane ≡ Some parts.tap.front.lock }
        requires state { parts.session.state ≡ UpstreamState.Binding }
    {
        let worker = UpstreamWorker::new(alloc, parts, history, 60_000).ok();
        Seat {
            at,
            worker: worker.expect(rt, "out of memory"),
            faulty: false,
        }
    }

    pub fn run<R: Wait + Abort>(
        &mut self,
        rt: &R,
        world: &mut World,
        now: u64,
        turns: u64,
    ) -> RunEnd {
        if self.faulty {
            return RunEnd::Left;
        }
        let World { gate, book } = world;
        let end = run_upstream(&mut self.worker, self.at, rt, gate, book, || now, turns);
        self.faulty = matches!(end, RunEnd::Fault(_));
        name_want(rt, end);
        end
    }

    fn gives_up<R: Wait>(&mut self, rt: &R, world: &mut World, now: u64) -> usize {
        self.worker.give_up(self.at, rt, &mut world.gate, now)
    }
}

/// The session of `proxy` with the password `pw` at the moment 0. It enquires after a second.
pub fn session(rt: &impl Abort, alloc: Global) -> UpstreamSession
    ensures { result.state ≡ UpstreamState.Binding }
{
    let bind = Bind {
        system_id: b"proxy",
        password: b"pw",
        system_type: b"",
        interface_version: 0x34,
        addr_ton: 0,
        addr_npi: 0,
        address_range: b"",
    };
    assert!(rt; bind.fits());
    let system_id = Vec::from_slice(alloc, bind.system_id).expect(rt, "out of memory");
    let password = Vec::from_slice(alloc, bind.password).expect(rt, "out of memory");
    let bind = UpstreamBind::transceiver(alloc, system_id, password);
    UpstreamSession::new(alloc, bind, 1_000, 0)
}

// A client, a worker until it is closed, what it is lent, what its messages come into, and where the
// client puts its answers.
#[derive(Drop)]
struct Stand<'a> {
    client: Client<'a>,
    seat: Option<Seat<'a, MemoryLink<Script>>>,
    world: World,
    inbox: Receiver<MoItem>,
    outbox: Sender<Pdu>,
}

impl<'a> Stand<'a> {
    fn holds<R: Wait + Abort>(&mut self, rt: &R, alloc: Global, step: Step) -> bool {
        match step {
            Step::Submits(want) => submit(rt, alloc, &mut self.client) == want,
            Step::Collects(want) => collects(rt, &mut self.client, want),
            Step::Gets(want) => gets(rt, &mut self.inbox, want),
            Step::Answers(number, status, zeros) => {
                let answer = answer_to(rt, alloc, number, status, zeros);
                self.outbox.put(rt, answer).is_ok()
            }
            Step::Runs(now, turns, want) => match &mut self.seat {
                Some(seat) => runs_on(rt, seat, &mut self.world, now, turns) == want,
                None => false,
            },
            Step::Fills(now, turns) => match &mut self.seat {
                Some(seat) => seat.run(rt, &mut self.world, now, turns) == RunEnd::Filled,
                None => false,
            },
            Step::Stops(want) => match &mut self.seat {
                Some(seat) => seat.worker.stop().expect(rt, "out of memory") == want,
                None => false,
            },
            Step::GivesUp(now, want) => match &mut self.seat {
                Some(seat) => seat.gives_up(rt, &mut self.world, now) == want,
                None => false,
            },
            Step::Stands(want) => match &self.seat {
                Some(seat) => seat.worker.state() == want,
                None => false,
            },
            Step::Ended(want) => match &self.seat {
                Some(seat) => seat.worker.ending() == want,
                None => false,
            },
            Step::Last(want) => match &self.seat {
                Some(seat) => last_of(&seat.worker) == want,
                None => false,
            },
            Step::Asked(want) => self.world.gate.questions == want,
            Step::Told(want) => self.world.gate.tidings == want,
            Step::Closes(parts) => self.closes(rt, parts).is_some(),
            Step::GoesOn(failed, parts, pieces) => {
                self.goes_on(rt, alloc, parts, pieces) == Some(failed)
            }
        }
    }

    // Closes the worker, where its link took just this.
    fn closes<R: Wait + Abort>(
        &mut self,
        rt: &R,
        taken: &[&[u8]],
    ) -> Option<(&'a Exchange, Closed<MemoryLink<Script>>)>
        ensures { IfSome result (λ p. slice_get p.0.now p.1.tap.lane ≡ Some p.1.tap.front.lock) }
    {
        let Seat { at, worker, .. } = self.seat.take()?;
        let closed = worker.close(at, rt, &mut self.world.gate);
        if took(&closed.link, taken) {
            Some((at, closed))
        } else {
            None
        }
    }

    // The same, and another worker goes on over a link with these pieces: how many requests failed.
    fn goes_on<R: Wait + Abort>(
        &mut self,
        rt: &R,
        alloc: Global,
        taken: &[&[u8]],
        pieces: &[Piece],
    ) -> Option<usize> {
        let (at, closed) = self.closes(rt, taken)?;
        let Closed {
            tap,
            answers,
            senders,
            owed,
            lost,
            ..
        } = closed;
        let parts = Parts {
            link: link_to(rt, script(alloc, 65_536, pieces)),
            tap,
            session: session(rt, alloc),
            answers,
            senders,
            owed,
        };
        self.seat = Some(Seat::new(rt, alloc, at, parts, 1_000));
        Some(lost.failed)
    }
}

// Turns a worker, also where a message fills the box, since nobody takes it.
fn runs_on<R: Wait + Abort>(
    rt: &R,
    seat: &mut Seat<MemoryLink<Script>>,
    world: &mut World,
    now: u64,
    turns: u64,
) -> RunEnd {
    for _ in 0..turns {
        let end = seat.run(rt, world, now, turns);
        if end != RunEnd::Filled {
            return end;
        }
    }
    RunEnd::Turns
}

// Whose request a worker sent last, and its command.
fn last_of<L: Link + Drop>(worker: &UpstreamWorker<L>) -> Option<(u64, u32)> {
    let LastRequest { client, command } = worker.last_request()?;
    Some((client, command))
}

fn submit<R: Wait + Abort>(
    rt: &R,
    alloc: Global,
    client: &mut Client,
) -> Result<usize, SubmitFault> {
    client.submit(rt, 7, body_of(rt, alloc, &SUBMIT[16..], 0))
}

// It is submit_sm_resp with the client's own number.
fn collects<R: Wait>(rt: &R, client: &mut Client, want: Option<(u32, &[u8])>) -> bool {
    match client.collect(rt, 0) {
        Ok(Some(pdu)) => {
            (pdu.command, pdu.number) == (0x8000_0004, 7)
                && want == Some((pdu.status, pdu.body.as_slice()))
        }
        Ok(None) => want.is_none(),
        Err(_) => false,
    }
}

fn gets<R: Wait>(rt: &R, inbox: &mut Receiver<MoItem>, want: Option<(u32, &[u8])>) -> bool {
    match inbox.get(rt) {
        Ok(
            Got::Item {
                number,
                content,
                ..
            },
        ) => {
            (number, content.client, content.lane) == (u64::from(content.number), 1, 0)
                && want == Some((content.number, content.pdu.body.as_slice()))
        }
        Ok(Got::Empty) => want.is_none(),
        _ => false,
    }
}

// deliver_sm_resp.
fn answer_to(rt: &impl Abort, alloc: Global, number: u32, status: u32, zeros: usize) -> Pdu {
    Pdu {
        command: 0x8000_0005,
        status,
        number,
        body: body_of(rt, alloc, &[], zeros),
    }
}

// What a worker is made with: the other end of its link, the answer that is in its return box before
// the first turn, how many entries its lane is said to keep, and how many places the client's box has. A
// failed step names the case.
#[derive(Drop)]
struct Setting {
    case: usize,
    script: Script,
    answer: Option<Pdu>,
    history: usize,
    places: usize,
}

impl Setting {
    fn new(case: usize, script: Script) -> Setting {
        Setting {
            case,
            script,
            answer: None,
            history: 1_000,
            places: 1,
        }
    }
}

// A return box of one place, and the client's sender into it.
fn return_box<R: Wait + Abort>(
    rt: &R,
    alloc: Global,
    answer: Option<Pdu>,
) -> (Receiver<Pdu>, Sender<Pdu>) {
    let made = Boxed::new(rt, alloc, 1, 1).ok();
    let (answers, mut clients) = made.expect(rt, "out of memory");
    let mut client = clients.pop().expect(rt, "the box has a sender");
    if let Some(answer) = answer {
        assert!(rt; client.put(rt, answer).is_ok());
    }
    (answers, client)
}

// A window of so many places for the messages of the one slot.
fn windows<R: Abort>(rt: &R, alloc: Global, places: u32) -> Vec<MoWindow> {
    let window = MoWindow::new(alloc, places)
        .ok()
        .expect(rt, "out of memory");
    let mut all = Vec::new(alloc);
    all.push(window).ok().expect(rt, "out of memory");
    all
}

// A client that enters, and a worker. The return box has one place.
fn stand_at<'a, R: Wait + Abort>(
    rt: &R,
    alloc: Global,
    at: &'a Exchange,
    door: &mut Door,
    tap: Tap,
    setting: Setting,
) -> Stand<'a>
    requires door { locks_of door.old.fronts ≡ at.now }
    requires tap { slice_get at.now tap.lane ≡ Some tap.front.lock }
    ensures { locks_of door.new.fronts ≡ at.now }
{
    let Setting {
        script,
        answer,
        history,
        places,
        ..
    } = setting;
    let made = Boxed::new(rt, alloc, 1, places).ok();
    let (inbox, senders) = made.expect(rt, "out of memory");
    let (answers, outbox) = return_box(rt, alloc, answer);
    let parts = Parts {
        link: link_to(rt, script),
        tap,
        session: session(rt, alloc),
        answers,
        senders,
        owed: windows(rt, alloc, if places == 1 { 2 } else { 256 }),
    };
    Stand {
        client: enter(rt, at, door).expect(rt, "no client"),
        seat: Some(Seat::new(rt, alloc, at, parts, history)),
        world: World::new(),
        inbox,
        outbox,
    }
}

fn play<R: Wait + Abort>(rt: &R, alloc: Global, stand: &mut Stand, case: usize, steps: &[Step]) {
    for place in 0..steps.len() {
        let held = stand.holds(rt, alloc, steps[place]);
        hold(rt, held, case, place);
    }
}

// The lane after these steps.
fn lanes_after<R: Wait + Abort>(
    rt: &R,
    alloc: Global,
    setting: Setting,
    steps: &[Step],
) -> Vec<Lane> {
    let Hall {
        exchange,
        mut door,
        mut taps,
    } = Hall::roomy(rt, alloc, 1);
    let tap = last_tap(&exchange, &mut taps).expect(rt, "there is one lane");
    let case = setting.case;
    let mut stand = stand_at(rt, alloc, &exchange, &mut door, tap, setting);
    play(rt, alloc, &mut stand, case, steps);
    drop(stand);
    lanes_of(rt, exchange, door)
}
