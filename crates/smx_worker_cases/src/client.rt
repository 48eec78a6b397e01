//! What a client's link takes, and what becomes of its requests and messages: steps as rows, each
//! with what is to be found.
ghost use Rattle.std.specs.Prelude.{◌≡◌, ◌≢◌, length, None, All, Some, slice_get, false};
ghost use Rattle.smx_shared.specs.Views.{locks_of};
ghost use Rattle.smx_client.specs.declared.stage.Stage.{Stage};

use crate::hall::{Brought, Hall, Line, hold, lanes_of, lines_of};
use crate::stand::{Piece, World, body_of, link_to, name_want, octets_in, script, took};
use smx_box::{Boxed, Got, Receiver, Sender};
use smx_client::{ClientWorker, Desk, run_client};
use smx_lane::Lane;
use smx_link::Link;
use smx_memory_link::{MemoryLink, Script};
use smx_pdu::Pdu;
use smx_session::{Account, ClientState, Rules};
use smx_shared::{Door, Exchange, Port, Tap};
use smx_turns::{Directory, End, Gate, MoItem, Party, Point, RunEnd};
use std::alloc::Global;
use std::process::Abort;
use std::sync::Wait;

mod hostile;
mod passing;

// bind_transceiver of the system_id `a` with the password `p`, number 1.
const BIND: &[u8] = b"\0\0\0\x19\0\0\0\x09\0\0\0\0\0\0\0\x01a\0p\0\0\x34\0\0\0";

// Its answer: the system_id `smx`, and sc_interface_version 0x34.
const BOUND: [u8; 25] = *b"\0\0\0\x19\x80\0\0\x09\0\0\0\0\0\0\0\x01smx\0\x02\x10\0\x01\x34";

// What is done, and what is found.
#[derive(Clone, Copy)]
enum Step<'s> {
    // The moment is this from now on, at first 0.
    At(u64),
    // The worker is turned at most so often.
    Runs(u64, RunEnd),
    // How client 1 is bound, and how many octets wait for its link.
    Stands(ClientState, usize),
    // How its work ended.
    Ended(Option<End>),
    // The account by which it is bound.
    Account(Option<usize>),
    // The last bind of it that was refused, the status and the body.
    Refused(Option<(u32, &'s [u8])>),
    // The gate says no at this point from now on.
    Shuts(Option<Point>),
    // The client is to be sent unbind: whether it was bound.
    Stops(bool),
    // Whom the gate was told of last.
    Told(Option<Party>),
    // How many prefixes were entered, and clients removed.
    Routes(u64, u64),
    // A deliver_sm with the centre's number and no body is put into the client's box.
    Sends(u32),
    // The command, the status and the number of the next answer in the last lane's return box.
    Gets(Option<(u32, u32, u32)>),
    // The lane's request is answered with a body of these octets, and so many zeros behind them.
    Responds(usize, &'s [u8], usize),
    // The client is gone. Its link took just this, one part after another; whether a return box took
    // an answer then.
    Closes(&'s [&'s [u8]], bool),
}

/// A client's worker with its exchange.
#[derive(Drop)]
pub struct Seat<'a, 'd, L: Link + Drop> {
    pub at: &'a Exchange,
    pub worker: ClientWorker<'d, L>,
    pub now: u64,
    // A fault ended a run.
    faulty: bool,
    ghost fits: { locks_of worker.port.fronts ≡ at.now },
    ghost goes_on: { faulty ≡ false → worker.stage ≢ Stage.Closed → worker.wire.failed ≡ None },
}

impl<L: Link + Drop> Seat<'_, '_, L> {
    pub fn run<R: Wait + Abort, G: Gate, D: Directory>(
        &mut self,
        rt: &R,
        gate: &mut G,
        directory: &mut D,
        turns: u64,
    ) -> RunEnd {
        if self.faulty {
            return RunEnd::Left;
        }
        let end = run_client(
            &mut self.worker,
            self.at,
            rt,
            gate,
            directory,
            self.now,
            turns,
        );
        self.faulty = matches!(end, RunEnd::Fault(_));
        name_want(rt, end);
        end
    }
}

impl Seat<'_, '_, MemoryLink<Script>> {
    fn stands(&self, state: ClientState, unsent: usize) -> bool {
        let worker = &self.worker;
        (worker.client(), worker.state(), worker.unsent()) == (1, state, unsent)
    }

    fn closes<R: Wait>(self, rt: &R, world: &mut World, parts: &[&[u8]], answered: bool) -> bool {
        let Seat { at, worker, .. } = self;
        let closed = worker.close(at, rt, &mut world.book);
        took(&closed.link, parts) && closed.answered == answered
    }
}

// A client's worker until it is closed, what it is lent, the sender of its box, the other end of each
// lane's return box, and the lanes.
#[derive(Drop)]
struct Stand<'a, 'd> {
    seat: Option<Seat<'a, 'd, MemoryLink<Script>>>,
    world: World,
    messages: Vec<Sender<MoItem>>,
    answers: Vec<Receiver<Pdu>>,
    lines: Vec<Line<'a>>,
}

impl Stand<'_, '_> {
    fn holds<R: Wait + Abort>(&mut self, rt: &R, alloc: Global, step: Step) -> bool {
        match step {
            Step::At(now) => {
                if let Some(seat) = &mut self.seat {
                    seat.now = now;
                }
                true
            }
            Step::Runs(turns, want) => match &mut self.seat {
                Some(seat) => {
                    let World { gate, book } = &mut self.world;
                    seat.run(rt, gate, book, turns) == want
                }
                None => false,
            },
            Step::Stands(state, unsent) => match &self.seat {
                Some(seat) => seat.stands(state, unsent),
                None => false,
            },
            Step::Ended(want) => match &self.seat {
                Some(seat) => seat.worker.ending() == want,
                None => false,
            },
            Step::Account(want) => match &self.seat {
                Some(seat) => seat.worker.account() == want,
                None => false,
            },
            Step::Refused(want) => match &self.seat {
                Some(seat) => was_refused(&seat.worker, want),
                None => false,
            },
            Step::Shuts(point) => {
                self.world.gate.shut = point;
                true
            }
            Step::Stops(want) => match &mut self.seat {
                Some(seat) => seat.worker.stop() == Ok(want),
                None => false,
            },
            Step::Told(want) => self.world.gate.last == want,
            Step::Routes(added, removed) => {
                (self.world.book.added, self.world.book.removed) == (added, removed)
            }
            Step::Sends(number) => sends(rt, alloc, &mut self.messages, number),
            Step::Gets(want) => gets(rt, &mut self.answers, want),
            Step::Responds(lane, octets, zeros) => match self.lines.get_mut(lane) {
                Some(line) => responds(rt, alloc, line, octets, zeros),
                None => false,
            },
            Step::Closes(parts, answered) => match self.seat.take() {
                Some(seat) => seat.closes(rt, &mut self.world, parts, answered),
                None => false,
            },
        }
    }
}

// It is the last bind that was refused, with its status and its body.
fn was_refused<L: Link + Drop>(worker: &ClientWorker<'_, L>, want: Option<(u32, &[u8])>) -> bool {
    match worker.refused() {
        Some(refusal) => want == Some((refusal.status, refusal.bind.body.as_slice())),
        None => want.is_none(),
    }
}

// A message from lane 0 for the first client.
fn sends<R: Wait>(rt: &R, alloc: Global, messages: &mut Vec<Sender<MoItem>>, number: u32) -> bool {
    let message = MoItem {
        client: 1,
        lane: 0,
        number,
        pdu: Pdu::header_only(alloc, 5, 0, number),
    };
    match messages.last_mut() {
        Some(sender) => sender.put(rt, message).is_ok(),
        None => false,
    }
}

fn gets<R: Wait>(rt: &R, answers: &mut Vec<Receiver<Pdu>>, want: Option<(u32, u32, u32)>) -> bool {
    let Some(receiver) = answers.last_mut() else {
        return false;
    };
    match receiver.get(rt) {
        Ok(Got::Item { content, .. }) => {
            want == Some((content.command, content.status, content.number))
        }
        _ => want.is_none(),
    }
}

// The answer is for client 1.
fn responds<R: Wait + Abort>(
    rt: &R,
    alloc: Global,
    line: &mut Line,
    octets: &[u8],
    zeros: usize,
) -> bool {
    let body = body_of(rt, alloc, octets, zeros);
    match line.tap.take(line.at, rt, 0) {
        Ok(sent) => line.answer(rt, sent.upstream, body) == Brought::To(1),
        Err(_) => false,
    }
}

/// The account `a` with the password `p` and two prefixes.
pub fn desk(rt: &impl Abort, alloc: Global) -> Desk {
    let account = Account {
        system_id: octets_in(rt, alloc, b"a"),
        password: octets_in(rt, alloc, b"p"),
        rules: Rules::none(),
    };
    let mut own = Vec::new(alloc);
    for prefix in [&b"49"[..], &b"491"[..]] {
        let added = own.push(octets_in(rt, alloc, prefix));
        added.expect(rt, "out of memory");
    }
    let mut accounts = Vec::new(alloc);
    let mut prefixes = Vec::new(alloc);
    accounts.push(account).expect(rt, "out of memory");
    prefixes.push(own).expect(rt, "out of memory");
    Desk { accounts, prefixes }
}

// The return box of each lane, of so many places: their senders, and their other ends.
fn return_boxes<R: Wait + Abort>(
    rt: &R,
    alloc: Global,
    lanes: usize,
    places: usize,
) -> (Vec<Sender<Pdu>>, Vec<Receiver<Pdu>>) {
    let mut answers = Vec::new(alloc);
    let mut senders = Vec::new(alloc);
    for _lane in 0..lanes {
        let made = Boxed::new(rt, alloc, 1, places).ok();
        let (receiver, mut own) = made.expect(rt, "out of memory");
        let sender = own.pop().expect(rt, "a box has a sender");
        answers.push(receiver).expect(rt, "out of memory");
        senders.push(sender).expect(rt, "out of memory");
    }
    (senders, answers)
}

/// There must be a sender for each lane. The silence and the time of a message are in
/// milliseconds, 0: none.
pub fn seat_of<'a, 'd, L: Link + Drop>(
    rt: &impl Abort,
    alloc: Global,
    at: &'a Exchange,
    desk: &'d Desk,
    port: Port,
    inbox: Receiver<MoItem>,
    senders: Vec<Sender<Pdu>>,
    link: L,
    silence: u64,
    message_time: u64,
) -> Seat<'a, 'd, L>
    requires { locks_of port.fronts ≡ at.now }
{
    if senders.len() != port.lanes() {
        panic!(rt; "each lane has a sender")
    }
    let worker = ClientWorker::new(
        alloc,
        port,
        desk,
        inbox,
        senders,
        4,
        link,
        silence,
        message_time,
        0,
    )
    .ok();
    Seat {
        at,
        worker: worker.expect(rt, "out of memory"),
        now: 0,
        faulty: false,
    }
}

// What a worker is made with: the other end of its link, how many lanes there are, and how many
// places each return box has. A failed step names the case.
#[derive(Drop)]
struct Setting {
    case: usize,
    script: Script,
    lanes: usize,
    places: usize,
    // The silence after which it enquires.
    silence: u64,
    // How long a message may wait.
    message_time: u64,
}

impl Setting {
    fn new(case: usize, script: Script) -> Setting {
        Setting {
            case,
            script,
            lanes: 1,
            places: 4,
            silence: 0,
            message_time: 0,
        }
    }
}

// A client that enters, and its worker, whose box has four places.
fn stand_at<'a, 'd, R: Wait + Abort>(
    rt: &R,
    alloc: Global,
    at: &'a Exchange,
    door: &mut Door,
    taps: Vec<Tap>,
    desk: &'d Desk,
    setting: Setting,
) -> Stand<'a, 'd>
    requires door { locks_of door.old.fronts ≡ at.now }
    requires taps { All (λ t. slice_get at.now t.lane ≡ Some t.front.lock) taps.items }
    ensures { locks_of door.new.fronts ≡ at.now }
{
    let Setting {
        script,
        lanes,
        places,
        silence,
        message_time,
        ..
    } = setting;
    let made = Boxed::new(rt, alloc, 1, 4).ok();
    let (inbox, messages) = made.expect(rt, "out of memory");
    let (senders, answers) = return_boxes(rt, alloc, lanes, places);
    let port = door.enter(at, rt).ok().expect(rt, "out of memory");
    let link = link_to(rt, script);
    Stand {
        seat: Some(seat_of(
            rt,
            alloc,
            at,
            desk,
            port,
            inbox,
            senders,
            link,
            silence,
            message_time,
        )),
        world: World::new(),
        messages,
        answers,
        lines: lines_of(alloc, at, taps).expect(rt, "out of memory"),
    }
}

fn play<R: Wait + Abort>(rt: &R, alloc: Global, stand: &mut Stand, case: usize, steps: &[Step]) {
    for place in 0..steps.len() {
        let held = stand.holds(rt, alloc, steps[place]);
        hold(rt, held, case, place);
    }
}

// The lanes after these steps.
fn lanes_after<R: Wait + Abort>(
    rt: &R,
    alloc: Global,
    setting: Setting,
    steps: &[Step],
) -> Vec<Lane> {
    let Hall {
        exchange,
        mut door,
        taps,
    } = Hall::roomy(rt, alloc, setting.lanes);
    let desk = desk(rt, alloc);
    let case = setting.case;
    let mut stand = stand_at(rt, alloc, &exchange, &mut door, taps, &desk, setting);
    play(rt, alloc, &mut stand, case, steps);
    drop(stand);
    lanes_of(rt, exchange, door)
}
