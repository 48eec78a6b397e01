//! One client that is served.

use crate::addresses::Addresses;
use crate::desk::{change_of, prefixes_of};
use crate::mail::Counted;
use crate::pace::Moment;
use crate::preface::{Preface, Prefaced};
use crate::queues::{OCTETS, Progress, Queues, TURNS, is_enough, is_read_out};
use crate::refusals::Refusals;
use crate::seats::Member;
use crate::stillness::Stillness;
use smx_client::Desk;
use smx_notice::{
    AccountChange, BindSaid, ClientEnd, ClientName, ClientNews, ClientStanding, Notice,
};
use smx_pdu::read_bind;
use smx_pdu::status::ESME_RINVSYSID;
use smx_session::{ClientState, Kind};
use smx_slots::{ClientBell, ClientEnds, ClientTurn, Guide};
use smx_socket::Socket;
use smx_turns::{Directory, End, RunEnd};
use std::alloc::Global;
use std::rc::Rc;
use std::sync::Wait;

/// A client that is served.
#[derive(Drop)]
pub(crate) struct Guest<'d> {
    pub client: u64,
    pub address: String,
    pub member: Member<'d>,
    pub socket: Rc<Socket>,
    pub desk: &'d Desk,
    // The system_id of its account, once it is bound, and as what it is.
    pub name: Option<&'d str>,
    pub kind: Option<Kind>,
    // Since which moment it is connected, in milliseconds, and whether the last tick found its bind
    // late.
    pub since: u64,
    pub is_late: bool,
    // The header that stands before its PDUs, where that isn't read yet.
    pub preface: Option<Preface>,
    pub refusals: Refusals,
    // What the last tick saw of its socket.
    pub stillness: Stillness,
    // Up to which moment its answer to the proxy's unbind is awaited, where it was sent one.
    pub parting: Option<u64>,
}

/// How long the answer to an unbind is awaited, in milliseconds.
const PARTING: u64 = 1_000;

// As what a client is bound; None where it isn't.
fn kind_of(state: ClientState) -> Option<Kind> {
    match state {
        ClientState::BoundTx => Some(Kind::Tx),
        ClientState::BoundRx => Some(Kind::Rx),
        ClientState::BoundTrx => Some(Kind::Trx),
        _ => None,
    }
}

impl<'d> Guest<'d> {
    // Whether a turn that did something left nothing to do, as another one would only find: all that came is
    // decided, of so many messages none waits, and what was said is taken now. What comes from now on makes
    // the party ready.
    fn is_through(&mut self, state: ClientState, messages: u64) -> bool {
        kind_of(state).is_some()
            && messages == 0
            && !self.refusals.is_over()
            && is_read_out(&self.socket)
            && self.member.offer_rest()
    }

    // Runs the worker turn by turn, until it is idle or the party's turn is over: how that ended, and
    // where its session stands.
    fn run<R: Wait>(
        &mut self,
        rt: &R,
        gate: &mut Counted<'_, ClientBell<'_>>,
        guide: &mut Guide<'_>,
        now: u64,
    ) -> (RunEnd, ClientState) {
        let before = self.socket.traffic();
        let mut ran = self.member.run(rt, gate, guide, now, 1);
        for _ in 1..TURNS {
            let (end, state) = ran;
            if end != RunEnd::Turns {
                break;
            }
            if self.is_through(state, gate.messages()) {
                return (RunEnd::Idle, state);
            }
            if is_enough(before, self.socket.traffic(), OCTETS) {
                break;
            }
            ran = self.member.run(rt, gate, guide, now, 1);
        }
        ran
    }

    // What a turn of its worker may do.
    fn allowed(&self, now: u64, slot: usize) -> ClientTurn {
        ClientTurn {
            client: self.client,
            slot,
            may_read: !self.refusals.is_over(),
            may_refuse: self.refusals.may_refuse(now),
        }
    }

    // Takes in what a turn came to: whether a bind was refused, which is said, and by which account the
    // client is bound.
    fn heed<R: Wait>(&mut self, rt: &R, moment: &Moment<'_>, has_refused: bool) {
        if has_refused {
            self.refusals.add(moment.now);
            self.say_refused(rt, moment);
        }
        if let (None, Some(account)) = (self.name, self.member.account()) {
            self.name = Some(name_at(self.desk, account));
        }
    }

    // Makes a turn of the client's worker; who is told of something is ready then.
    fn turn_worker<R: Wait>(
        &mut self,
        rt: &R,
        moment: &Moment<'_>,
        queues: &mut Queues,
        addresses: &mut Addresses,
        slot: usize,
    ) -> (RunEnd, ClientState) {
        let now = moment.now;
        let before = self.socket.traffic();
        let bell = ClientBell::new(
            queues.lanes,
            &mut queues.schedule,
            &addresses.roll,
            &mut addresses.ledger,
            &mut addresses.hints,
            self.allowed(now, slot),
        );
        let mut guide = Guide::new(&mut addresses.routes, &addresses.roll);
        let mut gate = Counted {
            gate: bell,
            mail: &mut addresses.mail,
            slot: Some(slot),
            settled: 0,
        };
        let (end, state) = self.run(rt, &mut gate, &mut guide, now);
        let progress = Progress {
            end,
            moved: self.socket.traffic() != before,
            rang: gate.gate.has_rung(),
            writable: self.socket.is_writable(),
        };
        let has_refused = gate.gate.has_refused();
        self.heed(rt, moment, has_refused);
        if kind_of(state).is_some() {
            queues.bind(slot);
        }
        queues.was_turned(queues.party(slot), progress);
        (end, state)
    }

    // Reads what stands before its PDUs: whether that is over. None where it is no such header.
    fn is_introduced(&mut self, alloc: Global) -> Option<bool> {
        let Some(preface) = &mut self.preface else {
            return Some(true);
        };
        let source = match preface.read(&self.socket) {
            Prefaced::Waits => return Some(false),
            Prefaced::Wrong => return None,
            Prefaced::Whole(source) => source,
        };
        self.preface = None;
        if let Some(source) = source {
            self.address = format!(in alloc; "{source}").ok()?;
        }
        Some(true)
    }

    // Makes a turn of the client; who is told of something is ready then. None where it doesn't begin with
    // the header that is wanted.
    pub fn turn<R: Wait>(
        &mut self,
        rt: &R,
        moment: &Moment<'_>,
        queues: &mut Queues,
        addresses: &mut Addresses,
        slot: usize,
    ) -> Option<(RunEnd, ClientState)> {
        if self.preface.is_some() {
            if !self.is_introduced(moment.alloc)? {
                return Some((RunEnd::Idle, ClientState::Opened));
            }
            self.say(rt, moment, ClientNews::Connected);
        }
        Some(self.turn_worker(rt, moment, queues, addresses, slot))
    }

    // Sends its client unbind: no message goes to it from now on, and its answer is awaited for a second.
    // False where it isn't bound, or there was no memory. One that was sent it isn't sent it again.
    pub fn unbind<R: Wait>(&mut self, rt: &R, addresses: &mut Addresses, now: u64) -> bool {
        if self.parting.is_some() {
            return true;
        }
        if !self.member.stop() {
            return false;
        }
        let mut guide = Guide::new(&mut addresses.routes, &addresses.roll);
        guide.remove(rt, self.client);
        self.parting = Some(now.saturating_add(PARTING));
        true
    }

    // Whether its answer to the proxy's unbind is awaited no more.
    pub fn has_parted(&self, now: u64) -> bool {
        match self.parting {
            Some(until) => now >= until,
            None => false,
        }
    }

    // Whether octets wait for it of which it took none for so long, in milliseconds (0: never).
    pub fn is_stuck(&mut self, now: u64, most: u64) -> bool {
        let (waiting, traffic) = (self.socket.waiting(), self.socket.traffic());
        most > 0 && self.stillness.look(waiting, traffic, now, most)
    }

    // Whether so many binds of it were refused that it is closed, and the last answer is written.
    pub fn is_refused(&self) -> bool {
        self.refusals.is_over() && self.member.unsent() == 0
    }

    // Closes the worker; the lanes may have answers to its messages. Its socket and its ends are
    // left.
    pub fn close<R: Wait>(
        self,
        rt: &R,
        queues: &mut Queues,
        addresses: &mut Addresses,
    ) -> (Rc<Socket>, ClientEnds) {
        let Guest {
            client,
            member,
            socket,
            ..
        } = self;
        let mut guide = Guide::new(&mut addresses.routes, &addresses.roll);
        let (ends, answered) = member.close(rt, &mut guide);
        addresses.roll.remove(client);
        addresses.ledger.leave(client);
        if answered {
            addresses.mail.mark_all();
            queues.add_lanes();
        }
        (socket, ends)
    }

    // Whether its bind is late, as an earlier tick found too: what had come while the program stood
    // still was read between the two.
    pub fn stays_late(&mut self, now: u64, most: u64) -> bool {
        let was_late = self.is_late;
        self.is_late = self.name.is_none() && now >= self.since.saturating_add(most);
        was_late && self.is_late
    }

    // As lines name its client.
    pub fn named(&self) -> ClientName<'_> {
        ClientName {
            client: self.client,
            system_id: self.name,
            address: self.address.as_str(),
        }
    }

    // How its client stands, of which so many requests are under way and so many messages unanswered.
    pub fn standing(&self, requests: u64, messages: u64, now: u64) -> ClientStanding {
        ClientStanding {
            kind: self.kind,
            time: now.saturating_sub(self.since),
            requests,
            messages,
            octets: self.member.unsent(),
            waits: self.socket.has_octets(),
        }
    }

    // Says what becomes of its client.
    pub fn say<R: Wait>(&self, rt: &R, moment: &Moment<'_>, news: ClientNews<'_>) {
        moment.say(rt, Notice::Client(self.named(), news));
    }

    // Why its client is gone, whose worker's last run ended so.
    pub fn farewell(&self, end: RunEnd) -> ClientEnd {
        if let RunEnd::Fault(fault) = end {
            return ClientEnd::Fault(fault);
        }
        match self.member.ending() {
            Some(End::Left) if self.parting.is_none() => ClientEnd::Left,
            Some(End::Left | End::Stopped) => ClientEnd::Unbound,
            Some(End::BadLength) => ClientEnd::BadLength,
            Some(End::Silent) => ClientEnd::Silent,
            Some(End::LinkEnded | End::Refused(_) | End::LaneDown) => ClientEnd::Closed,
            None => ClientEnd::Stopped,
        }
    }

    // What became of its client's account, where it is bound and the account changed; that is said.
    pub fn change<R: Wait>(&self, rt: &R, moment: &Moment<'_>) -> Option<AccountChange> {
        let change = change_of(self.desk, self.name?.as_bytes(), moment.desk)?;
        self.say(rt, moment, ClientNews::Changed(change));
        Some(change)
    }

    // Messages go to its client by the prefixes that its account has now. Where there is no memory for all
    // of them, that is said.
    pub fn reroute<R: Wait>(&mut self, rt: &R, moment: &Moment<'d>, addresses: &mut Addresses) {
        self.desk = moment.desk;
        if !matches!(self.kind, Some(Kind::Rx | Kind::Trx)) {
            return;
        }
        let mut guide = Guide::new(&mut addresses.routes, &addresses.roll);
        guide.remove(rt, self.client);
        let Some(prefixes) = prefixes_of(moment.desk, self.name) else {
            return;
        };
        for prefix in prefixes {
            if guide.add(rt, prefix.as_slice(), self.client).is_err() {
                self.say(rt, moment, ClientNews::Unrouted);
                return;
            }
        }
    }

    // Says which bind of its client was refused last: by the name of its account where it has one, else by
    // what it said.
    fn say_refused<R: Wait>(&self, rt: &R, moment: &Moment<'_>) {
        let Some(refusal) = self.member.refused() else {
            return;
        };
        let status = refusal.status;
        let (system_id, said) = match read_bind(refusal.bind.body.as_slice()) {
            Ok(bind) if status == ESME_RINVSYSID => (None, BindSaid::Unknown(bind.system_id)),
            Ok(bind) => (name_of(self.desk, bind.system_id), BindSaid::Known),
            Err(_) => (None, BindSaid::Unreadable),
        };
        let name = ClientName {
            system_id,
            ..self.named()
        };
        let news = ClientNews::BindRefused { status, said };
        moment.say(rt, Notice::Client(name, news));
    }

    // Says as what its client is bound, and by which account, where it is and that wasn't said.
    pub fn say_bound<R: Wait>(&mut self, rt: &R, moment: &Moment<'_>, state: ClientState) {
        let Some(kind) = kind_of(state) else {
            return;
        };
        if self.kind.is_none() {
            self.kind = Some(kind);
            self.say(rt, moment, ClientNews::Bound(kind));
        }
    }
}

// The system_id of the account of the desk that has it.
fn name_of<'d>(desk: &'d Desk, system_id: &[u8]) -> Option<&'d str> {
    let accounts = desk.accounts.as_slice();
    let place = accounts
        .iter()
        .position(|account| account.system_id.as_slice() == system_id)?;
    Some(name_at(desk, place))
}

// The system_id of an account of the desk.
fn name_at(desk: &Desk, account: usize) -> &str {
    match desk.accounts.as_slice().get(account) {
        Some(account) => str::from_utf8(account.system_id.as_slice()).unwrap_or(UNNAMED),
        None => UNNAMED,
    }
}

/// The name of an account whose system_id is no text: none is so.
const UNNAMED: &str = "?";
