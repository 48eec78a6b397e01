use crate::pdus::spelling::{copy, is_spelled, pdu_of};
use crate::rows::check;
use smx_pdu::Pdu;
use smx_session::{Account, Act, Ask, ClientSession, ClientState, Enquiry, Kind, Rules};
use std::alloc::Global;
use std::process::Abort;
use std::test::*;

fn account(rt: &impl Abort, alloc: Global, texts: [u8; 2]) -> Account {
    let [system_id, password] = texts;
    Account {
        system_id: copy(rt, alloc, &[system_id]),
        password: copy(rt, alloc, &[password]),
        rules: Rules::none(),
    }
}

// Whether the act sends these octets, as the answer to a bind of this kind and account where it is one.
fn sends(
    rt: &impl Abort,
    alloc: Global,
    act: &Act,
    bound: Option<(Kind, usize)>,
    octets: &[u8],
) -> bool {
    match act {
        Act::Bind {
            kind,
            account,
            answer,
        } => bound == Some((*kind, *account)) && is_spelled(rt, alloc, answer, octets),
        Act::Answer(answer) | Act::Refuse(answer) | Act::Hangup(answer) => {
            bound.is_none() && is_spelled(rt, alloc, answer, octets)
        }
        _ => false,
    }
}

// The octets of answers to binds with number 7, of a client of SMPP 3.4.
const RX: [u8; 25] = [
    0, 0, 0, 0x19, 0x80, 0, 0, 1, 0, 0, 0, 0, 0, 0, 0, 7, 0x73, 0x6d, 0x78, 0, 2, 0x10, 0, 1, 0x34,
];

const TX: [u8; 25] = [
    0, 0, 0, 0x19, 0x80, 0, 0, 2, 0, 0, 0, 0, 0, 0, 0, 7, 0x73, 0x6d, 0x78, 0, 2, 0x10, 0, 1, 0x34,
];

const TRX: [u8; 25] = [
    0, 0, 0, 0x19, 0x80, 0, 0, 9, 0, 0, 0, 0, 0, 0, 0, 7, 0x73, 0x6d, 0x78, 0, 2, 0x10, 0, 1, 0x34,
];

// The answer to an earlier client has no version.
const EARLIER: [u8; 20] = [
    0, 0, 0, 0x14, 0x80, 0, 0, 9, 0, 0, 0, 0, 0, 0, 0, 7, 0x73, 0x6d, 0x78, 0,
];

// Those to a wrong password, to an unknown system_id, and to a body that can't be read.
const NO_PASSWORD: [u8; 16] = [0, 0, 0, 0x10, 0x80, 0, 0, 9, 0, 0, 0, 0x0E, 0, 0, 0, 7];

const NO_SYSTEM: [u8; 16] = [0, 0, 0, 0x10, 0x80, 0, 0, 9, 0, 0, 0, 0x0F, 0, 0, 0, 7];

const NO_BIND: [u8; 16] = [0, 0, 0, 0x10, 0x80, 0, 0, 9, 0, 0, 0, 2, 0, 0, 0, 7];

// A bind that is accepted.
const BIND: &[u8] = b"a\0p\0\0\x34\0\0\0";

// A bind's command and body, its kind and account where it is accepted, the octets of its answer, and
// the state behind it.
type Row<'a> = (u32, &'a [u8], Option<(Kind, usize)>, &'a [u8], ClientState);

fn holds(rt: &impl Abort, alloc: Global, accounts: &[Account], row: Row) -> bool {
    let (command, body, bound, octets, state) = row;
    let pdu = pdu_of(rt, alloc, command, 7, body);
    let mut session = ClientSession::new(alloc, 0, 0);
    let act = session.on_pdu(&pdu, accounts).expect(rt, "out of memory");
    (session.state() == state) & sends(rt, alloc, &act, bound, octets)
}

// Of accounts with one system_id the first counts; a body that can't be read comes before an
// unknown system_id.
const BINDS: [Row<'static>; 9] = [
    (9, BIND, Some((Kind::Trx, 1)), &TRX, ClientState::BoundTrx),
    (
        9,
        b"a\0p\0\0\x33\0\0\0",
        Some((Kind::Trx, 1)),
        &EARLIER,
        ClientState::BoundTrx,
    ),
    (1, BIND, Some((Kind::Rx, 1)), &RX, ClientState::BoundRx),
    (2, BIND, Some((Kind::Tx, 1)), &TX, ClientState::BoundTx),
    (
        9,
        b"a\0q\0\0\x34\0\0\0",
        None,
        &NO_PASSWORD,
        ClientState::Opened,
    ),
    (
        9,
        b"c\0p\0\0\x34\0\0\0",
        None,
        &NO_SYSTEM,
        ClientState::Opened,
    ),
    (
        9,
        b"\0\0p\0\0\x34\0\0\0",
        None,
        &NO_SYSTEM,
        ClientState::Opened,
    ),
    (9, b"a\0p\0\0\x34\0\0", None, &NO_BIND, ClientState::Opened),
    (9, b"c\0p\0\0\x34\0\0", None, &NO_BIND, ClientState::Opened),
];

fn play(rt: &impl Abort, alloc: Global, accounts: &[Account]) {
    for at in 0..BINDS.len() {
        let holds = holds(rt, alloc, accounts, BINDS[at]);
        check(rt, holds, "binds", at);
    }
}

#[test]
fn binds(rt: HostRuntime) {
    let alloc = rt.alloc();
    let accounts = [
        account(&rt, alloc, *b"bq"),
        account(&rt, alloc, *b"ap"),
        account(&rt, alloc, *b"aq"),
    ];
    play(&rt, alloc, &accounts);
}

// Whether the session accepts the bind, or stays open for want of memory and accepts it then.
fn binds_at_last(session: &mut ClientSession, accounts: &[Account], pdu: &Pdu) -> bool {
    for _ in 0..2 {
        if let Ok(act) = session.on_pdu(pdu, accounts) {
            return matches!(act, Act::Bind { .. });
        }
        if session.state() != ClientState::Opened {
            return false;
        }
    }
    false
}

// Want of memory leaves the session open: refuse-memory refuses each allocation in turn, one in
// a run. The account's texts are empty.
#[test]
fn refused_memory(rt: HostRuntime) {
    let accounts = [Account {
        system_id: Vec::new(rt.alloc()),
        password: Vec::new(rt.alloc()),
        rules: Rules::none(),
    }];
    let Ok(body) = Vec::from_slice(rt.alloc(), b"\0\0\0\x34\0\0\0") else {
        return;
    };
    let pdu = Pdu::new(9, 0, 7, body).ok().expect(&rt, "short enough");
    let mut session = ClientSession::new(rt.alloc(), 0, 0);
    assert!(rt; binds_at_last(&mut session, &accounts, &pdu));
    assert!(rt; session.state() == ClientState::BoundTrx);
}

// A bind, a request of a client that is bound, and what leave each asks for.
const NOT_GIVEN: [u8; 16] = [0, 0, 0, 0x10, 0x80, 0, 0, 9, 0, 0, 0, 0x0D, 0, 0, 0, 7];

const FULL: [u8; 16] = [0, 0, 0, 0x10, 0x80, 0, 0, 4, 0, 0, 0, 0x14, 0, 0, 0, 7];

#[test]
fn leave_is_asked(rt: HostRuntime) {
    let alloc = rt.alloc();
    let accounts = [account(&rt, alloc, *b"bq"), account(&rt, alloc, *b"ap")];
    let session = ClientSession::new(alloc, 0, 0);
    let pdu = pdu_of(&rt, alloc, 9, 7, BIND);
    assert!(rt; session.asks(&pdu, &accounts) == Some(Ask::Bind(1)));
    assert!(rt;
        sends(
            &rt,
            alloc,
            &session.bars(&pdu, Ask::Bind(1)),
            None,
            &NOT_GIVEN
        )
    );
    let other = pdu_of(&rt, alloc, 9, 7, b"a\0q\0\0\x34\0\0\0");
    assert!(rt; session.asks(&other, &accounts) == Some(Ask::RefusedBind));
    let request = pdu_of(&rt, alloc, 4, 7, b"");
    assert!(rt; session.asks(&request, &accounts).is_none());
    let session = ClientSession::bound(alloc, Kind::Tx, 0, 0);
    assert!(rt; session.asks(&request, &accounts) == Some(Ask::Request));
    assert!(rt;
        sends(
            &rt,
            alloc,
            &session.bars(&request, Ask::Request),
            None,
            &FULL
        )
    );
}

// The proxy's unbind, number 7fffffff, goes to a client that is bound, once. The client's answer
// ends the session.
const UNBIND: [u8; 16] = [
    0, 0, 0, 0x10, 0, 0, 0, 6, 0, 0, 0, 0, 0x7F, 0xFF, 0xFF, 0xFF,
];

#[test]
fn client_is_unbound(rt: HostRuntime) {
    let alloc = rt.alloc();
    assert!(rt; ClientSession::new(alloc, 0, 0).stop().is_none());
    let mut session = ClientSession::bound(alloc, Kind::Rx, 0, 0);
    let unbind = session.stop().expect(&rt, "it was bound");
    assert!(rt; is_spelled(&rt, alloc, &unbind, &UNBIND));
    assert!(rt; session.stop().is_none());
    let answer = Pdu::header_only(alloc, 0x8000_0006, 0, 0x7FFF_FFFF);
    let act = session.on_pdu(&answer, &[]).expect(&rt, "out of memory");
    assert!(rt; matches!(act, Act::Closed));
    assert!(rt; session.state() == ClientState::Ended);
}

// At a length that no PDU has.
#[test]
fn client_fault(rt: HostRuntime) {
    let octets = [0, 0, 0, 0x10, 0x80, 0, 0, 0, 0, 0, 0, 2, 0, 0, 0, 0];
    let mut session = ClientSession::bound(rt.alloc(), Kind::Trx, 0, 0);
    let act = session.on_fault();
    assert!(rt; sends(&rt, rt.alloc(), &act, None, &octets));
    assert!(rt; session.state() == ClientState::Ended);
}

// What a client's session is told at a moment, and what is found.
#[derive(Clone, Copy)]
enum Beat {
    Octets(u64),
    // Nothing is due.
    Quiet(u64),
    // The enquire_link with the number 7fffffff.
    Enquires(u64),
    // It is silent, and has ended.
    Silent(u64),
    Is(ClientState),
}

const ENQUIRY: [u8; 16] = [
    0, 0, 0, 0x10, 0, 0, 0, 0x15, 0, 0, 0, 0, 0x7F, 0xFF, 0xFF, 0xFF,
];

fn beats(rt: &impl Abort, alloc: Global, session: &mut ClientSession, beat: Beat) -> bool {
    match beat {
        Beat::Octets(now) => {
            session.on_octets(now);
            true
        }
        Beat::Quiet(now) => matches!(session.on_moment(now), Enquiry::NotDue),
        Beat::Enquires(now) => match session.on_moment(now) {
            Enquiry::Due(pdu) => is_spelled(rt, alloc, &pdu, &ENQUIRY),
            Enquiry::NotDue | Enquiry::Unanswered => false,
        },
        Beat::Silent(now) => {
            matches!(session.on_moment(now), Enquiry::Unanswered) & session.is_silent()
        }
        Beat::Is(state) => (session.state() == state) & !session.is_silent(),
    }
}

// Heard last at 5, it enquires at 1005; an octet at 2004 is life, so it enquires again at 3004 and
// is silent at 4004. A second enquiry isn't sent, and a moment that goes back counts as the last one.
const BEATS: [Beat; 12] = [
    Beat::Octets(5),
    Beat::Quiet(1004),
    Beat::Enquires(1005),
    Beat::Quiet(2004),
    Beat::Octets(2004),
    Beat::Quiet(3003),
    Beat::Enquires(3004),
    Beat::Quiet(30),
    Beat::Quiet(4003),
    Beat::Is(ClientState::BoundTx),
    Beat::Silent(4004),
    Beat::Quiet(90_000),
];

// Without a silence none is sent.
const NEVER: [Beat; 2] = [Beat::Quiet(u64::MAX), Beat::Is(ClientState::BoundTx)];

// Before it is bound none is sent.
const UNBOUND: [Beat; 2] = [Beat::Quiet(u64::MAX), Beat::Is(ClientState::Opened)];

fn plays(rt: &impl Abort, alloc: Global, mut session: ClientSession, rows: &[Beat]) {
    for at in 0..rows.len() {
        let holds = beats(rt, alloc, &mut session, rows[at]);
        check(rt, holds, "beats", at);
    }
}

#[test]
fn client_moments(rt: HostRuntime) {
    let alloc = rt.alloc();
    plays(
        &rt,
        alloc,
        ClientSession::bound(alloc, Kind::Tx, 1000, 0),
        &BEATS,
    );
    plays(
        &rt,
        alloc,
        ClientSession::bound(alloc, Kind::Tx, 0, 0),
        &NEVER,
    );
    plays(&rt, alloc, ClientSession::new(alloc, 1000, 0), &UNBOUND);
}
