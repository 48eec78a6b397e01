use crate::pdus::spelling::{copy, pdu_of};
use crate::rows::{check, says};
use smx_bodies::{Unreadable, check_body};
use smx_session::{
    Account, Act, Ask, Bodies, ClientSession, ClientState, Commands, Kind, Rules, UpstreamBind,
    UpstreamSession,
};
use std::alloc::Global;
use std::process::Abort;
use std::test::*;

// The shortest body of each request, but for an address 1, a message hi and a message_id 7, and how many
// octets stand before its sm_length.
const SUBMIT_SM: &[u8] = b"\0\0\0\0\0\x001\0\0\0\0\0\0\0\0\0\0\x02hi";

const SUBMIT_MULTI: &[u8] = b"\0\0\0\0\x02\x01\0\x001\0\x02l\0\0\0\0\0\0\0\0\0\0\x02hi";

const DATA_SM: &[u8] = b"\0\0\0\0\0\x001\0\0\0\0";

const QUERY_SM: &[u8] = b"7\0\0\0\0";

const CANCEL_SM: &[u8] = b"\x007\0\0\0\0\0\x001\0";

const REPLACE_SM: &[u8] = b"7\0\0\0\0\0\0\0\0\x02hi";

const WHOLE: [(u32, &[u8], usize); 6] = [
    (4, SUBMIT_SM, 17),
    (0x21, SUBMIT_MULTI, 22),
    (0x103, DATA_SM, 11),
    (3, QUERY_SM, 5),
    (8, CANCEL_SM, 10),
    (7, REPLACE_SM, 9),
];

// What the first octets of a body are read as: one whose message is cut, or one that ends before.
fn cut(len: usize, message: usize) -> Unreadable {
    if len > message {
        Unreadable::ShortMessage
    } else {
        Unreadable::Fields
    }
}

// Each body is read as it stands, and no shorter one is.
#[test]
fn parts_of_requests(rt: HostRuntime) {
    for at in 0..WHOLE.len() {
        let (command, body, message) = WHOLE[at];
        check(&rt, check_body(command, body).is_ok(), "requests", at);
        for len in 0..body.len() {
            let read = check_body(command, &body[..len]);
            let is_cut = read == Err(cut(len, message));
            check(&rt, is_cut, "requests that are cut", at);
        }
    }
}

// user_message_reference 1 (5.3.2.17), and the same cut.
const PARAMETER: &[u8] = b"\x02\x04\0\x02\0\x01";

fn read_with(
    rt: &impl Abort,
    alloc: Global,
    command: u32,
    body: &[u8],
    more: &[u8],
) -> Result<(), Unreadable> {
    let mut octets = copy(rt, alloc, body);
    octets.extend_from_slice(more).expect(rt, "out of memory");
    check_body(command, &octets)
}

// Optional parameters follow the fields of submit_sm, submit_multi and data_sm alone, and are whole.
#[test]
fn parameters_of_requests(rt: HostRuntime) {
    let alloc = rt.alloc();
    for at in 0..WHOLE.len() {
        let (command, body, _) = WHOLE[at];
        let read = read_with(&rt, alloc, command, body, PARAMETER);
        check(&rt, read.is_ok() == (at < 3), "parameters", at);
        for len in 1..PARAMETER.len() {
            let cut = read_with(&rt, alloc, command, body, &PARAMETER[..len]);
            let is_cut = cut == Err(Unreadable::Fields);
            check(&rt, is_cut, "parameters that are cut", at * 100 + len);
        }
    }
}

const REASONS: [(Unreadable, u32, &str); 2] = [
    (
        Unreadable::ShortMessage,
        1,
        "the short message isn't as long as its length says",
    ),
    (
        Unreadable::Fields,
        2,
        "the body isn't the fields of its command",
    ),
];

#[test]
fn reasons_in_words(rt: HostRuntime) {
    for at in 0..REASONS.len() {
        let (reason, status, words) = REASONS[at];
        let is_said = says(&rt, rt.alloc(), &reason, words);
        check(&rt, is_said & (reason.status() == status), words, at);
    }
}

fn account(rt: &impl Abort, alloc: Global, system_id: u8, rules: Rules) -> Account {
    Account {
        system_id: copy(rt, alloc, &[system_id]),
        password: copy(rt, alloc, b"p"),
        rules,
    }
}

// An account that may query alone.
fn asker() -> Rules {
    Rules {
        commands: Commands {
            submit_sm: false,
            submit_multi: false,
            data_sm: false,
            query_sm: true,
            cancel_sm: false,
            replace_sm: false,
        },
        bodies: Bodies::Any,
    }
}

// The account of a bind that was refused isn't kept, and that of the next one is; what it may not send
// asks for nothing.
#[test]
fn accounts_are_kept(rt: HostRuntime) {
    let alloc = rt.alloc();
    let accounts = [
        account(&rt, alloc, b'a', Rules::none()),
        account(&rt, alloc, b'b', asker()),
    ];
    let mut session = ClientSession::new(alloc, 0, 0);
    let refused = pdu_of(&rt, alloc, 9, 1, b"a\0q\0\0\x34\0\0\0");
    let act = session.on_pdu(&refused, &accounts);
    assert!(rt; matches!(act, Ok(Act::Refuse(_))));
    assert!(rt; session.account().is_none());
    let bind = pdu_of(&rt, alloc, 9, 2, b"b\0p\0\0\x34\0\0\0");
    let act = session
        .on_pdu(&bind, &accounts)
        .expect(&rt, "out of memory");
    assert!(rt; matches!(act, Act::Bind { account: 1, .. }));
    assert!(rt; session.account() == Some(1));
    assert!(rt; session.state() == ClientState::BoundTrx);
    let submit = pdu_of(&rt, alloc, 4, 3, SUBMIT_SM);
    assert!(rt; session.asks(&submit, &accounts).is_none());
    let query = pdu_of(&rt, alloc, 3, 4, b"");
    assert!(rt; session.asks(&query, &accounts) == Some(Ask::Request));
}

// A session binds as its bind says (4.1.1, 4.1.3 and 4.1.5): here the texts are its own.
#[test]
fn binds_of_each_kind(rt: HostRuntime) {
    let alloc = rt.alloc();
    for (kind, command) in [(Kind::Tx, 2), (Kind::Rx, 1), (Kind::Trx, 9)] {
        let mut bind = UpstreamBind::transceiver(alloc, Vec::new(alloc), Vec::new(alloc));
        bind.kind = kind;
        bind.interface_version = 0x33;
        let session = UpstreamSession::new(alloc, bind, 1000, 0);
        let start = session.start().expect(&rt, "out of memory");
        assert!(rt; start.command == command && session.kind() == kind);
        assert!(rt; start.body.as_slice() == b"\0\0\0\x33\0\0\0".as_slice());
    }
}
