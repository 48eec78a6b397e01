//! The cells of the two session tables over sockets (SMPP 3.4, sections 2.2 and 4): in each state
//! each kind of PDU, by its header alone, and what comes back.
use crate::stage::{
    Header, OWN_BOUND, Running, binding, bound, comes, config_for, connected, number_of,
};
use smx_serve::Remote;
use std::alloc::Global;
use std::io::Write;
use std::net::{Net, TcpListener, TcpStream};
use std::process::Abort;
use std::test::Fail;

// What comes back for a PDU.
#[derive(Clone, Copy, PartialEq, Eq)]
enum Reply {
    // Its response with this status.
    Status(u32),
    // generic_nack with status 3 (ESME_RINVCMDID).
    Unknown,
    Nothing,
    // It goes upstream, and what the centre answers comes back.
    Forwarded,
}

use Reply::{Forwarded, Nothing, Status, Unknown};

// By command: the replies to a client that isn't bound, and to one that is bound as transmitter,
// receiver and transceiver.
const CLIENT: [(u32, [Reply; 4]); 19] = [
    (0x0000_0004, [Status(4), Forwarded, Status(4), Forwarded]),
    (0x0000_0021, [Status(4), Forwarded, Status(4), Forwarded]),
    (0x0000_0003, [Status(4), Forwarded, Status(4), Forwarded]),
    (0x0000_0008, [Status(4), Forwarded, Status(4), Forwarded]),
    (0x0000_0007, [Status(4), Forwarded, Status(4), Forwarded]),
    (0x0000_0103, [Status(4), Forwarded, Status(4), Forwarded]),
    (0x0000_0001, [Status(2), Status(5), Status(5), Status(5)]),
    (0x0000_0002, [Status(2), Status(5), Status(5), Status(5)]),
    (0x0000_0009, [Status(2), Status(5), Status(5), Status(5)]),
    (0x0000_0005, [Status(4), Status(4), Status(4), Status(4)]),
    (0x0000_0015, [Status(0), Status(0), Status(0), Status(0)]),
    (0x8000_0005, [Nothing, Nothing, Nothing, Nothing]),
    (0x8000_0103, [Nothing, Nothing, Nothing, Nothing]),
    (0x8000_0000, [Nothing, Nothing, Nothing, Nothing]),
    (0x8000_0004, [Nothing, Nothing, Nothing, Nothing]),
    (0x0000_000B, [Nothing, Nothing, Nothing, Nothing]),
    (0x0000_0102, [Nothing, Nothing, Nothing, Nothing]),
    (0x0000_00AA, [Unknown, Unknown, Unknown, Unknown]),
    (0x0000_0006, [Status(4), Status(0), Status(0), Status(0)]),
];

// By command: the replies to a centre whose answer to the bind is awaited, and to one that is bound.
// A message by its header alone has no destination (section 4.6.1). While the answer to an unbind is
// awaited all but the first are as before the bind.
const CENTRE: [(u32, [Reply; 2]); 16] = [
    (0x8000_0006, [Nothing, Nothing]),
    (0x8000_0015, [Nothing, Nothing]),
    (0x8000_0001, [Nothing, Nothing]),
    (0x8000_0004, [Nothing, Nothing]),
    (0x0000_0005, [Status(4), Status(2)]),
    (0x0000_0103, [Status(4), Status(2)]),
    (0x0000_0015, [Status(0), Status(0)]),
    (0x0000_0001, [Status(4), Status(4)]),
    (0x0000_0002, [Status(4), Status(4)]),
    (0x0000_0009, [Status(4), Status(4)]),
    (0x0000_0003, [Status(4), Status(4)]),
    (0x0000_0004, [Status(4), Status(4)]),
    (0x0000_0021, [Status(4), Status(4)]),
    (0x0000_000B, [Nothing, Nothing]),
    (0x0000_0102, [Nothing, Nothing]),
    (0x0000_00AA, [Unknown, Unknown]),
];

const GENERIC_NACK: u32 = 0x8000_0000;

const ENQUIRE_LINK: u32 = 0x0000_0015;

const UNBIND: u32 = 0x0000_0006;

// The number of the proxy's own unbind.
const OWN_UNBIND: u32 = 0x7FFF_FFFF;

const RESPONSE: u32 = 0x8000_0000;

fn header(command: u32, status: u32, number: u32) -> Header {
    Header {
        command,
        status,
        number,
    }
}

// Whether the proxy has nothing to say before it answers an enquiry.
fn is_quiet(alloc: Global, stream: &mut TcpStream) -> bool {
    header(ENQUIRE_LINK, 0, 99).is_said(alloc, stream)
        && header(RESPONSE | ENQUIRE_LINK, 0, 99).is_heard(alloc, stream)
}

// Whether a request of this kind is forwarded, and what the centre answers comes back.
fn is_forwarded(alloc: Global, stream: &mut TcpStream, up: &mut TcpStream, command: u32) -> bool {
    let Some(number) = number_of(up, command) else {
        return false;
    };
    header(RESPONSE | command, 8, number).is_said(alloc, up)
        && header(RESPONSE | command, 8, 7).is_heard(alloc, stream)
}

// Whether the proxy answers a PDU of this kind so.
fn is_answered(
    alloc: Global,
    stream: &mut TcpStream,
    up: &mut TcpStream,
    command: u32,
    reply: Reply,
) -> bool {
    if !header(command, 0, 7).is_said(alloc, stream) {
        return false;
    }
    match reply {
        Status(status) => header(RESPONSE | command, status, 7).is_heard(alloc, stream),
        Unknown => header(GENERIC_NACK, 3, 7).is_heard(alloc, stream),
        Nothing => is_quiet(alloc, stream),
        Forwarded => is_forwarded(alloc, stream, up, command),
    }
}

// The bind of the account alpha with this command, and whether it is answered well.
fn is_bound(stream: &mut TcpStream, command: u8) -> bool {
    let mut bind =
        *b"\x00\x00\x00\x1d\x00\x00\x00\x09\x00\x00\x00\x00\x00\x00\x00\x01alpha\x00p\x00\x00\x34\x00\x00\x00";
    let mut bound =
        *b"\x00\x00\x00\x19\x80\x00\x00\x09\x00\x00\x00\x00\x00\x00\x00\x01smx\x00\x02\x10\x00\x01\x34";
    bind[7] = command;
    bound[7] = command;
    stream.write_all(&bind).is_ok() && comes(stream, &bound)
}

const BIND_TRANSCEIVER: u32 = 0x0000_0009;

// Whether each kind of PDU is answered as the table's column says. A connection without a bind is sent two of
// the three kinds of bind, since it is closed behind a third refusal.
fn are_answered(alloc: Global, stream: &mut TcpStream, up: &mut TcpStream, state: usize) -> bool {
    for at in 0..CLIENT.len() {
        let (command, replies) = CLIENT[at];
        let Some(reply) = replies.get(state) else {
            return false;
        };
        if state == 0 && command == BIND_TRANSCEIVER {
            continue;
        }
        if !is_answered(alloc, stream, up, command, *reply) {
            return false;
        }
    }
    true
}

// Whether the proxy answers a PDU of this kind from the centre so.
fn is_decided(alloc: Global, up: &mut TcpStream, command: u32, reply: Reply) -> bool {
    if !header(command, 0, 7).is_said(alloc, up) {
        return false;
    }
    match reply {
        Status(status) => header(RESPONSE | command, status, 7).is_heard(alloc, up),
        Unknown => header(GENERIC_NACK, 3, 7).is_heard(alloc, up),
        Nothing | Forwarded => is_quiet(alloc, up),
    }
}

// Whether each kind of PDU, from this row on, is answered as the table's column says.
fn are_decided(alloc: Global, up: &mut TcpStream, state: usize, from: usize) -> bool {
    for at in from..CENTRE.len() {
        let (command, replies) = CENTRE[at];
        let Some(reply) = replies.get(state) else {
            return false;
        };
        if !is_decided(alloc, up, command, *reply) {
            return false;
        }
    }
    true
}

// A client that is bound by this command, or not at all by 0: each kind of PDU is answered as the
// table's column says.
fn meets<R: Net<Stream = TcpStream> + Abort>(
    rt: &R,
    alloc: Global,
    remote: &Remote,
    up: &mut TcpStream,
    kind: u8,
    state: usize,
) -> Result<(), Fail> {
    let mut client = connected(rt, alloc, remote)?;
    assert!(rt; kind == 0 || is_bound(&mut client, kind));
    assert!(rt; are_answered(alloc, &mut client, up, state));
    Ok(())
}

// A client that isn't bound, and ones that are by bind_transmitter, bind_receiver and
// bind_transceiver.
fn meet_all<R: Net<Stream = TcpStream> + Abort>(
    rt: &R,
    alloc: Global,
    remote: &Remote,
    up: &mut TcpStream,
) -> Result<(), Fail> {
    meets(rt, alloc, remote, up, 0, 0)?;
    meets(rt, alloc, remote, up, 2, 1)?;
    meets(rt, alloc, remote, up, 1, 2)?;
    meets(rt, alloc, remote, up, 9, 3)
}

// Once the proxy unbinds, each kind of PDU is answered as before the bind. Then the centre answers
// the unbind.
fn unbind(rt: &impl Abort, alloc: Global, up: &mut TcpStream) {
    assert!(rt; header(UNBIND, 0, OWN_UNBIND).is_heard(alloc, up));
    assert!(rt; are_decided(alloc, up, 0, 1));
    assert!(rt; header(RESPONSE | UNBIND, 0, OWN_UNBIND).is_said(alloc, up));
}

// The centre's link, over which the clients are met and the proxy unbinds.
fn clients_met<R: Net<Stream = TcpStream> + Abort>(
    rt: &R,
    alloc: Global,
    centre: &TcpListener,
    remote: &Remote,
) -> Result<TcpStream, Fail> {
    let mut up = bound(rt, centre)?;
    assert!(rt; is_quiet(alloc, &mut up));
    meet_all(rt, alloc, remote, &mut up)?;
    remote.stop();
    unbind(rt, alloc, &mut up);
    Ok(up)
}

// Clients that aren't bound, and bound in each way, each of which unbinds last; and then a centre that
// the proxy unbinds from.
#[test]
fn cells_of_a_client(rt: HostRuntime) -> Result<(), Fail> {
    let centre = TcpListener::bind(&rt, "127.0.0.1:0")?;
    let config = config_for(rt.alloc(), &centre, 30_000)?;
    let proxy = Running::of(rt, config)?;
    let _link = clients_met(&rt, rt.alloc(), &centre, &proxy.remote)?;
    proxy.is_over(&rt);
    Ok(())
}

// The centre's link, over which it answers the bind and unbinds last: each kind of PDU before and
// after that answer.
fn centre_met(rt: &impl Abort, alloc: Global, centre: &TcpListener) -> Result<TcpStream, Fail> {
    let mut up = binding(rt, centre)?;
    assert!(rt; are_decided(alloc, &mut up, 0, 0));
    up.write_all(OWN_BOUND)?;
    assert!(rt; are_decided(alloc, &mut up, 1, 0));
    assert!(rt; header(UNBIND, 0, 7).is_said(alloc, &mut up));
    assert!(rt; header(RESPONSE | UNBIND, 0, 7).is_heard(alloc, &mut up));
    Ok(up)
}

// A centre before and after it answered the bind. It unbinds last.
#[test]
fn cells_of_a_centre(rt: HostRuntime) -> Result<(), Fail> {
    let centre = TcpListener::bind(&rt, "127.0.0.1:0")?;
    let config = config_for(rt.alloc(), &centre, 30_000)?;
    let proxy = Running::of(rt, config)?;
    let _link = centre_met(&rt, rt.alloc(), &centre)?;
    proxy.remote.stop();
    proxy.is_over(&rt);
    Ok(())
}
