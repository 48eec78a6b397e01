use self::Row::{Asks, Hears, Is, Silent, Starts, Stops};
use crate::pdus::spelling::is_spelled;
use crate::rows::check;
use smx_pdu::{Bind, Pdu};
use smx_session::{UpAct, UpstreamBind, UpstreamSession, UpstreamState};
use std::alloc::Global;
use std::process::Abort;
use std::test::*;

// What a session is asked or told, at a moment, and the octets that it sends.
#[derive(Clone, Copy)]
enum Row {
    Starts(&'static [u8]),
    // A PDU by its command and number, and what it comes to.
    Hears(u32, u32, u64, &'static str),
    Asks(u64, Option<&'static [u8]>),
    Silent(u64, bool),
    Stops(Option<&'static [u8]>),
    Is(UpstreamState),
}

const BIND: [u8; 30] = [
    0, 0, 0, 0x1e, 0, 0, 0, 9, 0, 0, 0, 0, 0x7f, 0xff, 0xff, 0xfd, 0x70, 0x72, 0x6f, 0x78, 0x79, 0,
    0x70, 0x77, 0, 0, 0x34, 0, 0, 0,
];

const ENQUIRY: [u8; 16] = [
    0, 0, 0, 0x10, 0, 0, 0, 0x15, 0, 0, 0, 0, 0x7f, 0xff, 0xff, 0xfe,
];

const UNBIND: [u8; 16] = [
    0, 0, 0, 0x10, 0, 0, 0, 6, 0, 0, 0, 0, 0x7f, 0xff, 0xff, 0xff,
];

// A session with the system_id `proxy` and the password `pw`, and the silence 1000, at 0.
fn upstream(rt: &impl Abort, alloc: Global) -> UpstreamSession {
    let bind = Bind {
        system_id: b"proxy",
        password: b"pw",
        system_type: b"",
        interface_version: 0x34,
        addr_ton: 0,
        addr_npi: 0,
        address_range: b"",
    };
    assert!(rt; bind.fits());
    let system_id = Vec::from_slice(alloc, bind.system_id).expect(rt, "out of memory");
    let password = Vec::from_slice(alloc, bind.password).expect(rt, "out of memory");
    let bind = UpstreamBind::transceiver(alloc, system_id, password);
    UpstreamSession::new(alloc, bind, 1000, 0)
}

fn word(act: &UpAct) -> &'static str {
    match act {
        UpAct::Up => "up",
        UpAct::Closed => "closed",
        UpAct::Ignore => "ignored",
        _ => "another",
    }
}

// Whether the PDU, where there is one, has these octets.
fn sends(rt: &impl Abort, alloc: Global, sent: Option<&Pdu>, wanted: Option<&[u8]>) -> bool {
    match sent {
        Some(pdu) => match wanted {
            Some(octets) => is_spelled(rt, alloc, pdu, octets),
            None => false,
        },
        None => wanted.is_none(),
    }
}

fn holds(rt: &impl Abort, alloc: Global, session: &mut UpstreamSession, row: Row) -> bool {
    match row {
        Starts(octets) => {
            let bind = session.start().expect(rt, "out of memory");
            is_spelled(rt, alloc, &bind, octets)
        }
        Hears(command, number, now, wanted) => {
            let pdu = Pdu::header_only(alloc, command, 0, number);
            word(&session.on_pdu(&pdu, now)) == wanted
        }
        Asks(now, wanted) => {
            let enquiry = session.on_moment(now);
            sends(rt, alloc, enquiry.as_ref(), wanted)
        }
        Silent(now, wanted) => session.is_silent(now) == wanted,
        Stops(wanted) => {
            let unbind = session.stop();
            sends(rt, alloc, unbind.as_ref(), wanted)
        }
        Is(state) => session.state() == state,
    }
}

// The bind of the proxy and its answer, an enquiry after a silence, and the unbind, once, and its
// answer. Heard last at 5, it enquires at 1005, and is silent at 2005.
const RUN: [Row; 10] = [
    Starts(&BIND),
    Hears(0x8000_0009, 0x7fff_fffd, 5, "up"),
    Asks(1004, None),
    Asks(1005, Some(&ENQUIRY)),
    Silent(2004, false),
    Silent(2005, true),
    Stops(Some(&UNBIND)),
    Stops(None),
    Hears(0x8000_0006, 0x7fff_ffff, 2006, "closed"),
    Is(UpstreamState::Ended),
];

// Before it is bound it neither enquires nor unbinds.
const BINDING: [Row; 3] = [Asks(5000, None), Stops(None), Is(UpstreamState::Binding)];

// One enquiry at a time; its answer in Bound ends it, and a moment that goes back counts as the last
// one. It is bound at 10, where it has been told of 5000.
const MOMENTS: [Row; 10] = [
    Asks(5000, None),
    Hears(0x8000_0009, 0x7fff_fffd, 10, "up"),
    Asks(5999, None),
    Asks(6000, Some(&ENQUIRY)),
    Asks(9000, None),
    Hears(0x8000_0015, 1, 20, "ignored"),
    Silent(20_000, false),
    Asks(30, Some(&ENQUIRY)),
    Silent(20_999, false),
    Silent(21_000, true),
];

// Plays the rows in a new session.
fn play(rt: &impl Abort, alloc: Global, rows: &[Row]) {
    let mut session = upstream(rt, alloc);
    for at in 0..rows.len() {
        let holds = holds(rt, alloc, &mut session, rows[at]);
        check(rt, holds, "upstream", at);
    }
}

#[test]
fn upstream_runs(rt: HostRuntime) {
    play(&rt, rt.alloc(), &RUN);
    play(&rt, rt.alloc(), &BINDING);
    play(&rt, rt.alloc(), &MOMENTS);
}
