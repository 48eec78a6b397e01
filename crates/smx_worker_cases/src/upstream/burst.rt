//! Many messages at once for one client, whose box has 16 places.
use super::Step::{Closes, Collects, Fills, Last, Runs, Submits};
use super::*;
use std::test::*;

// How many messages come at once: twelve boxes full, and eight.
const COUNT: u32 = 200;

// deliver_sm with this number to the address `4`.
fn message(rt: &impl Abort, alloc: Global, number: u32) -> Vec<u8> {
    pdu(
        rt,
        alloc,
        &[0, 0, 0, 0x18, 0, 0, 0, 5, 0, 0, 0, 0],
        number,
        b"\0\0\0\0\0\04\0",
    )
}

// What tells the centre that the client's box is full: deliver_sm_resp with 0x14 ESME_RMSGQFUL.
fn refusal(rt: &impl Abort, alloc: Global, number: u32) -> Vec<u8> {
    pdu(
        rt,
        alloc,
        &[0, 0, 0, 0x10, 0x80, 0, 0, 5, 0, 0, 0, 0x14],
        number,
        b"",
    )
}

fn pdu(rt: &impl Abort, alloc: Global, head: &[u8], number: u32, body: &[u8]) -> Vec<u8> {
    let mut octets = Vec::from_slice(alloc, head).expect(rt, "out of memory");
    for part in [&number.to_be_bytes()[..], body] {
        octets.extend_from_slice(part).expect(rt, "out of memory");
    }
    octets
}

// The centre's answer to the bind, and the messages behind it.
fn burst(rt: &impl Abort, alloc: Global) -> Setting {
    let mut octets = Vec::from_slice(alloc, &BOUND).expect(rt, "out of memory");
    for number in 1..=COUNT {
        let one = message(rt, alloc, number);
        let more = octets.extend_from_slice(one.as_slice());
        more.expect(rt, "out of memory");
    }
    let mut setting = Setting::new(0, script(alloc, 65_536, &[(30, &octets)]));
    setting.places = 16;
    setting
}

// Takes all that is in the client's box, which are messages in their order, and answers how many.
fn taken<R: Wait + Abort>(rt: &R, stand: &mut Stand, before: u32) -> u32 {
    for count in 0..COUNT {
        match stand.inbox.get(rt) {
            Ok(Got::Item { content, .. }) => {
                assert!(rt; content.pdu.number.checked_sub(before) == Some(count + 1));
            }
            _ => return count,
        }
    }
    COUNT
}

// Where the client is turned each time that its box is full, no message is answered for it.
#[test]
fn each_message_finds_a_place(rt: HostRuntime) {
    let alloc = rt.alloc();
    let Hall {
        exchange,
        mut door,
        mut taps,
    } = Hall::roomy(&rt, alloc, 1);
    let tap = last_tap(&exchange, &mut taps).expect(&rt, "there is one lane");
    let setting = burst(&rt, alloc);
    let mut stand = stand_at(&rt, alloc, &exchange, &mut door, tap, setting);
    for full in 0..12 {
        hold(&rt, stand.holds(&rt, alloc, Fills(0, 1_000)), 0, full);
        assert!(rt; taken(&rt, &mut stand, full as u32 * 16) == 16);
    }
    hold(
        &rt,
        stand.holds(&rt, alloc, Runs(0, 1_000, RunEnd::Idle)),
        0,
        12,
    );
    assert!(rt; taken(&rt, &mut stand, 192) == 8);
    hold(&rt, stand.holds(&rt, alloc, Closes(&[&BIND])), 0, 13);
    drop(stand);
    lanes_of(&rt, exchange, door);
}

const HELD_UP: [Step; 5] = [
    Submits(Ok(0)),
    Fills(0, 1_000),
    Last(Some((1, 4))),
    Collects(None),
    Runs(0, 1_000, RunEnd::Idle),
];

// A client that takes nothing gets 16, and holds up nobody: the others are answered, and a request goes
// up in the very turn in which its box was filled.
#[test]
fn full_box_holds_up_nobody(rt: HostRuntime) {
    let alloc = rt.alloc();
    let mut written = Vec::from_slice(alloc, &BIND).expect(&rt, "out of memory");
    let more = written.extend_from_slice(&SUBMIT);
    more.expect(&rt, "out of memory");
    for number in 17..=COUNT {
        let one = refusal(&rt, alloc, number);
        let more = written.extend_from_slice(one.as_slice());
        more.expect(&rt, "out of memory");
    }
    let Hall {
        exchange,
        mut door,
        mut taps,
    } = Hall::roomy(&rt, alloc, 1);
    let tap = last_tap(&exchange, &mut taps).expect(&rt, "there is one lane");
    let setting = burst(&rt, alloc);
    let mut stand = stand_at(&rt, alloc, &exchange, &mut door, tap, setting);
    for at in 0..HELD_UP.len() {
        hold(&rt, stand.holds(&rt, alloc, HELD_UP[at]), 0, at);
    }
    let closed = stand.holds(&rt, alloc, Closes(&[written.as_slice()]));
    hold(&rt, closed, 0, 5);
    hold(&rt, stand.holds(&rt, alloc, Collects(FAILED)), 0, 6);
    drop(stand);
    lanes_of(&rt, exchange, door);
}
