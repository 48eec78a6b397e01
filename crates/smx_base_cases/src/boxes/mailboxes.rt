use self::Row::{Empties, Last, Puts, Sends, Settles};
use crate::rows::check;
use smx_mailbox::{Mailbox, Message, Unanswered};
use smx_pdu::Pdu;
use smx_pdu::command::{DATA_SM, DELIVER_SM};
use smx_routes::WindowFault;
use std::alloc::{AllocError, Global};
use std::process::Abort;
use std::test::*;

const DELIVER_SM_RESP: u32 = 0x8000_0005;

const DATA_SM_RESP: u32 = 0x8000_0103;

// A call of a mailbox with what comes of it.
#[derive(Clone, Copy)]
enum Row {
    // A deliver_sm from the lane with the centre's number, and whether there is room for it.
    Puts(usize, u32, bool),
    // The numbers under which messages are sent.
    Sends(&'static [u32]),
    // A response by its number and command.
    Settles(u32, u32, Option<(usize, u32)>),
    // The lanes and the centre's numbers of messages without an answer.
    Empties(&'static [(usize, u32)]),
    Last(u32),
}

// What is handed back is what was to be put.
fn is_put(alloc: Global, mailbox: &mut Mailbox, lane: usize, number: u32, room: bool) -> bool {
    let pdu = Pdu::header_only(alloc, DELIVER_SM, 0, number);
    match mailbox.put(Message { lane, pdu }) {
        Ok(()) => room,
        Err(back) => !room && (back.lane, back.pdu.number) == (lane, number),
    }
}

fn have_numbers(pdus: &[Pdu], numbers: &[u32]) -> bool {
    if pdus.len() != numbers.len() {
        return false;
    }
    for at in 0..numbers.len() {
        if pdus[at].number != numbers[at] {
            return false;
        }
    }
    true
}

fn are_unanswered(left: &[Unanswered], wanted: &[(usize, u32)]) -> bool {
    if left.len() != wanted.len() {
        return false;
    }
    for at in 0..wanted.len() {
        let message = &left[at];
        if (message.lane, message.number) != wanted[at] || message.command != DELIVER_SM {
            return false;
        }
    }
    true
}

fn holds(rt: &impl Abort, alloc: Global, mailbox: &mut Mailbox, row: Row) -> bool {
    match row {
        Puts(lane, number, room) => is_put(alloc, mailbox, lane, number, room),
        Sends(numbers) => {
            let sent = mailbox.send().expect(rt, "out of memory");
            have_numbers(&sent, numbers)
        }
        Settles(number, command, wanted) => mailbox.settle(number, command) == wanted,
        Empties(wanted) => {
            let left = mailbox.empty().expect(rt, "out of memory");
            are_unanswered(&left, wanted)
        }
        Last(wanted) => mailbox.last() == wanted,
    }
}

// What a full mailbox hands back finds its place once the message before it is sent. The window has
// one place too.
const ONE_PLACE: [Row; 8] = [
    Puts(0, 70, true),
    Puts(3, 71, false),
    Sends(&[1]),
    Puts(3, 71, true),
    Sends(&[]),
    Settles(1, DELIVER_SM_RESP, Some((0, 70))),
    Sends(&[2]),
    Last(2),
];

// Three messages are sent, of which the second is answered, and two wait as the client leaves. It
// goes on under the next number.
const CLIENT_LEAVES: [Row; 11] = [
    Puts(0, 10, true),
    Puts(0, 11, true),
    Puts(0, 12, true),
    Sends(&[1, 2, 3]),
    Puts(1, 4, true),
    Puts(1, 5, true),
    Settles(2, DELIVER_SM_RESP, Some((0, 11))),
    Empties(&[(0, 10), (0, 12), (1, 4), (1, 5)]),
    Empties(&[]),
    Puts(2, 6, true),
    Sends(&[4]),
];

// A mailbox that goes on where another ended.
const GOES_ON: [Row; 4] = [Last(3), Puts(0, 10, true), Sends(&[4]), Last(4)];

fn play(rt: &impl Abort, alloc: Global, mailbox: &mut Mailbox, rows: &[Row]) {
    for at in 0..rows.len() {
        let holds = holds(rt, alloc, mailbox, rows[at]);
        check(rt, holds, "mailbox", at);
    }
}

// Plays the rows on a mailbox of so many places that goes on behind this number.
fn play_anew(rt: &impl Abort, alloc: Global, places: u32, last: u32, rows: &[Row]) {
    assert!(rt; last <= 0x7FFF_FFFE);
    let mut mailbox = Mailbox::after(alloc, places, last).expect(rt, "no mailbox");
    play(rt, alloc, &mut mailbox, rows);
}

#[test]
fn mailboxes_send_and_settle(rt: HostRuntime) {
    play_anew(&rt, rt.alloc(), 1, 0, &ONE_PLACE);
    play_anew(&rt, rt.alloc(), 3, 0, &CLIENT_LEAVES);
    play_anew(&rt, rt.alloc(), 1, 3, &GOES_ON);
}

fn is_sent(pdu: &Pdu, fields: (u32, u32, u32), body: &[u8]) -> bool {
    (pdu.command, pdu.status, pdu.number) == fields && pdu.body.as_slice() == body
}

// A data_sm from lane 1 with the status 9 and the centre's number 4,000.
fn data(rt: &impl Abort, alloc: Global) -> Message {
    let octets = Vec::from_slice(alloc, &[0x00, 0x41]).expect(rt, "out of memory");
    let pdu = Pdu::new(DATA_SM, 9, 4_000, octets).ok();
    Message {
        lane: 1,
        pdu: pdu.expect(rt, "short enough"),
    }
}

// The data_sm and a deliver_sm go under the numbers 1 and 2, with the status 0.
fn sends_both(rt: &impl Abort, mailbox: &mut Mailbox) -> bool {
    let sent = mailbox.send().expect(rt, "out of memory");
    match sent.as_slice() {
        [data, deliver] => {
            is_sent(data, (DATA_SM, 0, 1), &[0x00, 0x41])
                && is_sent(deliver, (DELIVER_SM, 0, 2), &[])
        }
        _ => false,
    }
}

const BOTH_SETTLED: [Row; 5] = [
    Settles(1, DELIVER_SM_RESP, None),
    Settles(4_000, DATA_SM_RESP, None),
    Settles(2, DELIVER_SM_RESP, Some((0, 4_000))),
    Settles(2, DELIVER_SM_RESP, None),
    Settles(1, DATA_SM_RESP, Some((1, 4_000))),
];

#[test]
fn sent_under_numbers_of_their_own(rt: HostRuntime) {
    let mut mailbox = Mailbox::new(rt.alloc(), 3).expect(&rt, "no mailbox");
    let data = data(&rt, rt.alloc());
    assert!(rt; mailbox.put(data).is_ok());
    play(&rt, rt.alloc(), &mut mailbox, &[Puts(0, 4_000, true)]);
    assert!(rt; sends_both(&rt, &mut mailbox));
    play(&rt, rt.alloc(), &mut mailbox, &BOTH_SETTLED);
}

// Of two messages that wait, both or none are sent; those that aren't are still there.
fn keeps_what_stays(alloc: Global, mailbox: &mut Mailbox) -> bool {
    let are_put = is_put(alloc, mailbox, 0, 70, true) && is_put(alloc, mailbox, 0, 71, true);
    let are_sent = match mailbox.send() {
        Ok(pdus) => pdus.len() == 2,
        Err(AllocError) => false,
    };
    let is_settled = mailbox.settle(1, DELIVER_SM_RESP).is_some();
    let is_left = match mailbox.empty() {
        Ok(messages) => messages.len() == if are_sent { 1 } else { 2 },
        Err(AllocError) => true,
    };
    are_put & (is_settled == are_sent) & is_left
}

// Want of memory is said by name: refuse-memory refuses each allocation in turn. What does not
// come stays.
#[test]
fn refused_memory(rt: HostRuntime) {
    match Mailbox::new(rt.alloc(), 2) {
        Ok(mut mailbox) => assert!(rt; keeps_what_stays(rt.alloc(), &mut mailbox)),
        Err(fault) => assert!(rt; fault == WindowFault::NoMemory),
    }
}
