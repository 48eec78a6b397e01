//! Clients of bad manners, one connection each or one an account.
use super::caller::{Caller, bind_of, header};
use smx_pdu::Header;
use smx_pdu::command::{ENQUIRE_LINK, GENERIC_NACK, RESPONSE, SUBMIT_SM};
use smx_pdu::status::{ESME_RALYBND, ESME_RINVCMDLEN};
use std::alloc::Global;
use std::net::{Net, TcpStream};
use std::process::Abort;
use std::rt::Clock;
use std::thread::sleep;
use std::time::Duration;

// How many accounts there are.
const ACCOUNTS: u8 = 8;

// The most octets of a PDU.
const LONGEST: usize = 65_536;

// How many of the longest PDUs are sent.
const LONG: u32 = 4;

// How often the one that never reads sends enquiries, 65,536 octets of them each time.
const ROUNDS: u32 = 2_000;

// How long its octets aren't taken where they are taken no more, in milliseconds.
const STALL: u64 = 2_000;

// How many octets the slow one sends a second after the other.
const SLOW: usize = 10;

// Binds to each account at once, each over a connection of its own, and then to all over one: the first
// have to be granted, and of the last one.
pub(crate) fn binds_to_all<R>(rt: &R, alloc: Global, address: &str)
where
    R: Net<Stream = TcpStream> + Clock + Abort,
{
    let mut standing = Vec::with_capacity(alloc, 8).expect(rt, "out of memory");
    for account in 0..ACCOUNTS {
        let mut caller = Caller::seated(rt, address);
        caller.say(&bind_of(account));
        standing.push(caller).expect(rt, "out of memory");
    }
    let granted = standing.iter_mut().all(|caller| caller.hears_status(0));
    assert!(rt;
        granted,
        "a client that binds to each account at once: a bind is not granted"
    );
    binds_again(rt, address);
}

// Binds to each account over one connection: the first bind has to be granted and the others not.
fn binds_again<R>(rt: &R, address: &str)
where
    R: Net<Stream = TcpStream> + Clock + Abort,
{
    let mut caller = Caller::seated(rt, address);
    for account in 0..ACCOUNTS {
        caller.say(&bind_of(account));
    }
    assert!(rt;
        caller.hears_status(0),
        "binds over one connection: the first is not granted"
    );
    for _ in 1..ACCOUNTS {
        let is_refused = caller.hears_status(ESME_RALYBND);
        assert!(rt;
            is_refused,
            "binds over one connection: one after the first is not refused"
        );
    }
}

// A submit_sm of 65,536 octets with the number 1, whose body is all 0.
pub(crate) fn longest(rt: &impl Abort, alloc: Global) -> Vec<u8> {
    let mut octets = vec![in alloc; 0u8; LONGEST].expect(rt, "out of memory");
    let head = header(65_536, SUBMIT_SM, 0, 1);
    for (place, octet) in octets.iter_mut().zip(head) {
        *place = octet;
    }
    octets
}

// Sends PDUs of 65,536 octets and one of an octet more: the first have to be answered well, and the
// last by a generic_nack and the connection's end.
pub(crate) fn sends_longest<R>(rt: &R, alloc: Global, address: &str)
where
    R: Net<Stream = TcpStream> + Clock + Abort,
{
    let octets = longest(rt, alloc);
    let mut caller = Caller::bound(rt, address, 1);
    for _ in 0..LONG {
        let is_answered = caller.say(&octets) && caller.hears_status(0);
        assert!(rt; is_answered, "a PDU of 65,536 octets is not answered well");
    }
    caller.say(&header(65_537, SUBMIT_SM, 0, 1));
    let is_refused = caller.hears_length_fault() && caller.is_closed();
    assert!(rt;
        is_refused,
        "a PDU of 65,537 octets is not refused, or its connection not closed"
    );
}

impl Caller {
    // Whether the next PDU says that a length was bad.
    fn hears_length_fault(&mut self) -> bool {
        let Some(
            Header {
                command,
                status,
                number,
                ..
            },
        ) = self.hear()
        else {
            return false;
        };
        command == GENERIC_NACK && status == ESME_RINVCMDLEN && number == 0
    }

    // Sends enquiries until nobody takes them for long. False where they are taken still.
    fn stalls(&mut self, octets: &[u8]) -> bool {
        for _ in 0..ROUNDS {
            if !self.say(octets) {
                return true;
            }
        }
        false
    }
}

// Enquiries of 65,536 octets in all.
fn enquiries(rt: &impl Abort, alloc: Global) -> Vec<u8> {
    let mut octets = Vec::with_capacity(alloc, LONGEST).expect(rt, "out of memory");
    let enquiry = header(16, ENQUIRE_LINK, 0, 1);
    for _ in 0..4_096 {
        octets
            .extend_from_slice(&enquiry)
            .expect(rt, "out of memory");
    }
    octets
}

// Enquires and never reads: its octets have to be taken no more after a while.
pub(crate) fn never_reads<R>(rt: &R, alloc: Global, address: &str)
where
    R: Net<Stream = TcpStream> + Clock + Abort,
{
    let octets = enquiries(rt, alloc);
    let mut caller = Caller::bound(rt, address, 2);
    caller.writes_for(rt, STALL);
    assert!(rt;
        caller.stalls(&octets),
        "a client that never reads: all its octets are taken"
    );
}

// Enquires by an octet a second, and then the rest: that has to be answered.
pub(crate) fn enquires_slowly<R>(rt: &R, address: &str)
where
    R: Net<Stream = TcpStream> + Clock + Abort,
{
    let mut caller = Caller::bound(rt, address, 3);
    let enquiry = header(16, ENQUIRE_LINK, 0, 1);
    let (slow, rest) = enquiry.split_at(SLOW);
    for octet in slow {
        caller.say(&[*octet]);
        sleep(rt, Duration::from_millis(1_000));
    }
    let is_answered = caller.say(rest) && caller.hears_status(0);
    assert!(rt;
        is_answered,
        "an enquiry by an octet a second beside many connections is not answered"
    );
}
