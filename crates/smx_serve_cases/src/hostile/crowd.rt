//! Many connections: of random octets, all slots and one more, and ten thousand that are closed.
use super::caller::Caller;
use super::greedy::enquires_slowly;
use rand_core::utils::NextWord;
use rand_pcg::Pcg32;
use std::alloc::Global;
use std::net::{Net, TcpListener, TcpStream};
use std::process::Abort;
use std::rt::Clock;
use std::thread::{Threads, join, sleep};
use std::time::Duration;

// The clients that the proxy serves at a time.
const CLIENTS: usize = 256;

// How many connections send random octets, and how many of them stand at a time.
const RANDOM: usize = 1_000;

const TOGETHER: usize = 50;

// How many connections are opened and closed, and how often one of them waits until it is served.
const CLOSED: u32 = 10_000;

const BETWEEN: u32 = 50;

// How often it is asked at most whether they are closed, ten milliseconds one after the other.
const TRIES: u32 = 3_000;

// A word of octets by chance. Every second one has a PDU's length and a command below 32.
fn random_octets(chance: &mut Pcg32, is_pdu: bool) -> [u8; 64] {
    let mut octets = [0u8; 64];
    for octet in &mut octets {
        let [first, ..] = chance.next_word().to_be_bytes();
        *octet = first;
    }
    if is_pdu {
        let command = octets[7] & 31;
        for octet in octets.iter_mut().take(8) {
            *octet = 0;
        }
        octets[3] = 64;
        octets[7] = command;
    }
    octets
}

// Random octets from many connections, some at a time, each of which has to be opened.
pub(crate) fn random<R>(rt: &R, alloc: Global, address: &str)
where
    R: Net<Stream = TcpStream> + Abort,
{
    let mut chance = Pcg32::new(42, 54);
    let mut standing = Vec::with_capacity(alloc, TOGETHER).expect(rt, "out of memory");
    for index in 0..RANDOM {
        let mut caller = Caller::to(rt, address);
        caller.say(&random_octets(&mut chance, index % 2 == 0));
        standing.push(caller).expect(rt, "out of memory");
        if standing.len() >= TOGETHER {
            standing.clear();
        }
    }
}

// With one client bound already: as many more have to be bound as there are slots left, and then one be
// closed without an answer.
pub(crate) fn fills_slots<R>(rt: &R, alloc: Global, address: &str)
where
    R: Net<Stream = TcpStream> + Clock + Abort,
{
    let mut standing = Vec::with_capacity(alloc, CLIENTS).expect(rt, "out of memory");
    for _ in 1..CLIENTS {
        let caller = Caller::bound(rt, address, 1);
        standing.push(caller).expect(rt, "out of memory");
    }
    let mut refused = Caller::to(rt, address);
    assert!(rt;
        refused.is_closed(),
        "257 connections where 256 are the limit: the last is served"
    );
}

// Opens connections and closes them.
fn open_and_close<R>(rt: &R, address: &str)
where
    R: Net<Stream = TcpStream> + Clock + Abort,
{
    for index in 0..CLOSED {
        let opened = if index % BETWEEN == 0 {
            Caller::seated(rt, address)
        } else {
            Caller::to(rt, address)
        };
        drop(opened);
    }
}

// The number of the descriptor that a connection has beside another one. The system gives the least
// that is free, so it is greater where one more is open.
fn second_descriptor<R>(rt: &R, address: &str) -> i32
where
    R: Net<Stream = TcpStream> + Clock + Abort,
{
    let _first = Caller::seated(rt, address);
    let second = Caller::seated(rt, address);
    second.descriptor()
}

// That number has to be before long no greater than this one.
fn falls_to<R>(rt: &R, address: &str, before: i32)
where
    R: Net<Stream = TcpStream> + Clock + Abort,
{
    for _ in 0..TRIES {
        if second_descriptor(rt, address) <= before {
            return;
        }
        sleep(rt, Duration::from_millis(10));
    }
    panic!(rt; "connections opened and closed: more descriptors are open than before");
}

// Opens connections and closes them, while another sends an octet a second: no more descriptors may be
// open afterwards than before, and the slow one has to be answered.
pub(crate) fn closes_all<R>(rt: &R, address: &str)
where
    R: Net<Listener = TcpListener, Stream = TcpStream> + Clock + Threads + Abort + Sync,
{
    let before = second_descriptor(rt, address);
    join(
        rt,
        || enquires_slowly(rt, address),
        || open_and_close(rt, address),
    );
    falls_to(rt, address, before);
}
