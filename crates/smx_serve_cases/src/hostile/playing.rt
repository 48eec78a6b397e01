//! What is tried beside an honest client.
use super::Trial;
use super::caller::Caller;
use super::crowd::{closes_all, fills_slots, random};
use super::greedy::{binds_to_all, longest, never_reads, sends_longest};
use std::alloc::Global;
use std::net::{Net, TcpListener, TcpStream};
use std::process::Abort;
use std::rt::Clock;
use std::thread::{Threads, sleep};
use std::time::Duration;

// How many PDUs of 65,536 octets are sent to a centre that doesn't read.
const LONG: u32 = 100;

// How often the honest client asks, until a centre answers, fifty milliseconds one after the other.
const TRIES: u32 = 600;

impl Caller {
    // Each of ten requests has to be answered once and well, beside these peers.
    fn is_answered(&mut self, rt: &impl Abort, beside: &str) {
        assert!(rt;
            self.exchange().is_well(),
            "{beside}: the honest client was not answered"
        );
    }
}

fn play_unread<R>(rt: &R, alloc: Global, address: &str)
where
    R: Net<Stream = TcpStream> + Clock + Abort,
{
    let mut honest = Caller::bound(rt, address, 0);
    never_reads(rt, alloc, address);
    honest.is_answered(rt, "a client that never reads");
}

// One kind of peers after another, and after each ten requests of a client that was bound before the
// first.
fn play_clients<R>(rt: &R, alloc: Global, address: &str)
where
    R: Net<Listener = TcpListener, Stream = TcpStream> + Clock + Threads + Abort + Sync,
{
    let mut honest = Caller::bound(rt, address, 0);
    binds_to_all(rt, alloc, address);
    honest.is_answered(rt, "a client that binds to each account at once");
    sends_longest(rt, alloc, address);
    honest.is_answered(rt, "PDUs of 65,536 octets, and of one more");
    random(rt, alloc, address);
    honest.is_answered(rt, "1,000 connections of random octets");
    fills_slots(rt, alloc, address);
    honest.is_answered(rt, "257 connections where 256 are the limit");
    closes_all(rt, address);
    honest.is_answered(
        rt,
        "10,000 connections opened and closed beside an octet a second",
    );
}

// So many PDUs of 65,536 octets, whose answers nobody hears.
fn load(rt: &impl Abort, alloc: Global, caller: &mut Caller) {
    let octets = longest(rt, alloc);
    for _ in 0..LONG {
        caller.say(&octets);
    }
}

// Asks until each request is answered well, and each time each has to be answered once.
fn settles<R: Clock + Abort>(rt: &R, honest: &mut Caller, beside: &str) {
    for _ in 0..TRIES {
        let answers = honest.exchange();
        assert!(rt;
            answers.is_once(),
            "{beside}: the honest client was not answered once"
        );
        if answers.is_well() {
            return;
        }
        sleep(rt, Duration::from_millis(50));
    }
    panic!(rt; "{beside}: the honest client was not answered well at last");
}

// Ten requests while the centre has bad manners, and then until a good one answers.
fn play_centre<R>(rt: &R, alloc: Global, is_deaf: bool, address: &str, beside: &str)
where
    R: Net<Stream = TcpStream> + Clock + Abort,
{
    let mut other = Caller::bound(rt, address, 1);
    let mut honest = Caller::bound(rt, address, 0);
    if is_deaf {
        load(rt, alloc, &mut other);
    }
    assert!(rt;
        honest.exchange().is_once(),
        "{beside}: the honest client was not answered once"
    );
    settles(rt, &mut honest, beside);
}

// Plays the clients beside a good centre, or tries one of bad manners.
pub(crate) fn play<R>(rt: &R, alloc: Global, trial: Trial, address: &str)
where
    R: Net<Listener = TcpListener, Stream = TcpStream> + Clock + Threads + Abort + Sync,
{
    let is_deaf = trial == Trial::Deaf;
    let beside = match trial {
        Trial::Unread => return play_unread(rt, alloc, address),
        Trial::Clients => return play_clients(rt, alloc, address),
        Trial::Deaf => "a centre that never reads",
        Trial::Lying => "answers never asked for, twice, and with other commands",
        Trial::Short => "lengths below 16 from the centre",
    };
    play_centre(rt, alloc, is_deaf, address, beside);
}
