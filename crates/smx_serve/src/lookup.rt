//! Names that are looked up by threads of their own, since a resolver may never answer.

use crate::remote::Remote;
use std::alloc::{AllocError, Global};
use std::io::Error;
use std::net::{Net, SocketAddr, ToSocketAddrs};
use std::sync::{Arc, Condvar, Mutex, Wait};

/// The most lanes.
const LANES: usize = 16;

/// What the system's reasons begin with.
const REASON: &str = "failed to lookup address information: ";

/// The addresses of a name, the first one last, or why none is known.
pub(crate) type Found = Result<Vec<SocketAddr>, String>;

// How far a lane's look-up is.
#[derive(Drop)]
enum Stage {
    Idle,
    Asked(String),
    // A thread looks the name up.
    Begun,
    Over(Found),
    // No name is looked up any more.
    Closed,
}

// The look-up of a lane's name, one at a time.
#[derive(Drop)]
struct Desk {
    stage: Mutex<Stage>,
    // The stage has changed.
    changed: Condvar,
}

/// The look-ups of the lanes' names, each asked for by the loop and done by a thread of its own.
#[derive(Drop)]
pub struct Lookups {
    alloc: Global,
    // By lane.
    desks: Vec<Desk>,
    remote: Arc<Remote>,
}

/// Whether an address has a name, which has to be looked up.
pub fn is_name(address: &str) -> bool {
    address.parse::<SocketAddr>().is_err()
}

// Why no address is known, without what every such reason begins with.
fn reason_of(alloc: Global, error: &Error) -> String {
    let Ok(text) = format!(in alloc; "{error}") else {
        return String::new(alloc);
    };
    let reason = text.as_str();
    match format!(in alloc; "{}", reason.strip_prefix(REASON).unwrap_or(reason)) {
        Ok(short) => short,
        Err(_) => String::new(alloc),
    }
}

// Looks a name up. It may take as long as the system's resolver.
fn look_up<R: Net>(rt: &R, alloc: Global, name: &str) -> Found {
    let addresses = match name.to_socket_addrs(rt) {
        Ok(addresses) => addresses,
        Err(error) => return Err(reason_of(alloc, &error)),
    };
    let mut all = Vec::new(alloc);
    for address in addresses {
        if all.push(address).is_err() {
            return Err(String::new(alloc));
        }
    }
    all.reverse();
    Ok(all)
}

impl Desk {
    fn new() -> Desk {
        Desk {
            stage: Mutex::new(Stage::Idle),
            changed: Condvar::new(),
        }
    }

    // The next name, once one is asked for; None at the end.
    fn next<R: Wait>(&self, rt: &R) -> Option<String> {
        let stage = self.stage.lock(rt);
        let mut stage = self.changed.wait_while(
            rt,
            stage,
            |s| !matches!(s, Stage::Asked(_) | Stage::Closed),
        );
        match std::mem::replace(&mut *stage, Stage::Begun) {
            Stage::Asked(name) => Some(name),
            other => {
                *stage = other;
                None
            }
        }
    }

    // Goes on to this stage, but at the end.
    fn set<R: Wait>(&self, rt: &R, next: Stage) {
        let mut stage = self.stage.lock(rt);
        if !matches!(&*stage, Stage::Closed) {
            *stage = next;
            self.changed.notify_one();
        }
    }

    // What was found, where the look-up is over: then another can be asked for.
    fn take<R: Wait>(&self, rt: &R) -> Option<Found> {
        let mut stage = self.stage.lock(rt);
        match std::mem::replace(&mut *stage, Stage::Idle) {
            Stage::Over(found) => Some(found),
            other => {
                *stage = other;
                None
            }
        }
    }
}

impl Lookups {
    /// None is asked for.
    pub(crate) fn new(alloc: Global, remote: Arc<Remote>) -> Result<Lookups, AllocError> {
        let mut desks = Vec::with_capacity(alloc, LANES)?;
        for _ in 0..LANES {
            desks.push(Desk::new())?;
        }
        Ok(Lookups {
            alloc,
            desks,
            remote,
        })
    }

    /// Looks up this lane's names until the proxy ends, in a thread that waits as long as the resolver
    /// does. At the end nobody waits for it.
    pub fn serve<R: Net + Wait>(&self, rt: &R, lane: usize) {
        let Some(desk) = self.desks.get(lane) else {
            return;
        };
        for _ in rt.forever() {
            let Some(name) = desk.next(rt) else {
                return;
            };
            let found = look_up(rt, self.alloc, name.as_str());
            desk.set(rt, Stage::Over(found));
            self.remote.wake();
        }
    }

    /// Asks for a lane's addresses. False where there is no memory.
    pub(crate) fn ask<R: Wait>(&self, rt: &R, lane: usize, name: &str) -> bool {
        let Some(desk) = self.desks.get(lane) else {
            return false;
        };
        match format!(in self.alloc; "{name}") {
            Ok(name) => {
                desk.set(rt, Stage::Asked(name));
                true
            }
            Err(_) => false,
        }
    }

    /// What was found for a lane, once it was.
    pub(crate) fn take<R: Wait>(&self, rt: &R, lane: usize) -> Option<Found> {
        self.desks.get(lane)?.take(rt)
    }

    /// No name is looked up any more.
    pub(crate) fn close<R: Wait>(&self, rt: &R) {
        for desk in self.desks.as_slice() {
            desk.set(rt, Stage::Closed);
        }
    }
}
