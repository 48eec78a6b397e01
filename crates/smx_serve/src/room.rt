//! How many clients the system's descriptors leave room for.

use crate::lookup::is_name;
use mio::Poll;
use smx_config::Config;
use smx_notice::{DoorNews, Notice};
use smx_slots::clients_that_fit;
use std::alloc::Global;
use std::net::Net;

// How many are opened beside those of lanes and clients: what listens, a connection that is refused, and
// a file that is read again.
const OWN: usize = 3;

// How many a look-up of a name takes at most.
const LOOKUP: usize = 4;

/// How many clients are let in, and why.
#[derive(Clone, Copy)]
pub(crate) struct Room {
    pub clients: usize,
    // So many descriptors can be had, or as many as are wanted.
    found: usize,
    wanted: usize,
}

// How many descriptors the system gives now, at most so many. Each is given back.
fn to_be_had<R: Net>(rt: &R, alloc: Global, most: usize) -> usize {
    let Ok(mut held) = Vec::with_capacity(alloc, most) else {
        return most;
    };
    for _ in 0..most {
        let Ok(poll) = Poll::new(rt) else {
            break;
        };
        if held.push(poll).is_err() {
            break;
        }
    }
    held.len()
}

// How many descriptors the lanes, their look-ups and the program's own take.
fn others_of(config: &Config) -> usize {
    let mut others = config.upstream.len().saturating_add(OWN);
    for upstream in config.upstream.as_slice() {
        if is_name(upstream.address.as_str()) {
            others = others.saturating_add(LOOKUP);
        }
    }
    others
}

impl Room {
    /// By what the system gives before anything listens.
    pub fn new<R: Net>(rt: &R, alloc: Global, config: &Config) -> Room {
        let clients = (config.clients as usize).max(1);
        let others = others_of(config);
        let wanted = others.saturating_add(clients);
        let found = to_be_had(rt, alloc, wanted);
        Room {
            clients: clients_that_fit(clients, others, found),
            found,
            wanted,
        }
    }

    /// What is to be said of it, where fewer can be had than are wanted.
    pub fn notice(self) -> Option<Notice<'static>> {
        let Room {
            clients,
            found,
            wanted,
        } = self;
        (found < wanted).then_some(Notice::Door(DoorNews::FewDescriptors {
            found,
            wanted,
            clients,
        }))
    }
}
