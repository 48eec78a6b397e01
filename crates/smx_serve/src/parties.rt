//! What is done for the parties: the lanes, then the slots of clients.

use crate::addresses::Addresses;
use crate::guests::Guests;
use crate::lane::Lane;
use crate::linking::turn_lane;
use crate::pace::Moment;
use crate::queues::Queues;
use mio::Token;
use mio::event::Event;
use smx_slots::Ledger;
use smx_socket::{Flushed, Socket};
use std::sync::Wait;

pub(crate) const LISTENER: usize = 1_000_000;

pub(crate) const WAKER: usize = 1_000_001;

// The socket of a party, where it has one.
fn socket_of<'a>(lanes: &'a [Lane], guests: &'a Guests, party: usize) -> Option<&'a Socket> {
    match lanes.get(party) {
        Some(lane) => lane.socket(),
        None => guests.socket(party.saturating_sub(lanes.len())),
    }
}

// Writes what waits for a party. A worker whose socket failed is told by its next turn.
fn write<'a>(lanes: &'a [Lane], guests: &'a Guests, queues: &mut Queues, party: usize) {
    queues.pressure.let_go(party);
    let failed = match socket_of(lanes, guests, party) {
        Some(socket) => socket.has_octets() && socket.flush() == Flushed::Failed,
        None => false,
    };
    if failed {
        queues.schedule.resume(party);
        queues.schedule.add(party);
    }
}

// Writes what waits for the lanes, so that the centres are at work while the clients are written to.
#[inline(never)]
fn flush_lanes<'a>(lanes: &'a [Lane], guests: &'a Guests, queues: &mut Queues) {
    for _ in 0..queues.dirty() {
        let Some(party) = queues.next_to_flush() else {
            break;
        };
        if party < lanes.len() {
            write(lanes, guests, queues, party);
        } else {
            queues.add_dirty(party);
        }
    }
}

// Whether what waits for a party is held back in this round: it is a client that has requests under way.
fn is_held(guests: &Guests, queues: &mut Queues, ledger: &Ledger, party: usize) -> bool {
    if party < queues.lanes {
        return false;
    }
    match guests.at(party.saturating_sub(queues.lanes)) {
        Some(guest) => ledger.of_client(guest.client) > 0 && queues.pressure.holds(party),
        None => false,
    }
}

/// Writes what waits. Where there is a ledger a lane is pressed: what waits for the lanes is written first, and
/// what may wait for a round is left.
pub(crate) fn flush<'a>(
    lanes: &'a [Lane],
    guests: &'a Guests,
    queues: &mut Queues,
    ledger: Option<&'a Ledger>,
) {
    if ledger.is_some() {
        flush_lanes(lanes, guests, queues);
    }
    for _ in 0..queues.dirty() {
        let Some(party) = queues.next_to_flush() else {
            break;
        };
        match ledger {
            Some(ledger) if is_held(guests, queues, ledger, party) => queues.add_dirty(party),
            _ => write(lanes, guests, queues, party),
        }
    }
}

/// Writes what waits where nobody is ready: whether nobody is ready still.
pub(crate) fn are_idle<'a>(lanes: &'a [Lane], guests: &'a Guests, queues: &mut Queues) -> bool {
    if !queues.schedule.is_empty() {
        return false;
    }
    flush(lanes, guests, queues, None);
    queues.schedule.is_empty()
}

// Turns a party's worker. True where a client is gone then.
fn turn<R: Wait>(
    rt: &R,
    moment: &Moment<'_>,
    lanes: &mut [Lane],
    guests: &mut Guests,
    queues: &mut Queues,
    addresses: &mut Addresses,
    party: usize,
) -> bool {
    let slot = party.saturating_sub(lanes.len());
    match lanes.get_mut(party) {
        Some(lane) => {
            turn_lane(rt, moment, queues, addresses, guests, party, lane);
            false
        }
        None => guests.turn(rt, moment, queues, addresses, slot),
    }
}

/// Turns each lane and bound client that is ready once, and then one of the others. True where a client
/// is gone then.
pub(crate) fn pass<R: Wait>(
    rt: &R,
    moment: &Moment<'_>,
    lanes: &mut [Lane],
    guests: &mut Guests,
    queues: &mut Queues,
    addresses: &mut Addresses,
) -> bool {
    let mut is_gone = false;
    for _ in 0..queues.schedule.firsts() {
        let Some(party) = queues.schedule.begin_first() else {
            break;
        };
        is_gone |= turn(rt, moment, lanes, guests, queues, addresses, party);
    }
    if !queues.schedule.has_no_unbound() {
        flush(lanes, guests, queues, None);
    }
    if let Some(party) = queues.schedule.begin_unbound() {
        is_gone |= turn(rt, moment, lanes, guests, queues, addresses, party);
    }
    is_gone
}

// Heeds what the system says of a party's socket: whether that takes octets, or has failed.
fn note<'a>(lanes: &'a [Lane], guests: &'a Guests, event: &Event, party: usize) -> bool {
    match socket_of(lanes, guests, party) {
        Some(socket) => {
            socket.note(event);
            let failed = socket.has_octets() && socket.flush() == Flushed::Failed;
            failed || event.is_writable() || event.is_error()
        }
        None => false,
    }
}

/// Heeds what the system says. True where it is that somebody connects.
pub(crate) fn heed<'a>(
    event: &Event,
    lanes: &'a [Lane],
    guests: &'a Guests,
    queues: &mut Queues,
) -> bool {
    let Token(party) = event.token();
    if party == LISTENER {
        return true;
    }
    if party == WAKER {
        return false;
    }
    if note(lanes, guests, event, party) {
        queues.schedule.resume(party);
    }
    queues.schedule.add(party);
    false
}

/// Whether no octet waits for a socket; where the lanes are to end, also whether each worker of them
/// has, and where the clients are to close, whether each that is gone has.
pub(crate) fn are_settled(
    lanes: &[Lane],
    guests: &Guests,
    lanes_end: bool,
    clients_close: bool,
) -> bool {
    for lane in lanes {
        if !lane.is_settled(lanes_end) {
            return false;
        }
    }
    if clients_close {
        !guests.is_lingering()
    } else {
        !guests.is_writing()
    }
}
