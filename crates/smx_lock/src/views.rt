//! What lies in the slot, what a seat knows, and what the rule is told once.

use smx_ticket_core::Caller;
use std::alloc::Global;
use std::collections::LinkedList;
use std::snapshot::Snapshot;

/// The value, in a box so that a hold moves 8 octets of it, beside the count of seats.
#[derive(Drop)]
pub struct Case<S> {
    pub value: Box<S, Global>,
    pub seats: u64,
}

/// What a seat knows, or what a message between two seats says. No value of it is made.
pub struct View<N, F> {
    // The seat's state in the ticket machine.
    pub caller: Caller,
    pub number: u64,
    // The count of seats, as the last hold left it.
    pub seats: u64,
    // A history that has been, and in a hold the whole history.
    pub seen: LinkedList<N, Global>,
    // The notes of this seat.
    pub mine: LinkedList<N, Global>,
    // One more than the ticket of the last hold that ended, 0 before.
    pub last: u64,
    pub fixed: F,
    // What another seat had seen when it told this one.
    pub met: LinkedList<N, Global>,
    // The number of the seat that told.
    pub teller: u64,
    // Where not, it is a message from one seat to another, or what is left of one.
    pub is_seat: bool,
}

/// Where both words start, and the value that the lock was made with.
#[derive(Drop)]
pub struct Opening<S> {
    pub first: u64,
    pub opened: Snapshot<S>,
}
