//! The states of a caller, and what a caller may do.

use thiserror::Error;

/// Where a caller of the lock stands.
#[derive(Clone, Copy, PartialEq, Eq, Debug)]
pub enum Caller {
    /// It takes no part.
    Idle,
    /// It read this number as the ticket that is drawn next.
    Read(u64),
    /// It read this number as the ticket that is served.
    Saw(u64),
    /// It drew this ticket.
    Waiting(u64),
    /// It has the lock, under this ticket.
    Holding(u64),
}

/// One atomic step of the caller with this index.
#[derive(Clone, Copy, PartialEq, Eq, Debug)]
pub enum Event {
    /// Reads the ticket that is drawn next.
    ReadNext(usize),
    /// Draws the ticket that it read, unless another caller drew it.
    Draw(usize),
    /// Looks whether its ticket is served.
    Look(usize),
    /// Gives the lock back, so that the next ticket is served.
    Leave(usize),
    /// Reads the ticket that is served.
    ReadServing(usize),
    /// Draws the ticket that it saw served, unless another caller drew it.
    TryDraw(usize),
}

/// Why the machine refuses an event. It is then unchanged.
#[derive(Clone, Copy, PartialEq, Eq, Debug, Error)]
pub enum Illegal {
    /// The index is not below the count of callers.
    #[error("no caller has this index")]
    NoCaller,
    /// The event is not one of the caller's state.
    #[error("the caller's state does not allow this event")]
    WrongState,
    /// The draw would take the ticket 2^62.
    #[error("every ticket was drawn")]
    Spent,
}
