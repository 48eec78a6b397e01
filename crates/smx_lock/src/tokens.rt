//! A seat at a lock, and a hold of it.

use crate::views::{Case, View};
use atomic_table::Seat;
use smx_kept::Kept;
use std::alloc::Global;
use std::marker::Model;

/// The right to take part in a lock, between two holds. A seat that is dropped stays in the count.
#[derive(Drop)]
pub struct LockSeat<S: Kept> {
    pub(crate) seat: Seat<Option<Case<S>>, View<S::Note, S::Fixed>>,
    pub(crate) number: u64,
    // Whether the seat was told that every ticket was drawn.
    pub(crate) spent: bool,
}

impl<S: Kept> Model for LockSeat<S> {
    ghost use Rattle.smx_lock.specs.Fronts.{Front, front_of};
    ghost use Rattle.smx_lock.specs.Invariants.{IsFree};

    ghost Value = { Front S.Note S.Fixed };

    ghost view = { λ s. front_of s.seat.table_id s.seat.me.0 };

    ghost invariant = { λ s. IsFree S.writer s.seat.me s.number s.spent };
}

impl<S: Kept> LockSeat<S> {
    ghost use Rattle.std.specs.Prelude.{◌≡◌, true, false};
    ghost use Rattle.smx_lock.specs.Fronts.{front_of};
    ghost use Rattle.smx_lock.specs.Invariants.{IsFree};

    // A seat with no hold, while there are tickets.
    pub(crate) fn free(
        seat: Seat<Option<Case<S>>, View<S::Note, S::Fixed>>,
        number: u64,
    ) -> LockSeat<S>
        requires { IsFree S.writer seat.me number false }
        ensures { result ≡ front_of seat.table_id seat.me.0 }
    {
        LockSeat {
            seat,
            number,
            spent: false,
        }
    }

    // A seat that was told that every ticket was drawn.
    pub(crate) fn at_end(
        seat: Seat<Option<Case<S>>, View<S::Note, S::Fixed>>,
        number: u64,
    ) -> LockSeat<S>
        requires { IsFree S.writer seat.me number true }
        ensures { result ≡ front_of seat.table_id seat.me.0 }
    {
        LockSeat {
            seat,
            number,
            spent: true,
        }
    }

    /// The seat's number: 0 for the first, and the count of seats before it for each other.
    pub fn number(&self) -> u64
        ensures { result ≡ self.now.number }
    {
        self.number
    }
}

/// A seat that holds the lock, with the value in its box. It has no `Drop`: only
/// `TicketLock::release` and `TicketLock::release_told` spend it, and code that lets it go does
/// not compile.
pub struct Held<S: Kept> {
    pub(crate) seat: Seat<Option<Case<S>>, View<S::Note, S::Fixed>>,
    pub(crate) value: Box<S, Global>,
    pub(crate) number: u64,
    pub(crate) ticket: u64,
    // The count of seats.
    pub(crate) seats: u64,
}

impl<S: Kept> Model for Held<S> {
    ghost use Rattle.smx_lock.specs.Fronts.{Hold, hold_of};
    ghost use Rattle.smx_lock.specs.Invariants.{IsHold};

    ghost Value = { Hold S S.Note S.Fixed };

    ghost view = { λ h. hold_of h.seat.table_id h.seat.me.0 h.value.value };

    ghost invariant = { λ h. IsHold S.writer h.seat.me h.number h.ticket h.seats };
}

impl<S: Kept> Held<S> {
    ghost use Rattle.std.specs.Prelude.{◌≡◌};
    ghost use Rattle.std.specs.Borrow.{Lends, sem};
    ghost use Rattle.smx_lock.specs.contracts.tokens.Held.{the_row};
    ghost use Rattle.smx_lock.specs.Fronts.{holding};

    /// The number of the seat that holds.
    pub fn number(&self) -> u64
        ensures { result ≡ self.now.number }
    {
        self.number
    }

    /// The locked value.
    pub fn value(&self) -> &S
        ensures { result.now ≡ self.now.value }
    {
        &*self.value
    }

    /// The locked value, to change. When the borrow ends, the hold has what was written last.
    pub fn value_mut(&mut self) -> &mut S
        ensures* writes_back { sem 𝓛
            (Lends (the_row S.row S.Note.row S.Fixed.row S.Kept) S.row self.entry result
            (holding self.old)) }
        ensures value { result.now ≡ self.old.value }
    {
        &mut *self.value
    }
}
