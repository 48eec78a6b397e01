//! What doors, ports and taps have in common: a seat on a lane, to be compared with another's.
ghost use Rattle.std.specs.Prelude.{◌≡◌, ℕ, List, Option, Some, slice_get};
ghost use Rattle.smx_lock.specs.Fronts.{Front, LockId};
ghost use Rattle.smx_history.specs.declared.limits.Limits.{Limits};
ghost use Rattle.smx_history.specs.declared.note.Note.{Note};
ghost use Rattle.smx_shared.specs.Tokens.{SawOneHistory, SitsOnAll, SitsOnOne};

use crate::door::Door;
use crate::exchange::Exchange;
use crate::lane_seat::LaneSeat;
use crate::port::Port;
use crate::tap::Tap;

/// What has a seat on a lane: a door, a port or a tap. Nothing else can, since a seat can't be named
/// outside the crate.
pub trait HasSeat {
    // It is used with the exchange that made it, on a lane where it has a seat.
    ghost fits: { Self → List (LockId Limits) → ℕ → Type 0 };

    // The front of that seat.
    ghost front_on: { Self → ℕ → Option (Front Note Limits) };

    fn compare_seat(&mut self, at: &Exchange, lane: usize, seat: &mut LaneSeat)
        requires fits { fits self.old at.now lane }
        requires seat { slice_get at.now lane ≡ Some seat.old.lock }
        ensures same { (self.new ≡ self.old) × (seat.new ≡ seat.old) }
        ensures one_history { SawOneHistory (front_on self.old lane) (Some seat.old) };
}

/// A door, a port or a tap: what `Exchange::compare` takes.
pub trait Token: HasSeat {
    fn compare_token<T: HasSeat>(&mut self, at: &Exchange, lane: usize, other: &mut T)
        requires fits { Self.fits self.old at.now lane }
        requires other { T.fits other.old at.now lane }
        ensures same { (self.new ≡ self.old) × (other.new ≡ other.old) }
        ensures one_history { SawOneHistory (Self.front_on self.old lane)
            (T.front_on other.old lane) };
}

impl HasSeat for Door {
    ghost fits = { λ d. SitsOnAll d.fronts };

    ghost front_on = { λ d. slice_get d.fronts };

    fn compare_seat(&mut self, at: &Exchange, lane: usize, seat: &mut LaneSeat) {
        self.seats[lane]
            .seat
            .compare(&at.locks[lane], &mut seat.seat);
    }
}

impl Token for Door {
    fn compare_token<T: HasSeat>(&mut self, at: &Exchange, lane: usize, other: &mut T) {
        other.compare_seat(at, lane, &mut self.seats[lane]);
    }
}

impl HasSeat for Port {
    ghost fits = { λ p. SitsOnAll p.fronts };

    ghost front_on = { λ p. slice_get p.fronts };

    fn compare_seat(&mut self, at: &Exchange, lane: usize, seat: &mut LaneSeat) {
        self.seats[lane]
            .seat
            .compare(&at.locks[lane], &mut seat.seat);
    }
}

impl Token for Port {
    fn compare_token<T: HasSeat>(&mut self, at: &Exchange, lane: usize, other: &mut T) {
        other.compare_seat(at, lane, &mut self.seats[lane]);
    }
}

impl HasSeat for Tap {
    ghost fits = { SitsOnOne };

    ghost front_on = { λ t _. Some t.front };

    fn compare_seat(&mut self, at: &Exchange, lane: usize, seat: &mut LaneSeat) {
        self.seat.seat.compare(&at.locks[lane], &mut seat.seat);
    }
}

impl Token for Tap {
    fn compare_token<T: HasSeat>(&mut self, at: &Exchange, lane: usize, other: &mut T) {
        other.compare_seat(at, lane, &mut self.seat);
    }
}
