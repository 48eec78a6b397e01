//! A seat that stays in its place, and what is done in one hold.
ghost use Rattle.std.specs.Prelude.{◌≡◌, ◌⊎◌, IsSome, IfOk, IfErr};
ghost use mathlib.Core.List.{IsPrefix};
ghost use Rattle.smx_ticket_core.specs.declared.callers.Caller.TheVariants.{Idle};
ghost use Rattle.smx_lock.specs.Fronts.{Hold, Finds, MayLeave, Leaves, Runs, IsSpent, Refused, MakesSeat, MakesNoSeat, after_hold, front_in, holding};

use crate::faults::{Spent, TryFault};
use crate::lock::TicketLock;
use crate::section::{CriticalSection, Done};
use crate::tokens::{Held, LockSeat};
use smx_kept::Kept;
use std::marker::Model;
use std::snapshot::Snapshot;
use std::sync::Wait;

/// A seat for a caller that keeps it: each call takes it out for one hold and puts it back.
/// Contracts see it as its seat.
#[derive(Drop)]
pub struct SeatInPlace<S: Kept> {
    // In place between two calls.
    seat: Option<LockSeat<S>>,
}

impl<S: Kept> Model for SeatInPlace<S> {
    ghost use Rattle.std.specs.Prelude.{IsSome};
    ghost use Rattle.smx_lock.specs.Fronts.{Front, front_in};

    ghost Value = { Front S.Note S.Fixed };

    ghost view = { λ t. front_in S.some_fixed t.seat };

    ghost invariant = { λ t. IsSome t.seat };
}

impl<S: Kept> SeatInPlace<S> {
    pub fn new(seat: LockSeat<S>) -> SeatInPlace<S>
        ensures { result ≡ seat }
    {
        SeatInPlace { seat: Some(seat) }
    }

    pub fn into_seat(self) -> LockSeat<S>
        ensures { result ≡ self }
    {
        let SeatInPlace { seat } = self;
        standing(seat)
    }

    /// Runs the section in one hold, for which it may wait. At a refusal the section comes back.
    #[inline(always)]
    pub fn hold<R: Wait, C: CriticalSection<S, S::Note>>(
        &mut self,
        rt: &R,
        lock: &TicketLock<S>,
        section: C,
    ) -> Result<C::Answer, (C, Spent)>
        requires lock { self.old.lock ≡ lock.now }
        requires may { (h : Hold S S.Note S.Fixed) → Finds S.writer S.fixed S.agrees self.old h
            → C.may section h.number h.value }
        requires leaves { Leaves S.writer S.fixed S.agrees self.old (C.does section)
            (C.notes section) }
        ensures lock { self.new.lock ≡ self.old.lock }
        ensures idle { IfOk result (λ _. self.old.caller ≡ Idle) }
        ensures done { IfOk result (λ answer. Runs S.writer S.fixed S.agrees self.old self.new
            (C.does section) (C.notes section) answer) }
        ensures back { IfErr result (λ e. e.0 ≡ section) }
        ensures spent { IfErr result (λ _. IsSpent self.old self.new) }
        ensures stays { IfErr result (λ _. (self.old.caller ≡ Idle) ⊎ (self.new ≡ self.old)) }
    {
        match lock.acquire(rt, standing(self.seat.take())) {
            Ok(held) => {
                let (seat, answer) = run(lock, held, section);
                self.seat = Some(seat);
                Ok(answer)
            }
            Err((seat, spent)) => {
                self.seat = Some(seat);
                Err((section, spent))
            }
        }
    }

    /// The same without waiting: `Busy` where another caller has the lock.
    pub fn try_hold<C: CriticalSection<S, S::Note>>(
        &mut self,
        lock: &TicketLock<S>,
        section: C,
    ) -> Result<C::Answer, (C, TryFault)>
        requires lock { self.old.lock ≡ lock.now }
        requires may { (h : Hold S S.Note S.Fixed) → Finds S.writer S.fixed S.agrees self.old h
            → C.may section h.number h.value }
        requires leaves { Leaves S.writer S.fixed S.agrees self.old (C.does section)
            (C.notes section) }
        ensures lock { self.new.lock ≡ self.old.lock }
        ensures idle { IfOk result (λ _. self.old.caller ≡ Idle) }
        ensures done { IfOk result (λ answer. Runs S.writer S.fixed S.agrees self.old self.new
            (C.does section) (C.notes section) answer) }
        ensures back { IfErr result (λ e. e.0 ≡ section) }
        ensures refused { IfErr result (λ e. Refused self.old self.new e.1) }
        ensures stays { IfErr result (λ _. (self.old.caller ≡ Idle) ⊎ (self.new ≡ self.old)) }
    {
        match lock.try_acquire(standing(self.seat.take())) {
            Ok(held) => {
                let (seat, answer) = run(lock, held, section);
                self.seat = Some(seat);
                Ok(answer)
            }
            Err((seat, fault)) => {
                self.seat = Some(seat);
                Err((section, fault))
            }
        }
    }

    /// One hold makes a new seat, which has seen what that hold found and has made no note. It may
    /// wait. `Spent` comes where every ticket was drawn, or where there are 2^62 seats.
    pub fn split<R: Wait>(&mut self, rt: &R, lock: &TicketLock<S>) -> Result<SeatInPlace<S>, Spent>
        requires { self.old.lock ≡ lock.now }
        ensures lock { self.new.lock ≡ self.old.lock }
        ensures ok { IfOk result (MakesSeat S.writer S.fixed S.agrees self.old self.new) }
        ensures err { IfErr result (λ _. MakesNoSeat S.writer S.fixed S.agrees self.old self.new) }
    {
        match lock.acquire(rt, standing(self.seat.take())) {
            Ok(mut held) => match lock.split(&mut held) {
                Ok(seat) => {
                    self.seat = Some(lock.release(held));
                    Ok(SeatInPlace::new(seat))
                }
                Err(spent) => {
                    self.seat = Some(lock.release(held));
                    Err(spent)
                }
            },
            Err((seat, spent)) => {
                self.seat = Some(seat);
                Err(spent)
            }
        }
    }

    /// Compares what two seats of this lock have seen, as `TicketLock::compare` does.
    pub fn compare(&mut self, lock: &TicketLock<S>, other: &mut SeatInPlace<S>)
        requires own { self.old.lock ≡ lock.now }
        requires other { other.old.lock ≡ lock.now }
        ensures same { (self.new ≡ self.old) × (other.new ≡ other.old) }
        ensures one_history { IsPrefix self.old.seen other.old.seen
            ⊎ IsPrefix other.old.seen self.old.seen }
    {
        let mut mine = standing(self.seat.take());
        let mut theirs = standing(other.seat.take());
        lock.compare(&mut mine, &mut theirs);
        self.seat = Some(mine);
        other.seat = Some(theirs);
    }
}

// The seat of a place that has one.
fn standing<S: Kept>(seat: Option<LockSeat<S>>) -> LockSeat<S>
    requires { IsSome seat }
    ensures { result ≡ front_in S.some_fixed seat }
{
    match seat {
        Some(seat) => seat,
        None => unreachable!(),
    }
}

// Runs the section in a hold, and ends it.
#[inline(always)]
fn run<S: Kept, C: CriticalSection<S, S::Note>>(
    lock: &TicketLock<S>,
    from: Held<S>,
    section: C,
) -> (LockSeat<S>, C::Answer)
    requires lock { from.lock ≡ lock.now }
    requires may { C.may section from.number from.value }
    requires leaves { (answer : C.Answer) (w : S) → C.does section from.number from.value answer w
        → MayLeave S.writer S.fixed S.agrees (holding from w)
        (C.notes section from.number from.value answer) }
    ensures { (w : S) × C.does section from.number from.value result.1 w
        × (result.0
        ≡ after_hold (holding from w) (C.notes section from.number from.value result.1)) }
{
    let mut held = from;
    let number = held.number();
    let began = Snapshot::of(&section);
    let found = Snapshot::of(held.value());
    let answer = section.run(held.value_mut(), number);
    let done = Done {
        section: began,
        found,
        answer: Snapshot::of(&answer),
    };
    (lock.release_told(held, &done), answer)
}
