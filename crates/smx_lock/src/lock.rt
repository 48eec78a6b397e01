//! The lock and its calls.
ghost use Rattle.std.specs.Prelude.{◌≡◌, ◌≤◌, ◌<◌, ◌⊎◌, List, [], ◌∷◌, IfOk, IfErr, IfSome, IsSome};
ghost use mathlib.Core.List.{IsPrefix};
ghost use Rattle.smx_ticket_core.specs.Machine.{most};
ghost use Rattle.smx_ticket_core.specs.declared.callers.Caller.TheVariants.{Idle, Waiting};
ghost use Rattle.smx_lock.specs.Fronts.{front_of, first_front, Finds, IsSpent, MayLeave, after_hold, host_hold, guest_front, IsLast, Refused};

use crate::faults::{Spent, StateOut, TryFault};
use crate::noted::Noted;
use crate::plays::{
    Compare, Draw, Leave, Look, Meet, ReadNext, ReadServing, Tell, TryDraw, Turns, Twin,
};
use crate::tokens::{Held, LockSeat};
use crate::views::{Case, Opening, View};
use atomic_table::{Seat, Table};
use crossbeam_utils::Backoff;
use smx_kept::{Kept, Told};
use smx_ticket_core::MOST;
use std::alloc::{AllocError, Global};
use std::marker::{Brand, Model};
use std::snapshot::Snapshot;
use std::sync::Wait;

/// A ticket lock round one value. Contracts see which lock it is, and the part of the value that
/// never changes.
///
/// The value lies in a box of its own, so that a hold takes the box's address out of the lock and
/// puts it back, 8 octets, whatever the size of the value.
#[derive(Drop)]
pub struct TicketLock<S: Kept> {
    // Word 0 is the ticket that is drawn next, word 1 the ticket that is served.
    table: Table<Option<Case<S>>, View<S::Note, S::Fixed>, Opening<S>, Turns<S>, Global>,
}

impl<S: Kept> Model for TicketLock<S> {
    ghost use Rattle.std.specs.Prelude.{◌≡◌};
    ghost use Rattle.smx_lock.specs.Fronts.{LockId};

    ghost Value = { LockId S.Fixed };

    ghost view = { λ l. record {
      table = l.table.shared.table_id;
      fixed = S.fixed l.table.shared.key.opened.value;
    } };

    ghost invariant = { λ l. (l.table.shared.table_id.words ≡ 2)
        × (l.table.shared.table_id.slots ≡ 1) };
}

impl<S: Kept> TicketLock<S> {
    /// A lock whose first ticket is 0, and its first seat, number 0. It allocates the value's box,
    /// two words and one slot; no later call allocates. The value comes back where memory is
    /// refused.
    pub fn new(alloc: Global, value: S) -> Result<(TicketLock<S>, LockSeat<S>), (S, AllocError)>
        requires { S.agrees value [] }
        ensures fixed { IfOk result (λ l. l.0.fixed ≡ S.fixed value) }
        ensures seat { IfOk result (λ l. l.1 ≡ first_front l.0) }
        ensures back { IfErr result (λ e. e.0 ≡ value) }
    {
        TicketLock::new_at(alloc, value, 0)
    }

    /// The same, with the first ticket given: for tests of what comes when tickets end.
    // No clause sees a word of the table, so none says where the words start. A test shows it.
    pub fn new_at(
        alloc: Global,
        value: S,
        first: u64,
    ) -> Result<(TicketLock<S>, LockSeat<S>), (S, AllocError)>
        requires low { first ≤ most }
        requires agrees { S.agrees value [] }
        ensures fixed { IfOk result (λ l. l.0.fixed ≡ S.fixed value) }
        ensures seat { IfOk result (λ l. l.1 ≡ first_front l.0) }
        ensures back { IfErr result (λ e. e.0 ≡ value) }
    {
        let opened = Snapshot::of(&value);
        let about = Opening { first, opened };
        let mut slots = Vec::new(alloc);
        let value = match Box::new(alloc, value) {
            Ok(value) => value,
            Err(failed) => {
                slots.destroy_empty();
                return Err((failed.value, AllocError));
            }
        };
        if let Err(failed) = slots.push(Some(Case { value, seats: 1 })) {
            slots.destroy_empty();
            return Err((taken(failed.value), AllocError));
        }
        match Table::new(alloc, &[first, first], slots, &about) {
            Ok((table, seat)) => Ok((TicketLock { table }, LockSeat::free(seat, 0))),
            Err(mut refused) => {
                let back = refused.slots.pop();
                refused.slots.destroy_empty();
                match back {
                    Some(case) => Err((taken(case), AllocError)),
                    None => unreachable!(),
                }
            }
        }
    }

    /// Draws a ticket, waits until it is served, and takes the value. It waits by spinning and
    /// then yielding, and may never return. `Spent` comes where all tickets below 2^62 are drawn,
    /// and from then on at once.
    #[inline(always)]
    pub fn acquire<R: Wait>(
        &self,
        rt: &R,
        from: LockSeat<S>,
    ) -> Result<Held<S>, (LockSeat<S>, Spent)>
        requires { from.lock ≡ self.now }
        ensures idle { IfOk result (λ _. from.caller ≡ Idle) }
        ensures found { IfOk result (Finds S.writer S.fixed S.agrees from) }
        ensures spent { IfErr result (λ e. IsSpent from e.0) }
        ensures stays { IfErr result (λ e. (from.caller ≡ Idle) ⊎ (e.0 ≡ from)) }
        ensures lock { IfErr result (λ e. e.0.lock ≡ from.lock) }
    {
        if from.spent {
            return Err((from, Spent));
        }
        let number = from.number;
        let LockSeat { mut seat, .. } = from;
        let table = &self.table.shared;
        let mut ticket = table.load::<ReadNext>(&mut seat, 0);
        for _ in rt.forever() {
            if ticket == MOST {
                return Err((LockSeat::at_end(seat, number), Spent));
            }
            let found = table.compare_exchange::<Draw>(&mut seat, 0, ticket, ticket + 1);
            if found == ticket {
                return Ok(self.wait_for(rt, seat, number, ticket));
            }
            ticket = found;
        }
        unreachable!()
    }

    // Waits until the ticket is served, and takes the value out of the slot.
    #[inline(always)]
    fn wait_for<R: Wait>(
        &self,
        rt: &R,
        from: Seat<Option<Case<S>>, View<S::Note, S::Fixed>>,
        number: u64,
        ticket: u64,
    ) -> Held<S>
        requires lock { from.table_id ≡ self.now.table }
        requires number { number ≡ from.me.0.number }
        requires waiting { (from.me.0.caller ≡ Waiting ticket) × (from.me.1 ≡ []) }
        ensures { Finds S.writer S.fixed S.agrees (front_of from.table_id from.me.0) result }
    {
        let mut seat = from;
        let table = &self.table.shared;
        let backoff = Backoff::new();
        for _ in rt.forever() {
            if table.load::<Look>(&mut seat, 1) == ticket {
                match table.exchange(&mut seat, 0, None) {
                    Some(Case { value, seats }) => {
                        return Held {
                            seat,
                            value,
                            number,
                            ticket,
                            seats,
                        };
                    }
                    None => unreachable!(),
                }
            }
            backoff.snooze();
        }
        unreachable!()
    }

    /// Takes the value where nobody holds or waits, without waiting. `Spent` comes where the
    /// ticket that is served is 2^62, and from then on at once. `Busy` comes where another caller
    /// has drawn the ticket.
    pub fn try_acquire(&self, from: LockSeat<S>) -> Result<Held<S>, (LockSeat<S>, TryFault)>
        requires { from.lock ≡ self.now }
        ensures idle { IfOk result (λ _. from.caller ≡ Idle) }
        ensures found { IfOk result (Finds S.writer S.fixed S.agrees from) }
        ensures refused { IfErr result (λ e. Refused from e.0 e.1) }
        ensures stays { IfErr result (λ e. (from.caller ≡ Idle) ⊎ (e.0 ≡ from)) }
        ensures lock { IfErr result (λ e. e.0.lock ≡ from.lock) }
    {
        if from.spent {
            return Err((from, TryFault::Spent));
        }
        let number = from.number;
        let LockSeat { mut seat, .. } = from;
        let table = &self.table.shared;
        let ticket = table.load::<ReadServing>(&mut seat, 1);
        if ticket == MOST {
            return Err((LockSeat::at_end(seat, number), TryFault::Spent));
        }
        if table.compare_exchange::<TryDraw>(&mut seat, 0, ticket, ticket + 1) != ticket {
            return Err((LockSeat::free(seat, number), TryFault::Busy));
        }
        match table.exchange(&mut seat, 0, None) {
            Some(Case { value, seats }) => Ok(Held {
                seat,
                value,
                number,
                ticket,
                seats,
            }),
            None => unreachable!(),
        }
    }

    /// Puts the value back and serves the next ticket. The caller names, for contracts alone, the
    /// notes that this hold adds to the history.
    pub fn release(&self, held: Held<S>) -> LockSeat<S>
        ghost notes: { List S.Note }
        requires lock { held.lock ≡ self.now }
        requires notes { MayLeave S.writer S.fixed S.agrees held notes }
        ensures { result ≡ after_hold held notes }
    {
        self.put_back::<Brand>(held)
    }

    /// `release` where a value tells the notes, so that no caller has to name them in a proof.
    pub fn release_told<T: Told<S::Note>>(&self, held: Held<S>, told: &T) -> LockSeat<S>
        requires lock { held.lock ≡ self.now }
        requires notes { MayLeave S.writer S.fixed S.agrees held (T.notes told.now held.number) }
        ensures { result ≡ after_hold held (T.notes told.now held.number) }
    {
        self.put_told::<Brand, T>(held, told)
    }

    // What `told` tells is known to `M` alone, as a type.
    fn put_told<M: Noted<S::Note>, T>(&self, held: Held<S>, told: &T) -> LockSeat<S>
        requires lock { held.lock ≡ self.now }
        requires notes { MayLeave S.writer S.fixed S.agrees held M.notes }
        ensures { result ≡ after_hold held M.notes }
    {
        let _ = told;
        self.put_back::<M>(held)
    }

    fn put_back<M: Noted<S::Note>>(&self, held: Held<S>) -> LockSeat<S>
        requires lock { held.lock ≡ self.now }
        requires notes { MayLeave S.writer S.fixed S.agrees held M.notes }
        ensures { result ≡ after_hold held M.notes }
    {
        let Held {
            mut seat,
            value,
            number,
            ticket,
            seats,
        } = held;
        let table = &self.table.shared;
        match table.exchange(&mut seat, 0, Some(Case { value, seats })) {
            None => {}
            Some(_) => unreachable!(),
        }
        table.store::<Leave<M>>(&mut seat, 1, ticket + 1);
        LockSeat::free(seat, number)
    }

    /// A new seat, which has seen what this hold found and has made no note. Its number is the
    /// count of seats before: above the holder's own, and no note found stands under it. `Spent`
    /// comes exactly where there are 2^62 seats. A seat takes no memory of the lock.
    pub fn split(&self, held: &mut Held<S>) -> Result<LockSeat<S>, Spent>
        requires { held.old.lock ≡ self.now }
        ensures room { IfOk result (λ _. held.old.seats < most) }
        ensures host { IfOk result (λ _. held.new ≡ host_hold held.old) }
        ensures guest { IfOk result (λ f. f ≡ guest_front held.old) }
        ensures spent { IfErr result (λ _. held.old.seats ≡ most) }
        ensures unchanged { IfErr result (λ _. held.new ≡ held.old) }
    {
        if held.seats >= MOST {
            return Err(Spent);
        }
        let number = held.seats;
        held.seats += 1;
        let seat = self.table.shared.split_seat::<Twin>(&mut held.seat);
        Ok(LockSeat::free(seat, number))
    }

    /// Compares what two seats of this lock have seen: one of the two histories begins with the
    /// other. Both seats come back as they were.
    ///
    /// A caller that has two tokens of a lock knows by this that they tell of one history. At run
    /// time it is three loads of one word; it never waits, allocates nothing and answers nothing.
    /// That the two seats have different numbers is said by no clause: `LockSeat::number` tells
    /// it.
    pub fn compare(&self, a: &mut LockSeat<S>, b: &mut LockSeat<S>)
        requires a { a.old.lock ≡ self.now }
        requires b { b.old.lock ≡ self.now }
        ensures same { (a.new ≡ a.old) × (b.new ≡ b.old) }
        ensures one_history { IsPrefix a.old.seen b.old.seen ⊎ IsPrefix b.old.seen a.old.seen }
    {
        let table = &self.table.shared;
        let message = table.split_seat::<Tell>(&mut a.seat);
        table.join_seat::<Meet<S>>(&mut b.seat, message);
        table.load::<Compare>(&mut b.seat, 0);
    }

    /// Compares a hold and a seat of this lock: what the hold found begins with what the seat has
    /// seen, and the seat's number is below the hold's count of seats, so it is not the number of
    /// a seat that this hold splits off from now on. Both come back as they were. It costs what
    /// `compare` does.
    pub fn compare_held(&self, held: &mut Held<S>, seat: &mut LockSeat<S>)
        requires held { held.old.lock ≡ self.now }
        requires seat { seat.old.lock ≡ self.now }
        ensures same { (held.new ≡ held.old) × (seat.new ≡ seat.old) }
        ensures one_history { IsPrefix seat.old.seen held.old.found }
        ensures counted { seat.old.number < held.old.seats }
    {
        let table = &self.table.shared;
        let message = table.split_seat::<Tell>(&mut seat.seat);
        table.join_seat::<Meet<S>>(&mut held.seat, message);
        table.load::<Compare>(&mut held.seat, 0);
    }

    /// Ends the lock and gives its value. `StateOut` comes where a drawn ticket was not served to
    /// its end, as one whose thread was lost: the value is then lost too.
    // No clause sees the words, so none says when `StateOut` comes, and a body that always answers
    // it is proved. Tests show both answers.
    pub fn finish(self, last: LockSeat<S>) -> Result<S, StateOut>
        requires { last.lock ≡ self }
        ensures { IfOk result (IsLast S.writer S.fixed S.agrees last) }
    {
        let TicketLock { table } = self;
        let LockSeat { seat, .. } = last;
        let mut closed = table.close_with(seat);
        let next = closed.word(0);
        let serving = closed.word(1);
        let slot = closed.take(0);
        closed.free();
        if next != serving {
            return Err(StateOut);
        }
        match slot {
            Some(Case { value, .. }) => Ok(Box::into_inner(value)),
            None => unreachable!(),
        }
    }
}

// The value of a slot that has one.
fn taken<S>(slot: Option<Case<S>>) -> S
    requires { IsSome slot }
    ensures { IfSome slot (λ c. result ≡ c.value.value) }
{
    match slot {
        Some(Case { value, .. }) => Box::into_inner(value),
        None => unreachable!(),
    }
}
