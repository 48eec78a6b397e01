//! The machine that runs the event table.
ghost use Rattle.std.specs.Prelude.{◌≡◌, ◌≤◌, IfOk, MatchResult, Ok, Err, slice_get};
ghost use Rattle.smx_ticket_core.specs.Machine.{most, start, after};

use crate::table::{caller_of, turn};
use crate::{Caller, Event, Illegal};
use std::alloc::{AllocError, Global};
use std::marker::Model;

/// Two numbers, the ticket that is drawn next and the ticket that is served, and each caller's
/// state. Contracts see it as a `Machine`.
#[derive(Drop)]
pub struct Core {
    next: u64,
    serving: u64,
    callers: Vec<Caller>,
}

impl Model for Core {
    ghost use Rattle.smx_ticket_core.specs.Machine.{Machine, Sound};

    ghost Value = { Machine };

    ghost view = { λ c. record { next = c.next; serving = c.serving; callers = c.callers.items } };

    ghost invariant = { λ c. Sound record {
      next = c.next;
      serving = c.serving;
      callers = c.callers.items;
    } };
}

impl Core {
    /// So many idle callers, and both numbers at `first`.
    pub fn start(alloc: Global, callers: usize, first: u64) -> Result<Core, AllocError>
        requires { first ≤ most }
        ensures { IfOk result (λ c. c ≡ start callers first) }
    {
        Ok(Core {
            next: first,
            serving: first,
            callers: Vec::from_elem(alloc, Caller::Idle, callers)?,
        })
    }

    /// Does one event, as the event table says. A refused event changes nothing.
    pub fn step(&mut self, event: Event) -> Result<(), Illegal>
        ensures { MatchResult result (λ _. after self.old event ≡ Ok self.new)
            (λ x. (after self.old event ≡ Err x) × (self.new ≡ self.old)) }
    {
        let i = caller_of(event);
        if i >= self.callers.len() {
            return Err(Illegal::NoCaller);
        }
        match turn(self.next, self.serving, event, self.callers[i]) {
            Ok((next, serving, caller)) => {
                self.next = next;
                self.serving = serving;
                self.callers[i] = caller;
                Ok(())
            }
            Err(illegal) => Err(illegal),
        }
    }

    /// The ticket that is drawn next.
    pub fn next(&self) -> u64
        ensures { result ≡ self.now.next }
    {
        self.next
    }

    /// The ticket that is served.
    pub fn serving(&self) -> u64
        ensures { result ≡ self.now.serving }
    {
        self.serving
    }

    /// The state of the caller with this index, `None` where there is no such caller.
    pub fn caller(&self, i: usize) -> Option<Caller>
        ensures { result ≡ slice_get self.now.callers i }
    {
        self.callers.get(i).copied()
    }
}
