//! What a turn did, in its order.
ghost use Rattle.std.specs.Prelude.{◌≡◌, ℕ, ◌++◌, ◌∷◌, [], Bool, List};
ghost use Rattle.smx_turns.specs.declared.gate.Question.{Question};
ghost use Rattle.smx_turns.specs.Steps.{is_quiet_step, are_quiet};

use crate::gate::{Gate, Point};
use crate::mark::Mark;
use smx_link::{LinkFault, Polled};
use smx_trace::Trace;
use std::marker::Model;

/// What a turn did once. `E` are the worker's events.
#[derive(Drop)]
pub enum Step<E> {
    /// It asked the gate, which gave this answer.
    Asked(Point, bool),
    /// It read from its link, which gave this answer.
    Read(Result<Polled, LinkFault>),
    /// It came to this mark.
    Marked(Mark),
    /// It did this.
    Did(E),
}

/// An event of a worker, of which something came or nothing.
pub trait Deed {
    /// Whether nothing came of it.
    ghost is_quiet: { Self → Bool };
}

/// What a turn did so far, and whether something came of it. It takes no memory. Contracts see it
/// as the list of its steps.
#[derive(Drop)]
pub struct Log<E: Deed + Drop> {
    steps: Trace<Step<E>>,
    quiet: bool,
}

impl<E: Deed + Drop> Model for Log<E> {
    ghost use Rattle.std.specs.Prelude.{◌≡◌, List};
    ghost use Rattle.smx_turns.specs.declared.step.Step.{Step};
    ghost use Rattle.smx_turns.specs.Steps.{are_quiet};

    ghost Value = { List (Step E) };

    ghost view = { λ l. l.steps };

    ghost invariant = { λ l. l.quiet ≡ are_quiet E.is_quiet l.steps };
}

impl<E: Deed + Drop> Log<E> {
    /// Nothing was done yet.
    pub fn new() -> Log<E>
        ensures { result ≡ [] }
    {
        Log {
            steps: Trace::new(),
            quiet: true,
        }
    }

    /// This was done too. The caller says whether nothing came of it.
    pub fn push(&mut self, step: &Step<E>, quiet: bool)
        requires { quiet ≡ is_quiet_step E.is_quiet step.now }
        ensures { self.new ≡ self.old ++ step.now ∷ [] }
    {
        self.steps = self.steps.and(step);
        if !quiet {
            self.quiet = false;
        }
    }

    /// Whether nothing came of all that was done.
    pub fn is_quiet(&self) -> bool
        ensures { result ≡ are_quiet E.is_quiet self.now }
    {
        self.quiet
    }

    /// The steps.
    pub fn into_steps(self) -> Trace<Step<E>>
        ensures { result ≡ self }
    {
        self.steps
    }
}

/// Asks the gate, and writes it down.
pub fn ask<E: Deed + Drop, G: Gate>(log: &mut Log<E>, gate: &mut G, point: Point, turn: u64) -> bool
    ensures log { log.new ≡ log.old ++ Step.Asked point result ∷ [] }
    ensures asked { G.asked gate.new ≡ G.asked gate.old ++ record {
      point = point;
      turn = turn;
      answer = result;
    } ∷ [] }
    ensures told { G.told gate.new ≡ G.told gate.old }
{
    let answer = gate.at(point, turn);
    log.push(&Step::Asked(point, answer), true);
    answer
}
