//! How many turns a worker made, when its lane is turned over, and how long it waits for answers.
ghost use Rattle.std.specs.Prelude.{◌≡◌};
ghost use Rattle.smx_upstream.specs.Ages.{new_age, next_turn, least_shift, time_of};

use crate::event::Span;
use std::cmp::Ord;

// The most entries that a lane is turned over for.
const MOST_ENTRIES: usize = 500;

/// A worker's turns, how much its lane may store, and its response timer.
#[derive(Clone, Copy, Debug, PartialEq, Eq)]
pub(crate) struct Age {
    // The turns made, which stay at their greatest number.
    pub turns: u64,
    // How many entries the lane's history may have.
    pub history: usize,
    // How long a request may be without an answer, in milliseconds (SMPP 3.4, section 7.2).
    pub response_timer: u64,
}

impl Age {
    pub(crate) fn new(history: usize, response_timer: u64) -> Age
        ensures { result ≡ new_age history response_timer }
    {
        Age {
            turns: 0,
            history,
            response_timer,
        }
    }

    // One turn more.
    pub(crate) fn next_turn(self) -> Age
        ensures { result ≡ next_turn self }
    {
        Age {
            turns: self.turns.saturating_add(1),
            history: self.history,
            response_timer: self.response_timer,
        }
    }

    // How long a request has waited that is given up.
    pub(crate) fn time_of(self, span: Span) -> u64
        ensures { result ≡ time_of span self }
    {
        match span {
            Span::Once => self.response_timer,
            Span::Twice => self.response_timer.saturating_mul(2),
        }
    }

    // How many entries the lane is turned over for: so few that they stay in the processor's cache.
    pub(crate) fn least_shift(self) -> usize
        ensures { result ≡ least_shift self }
    {
        (self.history / 8).min(MOST_ENTRIES).max(1)
    }
}
