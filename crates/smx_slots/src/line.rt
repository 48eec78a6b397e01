//! Parties in a line.
ghost use Rattle.std.specs.Prelude.{◌≡◌, ◌++◌, ◌↔◌, [], length, option_to_list, IfOk, IsTrue, None};
ghost use Rattle.smx_slots.specs.Lines.{with_party, stands, IsInTurn};

use std::alloc::{AllocError, Global};
use std::collections::VecDeque;
use std::marker::Model;

/// Parties in a line, each once. Who comes stands last, and the first one begins. Contracts see how many
/// parties there are and those that stand there, the first one first.
#[derive(Drop)]
pub struct Line {
    parties: VecDeque<usize>,
    // By party: whether it stands there.
    marks: Vec<bool>,
}

impl Model for Line {
    ghost use Rattle.smx_slots.specs.Lines.{Standing};
    ghost use Rattle.smx_slots.specs.Private.LineFields.{standing_of, IsMarked};

    ghost Value = { Standing };

    ghost view = { standing_of };

    ghost invariant = { IsMarked };
}

impl Line {
    /// A line for so many parties, where nobody stands. It takes the memory for all of them.
    pub fn new(alloc: Global, count: usize) -> Result<Line, AllocError>
        ensures { IfOk result (λ line. line ≡ record { count = count; parties = [] }) }
    {
        Ok(Line {
            parties: VecDeque::with_capacity(alloc, count)?,
            marks: vec![in alloc; false; count]?,
        })
    }

    /// How many stand there.
    pub fn len(&self) -> usize
        ensures { result ≡ length self.now.parties }
    {
        self.parties.len()
    }

    pub fn is_empty(&self) -> bool
        ensures { IsTrue result ↔ (self.now.parties ≡ []) }
    {
        self.parties.is_empty()
    }

    /// Whether this party stands there.
    pub fn has(&self, party: usize) -> bool
        ensures { result ≡ stands party self.now.parties }
    {
        match self.marks.get(party) {
            Some(mark) => *mark,
            None => false,
        }
    }

    /// The party stands last. Nothing changes where it stands there or there is no such party.
    pub fn add(&mut self, party: usize)
        ensures { self.new ≡ with_party party self.old }
    {
        if party >= self.marks.len() || self.marks[party] {
            return;
        }
        self.marks[party] = true;
        self.parties.push_back_reserved(party);
    }

    /// The first one, which stands there no more. None where nobody does.
    pub fn begin(&mut self) -> Option<usize>
        ensures first { self.old.parties ≡ option_to_list result ++ self.new.parties }
        ensures none { result ≡ None → self.old.parties ≡ [] }
        ensures count { self.new.count ≡ self.old.count }
    {
        let party = self.parties.pop_front()?;
        self.marks[party] = false;
        Some(party)
    }
}

/// What a line promises of its calls one after another.
pub fn is_in_turn()
    ensures { IsInTurn }
{}
