//! Whose turn it is.
ghost use Rattle.std.specs.Prelude.{◌≡◌, ◌++◌, ◌↔◌, [], length, option_to_list, replicate, slice_set, if◌then◌else◌, IfOk, IfSome, IsTrue, None, true, false};
ghost use Rattle.smx_slots.specs.Lines.{with_party, Standing};
ghost use Rattle.smx_slots.specs.Schedules.{is_ready, is_stalled, has_mark, with_ready};

use crate::line::Line;
use std::alloc::{AllocError, Global};
use std::marker::Model;

/// The parties that are ready, in two classes, each in the order in which it became ready; and those
/// that are stalled, which nothing makes ready but what they wait for. The first class are the lanes and
/// the bound clients.
#[derive(Drop)]
pub struct Schedule {
    first: Line,
    unbound: Line,
    // Those that found a return box full.
    crowded: Line,
    // By party: whether it is of the first class, and whether its socket takes no octets.
    is_first: Vec<bool>,
    unwritable: Vec<bool>,
}

impl Model for Schedule {
    ghost use Rattle.smx_slots.specs.Schedules.{Agenda};

    ghost Value = { Agenda };

    ghost view = { λ s. record {
      first = s.first;
      unbound = s.unbound;
      crowded = s.crowded;
      is_first = s.is_first.items;
      unwritable = s.unwritable.items;
    } };
}

// Whether the party has a mark.
fn is_marked(marks: &[bool], party: usize) -> bool
    ensures { result ≡ has_mark party marks.now }
{
    match marks.get(party) {
        Some(mark) => *mark,
        None => false,
    }
}

impl Schedule {
    /// For so many parties, all unbound; nobody is ready. It takes the memory for all of them.
    pub fn new(alloc: Global, count: usize) -> Result<Schedule, AllocError>
        ensures lines { (none : Standing) → none ≡ record { count = count; parties = [] }
            → IfOk result (λ s. (s.first ≡ none) × (s.unbound ≡ none) × (s.crowded ≡ none)) }
        ensures marks { IfOk result
            (λ s. (s.is_first ≡ replicate count false) × (s.unwritable ≡ replicate count false)) }
    {
        Ok(Schedule {
            first: Line::new(alloc, count)?,
            unbound: Line::new(alloc, count)?,
            crowded: Line::new(alloc, count)?,
            is_first: vec![in alloc; false; count]?,
            unwritable: vec![in alloc; false; count]?,
        })
    }

    /// Whether nobody is ready.
    pub fn is_empty(&self) -> bool
        ensures { IsTrue result
            ↔ ((self.now.first.parties ≡ []) × (self.now.unbound.parties ≡ [])) }
    {
        self.first.is_empty() && self.unbound.is_empty()
    }

    /// How many of the first class are ready.
    pub fn firsts(&self) -> usize
        ensures { result ≡ length self.now.first.parties }
    {
        self.first.len()
    }

    /// Whether no unbound one is ready.
    pub fn has_no_unbound(&self) -> bool
        ensures { IsTrue result ↔ (self.now.unbound.parties ≡ []) }
    {
        self.unbound.is_empty()
    }

    /// Whether this party is ready.
    pub fn is_ready(&self, party: usize) -> bool
        ensures { result ≡ is_ready party self.now }
    {
        self.first.has(party) || self.unbound.has(party)
    }

    /// Whether it is stalled.
    pub fn is_stalled(&self, party: usize) -> bool
        ensures { result ≡ is_stalled party self.now }
    {
        is_marked(self.unwritable.as_slice(), party) || self.crowded.has(party)
    }

    /// This party is ready, behind those of its class that are. Nothing changes where it is ready or
    /// stalled, or there is no such party.
    #[inline(always)]
    pub fn add(&mut self, party: usize)
        ensures { self.new ≡ with_ready party self.old }
    {
        if self.is_ready(party) || self.is_stalled(party) {
            return;
        }
        if is_marked(self.is_first.as_slice(), party) {
            self.first.add(party);
        } else {
            self.unbound.add(party);
        }
    }

    /// This party is of the first class from now on, or is unbound. Where it is ready it keeps its place.
    pub fn place(&mut self, party: usize, first: bool)
        ensures { self.new
            ≡ record self.old { is_first = slice_set self.old.is_first party first } }
    {
        if party < self.is_first.len() {
            self.is_first[party] = first;
        }
    }

    /// The first one of the first class, whose turn it is: what comes from now on makes it ready again.
    /// None where none is ready.
    pub fn begin_first(&mut self) -> Option<usize>
        ensures first { self.old.first.parties
            ≡ option_to_list result ++ self.new.first.parties }
        ensures none { result ≡ None → self.old.first.parties ≡ [] }
        ensures same { self.new ≡ record self.old {
          first = record self.old.first { parties = self.new.first.parties };
        } }
    {
        self.first.begin()
    }

    /// The same of the unbound ones.
    pub fn begin_unbound(&mut self) -> Option<usize>
        ensures first { self.old.unbound.parties
            ≡ option_to_list result ++ self.new.unbound.parties }
        ensures none { result ≡ None → self.old.unbound.parties ≡ [] }
        ensures same { self.new ≡ record self.old {
          unbound = record self.old.unbound { parties = self.new.unbound.parties };
        } }
    {
        self.unbound.begin()
    }

    /// The socket of this party takes no octets: it is stalled. Nothing changes where it is ready.
    pub fn stall(&mut self, party: usize)
        ensures { self.new ≡ (if is_ready party self.old then self.old
            else record self.old { unwritable = slice_set self.old.unwritable party true }) }
    {
        if !self.is_ready(party) && party < self.unwritable.len() {
            self.unwritable[party] = true;
        }
    }

    /// The socket of this party takes octets. Where it was stalled for that it is ready.
    pub fn resume(&mut self, party: usize)
        ensures { self.new ≡ (if has_mark party self.old.unwritable
            then with_ready party
            (record self.old { unwritable = slice_set self.old.unwritable party false })
            else self.old) }
    {
        if party < self.unwritable.len() && self.unwritable[party] {
            self.unwritable[party] = false;
            self.add(party);
        }
    }

    /// This party found a return box full: it is stalled. Nothing changes where it is ready.
    pub fn crowd(&mut self, party: usize)
        ensures { self.new ≡ (if is_ready party self.old then self.old
            else record self.old { crowded = with_party party self.old.crowded }) }
    {
        if !self.is_ready(party) {
            self.crowded.add(party);
        }
    }

    /// A return box was emptied: who found one full first is ready. None where nobody did.
    pub fn uncrowd(&mut self) -> Option<usize>
        ensures first { self.old.crowded.parties
            ≡ option_to_list result ++ self.new.crowded.parties }
        ensures count { self.new.crowded.count ≡ self.old.crowded.count }
        ensures ready { IfSome result (λ party. self.new
            ≡ with_ready party (record self.old { crowded = self.new.crowded })) }
        ensures none { result ≡ None → (self.old.crowded.parties ≡ []) × (self.new ≡ self.old) }
    {
        let party = self.crowded.begin()?;
        self.add(party);
        Some(party)
    }
}
