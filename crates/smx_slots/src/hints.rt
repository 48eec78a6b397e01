//! On which lanes something may wait for a client.
ghost use Rattle.std.specs.Prelude.{◌≡◌, replicate, slice_set, IfOk, false};
ghost use Rattle.smx_slots.specs.Hints.{has_hint, with_hint, IsHinted};
ghost use Rattle.smx_slots.specs.Schedules.{has_mark};

use std::alloc::{AllocError, Global};
use std::marker::Model;

// The hints of one slot, by lane.
#[derive(Drop)]
struct Row {
    marks: Vec<bool>,
}

impl Model for Row {
    ghost use Rattle.std.specs.Prelude.{List, Bool};

    ghost Value = { List Bool };

    ghost view = { λ r. r.marks.items };
}

impl Row {
    fn new(alloc: Global, lanes: usize) -> Result<Row, AllocError>
        ensures { IfOk result (λ row. row ≡ replicate lanes false) }
    {
        let marks = vec![in alloc; false; lanes]?;
        Ok(Row { marks })
    }

    fn has(&self, lane: usize) -> bool
        ensures { result ≡ has_mark lane self.now }
    {
        match self.marks.get(lane) {
            Some(mark) => *mark,
            None => false,
        }
    }

    fn set(&mut self, lane: usize, mark: bool)
        ensures { self.new ≡ slice_set self.old lane mark }
    {
        if lane < self.marks.len() {
            self.marks[lane] = mark;
        }
    }
}

/// By slot and lane, whether the slot's client was told of something there and hasn't found the lane empty
/// since. Contracts see a list of marks for each slot.
#[derive(Drop)]
pub struct Hints {
    rows: Vec<Row>,
}

impl Model for Hints {
    ghost use Rattle.smx_slots.specs.Hints.{Hinted};

    ghost Value = { Hinted };

    ghost view = { λ h. h.rows.items };
}

impl Hints {
    /// No hint, of so many slots and lanes. It takes the memory for all of them, an octet each.
    pub fn new(alloc: Global, slots: usize, lanes: usize) -> Result<Hints, AllocError>
        ensures { IfOk result (λ hints. hints ≡ replicate slots (replicate lanes false)) }
    {
        let mut rows = Vec::with_capacity(alloc, slots)?;
        for _ in 0..slots {
            rows.push(Row::new(alloc, lanes)?)?;
        }
        Ok(Hints { rows })
    }

    /// Whether something may wait for the client of this slot on this lane. False where there is no such
    /// slot or lane.
    pub fn has(&self, slot: usize, lane: usize) -> bool
        ensures { result ≡ has_hint slot lane self.now }
    {
        match self.rows.get(slot) {
            Some(row) => row.has(lane),
            None => false,
        }
    }

    /// There is a hint for this slot on this lane from now on, or none. Nothing changes where there is no
    /// such slot or lane.
    pub fn set(&mut self, slot: usize, lane: usize, hint: bool)
        ensures { self.new ≡ with_hint hint slot lane self.old }
    {
        if slot < self.rows.len() {
            self.rows[slot].set(lane, hint);
        }
    }
}

/// What hints promise of what is told one after another.
pub fn is_hinted()
    ensures { IsHinted }
{}
