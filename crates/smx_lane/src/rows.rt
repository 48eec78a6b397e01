//! The rows of a window, by their places.
ghost use Rattle.std.specs.Prelude.{◌≡◌, ◌<◌, ◌↔◌, length, replicate, slice_get, slice_set, IfOk, IsTrue, Some, None};
ghost use Rattle.smx_lane.specs.Private.Places.{HasAt};

use crate::numbers::place_in;
use slab::Slab;
use smx_history::Place;
use std::alloc::{AllocError, Global};
use std::marker::Model;

// A slab that was filled once. A place is an index, and its key in the slab never changes.
#[derive(Drop)]
pub(crate) struct Rows {
    slab: Slab<Option<Place>>,
    keys: Vec<usize>,
}

impl Model for Rows {
    ghost use Rattle.std.specs.Prelude.{List, Option};
    ghost use Rattle.smx_history.specs.declared.place.Place.{Place};

    ghost Value = { List (Option Place) };

    ghost use Rattle.smx_lane.specs.Private.Rows.{rows_of, KeepsKeys};

    ghost view = { rows_of };

    ghost invariant = { KeepsKeys };
}

impl Rows {
    // So many empty rows.
    pub(crate) fn new(alloc: Global, places: usize) -> Result<Rows, AllocError>
        ensures { IfOk result (λ rows. rows ≡ replicate places None) }
    {
        let mut slab = Slab::with_capacity(alloc, places)?;
        let mut keys = Vec::with_capacity(alloc, places)?;
        for _ in 0..places {
            keys.push_reserved(slab.insert_reserved(None));
        }
        Ok(Rows { slab, keys })
    }

    // How many places there are.
    pub(crate) fn len(&self) -> usize
        ensures { result ≡ length self.now }
    {
        self.keys.len()
    }

    // The row at the place.
    pub(crate) fn get(&self, at: usize) -> Option<Place>
        requires { at < length self.now }
        ensures { slice_get self.now at ≡ Some result }
    {
        self.slab[self.keys[at]]
    }

    // Whether the request with the number is in its row.
    pub(crate) fn has(&self, number: u32) -> bool
        ensures { IsTrue result ↔ HasAt self.now number }
    {
        let at = place_in(number);
        at < self.len() && matches!(self.get(at), Some(place) if place.upstream == number)
    }

    // Writes the row at the place.
    pub(crate) fn set(&mut self, at: usize, row: Option<Place>)
        requires { at < length self.old }
        ensures { self.new ≡ slice_set self.old at row }
    {
        self.slab[self.keys[at]] = row;
    }
}
