//! The requests of a window by the moments of their takes.
ghost use Rattle.std.specs.Prelude.{◌≡◌, ◌≤◌, ◌<◌, ◌-◌, ◌++◌, ◌∷◌, ◌↔◌, [], ℕ, drop, ◌+◌, length, max, nat_le, slice_get, vec_capacity, IfOk, IfSome, IsTrue, IsFalse, Some, None, Contains, All};
ghost use Rattle.std.specs.List.Sorted.{IsNonDecreasingBy};
ghost use Rattle.smx_history.specs.declared.place.Place.{Place};
ghost use Rattle.smx_lane.specs.declared.ages.Aged.{Aged};
ghost use Rattle.smx_lane.specs.Private.Places.{aged_of, HasAt, KeepsListed};

use crate::numbers::place_in;
use crate::rows::Rows;
use std::alloc::{AllocError, Global};
use std::marker::Model;

// When a request was taken, and its number upstream.
#[derive(Clone, Copy)]
pub(crate) struct Aged {
    pub(crate) moment: u64,
    pub(crate) upstream: u32,
}

// Requests that were taken, the oldest first. Some of them were answered since: they stay in the list until they are
// the oldest, or it is full.
#[derive(Drop)]
pub(crate) struct Ages {
    list: Vec<Aged>,
    // Those before it were dropped.
    first: usize,
    // The moment of the last take, or 0.
    latest: u64,
}

impl Model for Ages {
    ghost use Rattle.smx_lane.specs.Private.Places.{Listed};

    ghost Value = { Listed };

    ghost use Rattle.smx_lane.specs.Private.Ages.{listed_of, KeepsOrder};

    ghost view = { listed_of };

    ghost invariant = { KeepsOrder };
}

// Whether what was taken at the moment is so old.
pub(crate) fn is_expired(moment: u64, now: u64, age: u64) -> bool
    ensures { result ≡ nat_le (moment + age) now }
{
    age <= now && moment <= now - age
}

impl Ages {
    // No request, and room for so many, answered ones included.
    pub(crate) fn new(alloc: Global, places: usize) -> Result<Ages, AllocError>
        ensures { IfOk result (λ ages. (ages.aged ≡ []) × (ages.latest ≡ 0)
            × (places ≤ ages.places)) }
    {
        Ok(Ages {
            list: Vec::with_capacity(alloc, places)?,
            first: 0,
            latest: 0,
        })
    }

    // The moment of the last take, or 0.
    pub(crate) fn latest(&self) -> u64
        ensures { result ≡ self.now.latest }
    {
        self.latest
    }

    // Adds a request that is taken now, and tells the moment that counts: a smaller one counts as that of the last take.
    pub(crate) fn push(&mut self, now: u64, upstream: u32) -> u64
        requires { 0 < self.old.left }
        ensures moment { result ≡ max now self.old.latest }
        ensures aged { self.new.aged ≡ self.old.aged
            ++ record { moment = result; upstream = upstream } ∷ [] }
        ensures latest { self.new.latest ≡ result }
        ensures places { self.new.places ≡ self.old.places }
    {
        let moment = now.max(self.latest);
        self.latest = moment;
        self.list.push_reserved(Aged { moment, upstream });
        moment
    }

    // Sees that there is room for one more: where there is none, it lists those alone that are in their rows.
    #[inline(always)]
    pub(crate) fn make_room(&mut self, rows: &Rows)
        requires few { length rows.now < self.old.places }
        requires before { (k : ℕ) (q : Place) → slice_get rows.now k ≡ Some (Some q)
            → q.moment ≤ self.old.latest }
        ensures each { KeepsListed rows.now self.old.aged → KeepsListed rows.now self.new.aged }
        ensures left { 0 < self.new.left }
        ensures latest { self.new.latest ≡ self.old.latest }
        ensures places { self.new.places ≡ self.old.places }
    {
        if self.list.len() < self.list.capacity() {
            return;
        }
        self.list.clear();
        self.first = 0;
        for at in 0..rows.len() {
            if let Some(place) = rows.get(at) {
                self.list.push_reserved(Aged {
                    moment: place.moment,
                    upstream: place.upstream,
                });
            }
        }
        self.list.sort_unstable_by_key(|aged| aged.moment);
    }

    // Whether some request may be so old. It drops those that are, up to one that is still in its row, and looks at no other.
    pub(crate) fn has_expired(&mut self, rows: &Rows, now: u64, age: u64) -> bool
        ensures each { KeepsListed rows.now self.old.aged → KeepsListed rows.now self.new.aged }
        ensures none { IsFalse result → All (λ a. now < a.moment + age) self.new.aged }
        ensures latest { self.new.latest ≡ self.old.latest }
        ensures places { self.new.places ≡ self.old.places }
    {
        for at in self.first..self.list.len() {
            self.first = at;
            let aged = self.list[at];
            if !is_expired(aged.moment, now, age) {
                return false;
            }
            if rows.has(aged.upstream) {
                return true;
            }
        }
        self.first = self.list.len();
        false
    }
}
