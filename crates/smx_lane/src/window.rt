//! The window: the requests that were taken and have no answer, by the numbers that they bear
//! upstream.
ghost use Rattle.std.specs.Prelude.{◌≡◌, ◌≤◌, ◌<◌, ◌==◌, ◌&&◌, ◌++◌, ◌∷◌, ◌↔◌, [], ℕ, length, max, replicate, set, slice_get, IfOk, IfSome, IsTrue, Some, false};
ghost use Rattle.std.specs.List.{find, list_any, remove};
ghost use Rattle.smx_pdu.specs.Command.{is_response_to};
ghost use Rattle.smx_history.specs.declared.place.Place.{Place};
ghost use Rattle.smx_history.specs.Numbers.{place_in as place_of_number, generation_in};
ghost use Rattle.smx_history.specs.Prefixes.{SameCounts};
ghost use Rattle.smx_history.specs.Replies.{is_expired as is_so_old};
ghost use Rattle.smx_history.proofs.Numbering.{IsNextNumber};
ghost use Rattle.smx_history.proofs.Updates.{place_for, following as following_on};
ghost use Rattle.smx_lane.specs.Loads.{IsEarliest};
ghost use Rattle.smx_lane.specs.Private.Places.{IsPlaceOf};
ghost use Rattle.smx_lane.specs.Private.Window.{earlier_of};

use crate::ages::{Ages, is_expired};
use crate::numbers::{following, number_of, place_in};
use crate::rows::Rows;
use smx_history::{Place, Request};
use smx_pdu::is_response_to;
use std::alloc::{AllocError, Global};
use std::marker::Model;

// How many requests are listed by their ages, for each that the window holds: as many are answered between two times that
// the list is made anew.
const LISTED: usize = 4;

// A request's number names its row, so a row is found without a search.
#[derive(Drop)]
pub(crate) struct Window {
    rows: Rows,
    // The rows that are empty, the next to fill last.
    free: Vec<u32>,
    // For each row the generation of the next request in it.
    generations: Vec<u32>,
    ages: Ages,
}

impl Model for Window {
    ghost use Rattle.smx_lane.specs.Private.Places.{Places};

    ghost Value = { Places };

    ghost use Rattle.smx_lane.specs.Private.Window.{places_of, KeepsPlaces};

    ghost view = { places_of };

    ghost invariant = { KeepsPlaces };
}

// The earlier one of a moment, where there is one, and that of a row's request, where it has one.
fn earlier_of(earliest: Option<u64>, row: Option<Place>) -> Option<u64>
    ensures { result ≡ earlier_of earliest row }
{
    match (earliest, row) {
        (Some(moment), Some(place)) => Some(moment.min(place.moment)),
        (None, Some(place)) => Some(place.moment),
        (_, None) => earliest,
    }
}

impl Window {
    // No request, and rows for so many.
    pub(crate) fn new(alloc: Global, most: u32) -> Result<Window, AllocError>
        requires { most ≤ 1024 }
        ensures { IfOk result (λ window. window ≡
            record { most = most; taken = []; generations = replicate most 0; latest = 0 }) }
    {
        let places = most as usize;
        let rows = Rows::new(alloc, places)?;
        let generations = vec![in alloc; 0; places]?;
        let ages = Ages::new(alloc, LISTED * places + 1)?;
        let mut free = Vec::with_capacity(alloc, places)?;
        for given in 0..most {
            free.push_reserved(most - 1 - given);
        }
        Ok(Window {
            rows,
            free,
            generations,
            ages,
        })
    }

    // How many requests there are.
    pub(crate) fn len(&self) -> usize
        ensures { result ≡ length self.now.taken }
    {
        self.rows.len() - self.free.len()
    }

    // Whether each row has a request.
    pub(crate) fn is_full(&self) -> bool
        ensures { IsTrue result ↔ (self.now.most ≤ length self.now.taken) }
    {
        self.free.is_empty()
    }

    // Puts a request that is taken now into an empty row, and tells its place there: under the next number of the row,
    // and at the moment of the last take where that is greater.
    #[inline(always)]
    pub(crate) fn put(&mut self, request: &Request, now: u64) -> Place
        requires { length self.old.taken < self.old.most }
        ensures place { result ≡ place_for request.now result.upstream (max now self.old.latest) }
        ensures range { (0 < result.upstream) × (result.upstream ≤ 2147482624) }
        ensures next { IsNextNumber self.old.most self.old.generations result.upstream }
        ensures free { list_any (λ q. q.upstream == result.upstream) self.old.taken ≡ false }
        ensures taken { SameCounts (self.old.taken ++ result ∷ []) self.new.taken }
        ensures generations { self.new.generations ≡ set self.old.generations
            (place_of_number result.upstream) (following_on (generation_in result.upstream)) }
        ensures latest { self.new.latest ≡ max now self.old.latest }
        ensures most { self.new.most ≡ self.old.most }
    {
        let at = self.free.pop().unwrap();
        let generation = self.generations[at as usize];
        self.generations[at as usize] = following(generation);
        self.ages.make_room(&self.rows);
        let upstream = number_of(generation, at);
        let moment = self.ages.push(now, upstream);
        let place = Place {
            upstream,
            client: request.client,
            ordinal: request.ordinal,
            own: request.own,
            command: request.command,
            moment,
        };
        self.rows.set(at as usize, Some(place));
        place
    }

    // The place that a response with the number and command answers.
    pub(crate) fn find(&self, number: u32, command: u32) -> Option<Place>
        ensures found { result ≡ find
            (λ q. (q.upstream == number) && is_response_to q.command command) self.now.taken }
        ensures place { IfSome result (IsPlaceOf self.now.taken number) }
    {
        let at = place_in(number);
        if at >= self.rows.len() {
            return None;
        }
        match self.rows.get(at) {
            Some(place) if place.upstream == number && is_response_to(place.command, command) =>
                Some(place),
            _ => None,
        }
    }

    // The first request, where there is one.
    pub(crate) fn first(&self) -> Option<Place>
        ensures { result ≡ slice_get self.now.taken 0 }
    {
        for at in 0..self.rows.len() {
            if let Some(place) = self.rows.get(at) {
                return Some(place);
            }
        }
        None
    }

    // The earliest moment at which a request was taken, where there is one.
    pub(crate) fn earliest(&self) -> Option<u64>
        ensures { IsEarliest self.now.taken result }
    {
        let mut earliest = None;
        for at in 0..self.rows.len() {
            earliest = earlier_of(earliest, self.rows.get(at));
        }
        earliest
    }

    // The first request that was taken at least so long ago, where there is one. Where there is none, the oldest tells so.
    pub(crate) fn expired(&mut self, now: u64, age: u64) -> Option<Place>
        ensures found { result ≡ find (is_so_old (max now self.old.latest) age) self.old.taken }
        ensures same { self.new ≡ self.old }
    {
        let now = now.max(self.ages.latest());
        if !self.ages.has_expired(&self.rows, now, age) {
            return None;
        }
        for at in 0..self.rows.len() {
            match self.rows.get(at) {
                Some(place) if is_expired(place.moment, now, age) => return Some(place),
                _ => {}
            }
        }
        None
    }

    // Empties the row of the request with the number.
    pub(crate) fn remove(&mut self, number: u32)
        requires { (q : Place) × IsPlaceOf self.old.taken number q }
        ensures taken { (q : Place) → IsPlaceOf self.old.taken number q →
            (i : ℕ) × (slice_get self.old.taken i ≡ Some q)
            × (self.new ≡ record self.old { taken = remove self.old.taken i }) }
    {
        let at = place_in(number);
        self.rows.set(at, None);
        self.free.push_reserved(at as u32);
    }
}
