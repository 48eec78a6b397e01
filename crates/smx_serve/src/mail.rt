//! How many messages each client has and hasn't answered, and in which return boxes answers may wait.
ghost use Rattle.std.specs.Prelude.{◌≡◌};

use smx_turns::{Gate, Party, Point};
use std::alloc::{AllocError, Global};

/// By slot, how many messages were put for its client and aren't answered; by lane, whether an answer was put
/// into its return box since its worker was idle.
#[derive(Drop)]
pub(crate) struct Mail {
    counts: Vec<u64>,
    answers: Vec<bool>,
}

impl Mail {
    // None, for so many lanes and slots.
    pub fn new(alloc: Global, lanes: usize, slots: usize) -> Result<Mail, AllocError> {
        Ok(Mail {
            counts: vec![in alloc; 0; slots]?,
            answers: vec![in alloc; false; lanes]?,
        })
    }

    /// How many there are for the client of this slot.
    pub fn of(&self, slot: usize) -> u64 {
        match self.counts.get(slot) {
            Some(count) => *count,
            None => 0,
        }
    }

    // The slot has another client, or none.
    pub fn begin_anew(&mut self, slot: usize) {
        if let Some(count) = self.counts.get_mut(slot) {
            *count = 0;
        }
    }

    // One more was put.
    fn add(&mut self, slot: usize) {
        if let Some(count) = self.counts.get_mut(slot) {
            *count = count.saturating_add(1);
        }
    }

    // One was answered.
    fn answer(&mut self, slot: usize) {
        if let Some(count) = self.counts.get_mut(slot) {
            *count = count.saturating_sub(1);
        }
    }

    /// Whether an answer may wait in this lane's return box.
    pub fn may_wait(&self, lane: usize) -> bool {
        match self.answers.get(lane) {
            Some(answer) => *answer,
            None => true,
        }
    }

    // One may wait there, or, as its worker was idle, none does.
    pub fn mark(&mut self, lane: usize, waits: bool) {
        if let Some(answer) = self.answers.get_mut(lane) {
            *answer = waits;
        }
    }

    /// One may wait in each lane's.
    pub fn mark_all(&mut self) {
        for answer in self.answers.iter_mut() {
            *answer = true;
        }
    }
}

/// A gate beside which messages are counted: those put, and those that the client of this slot answers.
#[derive(Drop)]
pub(crate) struct Counted<'a, G: Gate + Drop> {
    pub gate: G,
    pub mail: &'a mut Mail,
    // That of the client whose turn it is, in a client's turn.
    pub slot: Option<usize>,
    /// How often it was told that a client's request is settled.
    pub settled: usize,
}

impl<'a, G: Gate + Drop> Counted<'a, G> {
    /// How many messages the client hasn't answered whose turn it is. None waits in its box where that is 0,
    /// and no answer of it for a return box.
    pub fn messages(&self) -> u64 {
        match self.slot {
            Some(slot) => self.mail.of(slot),
            None => 0,
        }
    }
}

impl<'a, G: Gate + Drop> Gate for Counted<'a, G> {
    ghost asked = { λ c. G.asked c.gate };

    ghost told = { λ c. G.told c.gate };

    #[inline(always)]
    fn at(&mut self, point: Point, turn: u64) -> bool {
        self.gate.at(point, turn)
    }

    #[inline(always)]
    fn ready(&mut self, party: Party) {
        match (party, self.slot) {
            (Party::Slot(slot), _) => self.mail.add(slot),
            (Party::Client { .. }, _) => self.settled = self.settled.saturating_add(1),
            (Party::Answer(lane), Some(slot)) => {
                self.mail.answer(slot);
                self.mail.mark(lane, true);
            }
            _ => {}
        }
        self.gate.ready(party);
    }
}
