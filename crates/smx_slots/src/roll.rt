//! Which client has which slot.
ghost use Rattle.std.specs.Prelude.{◌≡◌, [], Some, None, true, false, IfOk, IfErr, IfSome};
ghost use Rattle.smx_slots.specs.Rolls.{slot_of, may_add, SetsSlot};
ghost use Rattle.smx_slots.specs.Private.Sorted.{IsAt, IsGap};

use std::alloc::{AllocError, Global};
use std::marker::Model;

/// How many guesses there are: a power of 2, four times as many as clients can be connected.
const GUESSES: u64 = 1_024;

/// The clients, each with its slot. Contracts see for how many memory was taken, and both in the order of
/// the clients' numbers. By its number each client has a guess where its row is, which it may share with
/// others. The row there tells whose it is, so a wrong guess costs a search and no more.
#[derive(Drop)]
pub struct Roll {
    most: usize,
    rows: Vec<(u64, usize)>,
    guesses: Vec<usize>,
}

impl Model for Roll {
    ghost use Rattle.smx_slots.specs.Rolls.{Listing};
    ghost use Rattle.smx_slots.specs.Private.Sorted.{listing_of, IsSorted};

    ghost Value = { Listing };

    ghost view = { listing_of };

    ghost invariant = { IsSorted };
}

// Where the client's guess is.
fn guess_of(client: u64) -> usize {
    (client % GUESSES) as usize
}

// Notes where the rows from this place on are: the guess of each is right now, but where a later one shares it.
fn note(guesses: &mut [usize], rows: &[(u64, usize)], from: usize) {
    for at in from..rows.len() {
        if let Some(guess) = guesses.get_mut(guess_of(rows[at].0)) {
            *guess = at;
        }
    }
}

impl Roll {
    /// No client. It takes the memory for so many, and for the guesses.
    pub fn new(alloc: Global, most: usize) -> Result<Roll, AllocError>
        ensures { IfOk result (λ roll. roll ≡ record { most = most; rows = [] }) }
    {
        Ok(Roll {
            most,
            rows: Vec::with_capacity(alloc, most)?,
            guesses: vec![in alloc; 0; GUESSES as usize]?,
        })
    }

    // Where the client's row is, or would go.
    fn place(&self, client: u64) -> Result<usize, usize>
        ensures found { IfOk result (IsAt self.now.rows client) }
        ensures absent { IfErr result (IsGap self.now.rows client) }
    {
        self.rows.binary_search_by_key(&client, |&(c, _)| c)
    }

    // The client's slot, where its guess is right.
    #[inline(always)]
    fn guessed(&self, client: u64) -> Option<usize>
        ensures { IfSome result (λ slot. slot_of self.now.rows client ≡ Some slot) }
    {
        let guess = *self.guesses.get(guess_of(client))?;
        match self.rows.get(guess) {
            Some(&(c, slot)) if c == client => Some(slot),
            _ => None,
        }
    }

    // The client's slot, by a search.
    #[cold]
    #[inline(never)]
    fn searched(&self, client: u64) -> Option<usize>
        ensures { result ≡ slot_of self.now.rows client }
    {
        match self.place(client) {
            Ok(at) => Some(self.rows[at].1),
            Err(_) => None,
        }
    }

    /// The slot of a client. It looks at one row where the client's guess is right, and else at no more
    /// besides than the count of clients has digits in base 2.
    #[inline(always)]
    pub fn slot(&self, client: u64) -> Option<usize>
        ensures { result ≡ slot_of self.now.rows client }
    {
        match self.guessed(client) {
            Some(slot) => Some(slot),
            None => self.searched(client),
        }
    }

    /// This client has this slot. False where it has one, or as many have one as memory was taken for: then
    /// nothing changes. It takes no memory.
    pub fn add(&mut self, client: u64, slot: usize) -> bool
        ensures may { result ≡ may_add client self.old }
        ensures added { result ≡ true
            → SetsSlot (Some slot) self.old.rows client self.new.rows }
        ensures same { result ≡ false → self.new ≡ self.old }
        ensures most { self.new.most ≡ self.old.most }
    {
        let Err(at) = self.place(client) else {
            return false;
        };
        if self.rows.len() >= self.most {
            return false;
        }
        let is_added = self.rows.insert(at, (client, slot)).is_ok();
        note(self.guesses.as_mut_slice(), self.rows.as_slice(), at);
        is_added
    }

    /// The client has no slot any more.
    pub fn remove(&mut self, client: u64)
        ensures removed { SetsSlot None self.old.rows client self.new.rows }
        ensures most { self.new.most ≡ self.old.most }
    {
        match self.place(client) {
            Err(_) => return,
            Ok(at) => {
                self.rows.remove(at);
                note(self.guesses.as_mut_slice(), self.rows.as_slice(), at);
            }
        }
    }
}
