//! The rows of the clients, and where each of them is.
ghost use Rattle.std.specs.Prelude.{◌≡◌, [], ◌∷◌, ◌++◌, length, map, IfSome, IsSome, OnOk, OnErr, Some};
ghost use Rattle.std.specs.Map.{lookup, remove_entry};
ghost use Rattle.slab.specs.Slab.{HasRoomFor};
ghost use Rattle.smx_history.specs.Prefixes.{RiseAbove};
ghost use Rattle.smx_lane.specs.Private.ClientRows.{client_at, is_client, place_of, rows_of, KeepsClientRows, HasSameRows};

use crate::response_box::ResponseBox;
use slab::Slab;
use std::alloc::{AllocError, Global};
use std::collections::BTreeMap;

// What a client has, and the box of its responses.
#[derive(Drop)]
pub(crate) struct Row {
    pub(crate) client: u64,
    pub(crate) by: u64,
    // The ordinal of its last accept, or 0.
    pub(crate) last: u64,
    // How many of its requests were accepted and not collected.
    pub(crate) pending: u32,
    pub(crate) waiting: ResponseBox,
}

// How many guesses there are: a power of 2, and more than a lane mostly has clients.
const GUESSES: u64 = 512;

// Rows that stay in their places while others come and go. A client's row is mostly where the guess for its number
// says, and else the keys tell its place.
#[derive(Drop)]
pub(crate) struct ClientRows {
    pub(crate) rows: Slab<Row>,
    keys: BTreeMap<u64, usize>,
    // The places of the last clients that came, by the remainders of their numbers. Empty before the first one.
    guesses: Vec<usize>,
}

// Where the guess for the client is.
fn guess_of(client: u64) -> usize {
    (client % GUESSES) as usize
}

impl ClientRows {
    // No rows. The memory for the guesses is taken with the first one.
    pub(crate) fn new(alloc: Global) -> ClientRows
        ensures keys { result.keys.entries ≡ [] }
        ensures rows { result.rows.slots ≡ [] }
    {
        ClientRows {
            rows: Slab::new(alloc),
            keys: BTreeMap::new(alloc),
            guesses: Vec::new(alloc),
        }
    }

    // How many rows there are.
    pub(crate) fn len(&self) -> usize
        ensures { result ≡ length self.now.keys.entries }
    {
        self.keys.len()
    }

    // The place that is guessed for the client, where its row is there.
    #[inline(always)]
    fn guess(&self, client: u64) -> Option<usize>
        ensures { IfSome result (λ at. client_at self.now.rows at ≡ Some client) }
    {
        let at = *self.guesses.get(guess_of(client))?;
        match self.rows.get(at) {
            Some(row) if row.client == client => Some(at),
            _ => None,
        }
    }

    // The place of the client's row, by the keys.
    #[cold]
    #[inline(never)]
    fn search(&self, client: u64) -> Option<usize>
        ensures { result ≡ place_of client self.now }
    {
        self.keys.get(&client).copied()
    }

    // The place of the client's row.
    #[inline(always)]
    pub(crate) fn place(&self, client: u64) -> Option<usize>
        requires { KeepsClientRows self.now }
        ensures { result ≡ place_of client self.now }
    {
        match self.guess(client) {
            Some(at) => Some(at),
            None => self.search(client),
        }
    }

    // Takes the memory for one row more, except that for its key.
    fn reserve(&mut self, alloc: Global) -> Result<(), AllocError>
        ensures room { OnOk result (HasRoomFor self.new.rows 1) }
        ensures same { HasSameRows self.old self.new }
    {
        if self.guesses.is_empty() {
            self.guesses = vec![in alloc; 0; GUESSES as usize]?;
        }
        self.rows.reserve(1)
    }

    // Adds the row of a client above all others.
    pub(crate) fn push(&mut self, alloc: Global, row: Row) -> Result<(), AllocError>
        requires keeps { KeepsClientRows self.old }
        requires above { RiseAbove 0 (map (λ e. e.0) self.old.keys.entries ++ row.client ∷ []) }
        ensures keeps { OnOk result (KeepsClientRows self.new) }
        ensures rows { OnOk result
            (rows_of self.new ≡ rows_of self.old ++ (row.client, row) ∷ []) }
        ensures err { OnErr result (HasSameRows self.old self.new) }
    {
        self.reserve(alloc)?;
        let at = self.rows.vacant_key();
        let client = row.client;
        self.keys.insert(client, at)?;
        self.rows.insert_reserved(row);
        if let Some(guess) = self.guesses.get_mut(guess_of(client)) {
            *guess = at;
        }
        Ok(())
    }

    // Takes out the row of the client.
    pub(crate) fn remove(&mut self, client: u64) -> Row
        requires keeps { KeepsClientRows self.old }
        requires there { IsSome (place_of client self.old) }
        ensures keeps { KeepsClientRows self.new }
        ensures row { lookup (is_client client) (rows_of self.old) ≡ Some result }
        ensures rows { rows_of self.new ≡ remove_entry (is_client client) (rows_of self.old) }
    {
        let at = self.keys.remove(&client).unwrap();
        self.rows.remove(at)
    }
}
