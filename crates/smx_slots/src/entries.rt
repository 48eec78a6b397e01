//! The clients that a ledger knows.
ghost use Rattle.std.specs.Prelude.{◌≡◌, ◌==◌, ℕ, IsSome, IfOk, Some, None, OnOk, OnErr, nat_eq, slice_index_or, if◌then◌else◌};
ghost use Rattle.std.specs.HashMap.{get};
ghost use Rattle.std.specs.Option.{option_copied};
ghost use Rattle.smx_slots.specs.Private.Entries.{entry_at, place_of, entry_of, is_free_for, settled_entry, SetsEntry, HasSameEntries};

use std::alloc::{AllocError, Global};
use std::collections::HashMap;

/// A client's account, by its key, whether it is still there, and how many of its requests are under
/// way.
#[derive(Clone, Copy, Debug, PartialEq, Eq)]
pub(crate) struct Entry {
    pub key: usize,
    pub here: bool,
    pub requests: u64,
}

/// A client's entry, with its number.
#[derive(Clone, Copy, Debug, PartialEq, Eq)]
pub(crate) struct Row {
    pub client: u64,
    pub entry: Entry,
}

/// How many rows there are: a power of 2, four times as many as clients can be connected.
const ROWS: u64 = 1_024;

/// Clients by their numbers. A client's row is where its number says; the others are those whose row another
/// one has, of which a look-up costs more. What looks among those is kept out of line, so that a call that
/// finds the client's row is short and is inlined.
#[derive(Drop)]
pub(crate) struct Entries {
    rows: Vec<Option<Row>>,
    others: HashMap<u64, Entry>,
}

// Where the client's row is.
fn place_of(client: u64) -> usize
    ensures { result ≡ place_of client }
{
    (client % ROWS) as usize
}

// The entry of a row that is the client's.
fn entry_of(row: Option<Row>, client: u64) -> Option<Entry>
    ensures { result ≡ entry_of client row }
{
    match row {
        Some(row) if row.client == client => Some(row.entry),
        _ => None,
    }
}

// Whether no other client has the row.
fn is_free_for(row: Option<Row>, client: u64) -> bool
    ensures { result ≡ is_free_for client row }
{
    match row {
        Some(row) => row.client == client,
        None => true,
    }
}

// What is known of a client once one of its requests is settled.
fn settled_entry(entry: Option<Entry>) -> Option<Entry>
    ensures { result ≡ settled_entry entry }
{
    match entry {
        Some(entry) if entry.here || entry.requests > 1 => Some(Entry {
            requests: entry.requests.saturating_sub(1),
            ..entry
        }),
        _ => None,
    }
}

impl Entries {
    // No client. It takes the memory for all rows.
    pub(crate) fn new(alloc: Global) -> Result<Entries, AllocError>
        ensures { IfOk result (λ entries. (c : ℕ) → entry_at c entries ≡ None) }
    {
        Ok(Entries {
            rows: vec![in alloc; None; ROWS as usize]?,
            others: HashMap::new(alloc),
        })
    }

    // The row where the client's would be.
    fn row(&self, client: u64) -> Option<Row>
        ensures { result ≡ slice_index_or self.now.rows.items (place_of client) None }
    {
        match self.rows.get(place_of(client)) {
            Some(row) => *row,
            None => None,
        }
    }

    // What is known of a client that has its row.
    #[inline(always)]
    fn at_its_row(&self, client: u64) -> Option<Entry>
        ensures { result ≡ entry_of client
            (slice_index_or self.now.rows.items (place_of client) None) }
    {
        entry_of(self.row(client), client)
    }

    // What is known of a client that has no row.
    #[cold]
    #[inline(never)]
    fn other(&self, client: u64) -> Option<&Entry>
        ensures { option_copied result ≡ get nat_eq self.now.others client }
    {
        self.others.get(&client)
    }

    // What is known of the client.
    #[inline(always)]
    pub(crate) fn get(&self, client: u64) -> Option<Entry>
        ensures { result ≡ entry_at client self.now }
    {
        match self.at_its_row(client) {
            Some(entry) => Some(entry),
            None => self.other(client).copied(),
        }
    }

    // Enters the client. It takes memory where another one has its row.
    pub(crate) fn enter(&mut self, client: u64, entry: Entry) -> Result<(), AllocError>
        ensures ok { OnOk result (SetsEntry (Some entry) self.old client self.new) }
        ensures err { OnErr result (HasSameEntries self.old self.new) }
    {
        let at = place_of(client);
        if at < self.rows.len() && is_free_for(self.rows[at], client) {
            self.rows[at] = Some(Row { client, entry });
            return Ok(());
        }
        self.others.insert(client, entry)?;
        Ok(())
    }

    // Changes what is known of a client that has no row. It takes no memory.
    #[cold]
    #[inline(never)]
    fn change_other(&mut self, client: u64, key: usize, here: bool, requests: u64)
        requires { IsSome (get nat_eq self.old.others client) }
        ensures others { (c : ℕ) → get nat_eq self.new.others c
            ≡ (if client == c then Some (record { key = key; here = here; requests = requests })
            else get nat_eq self.old.others c) }
        ensures rows { self.new.rows ≡ self.old.rows }
    {
        if let Some(place) = self.others.get_mut(&client) {
            *place = Entry {
                key,
                here,
                requests,
            };
        }
    }

    // Changes what is known of a client. It takes no memory.
    #[inline(always)]
    pub(crate) fn change(&mut self, client: u64, entry: Entry)
        requires { IsSome (entry_at client self.old) }
        ensures { SetsEntry (Some entry) self.old client self.new }
    {
        let at = place_of(client);
        if self.at_its_row(client).is_some() {
            self.rows[at] = Some(Row { client, entry });
            return;
        }
        self.change_other(client, entry.key, entry.here, entry.requests);
    }

    // So many requests are under way of a client that has its row.
    #[inline(always)]
    fn count_at_its_row(&mut self, client: u64, entry: Entry, requests: u64)
        requires { entry_of client (slice_index_or self.old.rows.items (place_of client) None)
            ≡ Some entry }
        ensures { SetsEntry (Some (record entry { requests = requests })) self.old client self.new }
    {
        match &mut self.rows[place_of(client)] {
            Some(row) => row.entry.requests = requests,
            None => unreachable!(),
        }
    }

    // So many requests are under way of the client, of which so much is known. It takes no memory.
    #[inline(always)]
    pub(crate) fn count(&mut self, client: u64, entry: Entry, requests: u64)
        requires { entry_at client self.old ≡ Some entry }
        ensures { SetsEntry (Some (record entry { requests = requests })) self.old client self.new }
    {
        if self.at_its_row(client).is_some() {
            self.count_at_its_row(client, entry, requests);
        } else {
            self.change_other(client, entry.key, entry.here, requests);
        }
    }

    // Takes the client out. It takes no memory.
    #[cold]
    #[inline(never)]
    pub(crate) fn remove(&mut self, client: u64)
        ensures { SetsEntry None self.old client self.new }
    {
        let at = place_of(client);
        if self.at_its_row(client).is_some() {
            self.rows[at] = None;
        }
        self.others.remove(&client);
    }

    // Settles a request of a client that has no row, or that is forgotten then.
    #[cold]
    #[inline(never)]
    fn settle_other(&mut self, client: u64) -> Option<Entry>
        ensures before { result ≡ entry_at client self.old }
        ensures settled { SetsEntry (settled_entry result) self.old client self.new }
    {
        let entry = self.get(client);
        match settled_entry(entry) {
            Some(fewer) => self.change(client, fewer),
            None => self.remove(client),
        }
        entry
    }

    // Settles a request of the client, and gives what was known of it before. It takes no memory.
    #[inline(always)]
    pub(crate) fn settle(&mut self, client: u64) -> Option<Entry>
        ensures before { result ≡ entry_at client self.old }
        ensures settled { SetsEntry (settled_entry result) self.old client self.new }
    {
        match self.at_its_row(client) {
            Some(entry) if entry.here || entry.requests > 1 => {
                self.count_at_its_row(client, entry, entry.requests.saturating_sub(1));
                Some(entry)
            }
            _ => self.settle_other(client),
        }
    }
}
