//! Which requests are under way, and whose they are.
ghost use Rattle.std.specs.Prelude.{◌≡◌, [], ◌++◌, ◌+◌, ◌≤◌, ◌<◌, length, false, true, if◌then◌else◌, slice_get, replicate, All, IfOk, OnOk, OnErr};
ghost use Rattle.std.specs.List.{range_with_len};
ghost use Rattle.std.specs.Option.{option_map_or};
ghost use Rattle.smx_slots.specs.Ledger.{with_client, without_client, with_accepted, with_settled, may_bind, may_request, may_request_beside, IsSpare, account_of, requests_of, is_known, count_of, bound_of, total_of, renewed, greatest_count};

use crate::accounts::{accounts_of, with_zeros};
use crate::entries::{Entries, Entry};
use crate::limits::{AccountLimits, is_below, spare_of};
use crate::movement::Movement;
use smx_trace::Trace;
use std::alloc::{AllocError, Global};
use std::marker::Model;

/// The limits of each account, which clients are bound by it, and which of their requests were accepted and
/// are neither answered nor failed. A client that is gone is known until the last of its own is settled.
/// Contracts see what the ledger was told.
#[derive(Drop)]
pub struct Ledger {
    alloc: Global,
    clients: Entries,
    // By index: the account's key, under which its limits and counts are.
    keys: Vec<usize>,
    limits: Vec<AccountLimits>,
    bound: Vec<u64>,
    requests: Vec<u64>,
    total: u64,
    draining: bool,
    movements: Trace<Movement>,
}

impl Model for Ledger {
    ghost use Rattle.smx_slots.specs.Ledger.{Book};
    ghost use Rattle.smx_slots.specs.Private.LedgerFields.{book_of, IsKept};

    ghost Value = { Book };

    ghost view = { book_of };

    ghost invariant = { IsKept };
}

// So many keys, from 0 on.
fn first_keys(alloc: Global, count: usize) -> Result<Vec<usize>, AllocError>
    ensures { IfOk result (λ keys. keys.items ≡ range_with_len 0 count) }
{
    let mut keys = Vec::with_capacity(alloc, count)?;
    for key in 0..count {
        keys.push(key)?;
    }
    Ok(keys)
}

// The key of the account with this index.
fn key_at(keys: &[usize], account: usize) -> Option<usize>
    ensures { result ≡ slice_get keys.now account }
{
    keys.get(account).copied()
}

impl Ledger {
    /// Accounts with these limits, each with its index as its key. Nobody is bound.
    pub fn new(alloc: Global, limits: &[AccountLimits]) -> Result<Ledger, AllocError>
        ensures { IfOk result (λ ledger. ledger ≡ record {
          movements = [];
          keys = range_with_len 0 (length limits.now);
          limits = limits.now;
          draining = false;
        }) }
    {
        let count = limits.len();
        Ok(Ledger {
            alloc,
            clients: Entries::new(alloc)?,
            keys: first_keys(alloc, count)?,
            limits: limits.iter().copied().collect(alloc)?,
            bound: vec![in alloc; 0; count]?,
            requests: vec![in alloc; 0; count]?,
            total: 0,
            draining: false,
            movements: Trace::new(),
        })
    }

    // Whether the client is bound or has requests under way.
    fn knows(&self, client: u64) -> bool
        ensures { result ≡ is_known client self.now.movements }
    {
        match self.clients.get(client) {
            Some(entry) => entry.here || entry.requests > 0,
            None => false,
        }
    }

    /// Binds the client by the account with this index where it may be, and tells whether it may. It may not
    /// where as many are as may be, where nothing is admitted any more, and where the ledger knows the client
    /// or no such account. Want of memory is answered, and nothing changes then.
    pub fn bind(&mut self, client: u64, account: usize) -> Result<bool, AllocError>
        ensures may { IfOk result (λ may. may
            ≡ may_bind client (slice_get self.old.keys account) self.old) }
        ensures bound { IfOk result (λ may. self.new
            ≡ (if may then with_client client (slice_get self.old.keys account) self.old
            else self.old)) }
        ensures allowed { OnErr result
            (may_bind client (slice_get self.old.keys account) self.old ≡ true) }
        ensures same { OnErr result (self.new ≡ self.old) }
    {
        let Some(key) = key_at(self.keys.as_slice(), account) else {
            return Ok(false);
        };
        if self.draining || self.knows(client) {
            return Ok(false);
        }
        if !is_below(self.limits[key].binds, self.bound[key]) {
            return Ok(false);
        }
        let entry = Entry {
            key,
            here: true,
            requests: 0,
        };
        self.clients.enter(client, entry)?;
        self.bound[key] += 1;
        self.movements = self.movements.and(&Movement::Bound(client, key));
        Ok(true)
    }

    /// The client is gone. Its requests that are under way still count for its account. It takes no
    /// memory.
    pub fn leave(&mut self, client: u64)
        ensures { self.new ≡ without_client client self.old }
    {
        let Some(entry) = self.clients.get(client) else {
            return;
        };
        if !entry.here {
            return;
        }
        if entry.requests == 0 {
            self.clients.remove(client);
        } else {
            let gone = Entry {
                here: false,
                ..entry
            };
            self.clients.change(client, gone);
        }
        self.bound[entry.key] = self.bound[entry.key].saturating_sub(1);
        self.movements = self.movements.and(&Movement::Left(client));
    }

    /// Whether one more request of the client may be under way.
    pub fn admits(&self, client: u64) -> bool
        ensures { result
            ≡ may_request client (account_of client self.now.movements) self.now }
    {
        let Some(entry) = self.clients.get(client) else {
            return false;
        };
        !self.draining
            && entry.here
            && is_below(self.limits[entry.key].requests, self.requests[entry.key])
    }

    /// To how many more requests of the client leave can be given, beside so many that have it and aren't
    /// accepted yet.
    #[inline(always)]
    pub fn spare_beside(&self, client: u64, leaves: u64) -> u64
        ensures spare { IsSpare result leaves client self.now }
        ensures last { may_request_beside (leaves + result) client
            (account_of client self.now.movements) self.now ≡ false }
    {
        let Some(entry) = self.clients.get(client) else {
            return 0;
        };
        if self.draining || !entry.here {
            return 0;
        }
        spare_of(
            self.limits[entry.key].requests,
            self.requests[entry.key],
            leaves,
        )
    }

    /// A lane accepted a request of the client. Nothing changes where it isn't bound, or a count is as great
    /// as one can be. It takes no memory.
    #[inline(always)]
    pub fn accepted(&mut self, client: u64)
        ensures { self.new ≡ with_accepted client self.old }
    {
        let Some(entry) = self.clients.get(client) else {
            return;
        };
        let requests = self.requests[entry.key];
        if !entry.here
            || !is_below(None, entry.requests)
            || !is_below(None, requests)
            || !is_below(None, self.total)
        {
            return;
        }
        self.clients.count(client, entry, entry.requests + 1);
        self.requests[entry.key] = requests + 1;
        self.total += 1;
        self.movements = self.movements.and(&Movement::Accepted(client));
    }

    /// A request of the client was answered or failed. Nothing changes where none of it is under way. It
    /// takes no memory.
    #[inline(always)]
    pub fn settled(&mut self, client: u64)
        ensures { self.new ≡ with_settled client self.old }
    {
        let Some(entry) = self.clients.settle(client) else {
            return;
        };
        if entry.requests == 0 {
            return;
        }
        self.requests[entry.key] = self.requests[entry.key].saturating_sub(1);
        self.total = self.total.saturating_sub(1);
        self.movements = self.movements.and(&Movement::Settled(client));
    }

    /// How many requests are under way.
    pub fn under_way(&self) -> u64
        ensures { result ≡ total_of self.now.movements }
    {
        self.total
    }

    /// How many requests of the account's clients are under way, of those that are gone too. 0 where there is
    /// no such account.
    pub fn of_account(&self, account: usize) -> u64
        ensures { result ≡ option_map_or (λ key. count_of key self.now.movements)
            (slice_get self.now.keys account) 0 }
    {
        match key_at(self.keys.as_slice(), account) {
            Some(key) => self.requests[key],
            None => 0,
        }
    }

    /// How many clients are bound by the account. 0 where there is no such account.
    pub fn bound_by(&self, account: usize) -> u64
        ensures { result ≡ option_map_or (λ key. bound_of key self.now.movements)
            (slice_get self.now.keys account) 0 }
    {
        match key_at(self.keys.as_slice(), account) {
            Some(key) => self.bound[key],
            None => 0,
        }
    }

    /// How many requests of the client are under way, also where it is gone.
    pub fn of_client(&self, client: u64) -> u64
        ensures { result ≡ requests_of client self.now.movements }
    {
        match self.clients.get(client) {
            Some(entry) => entry.requests,
            None => 0,
        }
    }

    /// From now on nothing is admitted, and nobody may bind.
    pub fn drain(&mut self)
        ensures { self.new ≡ record self.old { draining = true } }
    {
        self.draining = true;
    }

    /// Whether nothing is admitted any more.
    pub fn is_draining(&self) -> bool
        ensures { result ≡ self.now.draining }
    {
        self.draining
    }

    /// Other accounts, with these limits: by old index the new one that the account moved to, where it did.
    /// Clients keep their account, and one that is gone keeps its limits. Want of memory is answered, and
    /// nothing changes then.
    pub fn renew(
        &mut self,
        moves: &[Option<usize>],
        limits: &[AccountLimits],
    ) -> Result<(), AllocError>
        ensures ok { OnOk result (self.new ≡ renewed moves.now limits.now self.old) }
        ensures err { OnErr result (self.new ≡ self.old) }
    {
        let (keys, table) = accounts_of(
            self.alloc,
            moves,
            self.keys.as_slice(),
            self.limits.as_slice(),
            limits,
        )?;
        let more = table.len() - self.limits.len();
        let bound = with_zeros(self.alloc, self.bound.as_slice(), more)?;
        let requests = with_zeros(self.alloc, self.requests.as_slice(), more)?;
        self.keys = keys;
        self.limits = table;
        self.bound = bound;
        self.requests = requests;
        Ok(())
    }
}
