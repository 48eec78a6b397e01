//! The clients that are admitted, and the boxes of their responses.
ghost use Rattle.std.specs.Prelude.{◌≡◌, ◌≤◌, ◌<◌, ◌+◌, ◌-◌, [], ◌∷◌, ◌++◌, length, map, drop, IsTrue, IsFalse, IsSome, IfNone, OnSome, OnOk, OnErr, MatchOption, MatchResult, Some, None};
ghost use Rattle.std.specs.Option.{option_copied};
ghost use Rattle.smx_history.specs.Contents.{Member};
ghost use Rattle.smx_history.specs.Prefixes.{RiseAbove};
ghost use Rattle.smx_history.specs.Replies.{member_with};
ghost use Rattle.smx_history.specs.Answering.{oldest_in};
ghost use Rattle.smx_history.proofs.Updates.{with_row, new_row, without};
ghost use Rattle.smx_lane.specs.Members.{row_refusal, waiting_of};
ghost use Rattle.smx_lane.specs.Roster.{member_in};

use crate::client_rows::{ClientRows, Row};
use crate::response_box::ResponseBox;
use smx_history::{Refusal, Response};
use std::alloc::{AllocError, Global};
use std::marker::Model;

// The rows of the clients, each with a box of so many places.
#[derive(Drop)]
pub(crate) struct Roster {
    places: u32,
    alloc: Global,
    table: ClientRows,
    // How many responses wait in all boxes.
    waiting: usize,
}

impl Model for Roster {
    ghost use Rattle.smx_lane.specs.Members.{Clients};

    ghost Value = { Clients };

    ghost use Rattle.smx_lane.specs.Roster.{clients_of, KeepsRows};

    ghost view = { clients_of };

    ghost invariant = { KeepsRows };
}

impl Roster {
    // No client, and boxes of so many places for those to come.
    pub(crate) fn new(alloc: Global, places: u32) -> Roster
        ensures { result ≡ record { places = places; members = [] } }
    {
        Roster {
            places,
            alloc,
            table: ClientRows::new(alloc),
            waiting: 0,
        }
    }

    // Where rows and boxes come from.
    pub(crate) fn alloc(&self) -> Global {
        self.alloc
    }

    // How many clients there are.
    pub(crate) fn len(&self) -> usize
        ensures { result ≡ length self.now.members }
    {
        self.table.len()
    }

    // How many responses wait in all boxes.
    pub(crate) fn waiting(&self) -> usize
        ensures { result ≡ waiting_of self.now.members }
    {
        self.waiting
    }

    // The row of the client.
    pub(crate) fn find(&self, client: u64) -> Option<&Row>
        ensures { MatchOption result (member_with client self.now.members ≡ None)
            (λ row. member_with client self.now.members ≡ Some (member_in (client, row.now))) }
    {
        let at = self.table.place(client)?;
        self.table.rows.get(at)
    }

    // Adds a client above all others, with an empty box.
    pub(crate) fn add(&mut self, by: u64, client: u64) -> Result<(), AllocError>
        requires { RiseAbove 0 (map (λ m. m.client) (self.old.members ++ new_row by client ∷ [])) }
        ensures ok { OnOk result (self.new
            ≡ record self.old { members = self.old.members ++ new_row by client ∷ [] }) }
        ensures err { OnErr result (self.new ≡ self.old) }
    {
        let waiting = ResponseBox::with_capacity(self.alloc, self.places as usize)?;
        let row = Row {
            client,
            by,
            last: 0,
            pending: 0,
            waiting,
        };
        self.table.push(self.alloc, row)?;
        Ok(())
    }

    // Notes that a request of the client is accepted, unless the client is not there, has as many pending as its box has
    // places, or the lane refuses.
    pub(crate) fn accept(
        &mut self,
        client: u64,
        ordinal: u64,
        by_lane: Option<Refusal>,
    ) -> Result<(), Refusal>
        ensures reply { MatchResult result
            (λ _. row_refusal self.old by_lane client ≡ None)
            (λ e. row_refusal self.old by_lane client ≡ Some e) }
        ensures ok { OnOk result (self.new ≡ record self.old {
          members = with_row client
              (λ n. record n { last = ordinal; pending = n.pending + 1 }) self.old.members;
        }) }
        ensures err { OnErr result (self.new ≡ self.old) }
    {
        let Some(at) = self.table.place(client) else {
            return Err(Refusal::NotAdmitted);
        };
        let row = &mut self.table.rows[at];
        if row.pending >= self.places {
            return Err(Refusal::ClientFull);
        }
        if let Some(refusal) = by_lane {
            return Err(refusal);
        }
        row.last = ordinal;
        row.pending += 1;
        Ok(())
    }

    // Puts a response into the box of the client, and tells whether the client is there. Where it is not, the response
    // is let go.
    #[inline(always)]
    pub(crate) fn put(&mut self, client: u64, response: Response) -> bool
        requires room { (m : Member) → member_with client self.old.members ≡ Some m
            → length m.waiting < self.old.places }
        requires few { waiting_of self.old.members ≤ 1000000 }
        ensures there { IsTrue result → IsSome (member_with client self.old.members)
            × (self.new ≡ record self.old {
              members = with_row client
                  (λ n. record n { waiting = n.waiting ++ response ∷ [] }) self.old.members;
            }) }
        ensures absent { IsFalse result → member_with client self.old.members ≡ None }
        ensures same { IsFalse result → self.new ≡ self.old }
    {
        let Some(at) = self.table.place(client) else {
            return false;
        };
        let row = &mut self.table.rows[at];
        match row.waiting.try_push_back(response) {
            Ok(()) => {}
            Err(_) => unreachable!(),
        }
        self.waiting += 1;
        true
    }

    // The oldest response in the box of the client, where the client is there and has one.
    #[inline(always)]
    pub(crate) fn oldest(&self, client: u64) -> Option<&Response>
        ensures { option_copied result ≡ oldest_in (member_with client self.now.members) }
    {
        let at = self.table.place(client)?;
        self.table.rows[at].waiting.front()
    }

    // Takes the oldest response out of the box of the client, where the client is there and has one.
    #[inline(always)]
    pub(crate) fn get(&mut self, client: u64) -> Option<Response>
        requires { (m : Member) → member_with client self.old.members ≡ Some m
            → length m.waiting ≤ m.pending }
        ensures oldest { result ≡ oldest_in (member_with client self.old.members) }
        ensures some { OnSome result (self.new ≡ record self.old {
          members = with_row client
              (λ n. record n {
                pending = n.pending - 1;
                waiting = drop 1 n.waiting;
              }) self.old.members;
        }) }
        ensures none { IfNone result (self.new ≡ self.old) }
    {
        let at = self.table.place(client)?;
        let row = &mut self.table.rows[at];
        let response = row.waiting.pop_front()?;
        row.pending -= 1;
        self.waiting -= 1;
        Some(response)
    }

    // Drops the row and the box of the client.
    pub(crate) fn remove(&mut self, client: u64)
        requires { IsSome (member_with client self.old.members) }
        ensures { self.new ≡ record self.old { members = without client self.old.members } }
    {
        let row = self.table.remove(client);
        self.waiting -= row.waiting.len();
    }
}
