//! Clients that come and go.
ghost use Rattle.std.specs.Prelude.{◌≡◌, ◌↔◌, IsTrue, List, [], ◌∷◌, ◌++◌, OnOk, OnErr, MatchResult, IsSome, None};
ghost use Rattle.smx_history.specs.Contents.{AgreesWith};
ghost use Rattle.smx_history.specs.History.{note};
ghost use Rattle.smx_history.specs.declared.note.Note.{Note};
ghost use Rattle.smx_history.specs.Replies.{admit_refusal, member_with};
ghost use Rattle.smx_history.specs.declared.note.Event.TheVariants.{Admit, Retire};
ghost use Rattle.smx_lane.specs.Conditions.{IsOwn, IsNext};
ghost use Rattle.smx_lane.specs.Faults.{IsAdmitFault};

use super::Lane;
use crate::fault::NotAdmitted;
use smx_history::{AdmitFault, Entry, Kind};
use std::alloc::AllocError;

impl Lane {
    /// Whether a call of `by` may name the client: none is there, or `by` admitted it.
    pub fn is_own(&self, by: u64, client: u64) -> bool
        ensures { IsTrue result ↔ IsOwn self.now by client }
    {
        match self.roster.find(client) {
            Some(row) => row.by == by,
            None => true,
        }
    }

    /// Whether `by` may hand in a request of the client under the ordinal: no such client is there, or `by` admitted it
    /// and the ordinal is above that of its last accept.
    pub fn is_next(&self, by: u64, client: u64, ordinal: u64) -> bool
        ensures { IsTrue result ↔ IsNext self.now by client ordinal }
    {
        match self.roster.find(client) {
            Some(row) => row.by == by && row.last < ordinal,
            None => true,
        }
    }

    /// Admits a client, and makes its row and its box.
    pub fn admit(&mut self, by: u64, client: u64) -> Result<(), AdmitFault>
        ensures reply { MatchResult result (λ _. admit_refusal self.old client ≡ None)
            (IsAdmitFault (admit_refusal self.old client)) }
        ensures agrees { OnOk result ((h : List Note) → AgreesWith h self.old →
            AgreesWith (h ++ note by (Admit client) ∷ []) self.new) }
        ensures err { OnErr result (self.new ≡ self.old) }
        ensures limits { self.new.limits ≡ self.old.limits }
    {
        if client <= self.greatest {
            return Err(AdmitFault::Known);
        }
        if !self.has_room() {
            return Err(AdmitFault::HistoryFull);
        }
        match self.roster.add(by, client) {
            Ok(()) => {}
            Err(AllocError) => return Err(AdmitFault::NoMemory),
        }
        self.greatest = client;
        self.entries.push_reserved(Entry {
            kind: Kind::Admit,
            by,
            client,
            ordinal: 0,
            number: 0,
            command: 0,
        });
        Ok(())
    }

    /// Retires a client: its row and the responses in its box are gone. Its requests that are queued or taken stay.
    pub fn retire(&mut self, by: u64, client: u64) -> Result<(), NotAdmitted>
        requires { IsOwn self.old by client }
        ensures reply { MatchResult result
            (λ _. IsSome (member_with client self.old.members))
            (λ _. member_with client self.old.members ≡ None) }
        ensures agrees { OnOk result ((h : List Note) → AgreesWith h self.old →
            AgreesWith (h ++ note by (Retire client) ∷ []) self.new) }
        ensures err { OnErr result (self.new ≡ self.old) }
        ensures limits { self.new.limits ≡ self.old.limits }
    {
        if self.roster.find(client).is_none() {
            return Err(NotAdmitted);
        }
        self.roster.remove(client);
        self.entries.push_reserved(Entry {
            kind: Kind::Retire,
            by,
            client,
            ordinal: 0,
            number: 0,
            command: 0,
        });
        Ok(())
    }
}
