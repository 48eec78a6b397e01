//! The leave that the gate gives before a PDU is decided.
ghost use Rattle.std.specs.Prelude.{◌≡◌, ◌≢◌, ◌≤◌, ◌<◌, ℕ, Bool, true, false, List, length, Some, None, Ok, IfSome, OnOk, IsSome, if◌then◌else◌};
ghost use Rattle.smx_shared.specs.Views.{locks_of};
ghost use Rattle.smx_turns.specs.declared.gate.Question.{Question};
ghost use Rattle.smx_turns.specs.declared.gate.Party.{Party};
ghost use Rattle.smx_turns.specs.declared.directory.Query.{Query};
ghost use Rattle.smx_session.specs.declared.ask.Ask.{Ask};
ghost use Rattle.smx_client.specs.Scenes.{scene_of};
ghost use Rattle.smx_client.specs.Serving.{held_asks};
ghost use Rattle.smx_client.specs.Table.{Before, phase_of, Deciding, Unentered, after_bind, with_leave, weight, IsPart};
ghost use Rattle.smx_client.specs.Turns.{Leads};

use super::ClientWorker;
use crate::event::{Event, Progress, Verdict};
use crate::ledger::{ask, mark};
use crate::listing::lists;
use crate::prefixes::{add_all, prefixes_at};
use smx_link::Link;
use smx_session::{Ask, ClientState, Kind};
use smx_shared::Exchange;
use smx_turns::{Directory, Fault, Gate, Log, Mark, Point};
use std::sync::Wait;

// Whether a client that is bound so is sent messages.
fn is_sent(kind: Kind) -> bool
    ensures other { result ≡ true → kind ≢ Kind.Tx }
    ensures tx { result ≡ false → kind ≡ Kind.Tx }
{
    match kind {
        Kind::Tx => false,
        Kind::Rx | Kind::Trx => true,
    }
}

// How far a turn comes once prefixes were entered: whether there was memory for all.
fn part_entered(whole: bool) -> Result<Option<Progress>, Fault>
    ensures phase { (ended : Bool)
        → IsPart (Deciding ended) result (if whole then Deciding ended else Unentered) }
    ensures none { OnOk result (result ≡ Ok None) }
{
    if whole {
        Ok(None)
    } else {
        Err(Fault::NoMemory)
    }
}

impl<'d, L: Link + Drop> ClientWorker<'d, L> {
    // Enters the client that has bound into the directory, where it is to be sent messages.
    fn enter<R: Wait, D: Directory>(
        &mut self,
        rt: &R,
        directory: &mut D,
        kind: Kind,
        account: usize,
        log: &mut Log<Event>,
    ) -> Result<Option<Progress>, Fault>
        ensures leads { (n : ℕ) (asked : List Question) (told : List Party) → Leads n
            (scene_of L.offered L.polls L.failures asked told (D.queries directory.old) self.old)
            log.old
            (scene_of L.offered L.polls L.failures asked told (D.queries directory.new) self.new)
            log.new }
        ensures phase { (t : Before) (ended : Bool)
            → phase_of t log.old ≡ after_bind ended kind account
            → IsPart (Deciding ended) result (phase_of t log.new) }
        ensures none { OnOk result (result ≡ Ok None) }
        ensures same { self.new ≡ self.old }
    {
        if !is_sent(kind) {
            return Ok(None);
        }
        let prefixes = prefixes_at(self.desk, account);
        let whole = add_all(rt, directory, prefixes, self.port.client());
        mark(log, Mark::Entered(account, whole), true);
        part_entered(whole)
    }

    // Decides the PDU that waits and whose leave was given, where it asks for one: what the session
    // alone decides, and answers to messages. `None` where the next one may be decided.
    fn decide_own<R: Wait, G: Gate, D: Directory>(
        &mut self,
        rt: &R,
        gate: &mut G,
        directory: &mut D,
        log: &mut Log<Event>,
    ) -> Result<Option<Progress>, Fault>
        requires none { self.old.parked ≡ None }
        requires room { 65536 ≤ self.old.wire.room }
        requires below { length self.old.wire.unsent < 65536 }
        requires own { held_asks self.old ≢ Some Ask.Request }
        requires some { IsSome self.old.held }
        ensures leads { (n : ℕ) → Leads n
            (scene_of L.offered L.polls L.failures (G.asked gate.old) (G.told gate.old) (D.queries
            directory.old) self.old)
            log.old
            (scene_of L.offered L.polls L.failures (G.asked gate.new) (G.told gate.new) (D.queries
            directory.new) self.new)
            log.new }
        ensures phase { (t : Before) (ended : Bool)
            → phase_of t log.old ≡ with_leave ended (held_asks self.old)
            → IsPart (Deciding ended) result (phase_of t log.new) }
        ensures next { result ≡ Ok None → (self.new.held ≡ None) × (self.new.parked ≡ None) }
        ensures which { (result ≢ Ok (Some Progress.Settled))
            × (result ≢ Ok (Some Progress.Clogged))
            × (result ≢ Ok (Some Progress.Gone)) }
        ensures over { result ≡ Ok (Some Progress.Closed)
            → self.new.session.state ≡ ClientState.Ended }
        ensures waits { result ≡ Ok (Some Progress.Parked) → IsSome self.new.parked }
        ensures same { self.new ≡ record self.old {
          session = self.new.session;
          senders = self.new.senders;
          window = self.new.window;
          wire = record self.old.wire {
            said = self.new.wire.said;
            unsent = self.new.wire.unsent;
            room = self.new.wire.room;
          };
          held = self.new.held;
          parked = self.new.parked;
          ending = self.new.ending;
          refused = self.new.refused;
          events = self.new.events;
        } }
    {
        match self.decide(log)? {
            Verdict::Next => Ok(None),
            Verdict::Over => Ok(Some(Progress::Closed)),
            Verdict::Bound(kind, account) => self.enter(rt, directory, kind, account, log),
            Verdict::Settle => self.settle(rt, gate, log),
        }
    }

    // Submits the request that waits, where the gate gives leave for a submit and then for one more, and
    // those behind it that get leave. `None` where the next one may be decided.
    fn decide_request<R: Wait, G: Gate>(
        &mut self,
        at: &Exchange,
        rt: &R,
        gate: &mut G,
        turn: u64,
        log: &mut Log<Event>,
    ) -> Option<Progress>
        requires locks { locks_of self.old.origin.port.value.fronts ≡ at.now }
        requires room { 65536 ≤ self.old.wire.room }
        requires below { length self.old.wire.unsent < 65536 }
        requires goes_on { self.old.wire.failed ≡ None }
        requires asks { held_asks self.old ≡ Some Ask.Request }
        ensures leads { (queries : List Query) → Leads turn
            (scene_of L.offered L.polls L.failures (G.asked gate.old) (G.told gate.old) queries
            self.old)
            log.old
            (scene_of L.offered L.polls L.failures (G.asked gate.new) (G.told gate.new) queries
            self.new)
            log.new }
        ensures phase { (t : Before) (ended : Bool) → phase_of t log.old ≡ Deciding ended
            → IsPart (Deciding ended) (Ok result) (phase_of t log.new) }
        ensures next { result ≡ None → weight self.new.held self.new.wire.rest
            < weight self.old.held self.old.wire.rest }
        ensures stopped { IfSome result (λ progress. progress ≡ Progress.Stopped) }
        ensures same { self.new ≡ record self.old {
          port = self.new.port;
          wire = record self.old.wire {
            said = self.new.wire.said;
            unsent = self.new.wire.unsent;
            room = self.new.wire.room;
            heard = self.new.wire.heard;
            rest = self.new.wire.rest;
          };
          held = self.new.held;
          events = self.new.events;
        } }
    {
        let given = ask(log, gate, Point::Submitting, turn);
        if !given {
            return Some(Progress::Stopped);
        }
        let admitted = ask(log, gate, Point::Admitting, turn);
        if !admitted {
            self.bar(Ask::Request, log);
            return None;
        }
        if self.is_followed() {
            if let Some(empty) = lists(&mut self.spares, self.alloc) {
                self.forward_all(at, rt, gate, turn, empty, log);
                return None;
            }
        }
        self.forward(at, rt, gate, log);
        None
    }

    // Decides the PDU that waits, or bars it where the gate gives no leave. `None` where the next one
    // may be decided.
    pub(super) fn decide_one<R: Wait, G: Gate, D: Directory>(
        &mut self,
        at: &Exchange,
        rt: &R,
        gate: &mut G,
        directory: &mut D,
        turn: u64,
        ended: bool,
        log: &mut Log<Event>,
    ) -> Result<Option<Progress>, Fault>
        requires locks { locks_of self.old.origin.port.value.fronts ≡ at.now }
        requires none { self.old.parked ≡ None }
        requires below { length self.old.wire.unsent < 65536 }
        requires goes_on { self.old.wire.failed ≡ None }
        requires some { IsSome self.old.held }
        ensures leads { Leads turn
            (scene_of L.offered L.polls L.failures (G.asked gate.old) (G.told gate.old) (D.queries
            directory.old) self.old)
            log.old
            (scene_of L.offered L.polls L.failures (G.asked gate.new) (G.told gate.new) (D.queries
            directory.new) self.new)
            log.new }
        ensures phase { (t : Before) → phase_of t log.old ≡ Deciding ended
            → IsPart (Deciding ended) result (phase_of t log.new) }
        ensures next { result ≡ Ok None → (weight self.new.held self.new.wire.rest
            < weight self.old.held self.old.wire.rest) × (self.new.parked ≡ None) }
        ensures which { (result ≢ Ok (Some Progress.Settled))
            × (result ≢ Ok (Some Progress.Clogged))
            × (result ≢ Ok (Some Progress.Gone)) }
        ensures over { result ≡ Ok (Some Progress.Closed)
            → self.new.session.state ≡ ClientState.Ended }
        ensures waits { result ≡ Ok (Some Progress.Parked) → IsSome self.new.parked }
        ensures same { self.new ≡ record self.old {
          port = self.new.port;
          session = self.new.session;
          senders = self.new.senders;
          window = self.new.window;
          wire = record self.old.wire {
            said = self.new.wire.said;
            unsent = self.new.wire.unsent;
            room = self.new.wire.room;
            heard = self.new.wire.heard;
            rest = self.new.wire.rest;
          };
          held = self.new.held;
          parked = self.new.parked;
          ending = self.new.ending;
          refused = self.new.refused;
          events = self.new.events;
        } }
    {
        self.make_room()?;
        match self.asks() {
            None => self.decide_own(rt, gate, directory, log),
            Some(Ask::Bind(account)) => {
                let given = ask(log, gate, Point::Binding(account), turn);
                if !given {
                    self.bar(Ask::Bind(account), log);
                    return Ok(None);
                }
                self.decide_own(rt, gate, directory, log)
            }
            Some(Ask::RefusedBind) => {
                let given = ask(log, gate, Point::Refusing, turn);
                if !given {
                    return Ok(Some(Progress::Stopped));
                }
                self.decide_own(rt, gate, directory, log)
            }
            Some(Ask::Request) => Ok(self.decide_request(at, rt, gate, turn, log)),
        }
    }
}
