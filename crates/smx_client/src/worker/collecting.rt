//! The first part of a turn: what waits is offered, and each lane is asked for its responses.
ghost use Rattle.std.specs.Prelude.{◌≡◌, ◌≢◌, ◌≤◌, ◌<◌, ℕ, List, [], length, true, false, not, ◌==◌, None, Some, Ok, IfOk, IsOkAnd, OnOk, OnErr, vec_capacity};
ghost use Rattle.smx_shared.specs.Views.{locks_of};
ghost use Rattle.smx_turns.specs.declared.directory.Query.{Query};
ghost use Rattle.smx_client.specs.Scenes.{scene_of, Moves};
ghost use Rattle.smx_client.specs.Table.{Before, Phase, phase_of, AtLane, MayCollect, after_collect, IsOffered, IsCollectedFrom, IsGathered, IsPart};
ghost use Rattle.smx_client.specs.Turns.{Leads};
ghost use Rattle.smx_turns.specs.Wires.{some_wait};

use super::ClientWorker;
use crate::event::{Event, Progress};
use crate::ledger::{ask, mark, note};
use crate::saying::say_found;
use smx_history::Response;
use smx_link::{Link, Wire};
use smx_lock::Spent;
use smx_pdu::MAX_PDU;
use smx_shared::{Collected, Exchange, SpareList};
use smx_turns::{Fault, Gate, Log, Mark, Point};
use std::alloc::Global;
use std::snapshot::Snapshot;
use std::sync::Wait;

// Whether some of what was said waits.
fn has_unsent<L: Link + Drop>(wire: &Wire<L>) -> bool
    ensures { result ≡ some_wait wire.now.unsent }
{
    !wire.is_clear()
}

fn differ(a: usize, b: usize) -> bool
    ensures { result ≡ not (a == b) }
{
    a != b
}

// How far a turn comes by what a lane gave: whether it may have more.
fn more_unless_spent(found: &Result<Collected, Spent>) -> Result<bool, Fault>
    ensures phase { (lane : ℕ) → IsCollectedFrom lane result (after_collect lane found.now) }
    ensures more { result ≡ Ok true → IsOkAnd found.now (λ b. b.more ≡ true) }
{
    match found {
        Ok(collected) => Ok(collected.more),
        Err(_) => Err(Fault::Spent),
    }
}

// A list for what one hold gives.
fn list_for_one_hold(spare: &mut SpareList<Response>, alloc: Global) -> Result<Vec<Response>, Fault>
    ensures list { IfOk result (λ list. (list.items ≡ []) × (16 ≤ vec_capacity list)) }
    ensures err { OnErr result (result ≡ Err Fault.NoMemory) }
{
    match spare.list(alloc) {
        Ok(list) => Ok(list),
        Err(_) => Err(Fault::NoMemory),
    }
}

impl<'d, L: Link + Drop> ClientWorker<'d, L> {
    // Offers the link what waits. True where some is left.
    pub(super) fn offer_part(&mut self, log: &mut Log<Event>) -> Result<bool, Fault>
        ensures moves { Moves L.offered L.polls L.failures self.old log.old self.new log.new }
        ensures phase { (t : Before) (p : Phase) → phase_of t log.old ≡ p
            → IsOffered t p result (phase_of t log.new) }
        ensures left { IfOk result (λ left. left ≡ some_wait self.new.wire.unsent) }
        ensures same { self.new ≡ record self.old {
          wire = record self.old.wire { link = self.new.wire.link; unsent = self.new.wire.unsent };
        } }
    {
        let before = self.wire.unsent();
        let waited = has_unsent(&self.wire);
        if self.wire.offer().is_err() {
            mark(log, Mark::WriteFailed, true);
            return Err(Fault::Link);
        }
        let left = has_unsent(&self.wire);
        let wrote = differ(self.wire.unsent(), before);
        let offered = Mark::Offered {
            waited,
            wrote,
            left,
        };
        mark(log, offered, !wrote);
        Ok(left)
    }

    // Makes room for what one event may say.
    #[inline(always)]
    pub(super) fn make_room(&mut self) -> Result<(), Fault>
        ensures room { OnOk result (65536 ≤ self.new.wire.room) }
        ensures err { OnErr result (result ≡ Err Fault.NoMemory) }
        ensures same { self.new ≡ record self.old {
          wire = record self.old.wire { room = self.new.wire.room };
        } }
    {
        match self.wire.make_room() {
            Ok(()) => Ok(()),
            Err(_) => Err(Fault::NoMemory),
        }
    }

    // Whether as many octets wait as a PDU can have.
    pub(super) fn is_clogged(&self) -> bool
        ensures clogged { result ≡ true → 65536 ≤ length self.now.wire.unsent }
        ensures below { result ≡ false → length self.now.wire.unsent < 65536 }
    {
        self.wire.unsent() >= MAX_PDU
    }

    // Asks a lane for what waits for the client, by one hold. Whether it may have more.
    fn collect_some<R: Wait>(
        &mut self,
        at: &Exchange,
        rt: &R,
        lane: usize,
        list: Vec<Response>,
        log: &mut Log<Event>,
    ) -> Result<bool, Fault>
        requires locks { locks_of self.old.origin.port.value.fronts ≡ at.now }
        requires lane { lane < length self.old.origin.port.value.fronts }
        requires list { (list.items ≡ []) × (16 ≤ vec_capacity list) }
        requires room { 65536 ≤ self.old.wire.room }
        requires below { length self.old.wire.unsent < 65536 }
        ensures moves { Moves L.offered L.polls L.failures self.old log.old self.new log.new }
        ensures phase { (t : Before) → phase_of t log.old ≡ MayCollect lane
            → IsCollectedFrom lane result (phase_of t log.new) }
        ensures more { result ≡ Ok true
            → length self.old.wire.unsent < length self.new.wire.unsent }
        ensures same { self.new ≡ record self.old {
          port = self.new.port;
          wire = record self.old.wire {
            said = self.new.wire.said;
            unsent = self.new.wire.unsent;
            room = self.new.wire.room;
          };
          events = self.new.events;
        } }
    {
        let found = self.port.collect_all(at, rt, lane, list);
        let event = Event::Collected(lane, Snapshot::of(&found));
        let more = more_unless_spent(&found);
        let none = say_found(&mut self.wire, &mut self.spares.responses, found);
        note(&mut self.events, log, event, none);
        more
    }

    // Asks a lane for the client's responses, a list by each hold, until it has none. True where as many
    // octets wait as a PDU can have.
    fn collect_lane<R: Wait>(
        &mut self,
        at: &Exchange,
        rt: &R,
        lane: usize,
        log: &mut Log<Event>,
    ) -> Result<bool, Fault>
        requires locks { locks_of self.old.origin.port.value.fronts ≡ at.now }
        requires lane { lane < length self.old.origin.port.value.fronts }
        ensures moves { Moves L.offered L.polls L.failures self.old log.old self.new log.new }
        ensures phase { (t : Before) → phase_of t log.old ≡ MayCollect lane
            → IsGathered lane result (phase_of t log.new) }
        ensures clogged { result ≡ Ok true → 65536 ≤ length self.new.wire.unsent }
        ensures same { self.new ≡ record self.old {
          port = self.new.port;
          wire = record self.old.wire {
            said = self.new.wire.said;
            unsent = self.new.wire.unsent;
            room = self.new.wire.room;
          };
          events = self.new.events;
        } }
    {
        loop {
            if self.is_clogged() {
                mark(log, Mark::Full, true);
                return Ok(true);
            }
            self.make_room()?;
            let list = list_for_one_hold(&mut self.spares.responses, self.alloc)?;
            if !self.collect_some(at, rt, lane, list, log)? {
                return Ok(false);
            }
        }
    }

    // Asks for leave to collect from a lane, and does so until it has none. True where as many octets wait
    // as a PDU can have.
    fn visit_lane<R: Wait, G: Gate>(
        &mut self,
        at: &Exchange,
        rt: &R,
        gate: &mut G,
        turn: u64,
        lane: usize,
        log: &mut Log<Event>,
    ) -> Result<bool, Fault>
        requires locks { locks_of self.old.origin.port.value.fronts ≡ at.now }
        requires lane { lane < length self.old.origin.port.value.fronts }
        ensures leads { (queries : List Query) → Leads turn
            (scene_of L.offered L.polls L.failures (G.asked gate.old) (G.told gate.old) queries
            self.old)
            log.old
            (scene_of L.offered L.polls L.failures (G.asked gate.new) (G.told gate.new) queries
            self.new)
            log.new }
        ensures phase { (t : Before) → phase_of t log.old ≡ AtLane lane
            → IsGathered lane result (phase_of t log.new) }
        ensures clogged { result ≡ Ok true → 65536 ≤ length self.new.wire.unsent }
        ensures same { self.new ≡ record self.old {
          port = self.new.port;
          wire = record self.old.wire {
            said = self.new.wire.said;
            unsent = self.new.wire.unsent;
            room = self.new.wire.room;
          };
          events = self.new.events;
        } }
    {
        if !ask(log, gate, Point::Collecting(lane), turn) {
            return Ok(false);
        }
        self.collect_lane(at, rt, lane, log)
    }

    // Asks for leave to collect from each lane, and collects. `None` where the turn goes on.
    pub(super) fn collect_part<R: Wait, G: Gate>(
        &mut self,
        at: &Exchange,
        rt: &R,
        gate: &mut G,
        turn: u64,
        log: &mut Log<Event>,
    ) -> Result<Option<Progress>, Fault>
        requires locks { locks_of self.old.origin.port.value.fronts ≡ at.now }
        ensures leads { (queries : List Query) → Leads turn
            (scene_of L.offered L.polls L.failures (G.asked gate.old) (G.told gate.old) queries
            self.old)
            log.old
            (scene_of L.offered L.polls L.failures (G.asked gate.new) (G.told gate.new) queries
            self.new)
            log.new }
        ensures phase { (t : Before) → phase_of t log.old ≡ AtLane 0
            → IsPart (AtLane (length self.old.port.fronts)) result (phase_of t log.new) }
        ensures clogged { result ≡ Ok (Some Progress.Clogged)
            → 65536 ≤ length self.new.wire.unsent }
        ensures which { (result ≢ Ok (Some Progress.Settled)) × (result ≢ Ok (Some Progress.Closed))
            × (result ≢ Ok (Some Progress.Parked)) × (result ≢ Ok (Some Progress.Stopped))
            × (result ≢ Ok (Some Progress.Gone)) }
        ensures same { self.new ≡ record self.old {
          port = self.new.port;
          wire = record self.old.wire {
            said = self.new.wire.said;
            unsent = self.new.wire.unsent;
            room = self.new.wire.room;
          };
          events = self.new.events;
        } }
    {
        let lanes = self.port.lanes();
        for lane in 0..lanes {
            if self.visit_lane(at, rt, gate, turn, lane, log)? {
                return Ok(Some(Progress::Clogged));
            }
        }
        Ok(None)
    }
}
