//! A turn, part by part.
ghost use Rattle.std.specs.Prelude.{◌≡◌, ◌≢◌, ◌≤◌, ◌<◌, ℕ, Bool, true, false, List, length, Some, None, Ok, Err, IfOk, OnOk, IsSome, is_some, if◌then◌else◌};
ghost use Rattle.smx_frame.specs.Stream.{HasNone};
ghost use Rattle.smx_shared.specs.Views.{locks_of};
ghost use Rattle.smx_turns.specs.declared.gate.Question.{Question};
ghost use Rattle.smx_turns.specs.declared.gate.Party.{Party};
ghost use Rattle.smx_turns.specs.declared.directory.Query.{Query};
ghost use Rattle.smx_client.specs.Scenes.{scene_of, before};
ghost use Rattle.smx_client.specs.Table.{Before, Phase, phase_of, AtLane, Clear, Deciding, when_drained, IsRead, IsFront, IsPart, ComesTo, when_written};
ghost use Rattle.smx_client.specs.Turns.{Leads};

use super::ClientWorker;
use super::boxing::is_waiting;
use crate::event::{Event, Progress};
use crate::ledger::{ask, mark, reading};
use crate::stage::Stage;
use smx_link::{Link, Polled};
use smx_session::ClientState;
use smx_shared::Exchange;
use smx_turns::{Directory, Fault, Gate, Log, Mark, Point, is_end};
use std::sync::Wait;

// The stage after a read that answered so.
fn stage_after(ended: bool) -> Stage
    ensures drained { ended ≡ true → result ≡ Stage.Drained }
    ensures only { (result ≡ Stage.Drained → ended ≡ true) × (result ≡ Stage.Open → ended ≡ false) }
    ensures goes_on { result ≢ Stage.Closed }
{
    if ended { Stage::Drained } else { Stage::Open }
}

impl<'d, L: Link + Drop> ClientWorker<'d, L> {
    // Asks for leave to read, and reads where every whole PDU that came was decided: what it found.
    fn read_part<G: Gate>(
        &mut self,
        gate: &mut G,
        turn: u64,
        log: &mut Log<Event>,
    ) -> Result<Result<Option<Polled>, Progress>, Fault>
        requires goes_on { self.old.wire.failed ≡ None }
        requires opened { self.old.stage ≡ Stage.Open }
        ensures leads { (queries : List Query) → Leads turn
            (scene_of L.offered L.polls L.failures (G.asked gate.old) (G.told gate.old) queries
            self.old)
            log.old
            (scene_of L.offered L.polls L.failures (G.asked gate.new) (G.told gate.new) queries
            self.new)
            log.new }
        ensures phase { (t : Before) → phase_of t log.old ≡ Clear → t.settled ≡ self.old.settled
            → IsRead t result (phase_of t log.new) }
        ensures which { IfOk result (λ r. (r ≢ Err Progress.Parked) × (r ≢ Err Progress.Clogged)
            × (r ≢ Err Progress.Settled) × (r ≢ Err Progress.Closed) × (r ≢ Err Progress.Gone)) }
        ensures stage { self.new.stage ≢ Stage.Closed }
        ensures ended { result ≡ Ok (Ok (Some Polled.End)) → self.new.stage ≡ Stage.Drained }
        ensures same { self.new ≡ record self.old {
          wire = record self.old.wire {
            link = self.new.wire.link;
            rest = self.new.wire.rest;
            intake = self.new.wire.intake;
          };
          settled = self.new.settled;
          stage = self.new.stage;
        } }
    {
        if self.wire.make_ready().is_err() {
            return Err(Fault::NoMemory);
        }
        if !ask(log, gate, Point::Reading, turn) {
            return Ok(Err(Progress::Stopped));
        }
        let settled = self.settled;
        if !settled {
            mark(log, Mark::Waited, true);
            return Ok(Ok(None));
        }
        self.settled = false;
        let answer = self.wire.read();
        reading(log, answer);
        match answer {
            Ok(polled) => {
                self.stage = stage_after(is_end(polled));
                Ok(Ok(Some(polled)))
            }
            Err(_) => Err(Fault::Link),
        }
    }

    // What comes before PDUs are decided: whether the link has ended, or how far the turn comes.
    fn front_part<R: Wait, G: Gate>(
        &mut self,
        at: &Exchange,
        rt: &R,
        gate: &mut G,
        turn: u64,
        now: u64,
        log: &mut Log<Event>,
    ) -> Result<Result<bool, Progress>, Fault>
        requires locks { locks_of self.old.origin.port.value.fronts ≡ at.now }
        requires goes_on { self.old.wire.failed ≡ None }
        requires opened { self.old.stage ≡ Stage.Open }
        ensures leads { (queries : List Query) → Leads turn
            (scene_of L.offered L.polls L.failures (G.asked gate.old) (G.told gate.old) queries
            self.old)
            log.old
            (scene_of L.offered L.polls L.failures (G.asked gate.new) (G.told gate.new) queries
            self.new)
            log.new }
        ensures phase { (t : Before) → phase_of t log.old ≡ AtLane 0
            → t.lanes ≡ length self.old.port.fronts → t.settled ≡ self.old.settled
            → t.parked ≡ is_some self.old.parked → t.now ≡ now
            → t.message_time ≡ self.old.message_time → IsFront result (phase_of t log.new) }
        ensures clear { IfOk result (λ r. IfOk r (λ ended. self.new.parked ≡ None)) }
        ensures waits { result ≡ Ok (Err Progress.Parked) → IsSome self.new.parked }
        ensures clogged { result ≡ Ok (Err Progress.Clogged) → 65536 ≤ length self.new.wire.unsent }
        ensures which { (result ≢ Ok (Err Progress.Settled)) × (result ≢ Ok (Err Progress.Closed)) }
        ensures gone { result ≡ Ok (Err Progress.Gone)
            → self.new.session.state ≡ ClientState.Ended }
        ensures stage { self.new.stage ≢ Stage.Closed }
        ensures ended { IfOk result
            (λ r. IfOk r (λ ended. ended ≡ true → self.new.stage ≡ Stage.Drained)) }
        ensures same { self.new ≡ record self.old {
          port = self.new.port;
          session = self.new.session;
          inbox = self.new.inbox;
          senders = self.new.senders;
          window = self.new.window;
          wire = record self.new.wire {
            start = self.old.wire.start;
            failed = self.old.wire.failed;
          };
          parked = self.new.parked;
          settled = self.new.settled;
          stage = self.new.stage;
          ending = self.new.ending;
          events = self.new.events;
        } }
    {
        if let Some(progress) = self.collect_part(at, rt, gate, turn, log)? {
            return Ok(Err(progress));
        }
        if let Some(progress) = self.box_part(rt, gate, now, log)? {
            return Ok(Err(progress));
        }
        match self.read_part(gate, turn, log)? {
            Err(progress) => Ok(Err(progress)),
            Ok(found) => self.heed(rt, gate, found, now, log),
        }
    }

    // Decides each whole PDU, as far as the turn may.
    fn decide_part<R: Wait, G: Gate, D: Directory>(
        &mut self,
        at: &Exchange,
        rt: &R,
        gate: &mut G,
        directory: &mut D,
        turn: u64,
        ended: bool,
        log: &mut Log<Event>,
    ) -> Result<Progress, Fault>
        requires locks { locks_of self.old.origin.port.value.fronts ≡ at.now }
        requires goes_on { self.old.wire.failed ≡ None }
        requires none { self.old.parked ≡ None }
        requires going { self.old.stage ≢ Stage.Closed }
        ensures leads { Leads turn
            (scene_of L.offered L.polls L.failures (G.asked gate.old) (G.told gate.old) (D.queries
            directory.old) self.old)
            log.old
            (scene_of L.offered L.polls L.failures (G.asked gate.new) (G.told gate.new) (D.queries
            directory.new) self.new)
            log.new }
        ensures phase { (t : Before) → phase_of t log.old ≡ Deciding ended
            → ComesTo result (phase_of t log.new) }
        ensures failed { OnOk result
            (result ≢ Ok Progress.Closed → self.new.wire.failed ≡ None) }
        ensures settled { result ≡ Ok Progress.Settled
            → (self.new.settled ≡ true) × (self.new.held ≡ None)
            × HasNone 65536 self.new.wire.rest }
        ensures over { result ≡ Ok Progress.Closed → self.new.session.state ≢ ClientState.Ended
            → (self.new.settled ≡ true) × (ended ≡ true) }
        ensures which { result ≢ Ok Progress.Gone }
        ensures waits { result ≡ Ok Progress.Parked → IsSome self.new.parked }
        ensures clogged { result ≡ Ok Progress.Clogged → 65536 ≤ length self.new.wire.unsent }
        ensures same { self.new ≡ record self.old {
          port = self.new.port;
          session = self.new.session;
          senders = self.new.senders;
          window = self.new.window;
          wire = record self.new.wire { link = self.old.wire.link; start = self.old.wire.start };
          held = self.new.held;
          parked = self.new.parked;
          settled = self.new.settled;
          ending = self.new.ending;
          refused = self.new.refused;
          events = self.new.events;
        } }
    {
        loop {
            if self.is_clogged() {
                mark(log, Mark::Full, true);
                return Ok(Progress::Clogged);
            }
            if let Some(progress) = self.next_up(ended, log)? {
                return Ok(progress);
            }
            if let Some(progress) = self.decide_one(at, rt, gate, directory, turn, ended, log)? {
                return Ok(progress);
            }
        }
    }

    // After the link's end: puts the answer that waits again. `None` where the turn goes on.
    fn drained_part<R: Wait, G: Gate>(
        &mut self,
        rt: &R,
        gate: &mut G,
        log: &mut Log<Event>,
    ) -> Result<Option<Progress>, Fault>
        ensures leads { (n : ℕ) (queries : List Query) → Leads n
            (scene_of L.offered L.polls L.failures (G.asked gate.old) (G.told gate.old) queries
            self.old)
            log.old
            (scene_of L.offered L.polls L.failures (G.asked gate.new) (G.told gate.new) queries
            self.new)
            log.new }
        ensures phase { (t : Before) → t.parked ≡ is_some self.old.parked
            → phase_of t log.old ≡ when_drained t.parked
            → IsPart (Deciding true) result (phase_of t log.new) }
        ensures waits { result ≡ Ok (Some Progress.Parked) → IsSome self.new.parked }
        ensures clear { result ≡ Ok None → self.new.parked ≡ None }
        ensures which { (result ≢ Ok (Some Progress.Settled)) × (result ≢ Ok (Some Progress.Closed))
            × (result ≢ Ok (Some Progress.Clogged))
            × (result ≢ Ok (Some Progress.Gone)) }
        ensures same { self.new ≡ record self.old {
          senders = self.new.senders;
          parked = self.new.parked;
          events = self.new.events;
        } }
    {
        if is_waiting(&self.parked) {
            return self.put_again(rt, gate, log);
        }
        Ok(None)
    }

    // After what waited was offered: how far the turn comes.
    pub(super) fn middle_part<R: Wait, G: Gate, D: Directory>(
        &mut self,
        at: &Exchange,
        rt: &R,
        gate: &mut G,
        directory: &mut D,
        turn: u64,
        now: u64,
        log: &mut Log<Event>,
    ) -> Result<Progress, Fault>
        requires locks { locks_of self.old.origin.port.value.fronts ≡ at.now }
        requires goes_on { self.old.wire.failed ≡ None }
        requires going { self.old.stage ≢ Stage.Closed }
        ensures leads { Leads turn
            (scene_of L.offered L.polls L.failures (G.asked gate.old) (G.told gate.old) (D.queries
            directory.old) self.old)
            log.old
            (scene_of L.offered L.polls L.failures (G.asked gate.new) (G.told gate.new) (D.queries
            directory.new) self.new)
            log.new }
        ensures phase { (t : Before) → t ≡ before now self.old
            → phase_of t log.old ≡ when_written t self.old.stage
            → ComesTo result (phase_of t log.new) }
        ensures goes_on { OnOk result (result ≢ Ok Progress.Closed → self.new.wire.failed ≡ None) }
        ensures settled { result ≡ Ok Progress.Settled
            → (self.new.settled ≡ true) × (self.new.held ≡ None)
            × HasNone 65536 self.new.wire.rest }
        ensures over { result ≡ Ok Progress.Closed → self.new.session.state ≢ ClientState.Ended
            → (self.new.settled ≡ true) × (self.new.stage ≡ Stage.Drained) }
        ensures gone { result ≡ Ok Progress.Gone → self.new.session.state ≡ ClientState.Ended }
        ensures waits { result ≡ Ok Progress.Parked → IsSome self.new.parked }
        ensures clogged { result ≡ Ok Progress.Clogged → 65536 ≤ length self.new.wire.unsent }
        ensures same { self.new ≡ record self.new {
          desk = self.old.desk;
          message_time = self.old.message_time;
          turns = self.old.turns;
          steps = self.old.steps;
          ends = self.old.ends;
          origin = self.old.origin;
        } }
    {
        match self.stage {
            Stage::Closed => unreachable!(),
            Stage::Drained => {
                if let Some(progress) = self.drained_part(rt, gate, log)? {
                    return Ok(progress);
                }
                self.decide_part(at, rt, gate, directory, turn, true, log)
            }
            Stage::Open => match self.front_part(at, rt, gate, turn, now, log)? {
                Err(progress) => Ok(progress),
                Ok(ended) => self.decide_part(at, rt, gate, directory, turn, ended, log),
            },
        }
    }
}
