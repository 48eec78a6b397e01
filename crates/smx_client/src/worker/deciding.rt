//! The PDUs that came, each decided once and in order.
ghost use Rattle.std.specs.Prelude.{◌≡◌, ◌≢◌, ◌≤◌, ◌<◌, ℕ, Bool, List, [], length, Some, None, Ok, Err, OnOk, OnErr, IfSome, IsSome, true, false, if◌then◌else◌};
ghost use Rattle.smx_frame.specs.Stream.{HasNone};
ghost use Rattle.smx_session.specs.ClientTable.{client_decides};
ghost use Rattle.smx_session.specs.declared.act.Act.{Act};
ghost use Rattle.smx_session.specs.declared.ask.Ask.{Ask};
ghost use Rattle.smx_shared.specs.Views.{locks_of};
ghost use Rattle.smx_turns.specs.declared.directory.Query.{Query};
ghost use Rattle.smx_turns.specs.Wires.{IsBad};
ghost use Rattle.smx_client.specs.Scenes.{scene_of, Moves};
ghost use Rattle.smx_client.specs.Serving.{held_asks};
ghost use Rattle.smx_client.specs.Table.{Before, Phase, phase_of, Deciding, Admitted, Barring, Closing, Settled, after_reply, with_leave, IsAt, IsDecided, IsPart, weight};
ghost use Rattle.smx_client.specs.Turns.{Leads};

use super::ClientWorker;
use crate::ending::{or_end, take_in};
use crate::event::{Event, Fate, Front, Progress, Verdict};
use crate::ledger::{mark, note};
use crate::reply::answer_settled;
use crate::saying::{offer_of, say_act, say_refusal, tell_accepted, verdict_of};
use crate::stage::Stage;
use smx_link::Link;
use smx_session::{Act, Ask, ClientState};
use smx_shared::Exchange;
use smx_turns::{End, Fault, Gate, Log, Mark, is_memory};
use std::snapshot::Snapshot;
use std::sync::Wait;

impl<'d, L: Link + Drop> ClientWorker<'d, L> {
    // Sets the next whole PDU apart.
    fn fetch(&mut self) -> Result<Front, Fault>
        requires goes_on { self.old.wire.failed ≡ None }
        requires none { self.old.held ≡ None }
        requires undecided { self.old.settled ≡ false }
        ensures whole { result ≡ Ok Front.Whole
            → IsSome self.new.held × (length self.new.wire.rest < length self.old.wire.rest) }
        ensures part { result ≢ Ok Front.Whole → self.new.held ≡ None }
        ensures none_left { result ≡ Ok Front.Part → HasNone 65536 self.new.wire.rest }
        ensures broken { result ≡ Ok Front.Broken → IsBad self.new.wire }
        ensures failed { result ≢ Ok Front.Broken → self.new.wire.failed ≡ None }
        ensures err { OnErr result
            ((result ≡ Err Fault.NoMemory) × (self.new ≡ self.old)) }
        ensures same { self.new ≡ record self.old {
          wire = record self.old.wire {
            heard = self.new.wire.heard;
            rest = self.new.wire.rest;
            failed = self.new.wire.failed;
          };
          held = self.new.held;
        } }
    {
        match self.wire.hear() {
            Ok(Some(pdu)) => {
                self.held = Some(pdu);
                Ok(Front::Whole)
            }
            Ok(None) => Ok(Front::Part),
            Err(fault) => {
                if is_memory(fault) {
                    return Err(Fault::NoMemory);
                }
                Ok(Front::Broken)
            }
        }
    }

    // Ends the session at a bad length.
    fn break_off(&mut self, log: &mut Log<Event>)
        requires room { 65536 ≤ self.old.wire.room }
        requires below { length self.old.wire.unsent < 65536 }
        requires bad { IsBad self.old.wire }
        ensures moves { Moves L.offered L.polls L.failures self.old log.old self.new log.new }
        ensures phase { (t : Before) (ended : Bool) → phase_of t log.old ≡ Deciding ended
            → phase_of t log.new ≡ Closing }
        ensures same { self.new ≡ record self.old {
          session = record self.old.session { state = ClientState.Ended };
          wire = record self.old.wire {
            said = self.new.wire.said;
            unsent = self.new.wire.unsent;
            room = self.new.wire.room;
          };
          ending = self.new.ending;
          events = self.new.events;
        } }
    {
        let act = self.session.on_fault();
        say_act(&mut self.wire, &act);
        self.ending = or_end(self.ending, Some(End::BadLength));
        let event = Event::Broke(Snapshot::of(&act));
        note(&mut self.events, log, event, false);
    }

    // No whole PDU is left: how far the turn comes.
    fn rest(&mut self, ended: bool, log: &mut Log<Event>) -> Progress
        requires below { length self.old.wire.unsent < 65536 }
        ensures moves { Moves L.offered L.polls L.failures self.old log.old self.new log.new }
        ensures phase { (t : Before) → phase_of t log.old ≡ Deciding ended
            → IsAt result (phase_of t log.new) }
        ensures closed { result ≡ Progress.Closed → ended ≡ true }
        ensures which { (result ≢ Progress.Parked) × (result ≢ Progress.Clogged)
            × (result ≢ Progress.Gone) }
        ensures same { self.new ≡ record self.old {
          ending = self.new.ending;
          events = self.new.events;
        } }
    {
        if !ended {
            mark(log, Mark::Part, true);
            return Progress::Settled;
        }
        self.ending = or_end(self.ending, Some(End::LinkEnded));
        note(&mut self.events, log, Event::LinkEnded, true);
        Progress::Closed
    }

    // Sets the next whole PDU apart, unless one waits. `None` where one waits then.
    pub(super) fn next_up(
        &mut self,
        ended: bool,
        log: &mut Log<Event>,
    ) -> Result<Option<Progress>, Fault>
        requires below { length self.old.wire.unsent < 65536 }
        requires goes_on { self.old.wire.failed ≡ None }
        requires going { self.old.stage ≢ Stage.Closed }
        ensures moves { Moves L.offered L.polls L.failures self.old log.old self.new log.new }
        ensures phase { (t : Before) → phase_of t log.old ≡ Deciding ended
            → IsPart (Deciding ended) result (phase_of t log.new) }
        ensures waits { result ≡ Ok None
            → IsSome self.new.held
            × (weight self.new.held self.new.wire.rest ≤ weight self.old.held
            self.old.wire.rest) }
        ensures unsaid { result ≡ Ok None → self.new.wire.unsent ≡ self.old.wire.unsent }
        ensures settled { result ≡ Ok (Some Progress.Settled)
            → (self.new.settled ≡ true) × (self.new.held ≡ None)
            × HasNone 65536 self.new.wire.rest }
        ensures over { result ≡ Ok (Some Progress.Closed) → self.new.session.state ≢ ClientState.Ended
            → (self.new.settled ≡ true) × (ended ≡ true) }
        ensures failed { OnOk result
            (result ≢ Ok (Some Progress.Closed) → self.new.wire.failed ≡ None) }
        ensures which { (result ≢ Ok (Some Progress.Parked))
            × (result ≢ Ok (Some Progress.Clogged))
            × (result ≢ Ok (Some Progress.Gone)) }
        ensures same { self.new ≡ record self.old {
          session = self.new.session;
          wire = record self.new.wire { link = self.old.wire.link; start = self.old.wire.start };
          held = self.new.held;
          settled = self.new.settled;
          ending = self.new.ending;
          events = self.new.events;
        } }
    {
        self.settled = false;
        if self.held.is_some() {
            return Ok(None);
        }
        match self.fetch()? {
            Front::Whole => Ok(None),
            Front::Part => {
                self.settled = true;
                Ok(Some(self.rest(ended, log)))
            }
            Front::Broken => {
                self.make_room()?;
                self.break_off(log);
                Ok(Some(Progress::Closed))
            }
        }
    }

    // What leave the PDU that waits asks for.
    pub(super) fn asks(&self) -> Option<Ask>
        ensures { result ≡ held_asks self.now }
    {
        match &self.held {
            Some(pdu) => self.session.asks(pdu, self.desk.accounts.as_slice()),
            None => None,
        }
    }

    // Answers the PDU that waits, which asked for this leave: the gate gave none.
    pub(super) fn bar(&mut self, leave: Ask, log: &mut Log<Event>)
        requires room { 65536 ≤ self.old.wire.room }
        requires below { length self.old.wire.unsent < 65536 }
        requires asks { held_asks self.old ≡ Some leave }
        ensures moves { Moves L.offered L.polls L.failures self.old log.old self.new log.new }
        ensures phase { (t : Before) (ended : Bool) → phase_of t log.old ≡ Barring ended leave
            → phase_of t log.new ≡ Deciding ended }
        ensures same { self.new ≡ record self.old {
          wire = record self.old.wire {
            said = self.new.wire.said;
            unsent = self.new.wire.unsent;
            room = self.new.wire.room;
          };
          held = None;
          events = self.new.events;
        } }
    {
        let Some(pdu) = self.held.take() else {
            unreachable!()
        };
        let act = self.session.bars(&pdu, leave);
        say_act(&mut self.wire, &act);
        let event = Event::Decided(Snapshot::of(&pdu), Snapshot::of(&act), Fate::Barred(leave));
        note(&mut self.events, log, event, false);
    }

    // Decides the PDU that waits, as far as the session alone does. Its leave was given, where it
    // asks for one.
    pub(super) fn decide(&mut self, log: &mut Log<Event>) -> Result<Verdict, Fault>
        requires room { 65536 ≤ self.old.wire.room }
        requires own { held_asks self.old ≢ Some Ask.Request }
        requires below { length self.old.wire.unsent < 65536 }
        requires some { IsSome self.old.held }
        ensures moves { Moves L.offered L.polls L.failures self.old log.old self.new log.new }
        ensures phase { (t : Before) (ended : Bool)
            → phase_of t log.old ≡ with_leave ended (held_asks self.old)
            → IsDecided ended result (phase_of t log.new) }
        ensures held { OnOk result (result ≢ Ok Verdict.Settle → self.new.held ≡ None) }
        ensures over { result ≡ Ok Verdict.Over → self.new.session.state ≡ ClientState.Ended }
        ensures settle { result ≡ Ok Verdict.Settle
            → IfSome self.new.held (λ p.
            client_decides self.new.desk.accounts.items self.new.session.account
            self.new.session.state p
            ≡ (Act.MoAnswer p.number, self.new.session.state)) }
        ensures waits { result ≡ Ok Verdict.Settle
            → IsSome self.new.held × (self.new.wire ≡ self.old.wire) }
        ensures same { self.new ≡ record self.old {
          session = self.new.session;
          wire = record self.old.wire {
            said = self.new.wire.said;
            unsent = self.new.wire.unsent;
            room = self.new.wire.room;
          };
          held = self.new.held;
          ending = self.new.ending;
          refused = self.new.refused;
          events = self.new.events;
        } }
    {
        let Some(pdu) = self.held.take() else {
            unreachable!()
        };
        let Ok(act) = self.session.on_pdu(&pdu, self.desk.accounts.as_slice()) else {
            self.held = Some(pdu);
            return Err(Fault::NoMemory);
        };
        match act {
            Act::MoAnswer { .. } => {
                self.held = Some(pdu);
                Ok(Verdict::Settle)
            }
            act => {
                let verdict = verdict_of(&act);
                say_act(&mut self.wire, &act);
                let event = Event::Decided(Snapshot::of(&pdu), Snapshot::of(&act), Fate::Own);
                take_in(&mut self.ending, &mut self.refused, act, pdu);
                note(&mut self.events, log, event, false);
                Ok(verdict)
            }
        }
    }

    // Submits the PDU that waits, and says the answer where it is refused.
    pub(super) fn forward<R: Wait, G: Gate>(
        &mut self,
        at: &Exchange,
        rt: &R,
        gate: &mut G,
        log: &mut Log<Event>,
    )
        requires locks { locks_of self.old.origin.port.value.fronts ≡ at.now }
        requires room { 65536 ≤ self.old.wire.room }
        requires below { length self.old.wire.unsent < 65536 }
        requires asks { held_asks self.old ≡ Some Ask.Request }
        ensures leads { (n : ℕ) (queries : List Query) → Leads n
            (scene_of L.offered L.polls L.failures (G.asked gate.old) (G.told gate.old) queries
            self.old)
            log.old
            (scene_of L.offered L.polls L.failures (G.asked gate.new) (G.told gate.new) queries
            self.new)
            log.new }
        ensures phase { (t : Before) (ended : Bool) → phase_of t log.old ≡ Admitted ended 1
            → phase_of t log.new ≡ Deciding ended }
        ensures same { self.new ≡ record self.old {
          port = self.new.port;
          wire = record self.old.wire {
            said = self.new.wire.said;
            unsent = self.new.wire.unsent;
            room = self.new.wire.room;
          };
          held = None;
          events = self.new.events;
        } }
    {
        let Some(pdu) = self.held.take() else {
            unreachable!()
        };
        let act = Act::Forward;
        let read = Snapshot::of(&pdu);
        let command = pdu.command;
        let number = pdu.number;
        let offer = offer_of(pdu);
        let offered = Snapshot::of(&offer);
        let landed = self.port.submit(at, rt, offer);
        let fate = Fate::Submitted(offered, Snapshot::of(&landed));
        let event = Event::Decided(read, Snapshot::of(&act), fate);
        say_refusal(&mut self.wire, self.alloc, command, number, &landed);
        tell_accepted(gate, &landed);
        note(&mut self.events, log, event, false);
    }

    // Settles the message that the PDU answers, where there is one. `None` where the turn goes on.
    pub(super) fn settle<R: Wait, G: Gate>(
        &mut self,
        rt: &R,
        gate: &mut G,
        log: &mut Log<Event>,
    ) -> Result<Option<Progress>, Fault>
        requires below { length self.old.wire.unsent < 65536 }
        requires none { self.old.parked ≡ None }
        requires held { IfSome self.old.held (λ p.
            client_decides self.old.desk.accounts.items self.old.session.account
            self.old.session.state p
            ≡ (Act.MoAnswer p.number, self.old.session.state)) }
        requires some { IsSome self.old.held }
        ensures leads { (n : ℕ) (queries : List Query) → Leads n
            (scene_of L.offered L.polls L.failures (G.asked gate.old) (G.told gate.old) queries
            self.old)
            log.old
            (scene_of L.offered L.polls L.failures (G.asked gate.new) (G.told gate.new) queries
            self.new)
            log.new }
        ensures phase { (t : Before) (ended : Bool) → phase_of t log.old ≡ Deciding ended
            → IsPart (Deciding ended) result (phase_of t log.new) }
        ensures which { (result ≢ Ok (Some Progress.Settled)) × (result ≢ Ok (Some Progress.Closed))
            × (result ≢ Ok (Some Progress.Clogged))
            × (result ≢ Ok (Some Progress.Gone)) }
        ensures waits { result ≡ Ok (Some Progress.Parked) → IsSome self.new.parked }
        ensures clear { result ≡ Ok None → self.new.parked ≡ None }
        ensures same { self.new ≡ record self.old {
          senders = self.new.senders;
          window = self.new.window;
          held = None;
          parked = self.new.parked;
          events = self.new.events;
        } }
    {
        let Some(pdu) = self.held.take() else {
            unreachable!()
        };
        let act = Act::MoAnswer { number: pdu.number };
        let read = Snapshot::of(&pdu);
        let found = self.window.settle(pdu.number, pdu.command);
        let reply = answer_settled(rt, gate, &mut self.senders, &mut self.parked, pdu, found);
        let event = Event::Decided(read, Snapshot::of(&act), Fate::Settled(found, reply));
        note(&mut self.events, log, event, false);
        reply.progress()
    }
}
