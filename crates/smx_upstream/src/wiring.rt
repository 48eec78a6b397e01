//! What a worker does with its link.
ghost use Rattle.std.specs.Prelude.{◌≡◌, ◌≢◌, ◌==◌, ◌+◌, ◌≤◌, ◌<◌, ◌++◌, [], ◌∷◌, true, false, not, length, Some, None, Ok, Err, OnOk, OnErr, IfOk, IsSome, vec_capacity};
ghost use Rattle.smx_frame.specs.Stream.{HasNone};
ghost use Rattle.smx_turns.specs.Steps.{brings_none};
ghost use Rattle.smx_turns.specs.Wires.{is_end, some_wait, has_ended as has_link_ended};
ghost use Rattle.smx_turns.specs.declared.step.Step.TheVariants.{Did};
ghost use Rattle.smx_upstream.specs.declared.event.Event.TheVariants.{Broke};
ghost use Rattle.smx_upstream.specs.Events.{worth};
ghost use Rattle.smx_link.specs.Wiring.{spellings};
ghost use Rattle.smx_upstream.specs.Working.{Moves};
ghost use Rattle.smx_upstream.specs.May.{MayDecide};
ghost use Rattle.smx_upstream.specs.Phases.{phase_of, after_offer, unless_left, when_front, Before, LeadsTo, link_faults, Ready, Closing, MayRead, Deciding};
ghost use Rattle.smx_upstream.specs.Phases.Source.{Behind};

use crate::event::Event;
use crate::worker::{UpstreamWorker, note};
use smx_lane::Sent;
use smx_link::{Link, Polled, Wire};
use smx_pdu::Pdu;
use smx_trace::Trace;
use smx_turns::{End, Fault, Log, Mark, Outcome, Step, is_memory};
use std::alloc::Global;

// What stands at the front of what was read.
#[derive(Clone, Copy, Debug, PartialEq, Eq)]
pub(crate) enum Front {
    // A whole PDU, which waits now.
    Whole,
    // No whole PDU.
    Part,
    // A bad length.
    Broken,
}

// Whether the two numbers differ.
fn differ(one: usize, other: usize) -> bool
    ensures { result ≡ not (one == other) }
{
    one != other
}

// Whether octets came.
fn brings_none(polled: Polled) -> bool
    ensures { result ≡ brings_none (Ok polled) }
{
    !matches!(polled, Polled::Octets(_))
}

// Answers a bad length.
fn break_off<L: Link + Drop>(
    alloc: Global,
    wire: &mut Wire<L>,
    events: &mut Trace<Event>,
    log: &mut Log<Event>,
)
    requires room { 65536 ≤ wire.old.room }
    ensures said { wire.new.said ≡ wire.old.said ++ (worth Broke).said }
    ensures unsent { wire.new.unsent ≡ wire.old.unsent ++ spellings (worth Broke).said }
    ensures same { wire.new ≡ record wire.old {
      said = wire.new.said;
      unsent = wire.new.unsent;
      room = wire.new.room;
    } }
    ensures events { events.new ≡ events.old ++ Broke ∷ [] }
    ensures log { log.new ≡ log.old ++ Did Broke ∷ [] }
{
    let nack = Pdu::undecoded(alloc);
    let outcome = Outcome {
        event: Event::Broke,
        quiet: false,
        sent: Some(nack),
        ends: Some(End::BadLength),
        answer: (),
    };
    note(outcome, wire, events, log);
}

impl<L: Link + Drop> UpstreamWorker<L> {
    // Offers what waits to the link. True where octets are left.
    pub(crate) fn offer(&mut self, log: &mut Log<Event>) -> Result<bool, Fault>
        ensures opening { (t : Before) → t.waited ≡ some_wait self.old.wire.unsent
            → phase_of t log.old ≡ Ready
            → LeadsTo result (after_offer t.ending) (phase_of t log.new) }
        ensures closing { (t : Before) → phase_of t log.old ≡ Closing
            → LeadsTo result unless_left (phase_of t log.new) }
        ensures left { IfOk result (λ left. (left ≡ true → self.new.wire.unsent ≢ [])
            × (left ≡ false → self.new.wire.unsent ≡ [])) }
        ensures unread { L.polls self.new.wire.link ≡ L.polls self.old.wire.link }
        ensures goes { Moves L.offered L.polls L.failures self.old log.old self.new log.new }
        ensures same { self.new ≡ record self.old {
          wire = record self.old.wire { link = self.new.wire.link; unsent = self.new.wire.unsent };
        } }
    {
        let waited = !self.wire.is_clear();
        let before = self.wire.unsent();
        if self.wire.offer().is_err() {
            log.push(&Step::Marked(Mark::WriteFailed), true);
            return Err(Fault::Link);
        }
        let wrote = differ(self.wire.unsent(), before);
        let left = !self.wire.is_clear();
        let mark = Mark::Offered {
            waited,
            wrote,
            left,
        };
        log.push(&Step::Marked(mark), !wrote);
        Ok(left)
    }

    // Makes room for one PDU more to be said.
    #[inline(always)]
    pub(crate) fn make_room(&mut self) -> Result<(), Fault>
        ensures room { OnOk result (65536 ≤ self.new.wire.room) }
        ensures err { OnErr result (result ≡ Err Fault.NoMemory) }
        ensures same { self.new ≡ record self.old {
          wire = record self.old.wire { room = self.new.wire.room };
        } }
    {
        match self.wire.make_room() {
            Ok(()) => Ok(()),
            Err(_) => Err(Fault::NoMemory),
        }
    }

    // Makes a list that a lane's requests can be put into.
    #[inline(always)]
    pub(crate) fn make_list(&mut self) -> Result<Vec<Sent>, Fault>
        ensures room { IfOk result (λ list. (list.items ≡ []) × (16 ≤ vec_capacity list)) }
        ensures err { OnErr result (result ≡ Err Fault.NoMemory) }
        ensures same { self.new ≡ self.old }
    {
        match self.spares.requests.list(self.alloc) {
            Ok(list) => Ok(list),
            Err(_) => Err(Fault::NoMemory),
        }
    }

    // Makes room for what one turn reads.
    pub(crate) fn make_ready(&mut self) -> Result<(), Fault>
        ensures intake { OnOk result (4096 ≤ self.new.wire.intake) }
        ensures err { OnErr result (result ≡ Err Fault.NoMemory) }
        ensures same { self.new ≡ record self.old {
          wire = record self.old.wire { intake = self.new.wire.intake };
        } }
    {
        match self.wire.make_ready() {
            Ok(()) => Ok(()),
            Err(_) => Err(Fault::NoMemory),
        }
    }

    // Reads once.
    pub(crate) fn read(&mut self, log: &mut Log<Event>) -> Result<Polled, Fault>
        requires intake { 4096 ≤ self.old.wire.intake }
        requires goes_on { self.old.ending ≡ None }
        ensures phase { (t : Before) → phase_of t log.old ≡ MayRead
            → LeadsTo result (λ polled. Deciding (Behind polled)) (phase_of t log.new) }
        ensures ended { IfOk result (λ polled. is_end polled
            ≡ has_link_ended (L.polls self.new.wire.link)) }
        ensures goes { Moves L.offered L.polls L.failures self.old log.old self.new log.new }
        ensures same { self.new ≡ record self.old {
          wire = record self.old.wire {
            link = self.new.wire.link;
            rest = self.new.wire.rest;
            intake = self.new.wire.intake;
          };
        } }
    {
        let polled = match self.wire.read() {
            Ok(polled) => polled,
            Err(fault) => {
                log.push(&Step::Read(Err(fault)), true);
                return Err(Fault::Link);
            }
        };
        log.push(&Step::Read(Ok(polled)), brings_none(polled));
        Ok(polled)
    }

    // Sets the next whole PDU apart, or says that none is there, or answers a bad length.
    #[inline(always)]
    pub(crate) fn fetch(&mut self, log: &mut Log<Event>) -> Result<Front, Fault>
        requires room { 65536 ≤ self.old.wire.room }
        requires none { self.old.held ≡ None }
        requires goes_on { self.old.ending ≡ None }
        requires may { MayDecide (L.polls self.old.wire.link) self.old.wire.unsent }
        ensures phase { (t : Before) (source : _) → phase_of t log.old ≡ Deciding source
            → LeadsTo result (when_front source) (phase_of t log.new) }
        ensures whole { result ≡ Ok Front.Whole
            → IsSome self.new.held × (length self.new.wire.rest < length self.old.wire.rest)
            × (self.new.ending ≡ None) × (65536 ≤ self.new.wire.room)
            × (self.new.wire.unsent ≡ self.old.wire.unsent) }
        ensures part { result ≡ Ok Front.Part
            → HasNone 65536 self.new.wire.rest × (self.new ≡ self.old) }
        ensures broken { result ≡ Ok Front.Broken
            → (self.new.held ≡ None) × IsSome self.new.ending }
        ensures err { OnErr result
            ((result ≡ Err Fault.NoMemory) × (self.new ≡ self.old) × (log.new ≡ log.old)) }
        ensures goes { Moves L.offered L.polls L.failures self.old log.old self.new log.new }
        ensures same { self.new ≡ record self.old {
          wire = record self.new.wire { link = self.old.wire.link; start = self.old.wire.start };
          held = self.new.held;
          ending = self.new.ending;
          events = self.new.events;
        } }
    {
        match self.wire.hear() {
            Ok(Some(pdu)) => {
                self.held = Some(pdu);
                Ok(Front::Whole)
            }
            Ok(None) => {
                log.push(&Step::Marked(Mark::Part), true);
                Ok(Front::Part)
            }
            Err(fault) => {
                if is_memory(fault) {
                    return Err(Fault::NoMemory);
                }
                self.ending = Some(End::BadLength);
                break_off(self.alloc, &mut self.wire, &mut self.events, log);
                Ok(Front::Broken)
            }
        }
    }
}
