//! The box's part of a turn: the answer that waits is put again, or an item is got.
ghost use Rattle.std.specs.Prelude.{◌≡◌, ◌≢◌, ◌≤◌, ◌<◌, ℕ, List, length, Some, None, Ok, IsSome, is_some, true, false};
ghost use Rattle.smx_turns.specs.declared.directory.Query.{Query};
ghost use Rattle.smx_turns.specs.declared.step.Step.TheVariants as step;
ghost use Rattle.smx_client.specs.declared.event.Event.TheVariants as event;
ghost use Rattle.smx_client.specs.declared.reply.Reply.{Reply};
ghost use Rattle.smx_client.specs.Scenes.{scene_of};
ghost use Rattle.smx_client.specs.Table.{Before, Phase, phase_of, go, after_reply, AtLane, Clear, Draining, Deciding, IsPart};
ghost use Rattle.smx_client.specs.Turns.{Leads};

use super::ClientWorker;
use crate::deliver::{deliver, is_empty};
use crate::event::{Delivery, Event, Progress};
use crate::ledger::{mark, note};
use crate::reply::{Parked, put_or_park};
use smx_link::Link;
use smx_turns::{Fault, Gate, Log, Mark};
use std::snapshot::Snapshot;
use std::sync::Wait;

// Whether one waits.
pub(super) fn is_waiting<T>(place: &Option<T>) -> bool
    ensures there { result ≡ is_some place.now }
{
    match place {
        Some(_) => true,
        None => false,
    }
}

impl<'d, L: Link + Drop> ClientWorker<'d, L> {
    // Puts the answer that waits again. `None` where the turn goes on.
    pub(super) fn put_again<R: Wait, G: Gate>(
        &mut self,
        rt: &R,
        gate: &mut G,
        log: &mut Log<Event>,
    ) -> Result<Option<Progress>, Fault>
        requires some { IsSome self.old.parked }
        ensures leads { (n : ℕ) (queries : List Query) → Leads n
            (scene_of L.offered L.polls L.failures (G.asked gate.old) (G.told gate.old) queries
            self.old)
            log.old
            (scene_of L.offered L.polls L.failures (G.asked gate.new) (G.told gate.new) queries
            self.new)
            log.new }
        ensures phase { (t : Before) (p q : Phase) → phase_of t log.old ≡ p
            → ((lane : ℕ) (reply : Reply)
            → go t p (step.Did (event.PutAgain lane reply)) ≡ after_reply q reply)
            → IsPart q result (phase_of t log.new) }
        ensures parked { result ≡ Ok (Some Progress.Parked) → IsSome self.new.parked }
        ensures clear { result ≡ Ok None → self.new.parked ≡ None }
        ensures which { (result ≢ Ok (Some Progress.Settled)) × (result ≢ Ok (Some Progress.Closed))
            × (result ≢ Ok (Some Progress.Clogged))
            × (result ≢ Ok (Some Progress.Gone)) }
        ensures same { self.new ≡ record self.old {
          senders = self.new.senders;
          parked = self.new.parked;
          events = self.new.events;
        } }
    {
        let Some(Parked { lane, answer }) = self.parked.take() else {
            unreachable!()
        };
        let reply = put_or_park(rt, &mut self.senders, &mut self.parked, lane, answer);
        reply.tell(gate, lane);
        let event = Event::PutAgain(lane, reply);
        note(&mut self.events, log, event, reply.is_refused());
        reply.progress()
    }

    // Gets an item, and does with it what is to be done. `None` where the turn goes on.
    fn get_one<R: Wait, G: Gate>(
        &mut self,
        rt: &R,
        gate: &mut G,
        now: u64,
        log: &mut Log<Event>,
    ) -> Result<Option<Progress>, Fault>
        requires room { 65536 ≤ self.old.wire.room }
        requires below { length self.old.wire.unsent < 65536 }
        requires none { self.old.parked ≡ None }
        requires free { length self.old.window.waiting ≢ self.old.window.places }
        ensures leads { (n : ℕ) (queries : List Query) → Leads n
            (scene_of L.offered L.polls L.failures (G.asked gate.old) (G.told gate.old) queries
            self.old)
            log.old
            (scene_of L.offered L.polls L.failures (G.asked gate.new) (G.told gate.new) queries
            self.new)
            log.new }
        ensures phase { (t : Before) → phase_of t log.old ≡ AtLane t.lanes
            → t.parked ≡ is_some self.old.parked → t.now ≡ now
            → IsPart Clear result (phase_of t log.new) }
        ensures parked { result ≡ Ok (Some Progress.Parked) → IsSome self.new.parked }
        ensures clear { result ≡ Ok None → self.new.parked ≡ None }
        ensures which { (result ≢ Ok (Some Progress.Settled)) × (result ≢ Ok (Some Progress.Closed))
            × (result ≢ Ok (Some Progress.Clogged))
            × (result ≢ Ok (Some Progress.Gone)) }
        ensures same { self.new ≡ record self.old {
          inbox = self.new.inbox;
          senders = self.new.senders;
          window = self.new.window;
          wire = record self.old.wire {
            said = self.new.wire.said;
            unsent = self.new.wire.unsent;
            room = self.new.wire.room;
          };
          parked = self.new.parked;
          events = self.new.events;
        } }
    {
        let found = self.inbox.get(rt);
        let seen = Snapshot::of(&found);
        match found {
            Err(_) => {
                note(
                    &mut self.events,
                    log,
                    Event::Got(seen, Delivery::Dropped),
                    true,
                );
                Err(Fault::Spent)
            }
            Ok(got) => {
                let empty = is_empty(&got);
                let delivery = deliver(
                    rt,
                    gate,
                    self.alloc,
                    self.port.client(),
                    &mut self.window,
                    &mut self.wire,
                    &mut self.senders,
                    &mut self.parked,
                    got,
                    now,
                );
                note(&mut self.events, log, Event::Got(seen, delivery), empty);
                delivery.progress()
            }
        }
    }

    // After the lanes: puts the answer that waits again, or gets an item where the window has room.
    // `None` where the turn goes on.
    pub(super) fn box_part<R: Wait, G: Gate>(
        &mut self,
        rt: &R,
        gate: &mut G,
        now: u64,
        log: &mut Log<Event>,
    ) -> Result<Option<Progress>, Fault>
        ensures leads { (n : ℕ) (queries : List Query) → Leads n
            (scene_of L.offered L.polls L.failures (G.asked gate.old) (G.told gate.old) queries
            self.old)
            log.old
            (scene_of L.offered L.polls L.failures (G.asked gate.new) (G.told gate.new) queries
            self.new)
            log.new }
        ensures phase { (t : Before) → phase_of t log.old ≡ AtLane t.lanes
            → t.parked ≡ is_some self.old.parked → t.now ≡ now
            → IsPart Clear result (phase_of t log.new) }
        ensures parked { result ≡ Ok (Some Progress.Parked) → IsSome self.new.parked }
        ensures clear { result ≡ Ok None → self.new.parked ≡ None }
        ensures clogged { result ≡ Ok (Some Progress.Clogged)
            → 65536 ≤ length self.new.wire.unsent }
        ensures which { (result ≢ Ok (Some Progress.Settled))
            × (result ≢ Ok (Some Progress.Closed))
            × (result ≢ Ok (Some Progress.Gone)) }
        ensures same { self.new ≡ record self.old {
          inbox = self.new.inbox;
          senders = self.new.senders;
          window = self.new.window;
          wire = record self.old.wire {
            said = self.new.wire.said;
            unsent = self.new.wire.unsent;
            room = self.new.wire.room;
          };
          parked = self.new.parked;
          events = self.new.events;
        } }
    {
        if is_waiting(&self.parked) {
            return self.put_again(rt, gate, log);
        }
        if self.window.is_full() {
            mark(log, Mark::NoRoom, true);
            return Ok(None);
        }
        if self.is_clogged() {
            mark(log, Mark::Full, true);
            return Ok(Some(Progress::Clogged));
        }
        self.make_room()?;
        self.get_one(rt, gate, now, log)
    }
}
