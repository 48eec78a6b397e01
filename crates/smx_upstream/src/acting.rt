//! What a worker does once: each of these is one event.
ghost use Rattle.std.specs.Prelude.{◌≡◌, ◌≢◌, ◌≤◌, ◌<◌, [], length, Ok, true, false, None, is_some, slice_get, Some, Err, OnErr, IsSome, vec_capacity};
ghost use Rattle.smx_session.specs.Moments.{is_bound};
ghost use Rattle.smx_turns.specs.Worth.{those};
ghost use Rattle.smx_upstream.specs.Events.{got_out, silent_end};
ghost use Rattle.smx_turns.specs.Puts.{finds_nothing};
ghost use Rattle.smx_upstream.specs.Ages.{next_turn};
ghost use Rattle.smx_upstream.specs.Standing.{Answers, Settles};
ghost use Rattle.smx_upstream.specs.Working.{scene_of, Leads, Moves};
ghost use Rattle.smx_upstream.specs.May.{MayDecide};
ghost use Rattle.smx_upstream.specs.Phases.{phase_of, when_gone, when_kept, when_next, when_taken, unless_spent, Before, LeadsTo, Opening, Ready, Written, Watched, Clear, Deciding, MayTake};
ghost use Rattle.smx_upstream.specs.Phases.Source.{Earlier};

use crate::carry::carry;
use crate::deciding::{Next, next_of};
use crate::event::{Event, fills};
use crate::judging::{silent_end, was_silent};
use crate::last::last_taken;
use crate::saying::{gives_none, may_give_more, say_taken};
use crate::spent::{is_spent_shift, more_unless_spent, unless_spent};
use crate::worker::{UpstreamWorker, jot, note};
use smx_box::{Got, Spent};
use smx_lane::Sent;
use smx_link::Link;
use smx_pdu::Pdu;
use smx_routes::MoWindow;
use smx_shared::Exchange;
use smx_turns::{Directory, Fault, Gate, Log, Outcome};
use std::snapshot::Snapshot;
use std::sync::Wait;

// Whether a get from the return box found nothing.
fn finds_nothing(found: &Result<Got<Pdu>, Spent>) -> bool
    ensures { result ≡ finds_nothing found.now }
{
    !matches!(found, Ok(Got::Item { .. } | Got::Shut { .. }))
}

// The same of an answer of this slot.
fn settle_at(owed: &mut Vec<MoWindow>, slot: usize, answer: &Pdu) -> Option<u32>
    ensures { Answers slot answer.now result owed.old.items owed.new.items }
{
    if slot >= owed.len() {
        return None;
    }
    match owed[slot].settle(answer.number, answer.command) {
        Some((_, number)) => Some(number),
        None => None,
    }
}

// The centre's number of the message that this answers, where one of this link waits for it.
fn settle(owed: &mut Vec<MoWindow>, found: &Result<Got<Pdu>, Spent>) -> Option<u32>
    ensures { Settles found.now result owed.old.items owed.new.items }
{
    match found {
        Ok(
            Got::Item {
                sender,
                content,
                ..
            },
        ) => settle_at(owed, *sender, content),
        Ok(Got::Shut { .. } | Got::Empty) => None,
        Err(_) => None,
    }
}

// What a get from the return box sends, where the answer goes out under this number.
fn answer_in(found: Result<Got<Pdu>, Spent>, under: Option<u32>) -> Option<Pdu>
    ensures { got_out found under ≡ those result }
{
    match found {
        Ok(Got::Item { content, .. }) => match under {
            Some(number) => Some(Pdu {
                command: content.command,
                status: content.status,
                number,
                body: content.body,
            }),
            None => None,
        },
        Ok(Got::Shut { .. } | Got::Empty) => None,
        Err(_) => None,
    }
}

impl<L: Link + Drop> UpstreamWorker<L> {
    // Hands in the moment. True where octets are left, and the session was silent at an earlier moment
    // already, which ends the work.
    pub(crate) fn look(&mut self, left: bool, now: u64, log: &mut Log<Event>) -> bool
        requires room { 65536 ≤ self.old.wire.room }
        requires goes_on { self.old.ending ≡ None }
        ensures phase { (t : Before) → t.now ≡ now → phase_of t log.old ≡ Written left
            → phase_of t log.new ≡ when_gone left result }
        ensures ending { self.new.ending ≡ silent_end result }
        ensures left { self.old.wire.unsent ≢ [] → self.new.wire.unsent ≢ [] }
        ensures goes { Moves L.offered L.polls L.failures self.old log.old self.new log.new }
        ensures same { self.new ≡ record self.old {
          wire = record self.old.wire {
            said = self.new.wire.said;
            unsent = self.new.wire.unsent;
            room = self.new.wire.room;
          };
          stand = record self.old.stand { session = self.new.stand.session };
          ending = self.new.ending;
          events = self.new.events;
        } }
    {
        let silent = was_silent(&mut self.session, now);
        let due = self.session.on_moment(now);
        let event = Event::Looked(now, Snapshot::of(&due), left, silent);
        let gone = left && silent;
        let ends = silent_end(gone);
        self.ending = ends;
        let outcome = Outcome {
            event,
            quiet: due.is_none(),
            sent: due,
            ends,
            answer: gone,
        };
        note(outcome, &mut self.wire, &mut self.events, log)
    }

    // Begins a turn, and answers its number.
    pub(crate) fn open(&mut self, log: &mut Log<Event>) -> u64
        ensures turn { result ≡ (next_turn self.old.stand.age).turns }
        ensures phase { (t : Before) → phase_of t log.old ≡ Opening → phase_of t log.new ≡ Ready }
        ensures goes { Moves L.offered L.polls L.failures self.old log.old self.new log.new }
        ensures same { self.new ≡ record self.old {
          stand = record self.old.stand { age = next_turn self.old.stand.age };
          events = self.new.events;
        } }
    {
        let age = self.age.next_turn();
        self.age = age;
        let turn = age.turns;
        jot(Event::Opened(turn), true, &mut self.events, log);
        turn
    }

    // Turns the lane over where it stores enough, whoever noted it. Want of memory there is no fault.
    pub(crate) fn renew<R: Wait>(
        &mut self,
        at: &Exchange,
        rt: &R,
        log: &mut Log<Event>,
    ) -> Result<(), Fault>
        requires lock { slice_get at.now self.old.first.tap.lane
            ≡ Some self.old.first.tap.front.lock }
        ensures phase { (t : Before) (left : _) → phase_of t log.old ≡ Watched left
            → LeadsTo result (λ _. when_kept left) (phase_of t log.new) }
        ensures goes { Moves L.offered L.polls L.failures self.old log.old self.new log.new }
        ensures same { self.new ≡ record self.old {
          stand = record self.old.stand { tap = self.new.stand.tap };
          events = self.new.events;
        } }
    {
        let least = self.age.least_shift();
        let entries = self.tap.turn_over(at, rt, least);
        let spent = is_spent_shift(&entries);
        let event = Event::Shifted(least, Snapshot::of(&entries));
        jot(event, true, &mut self.events, log);
        unless_spent(spent)
    }

    // Gets at most one answer, and drops one that answers no message of this link.
    pub(crate) fn seek<R: Wait>(&mut self, rt: &R, log: &mut Log<Event>) -> Result<(), Fault>
        requires room { 65536 ≤ self.old.wire.room }
        ensures phase { (t : Before) → phase_of t log.old ≡ Clear
            → LeadsTo result (λ _. Deciding (Earlier false)) (phase_of t log.new) }
        ensures goes { Moves L.offered L.polls L.failures self.old log.old self.new log.new }
        ensures same { self.new ≡ record self.old {
          wire = record self.old.wire {
            said = self.new.wire.said;
            unsent = self.new.wire.unsent;
            room = self.new.wire.room;
          };
          stand = record self.old.stand {
            answers = self.new.stand.answers;
            owed = self.new.stand.owed;
          };
          events = self.new.events;
        } }
    {
        let found = self.answers.get(rt);
        let under = settle(&mut self.owed, &found);
        let outcome = Outcome {
            event: Event::Sought(Snapshot::of(&found), under),
            quiet: finds_nothing(&found),
            ends: None,
            answer: found.is_err(),
            sent: answer_in(found, under),
        };
        unless_spent(note(outcome, &mut self.wire, &mut self.events, log))
    }

    // Asks the lane for what is queued, where the session is bound. The requests come in the list that is
    // passed. Whether the lane gave them as far as a limit, so that it may have more.
    #[inline(always)]
    pub(crate) fn take_some<R: Wait>(
        &mut self,
        list: Vec<Sent>,
        at: &Exchange,
        rt: &R,
        log: &mut Log<Event>,
    ) -> Result<bool, Fault>
        requires room { 65536 ≤ self.old.wire.room }
        requires list { (list.items ≡ []) × (16 ≤ vec_capacity list) }
        requires bound { is_bound self.old.stand.session.state ≡ true }
        requires lock { slice_get at.now self.old.first.tap.lane
            ≡ Some self.old.first.tap.front.lock }
        ensures phase { (t : Before) (full more : _) → phase_of t log.old ≡ MayTake full more
            → LeadsTo result (when_taken full) (phase_of t log.new) }
        ensures more { result ≡ Ok true
            → length self.old.wire.unsent < length self.new.wire.unsent }
        ensures goes { Moves L.offered L.polls L.failures self.old log.old self.new log.new }
        ensures same { self.new ≡ record self.old {
          wire = record self.old.wire {
            said = self.new.wire.said;
            unsent = self.new.wire.unsent;
            room = self.new.wire.room;
          };
          stand = record self.old.stand { tap = self.new.stand.tap };
          last = self.new.last;
          events = self.new.events;
        } }
    {
        let taken = self.tap.take_all(at, rt, self.session.latest(), list);
        let event = Event::Took(Snapshot::of(&taken));
        let spent = taken.is_err();
        let more = may_give_more(&taken);
        self.last = last_taken(&taken, self.last);
        jot(event, gives_none(&taken), &mut self.events, log);
        say_taken(taken, &mut self.spares.requests, &mut self.wire);
        more_unless_spent(more, spent)
    }

    // Decides the PDU that waits, which waits still where a lane or a box is spent.
    pub(crate) fn decide<R: Wait, G: Gate, D: Directory>(
        &mut self,
        at: &Exchange,
        rt: &R,
        gate: &mut G,
        directory: &mut D,
        now: u64,
        log: &mut Log<Event>,
    ) -> Next
        requires room { 65536 ≤ self.old.wire.room }
        requires lock { slice_get at.now self.old.first.tap.lane
            ≡ Some self.old.first.tap.front.lock }
        requires some { IsSome self.old.held }
        requires goes_on { self.old.ending ≡ None }
        requires may { MayDecide (L.polls self.old.wire.link) self.old.wire.unsent }
        ensures phase { (t : Before) (source : _) → t.now ≡ now
            → phase_of t log.old ≡ Deciding source → phase_of t log.new
            ≡ unless_spent (is_some self.new.held) (when_next source result) }
        ensures goes_on { result ≢ Next.Over → self.new.ending ≡ None }
        ensures filled { result ≡ Next.Filled → self.new.wire.unsent ≡ self.old.wire.unsent }
        ensures whole { result ≢ Next.Part }
        ensures goes { (turn : _) → Leads turn
            (scene_of L.offered L.polls L.failures (G.asked gate.old) (G.told gate.old)
            (D.queries directory.old) self.old)
            log.old
            (scene_of L.offered L.polls L.failures (G.asked gate.new) (G.told gate.new)
            (D.queries directory.new) self.new)
            log.new }
        ensures same { self.new ≡ record self.old {
          wire = record self.old.wire {
            said = self.new.wire.said;
            unsent = self.new.wire.unsent;
            room = self.new.wire.room;
          };
          stand = record self.new.stand {
            answers = self.old.stand.answers;
            age = self.old.stand.age;
          };
          held = self.new.held;
          ending = self.new.ending;
          events = self.new.events;
        } }
    {
        let Some(pdu) = self.held.take() else {
            unreachable!()
        };
        let read = Snapshot::of(&pdu);
        let act = self.session.on_pdu(&pdu, now);
        let chosen = Snapshot::of(&act);
        let Outcome {
            event: fate,
            sent,
            ends,
            answer,
            ..
        } = carry(
            self.alloc,
            &mut self.tap,
            &mut self.senders,
            &mut self.owed,
            at,
            rt,
            gate,
            directory,
            act,
            pdu,
        );
        self.held = answer;
        self.ending = ends;
        let next = next_of(ends, fills(&fate));
        let outcome = Outcome {
            event: Event::Decided(read, now, chosen, fate),
            quiet: false,
            sent,
            ends,
            answer: next,
        };
        note(outcome, &mut self.wire, &mut self.events, log)
    }
}
