//! What a read found: octets count as life, and only where nothing more is there silence is judged.
ghost use Rattle.std.specs.Prelude.{◌≡◌, ◌≢◌, ◌+◌, ℕ, List, ◌≤◌, ◌<◌, None, Some, Ok, Err, IfOk, IfSome, IfNone, IsSome, is_none, true, false, length, if◌then◌else◌};
ghost use Rattle.smx_turns.specs.declared.directory.Query.{Query};
ghost use Rattle.smx_client.specs.Replies.{Parks};
ghost use Rattle.smx_client.specs.Scenes.{scene_of, Moves};
ghost use Rattle.smx_client.specs.Turns.{Leads};
ghost use Rattle.smx_client.specs.Table.{Before, Phase, phase_of, Hearing, Ageing, Looking, Gone, Deciding, IsRead, IsFront, IsPart, is_ageing, when_nothing, after_one, after_expired};

use super::ClientWorker;
use crate::ending::{or_end, silent_end};
use crate::event::{Event, Progress};
use crate::ledger::{mark, note};
use crate::reply::{Reply, answer_expired};
use crate::saying::{is_not_due, is_unanswered, say_enquiry};
use smx_link::{Link, Polled};
use smx_session::ClientState;
use smx_turns::{Fault, Gate, Log, Mark};
use std::snapshot::Snapshot;
use std::sync::Wait;

// Whether a message may have waited for so long.
fn is_ageing(message_time: u64, now: u64) -> bool
    ensures cell { (t : Before) → t.now ≡ now → t.message_time ≡ message_time
        → result ≡ is_ageing t }
    ensures within { result ≡ true → message_time ≤ now }
{
    message_time != 0 && message_time <= now
}

// Whether nothing was overdue.
fn is_none(found: Option<(usize, u32, u32)>) -> bool
    ensures { result ≡ is_none found }
{
    match found {
        None => true,
        Some(_) => false,
    }
}

// What became of the answer, where one was overdue.
fn reply_of(found: Option<(usize, u32, u32)>, reply: Reply) -> Option<Reply>
    ensures phase { after_one result ≡ after_expired found reply }
    ensures some { IfSome result (λ x. (x ≡ reply) × (found ≢ None)) }
    ensures none { IfNone result (found ≡ None) }
{
    match found {
        None => None,
        Some(_) => Some(reply),
    }
}

// How far a turn comes by a look: whether the session is silent.
fn front_of(silent: bool) -> Result<Result<bool, Progress>, Fault>
    ensures phase { IsFront result (if silent then Gone else Deciding false) }
    ensures gone { result ≡ Ok (Err Progress.Gone) → silent ≡ true }
    ensures which { IfOk result (λ r. (r ≢ Err Progress.Parked) × (r ≢ Err Progress.Settled)
        × (r ≢ Err Progress.Closed) × (r ≢ Err Progress.Clogged) × (r ≢ Ok true)) }
{
    if silent {
        Ok(Err(Progress::Gone))
    } else {
        Ok(Ok(false))
    }
}

impl<'d, L: Link + Drop> ClientWorker<'d, L> {
    // Octets came at this moment.
    fn hear(&mut self, now: u64, log: &mut Log<Event>)
        ensures moves { Moves L.offered L.polls L.failures self.old log.old self.new log.new }
        ensures phase { (t : Before) → phase_of t log.old ≡ Hearing → t.now ≡ now
            → phase_of t log.new ≡ Deciding false }
        ensures same { self.new ≡ record self.old {
          session = self.new.session;
          events = self.new.events;
        } }
    {
        self.session.on_octets(now);
        note(&mut self.events, log, Event::Heard(now), false);
    }

    // Hands in the moment, and says the enquiry that is due.
    fn look(&mut self, now: u64, log: &mut Log<Event>) -> Result<Result<bool, Progress>, Fault>
        ensures moves { Moves L.offered L.polls L.failures self.old log.old self.new log.new }
        ensures phase { (t : Before) → phase_of t log.old ≡ Looking → t.now ≡ now
            → IsFront result (phase_of t log.new) }
        ensures clogged { result ≡ Ok (Err Progress.Clogged) → 65536 ≤ length self.new.wire.unsent }
        ensures gone { result ≡ Ok (Err Progress.Gone)
            → self.new.session.state ≡ ClientState.Ended }
        ensures which { IfOk result (λ r. (r ≢ Err Progress.Parked) × (r ≢ Err Progress.Settled)
            × (r ≢ Err Progress.Closed) × (r ≢ Ok true)) }
        ensures same { self.new ≡ record self.old {
          session = self.new.session;
          wire = record self.old.wire {
            said = self.new.wire.said;
            unsent = self.new.wire.unsent;
            room = self.new.wire.room;
          };
          ending = self.new.ending;
          events = self.new.events;
        } }
    {
        if self.is_clogged() {
            mark(log, Mark::Full, true);
            return Ok(Err(Progress::Clogged));
        }
        self.make_room()?;
        self.enquire(now, log)
    }

    // Hands in the moment, and says the enquiry that is due.
    fn enquire(&mut self, now: u64, log: &mut Log<Event>) -> Result<Result<bool, Progress>, Fault>
        requires room { 65536 ≤ self.old.wire.room }
        requires below { length self.old.wire.unsent < 65536 }
        ensures moves { Moves L.offered L.polls L.failures self.old log.old self.new log.new }
        ensures phase { (t : Before) → phase_of t log.old ≡ Looking → t.now ≡ now
            → IsFront result (phase_of t log.new) }
        ensures gone { result ≡ Ok (Err Progress.Gone)
            → self.new.session.state ≡ ClientState.Ended }
        ensures which { IfOk result (λ r. (r ≢ Err Progress.Parked) × (r ≢ Err Progress.Settled)
            × (r ≢ Err Progress.Closed) × (r ≢ Err Progress.Clogged) × (r ≢ Ok true)) }
        ensures same { self.new ≡ record self.old {
          session = self.new.session;
          wire = record self.old.wire {
            said = self.new.wire.said;
            unsent = self.new.wire.unsent;
            room = self.new.wire.room;
          };
          ending = self.new.ending;
          events = self.new.events;
        } }
    {
        let enquiry = self.session.on_moment(now);
        say_enquiry(&mut self.wire, &enquiry);
        let quiet = is_not_due(&enquiry);
        let silent = is_unanswered(&enquiry);
        let event = Event::Looked(now, Snapshot::of(&enquiry));
        self.ending = or_end(self.ending, silent_end(silent));
        note(&mut self.events, log, event, quiet);
        front_of(silent)
    }

    // Takes a message that is overdue at this moment out of the window, and answers it. None where
    // there is none.
    fn expire_one<R: Wait, G: Gate>(
        &mut self,
        rt: &R,
        gate: &mut G,
        until: u64,
        log: &mut Log<Event>,
    ) -> Option<Reply>
        requires none { self.old.parked ≡ None }
        ensures leads { (n : ℕ) (queries : List Query) → Leads n
            (scene_of L.offered L.polls L.failures (G.asked gate.old) (G.told gate.old) queries
            self.old)
            log.old
            (scene_of L.offered L.polls L.failures (G.asked gate.new) (G.told gate.new) queries
            self.new)
            log.new }
        ensures phase { (t : Before) → until + t.message_time ≡ t.now
            → phase_of t log.old ≡ Ageing → phase_of t log.new ≡ after_one result }
        ensures parks { IfSome result (λ reply. Parks reply self.new.parked) }
        ensures clear { IfNone result (self.new.parked ≡ None) }
        ensures fewer { IfSome result (λ reply.
            length self.new.window.waiting + 1 ≡ length self.old.window.waiting) }
        ensures same { self.new ≡ record self.old {
          senders = self.new.senders;
          window = self.new.window;
          parked = self.new.parked;
          events = self.new.events;
        } }
    {
        let found = self.window.take_overdue(until);
        let alloc = self.alloc;
        let reply = answer_expired(rt, gate, alloc, &mut self.senders, &mut self.parked, found);
        let none = is_none(found);
        note(
            &mut self.events,
            log,
            Event::Expired(until, found, reply),
            none,
        );
        reply_of(found, reply)
    }

    // Answers each message that was sent so long ago as one may wait. `None` where the turn goes on.
    fn age_part<R: Wait, G: Gate>(
        &mut self,
        rt: &R,
        gate: &mut G,
        now: u64,
        log: &mut Log<Event>,
    ) -> Result<Option<Progress>, Fault>
        requires none { self.old.parked ≡ None }
        ensures leads { (n : ℕ) (queries : List Query) → Leads n
            (scene_of L.offered L.polls L.failures (G.asked gate.old) (G.told gate.old) queries
            self.old)
            log.old
            (scene_of L.offered L.polls L.failures (G.asked gate.new) (G.told gate.new) queries
            self.new)
            log.new }
        ensures phase { (t : Before) → t.now ≡ now → t.message_time ≡ self.old.message_time
            → phase_of t log.old ≡ when_nothing t → IsPart Looking result (phase_of t log.new) }
        ensures parked { result ≡ Ok (Some Progress.Parked) → IsSome self.new.parked }
        ensures clear { result ≡ Ok None → self.new.parked ≡ None }
        ensures which { (result ≢ Ok (Some Progress.Settled)) × (result ≢ Ok (Some Progress.Closed))
            × (result ≢ Ok (Some Progress.Clogged)) × (result ≢ Ok (Some Progress.Gone)) }
        ensures same { self.new ≡ record self.old {
          senders = self.new.senders;
          window = self.new.window;
          parked = self.new.parked;
          events = self.new.events;
        } }
    {
        if !is_ageing(self.message_time, now) {
            return Ok(None);
        }
        let until = now - self.message_time;
        loop {
            let Some(reply) = self.expire_one(rt, gate, until, log) else {
                return Ok(None);
            };
            if let Some(progress) = reply.progress()? {
                return Ok(Some(progress));
            }
        }
    }

    // Where nothing more is there: messages are judged, and then silence.
    fn judge<R: Wait, G: Gate>(
        &mut self,
        rt: &R,
        gate: &mut G,
        now: u64,
        log: &mut Log<Event>,
    ) -> Result<Result<bool, Progress>, Fault>
        requires none { self.old.parked ≡ None }
        ensures leads { (n : ℕ) (queries : List Query) → Leads n
            (scene_of L.offered L.polls L.failures (G.asked gate.old) (G.told gate.old) queries
            self.old)
            log.old
            (scene_of L.offered L.polls L.failures (G.asked gate.new) (G.told gate.new) queries
            self.new)
            log.new }
        ensures phase { (t : Before) → t.now ≡ now → t.message_time ≡ self.old.message_time
            → phase_of t log.old ≡ when_nothing t → IsFront result (phase_of t log.new) }
        ensures clogged { result ≡ Ok (Err Progress.Clogged) → 65536 ≤ length self.new.wire.unsent }
        ensures waits { result ≡ Ok (Err Progress.Parked) → IsSome self.new.parked }
        ensures clear { IfOk result (λ r. IfOk r (λ ended. self.new.parked ≡ None)) }
        ensures gone { result ≡ Ok (Err Progress.Gone)
            → self.new.session.state ≡ ClientState.Ended }
        ensures which { IfOk result (λ r. (r ≢ Err Progress.Settled)
            × (r ≢ Err Progress.Closed) × (r ≢ Ok true)) }
        ensures same { self.new ≡ record self.old {
          session = self.new.session;
          senders = self.new.senders;
          window = self.new.window;
          wire = record self.old.wire {
            said = self.new.wire.said;
            unsent = self.new.wire.unsent;
            room = self.new.wire.room;
          };
          parked = self.new.parked;
          ending = self.new.ending;
          events = self.new.events;
        } }
    {
        if let Some(progress) = self.age_part(rt, gate, now, log)? {
            return Ok(Err(progress));
        }
        self.look(now, log)
    }

    // Heeds what a read found: whether the link has ended.
    pub(super) fn heed<R: Wait, G: Gate>(
        &mut self,
        rt: &R,
        gate: &mut G,
        found: Option<Polled>,
        now: u64,
        log: &mut Log<Event>,
    ) -> Result<Result<bool, Progress>, Fault>
        requires none { self.old.parked ≡ None }
        ensures leads { (n : ℕ) (queries : List Query) → Leads n
            (scene_of L.offered L.polls L.failures (G.asked gate.old) (G.told gate.old) queries
            self.old)
            log.old
            (scene_of L.offered L.polls L.failures (G.asked gate.new) (G.told gate.new) queries
            self.new)
            log.new }
        ensures phase { (t : Before) → t.now ≡ now → t.message_time ≡ self.old.message_time
            → IsRead t (Ok (Ok found)) (phase_of t log.old) → IsFront result (phase_of t log.new) }
        ensures clogged { result ≡ Ok (Err Progress.Clogged) → 65536 ≤ length self.new.wire.unsent }
        ensures waits { result ≡ Ok (Err Progress.Parked) → IsSome self.new.parked }
        ensures clear { IfOk result (λ r. IfOk r (λ ended. self.new.parked ≡ None)) }
        ensures gone { result ≡ Ok (Err Progress.Gone)
            → self.new.session.state ≡ ClientState.Ended }
        ensures which { IfOk result (λ r. (r ≢ Err Progress.Settled)
            × (r ≢ Err Progress.Closed) × (r ≡ Ok true → found ≡ Some Polled.End)) }
        ensures same { self.new ≡ record self.old {
          session = self.new.session;
          senders = self.new.senders;
          window = self.new.window;
          wire = record self.old.wire {
            said = self.new.wire.said;
            unsent = self.new.wire.unsent;
            room = self.new.wire.room;
          };
          parked = self.new.parked;
          ending = self.new.ending;
          events = self.new.events;
        } }
    {
        match found {
            None => Ok(Ok(false)),
            Some(Polled::Octets(_)) => {
                self.hear(now, log);
                Ok(Ok(false))
            }
            Some(Polled::Nothing) => self.judge(rt, gate, now, log),
            Some(Polled::End) => Ok(Ok(true)),
        }
    }
}
