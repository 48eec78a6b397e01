//! What the time says of a centre, once all that had come was read.
ghost use Rattle.std.specs.Prelude.{◌≡◌, true, false, slice_get, Some, None, IfOk, OnOk};
ghost use Rattle.smx_frame.specs.Stream.{HasNone};
ghost use Rattle.smx_turns.specs.Wires.{is_end, has_ended as has_link_ended};
ghost use Rattle.smx_upstream.specs.Events.{silent_end};
ghost use Rattle.smx_upstream.specs.Standing.{was_silent};
ghost use Rattle.smx_upstream.specs.Working.{scene_of, Leads, Moves};
ghost use Rattle.smx_upstream.specs.Phases.{phase_of, link_faults, when_part, when_judged, Before, Waits, IsCourse, CaughtUp, Ebbed, Drained};
ghost use Rattle.smx_upstream.specs.Phases.Source.{Behind};

use crate::event::{Event, Span};
use crate::turning::Course;
use crate::worker::{UpstreamWorker, jot};
use smx_link::{Link, Polled};
use smx_session::UpstreamSession;
use smx_shared::Exchange;
use smx_turns::{End, Fault, Gate, Log, TurnEnd};
use std::sync::Wait;

// Whether the session was silent at an earlier moment than this one already.
pub(crate) fn was_silent(session: &mut UpstreamSession, now: u64) -> bool
    ensures silent { result ≡ was_silent session.old now }
    ensures same { session.new ≡ session.old }
{
    let last = session.latest();
    let silent = session.is_silent(last);
    last < now && silent
}

// How a silence ends the work.
pub(crate) fn silent_end(silent: bool) -> Option<End>
    ensures { result ≡ silent_end silent }
{
    if silent { Some(End::Silent) } else { None }
}

impl<L: Link + Drop> UpstreamWorker<L> {
    // Whether the session is silent, as of the last moment that was handed in, which ends the work.
    fn find_silent(&mut self, log: &mut Log<Event>) -> bool
        requires goes_on { self.old.ending ≡ None }
        ensures phase { (t : Before) → phase_of t log.old ≡ CaughtUp
            → phase_of t log.new ≡ when_judged result }
        ensures ending { self.new.ending ≡ silent_end result }
        ensures goes { Moves L.offered L.polls L.failures self.old log.old self.new log.new }
        ensures same { self.new ≡ record self.old {
          ending = self.new.ending;
          events = self.new.events;
        } }
    {
        let last = self.session.latest();
        let silent = self.session.is_silent(last);
        self.ending = silent_end(silent);
        jot(Event::Judged(silent), true, &mut self.events, log);
        silent
    }

    // All that came over the link is decided, which has ended.
    fn end_link(&mut self, log: &mut Log<Event>)
        requires goes_on { self.old.ending ≡ None }
        requires ended { has_link_ended (L.polls self.old.wire.link) ≡ true }
        ensures phase { (t : Before) → phase_of t log.old ≡ Ebbed → phase_of t log.new ≡ Drained }
        ensures goes { Moves L.offered L.polls L.failures self.old log.old self.new log.new }
        ensures same { self.new ≡ record self.old {
          ending = Some End.LinkEnded;
          events = self.new.events;
        } }
    {
        self.ending = Some(End::LinkEnded);
        jot(Event::LinkEnded, true, &mut self.events, log);
    }

    // Judges the timers once each whole PDU was decided that came, behind a read with this answer.
    pub(crate) fn judge<R: Wait, G: Gate>(
        &mut self,
        polled: Polled,
        at: &Exchange,
        rt: &R,
        gate: &mut G,
        log: &mut Log<Event>,
    ) -> Result<Course, Fault>
        requires lock { slice_get at.now self.old.first.tap.lane
            ≡ Some self.old.first.tap.front.lock }
        requires part { HasNone 65536 self.old.wire.rest }
        requires goes_on { self.old.ending ≡ None }
        requires ended { is_end polled ≡ has_link_ended (L.polls self.old.wire.link) }
        ensures phase { (t : Before) → phase_of t log.old ≡ when_part (Behind polled)
            → IsCourse result (phase_of t log.new) }
        ensures waits { (t : Before) → phase_of t log.old ≡ when_part (Behind polled)
            → OnOk result (Waits (phase_of t log.new) self.new.wire.unsent self.new.wire.rest) }
        ensures goes_on { IfOk result (λ course. (filled : _) → course ≡ Course.Goes filled
            → (is_end polled ≡ false) × (filled ≡ false)) }
        ensures goes { (turn queries : _) → Leads turn
            (scene_of L.offered L.polls L.failures (G.asked gate.old)
            (G.told gate.old) queries self.old)
            log.old
            (scene_of L.offered L.polls L.failures (G.asked gate.new)
            (G.told gate.new) queries self.new)
            log.new }
        ensures same { self.new ≡ record self.old {
          stand = record self.old.stand { tap = self.new.stand.tap };
          ending = self.new.ending;
          events = self.new.events;
        } }
    {
        match polled {
            Polled::End => {
                self.end_link(log);
                return Ok(Course::Ends(TurnEnd::Done));
            }
            Polled::Octets(_) => self.expire(Span::Twice, at, rt, gate, log)?,
            Polled::Nothing => {
                if self.find_silent(log) {
                    return Ok(Course::Ends(TurnEnd::Done));
                }
                self.expire(Span::Once, at, rt, gate, log)?;
            }
        }
        Ok(Course::Goes { filled: false })
    }
}
