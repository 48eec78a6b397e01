//! A turn of the upstream worker, part by part.
ghost use Rattle.std.specs.Prelude.{◌≡◌, ◌≢◌, ◌+◌, ◌≤◌, ◌<◌, ◌++◌, [], true, false, length, slice_get, Some, None, Ok, OnOk, if◌then◌else◌, vec_capacity};
ghost use mathlib.Core.List.{IsPrefix};
ghost use Rattle.smx_frame.specs.Stream.{HasNone};
ghost use Rattle.smx_session.specs.Moments.{is_bound};
ghost use Rattle.smx_upstream.specs.Ages.{next_turn};
ghost use Rattle.smx_upstream.specs.Working.{before_turn, scene_of, Leads, Moves};
ghost use Rattle.smx_upstream.specs.Quiet.{are_all_quiet};
ghost use Rattle.smx_upstream.specs.Phases.{phase_of, when_progress, when_halted, is_all_decided, quiet_end, filled_or, link_faults, Before, Waits, IsPart, IsCourse, IsTurn, Opening, Ready, MayRead, MayTake, Deciding, Settled};
ghost use Rattle.smx_upstream.specs.Phases.Source.{Earlier};

use crate::deciding::{Next, Progress};
use crate::event::{Event, Span};
use crate::worker::UpstreamWorker;
use smx_lane::Sent;
use smx_link::Link;
use smx_pdu::MAX_PDU;
use smx_session::UpstreamState;
use smx_shared::Exchange;
use smx_turns::{Directory, Fault, Gate, Log, Mark, Point, Step, TurnEnd, ask, last_end};
use std::sync::Wait;

// How a turn ends that did all that there was to do.
fn quiet_end(quiet: bool) -> TurnEnd
    ensures { result ≡ quiet_end quiet }
{
    if quiet {
        TurnEnd::Idle
    } else {
        TurnEnd::Worked
    }
}

pub(crate) fn is_bound(state: UpstreamState) -> bool
    ensures { result ≡ is_bound state }
{
    matches!(state, UpstreamState::Bound)
}

// A message that filled a box ends the turn so.
fn filled_or(filled: bool, end: TurnEnd) -> TurnEnd
    ensures { result ≡ filled_or filled end }
{
    if filled { TurnEnd::Filled } else { end }
}

// How a part of a turn leaves it.
#[derive(Clone, Copy, Debug, PartialEq, Eq)]
pub(crate) enum Course {
    // The turn has ended so.
    Ends(TurnEnd),
    // No more is decided, and the turn goes on.
    Goes {
        // A message filled its client's box.
        filled: bool,
    },
}

// How the turn is left, but for what an end of the work leaves to write.
fn course_of(progress: Progress) -> Course
    requires { progress ≢ Progress.Over }
    ensures phase { IsCourse (Ok result) (when_halted progress) }
    ensures filled { (filled : _) → result ≡ Course.Goes filled
        → progress ≡ (if filled then Progress.Filled else Progress.Part) }
{
    match progress {
        Progress::Brimming => Course::Ends(TurnEnd::Worked),
        Progress::Filled => Course::Goes { filled: true },
        Progress::Part => Course::Goes { filled: false },
        Progress::Over => unreachable!(),
    }
}

impl<L: Link + Drop> UpstreamWorker<L> {
    // Writes what waits, hands in the moment, turns the lane over where it is time, and gets at most one
    // answer. Where octets are left it gives up at most one request that has waited for too long, and does
    // no more. `None` where the turn goes on.
    pub(crate) fn open_part<R: Wait, G: Gate>(
        &mut self,
        at: &Exchange,
        rt: &R,
        gate: &mut G,
        now: u64,
        log: &mut Log<Event>,
    ) -> Result<Option<TurnEnd>, Fault>
        requires lock { slice_get at.now self.old.first.tap.lane
            ≡ Some self.old.first.tap.front.lock }
        ensures phase { (t : Before) → t ≡ before_turn now self.old → phase_of t log.old ≡ Ready
            → IsPart (Deciding (Earlier false)) result (phase_of t log.new) }
        ensures waits { (t : Before) → t ≡ before_turn now self.old → phase_of t log.old ≡ Ready
            → OnOk result (Waits (phase_of t log.new) self.new.wire.unsent self.new.wire.rest) }
        ensures goes_on { result ≡ Ok None → self.new.ending ≡ None }
        ensures unread { (L.polls self.new.wire.link ≡ L.polls self.old.wire.link)
            × (self.new.wire.rest ≡ self.old.wire.rest) }
        ensures goes { (turn queries : _) → Leads turn
            (scene_of L.offered L.polls L.failures (G.asked gate.old)
            (G.told gate.old) queries self.old)
            log.old
            (scene_of L.offered L.polls L.failures (G.asked gate.new)
            (G.told gate.new) queries self.new)
            log.new }
        ensures kept { (self.new.held ≡ self.old.held)
            × (self.new.stand.age.turns ≡ self.old.stand.age.turns)
            × (self.new.first ≡ self.old.first) × (self.new.ends ≡ self.old.ends) }
    {
        let left = self.offer(log)?;
        if self.ending.is_some() {
            return Ok(Some(last_end(left)));
        }
        self.make_room()?;
        if self.look(left, now, log) {
            return Ok(Some(TurnEnd::Done));
        }
        self.renew(at, rt, log)?;
        if left {
            self.expire(Span::Twice, at, rt, gate, log)?;
            return Ok(Some(TurnEnd::Worked));
        }
        self.make_room()?;
        self.seek(rt, log)?;
        Ok(None)
    }

    // Ends the decisions of a turn that came so far, behind which no timer is judged.
    pub(crate) fn halt<R: Wait, G: Gate>(
        &mut self,
        progress: Progress,
        at: &Exchange,
        rt: &R,
        gate: &mut G,
        log: &mut Log<Event>,
    ) -> Result<Course, Fault>
        requires lock { slice_get at.now self.old.first.tap.lane
            ≡ Some self.old.first.tap.front.lock }
        requires brimming { progress ≡ Progress.Brimming → 65536 ≤ length self.old.wire.unsent }
        ensures phase { (t : Before) → phase_of t log.old ≡ when_progress (Earlier true) progress
            → IsCourse result (phase_of t log.new) }
        ensures waits { (t : Before) → phase_of t log.old ≡ when_progress (Earlier true) progress
            → OnOk result (Waits (phase_of t log.new) self.new.wire.unsent self.new.wire.rest) }
        ensures filled { (filled : _) → result ≡ Ok (Course.Goes filled)
            → (progress ≡ (if filled then Progress.Filled else Progress.Part))
            × (self.new.wire.unsent ≡ self.old.wire.unsent) }
        ensures goes { (turn queries : _) → Leads turn
            (scene_of L.offered L.polls L.failures (G.asked gate.old)
            (G.told gate.old) queries self.old)
            log.old
            (scene_of L.offered L.polls L.failures (G.asked gate.new)
            (G.told gate.new) queries self.new)
            log.new }
        ensures unread { (L.polls self.new.wire.link ≡ L.polls self.old.wire.link)
            × (self.new.wire.rest ≡ self.old.wire.rest) }
        ensures kept { (self.new.held ≡ self.old.held)
            × (self.new.stand.age.turns ≡ self.old.stand.age.turns)
            × (self.new.first ≡ self.old.first) × (self.new.ends ≡ self.old.ends) }
    {
        if let Progress::Over = progress {
            let left = self.offer(log)?;
            return Ok(Course::Ends(last_end(left)));
        }
        self.expire(Span::Twice, at, rt, gate, log)?;
        Ok(course_of(progress))
    }

    // Reads once, decides what came, and judges the timers.
    pub(crate) fn read_on<R: Wait, G: Gate, D: Directory>(
        &mut self,
        at: &Exchange,
        rt: &R,
        gate: &mut G,
        directory: &mut D,
        now: u64,
        log: &mut Log<Event>,
    ) -> Result<Course, Fault>
        requires lock { slice_get at.now self.old.first.tap.lane
            ≡ Some self.old.first.tap.front.lock }
        requires none { self.old.held ≡ None }
        requires goes_on { self.old.ending ≡ None }
        requires intake { 4096 ≤ self.old.wire.intake }
        ensures phase { (t : Before) → t.now ≡ now → phase_of t log.old ≡ MayRead
            → IsCourse result (phase_of t log.new) }
        ensures waits { (t : Before) → t.now ≡ now → phase_of t log.old ≡ MayRead
            → OnOk result (Waits (phase_of t log.new) self.new.wire.unsent self.new.wire.rest) }
        ensures whole { result ≡ Ok (Course.Goes false) → HasNone 65536 self.new.wire.rest }
        ensures few { (filled : _) → result ≡ Ok (Course.Goes filled)
            → length self.new.wire.unsent < 65536 }
        ensures held { OnOk result (self.new.held ≡ None) }
        ensures goes { (turn : _) → Leads turn
            (scene_of L.offered L.polls L.failures (G.asked gate.old) (G.told gate.old)
            (D.queries directory.old) self.old)
            log.old
            (scene_of L.offered L.polls L.failures (G.asked gate.new) (G.told gate.new)
            (D.queries directory.new) self.new)
            log.new }
        ensures kept { (self.new.stand.age.turns ≡ self.old.stand.age.turns)
            × (self.new.first ≡ self.old.first) × (self.new.ends ≡ self.old.ends) }
    {
        let polled = self.read(log)?;
        let behind = Some(polled);
        match self.decide_all(behind, at, rt, gate, directory, now, log)? {
            Progress::Part => self.judge(polled, at, rt, gate, log),
            progress => self.halt(progress, at, rt, gate, log),
        }
    }

    // Decides what an earlier turn left, or else asks for leave, reads once, decides what came, and
    // judges the timers.
    pub(crate) fn read_part<R: Wait, G: Gate, D: Directory>(
        &mut self,
        at: &Exchange,
        rt: &R,
        gate: &mut G,
        directory: &mut D,
        now: u64,
        turn: u64,
        log: &mut Log<Event>,
    ) -> Result<Course, Fault>
        requires lock { slice_get at.now self.old.first.tap.lane
            ≡ Some self.old.first.tap.front.lock }
        requires none { self.old.held ≡ None }
        requires goes_on { self.old.ending ≡ None }
        ensures phase { (t : Before) → t.now ≡ now → phase_of t log.old ≡ Deciding (Earlier false)
            → IsCourse result (phase_of t log.new) }
        ensures waits { (t : Before) → t.now ≡ now → phase_of t log.old ≡ Deciding (Earlier false)
            → OnOk result (Waits (phase_of t log.new) self.new.wire.unsent self.new.wire.rest) }
        ensures whole { result ≡ Ok (Course.Goes false) → HasNone 65536 self.new.wire.rest }
        ensures few { (filled : _) → result ≡ Ok (Course.Goes filled)
            → length self.new.wire.unsent < 65536 }
        ensures reads { L.polls self.new.wire.link ≢ L.polls self.old.wire.link
            → HasNone 65536 self.old.wire.rest }
        ensures held { OnOk result (self.new.held ≡ None) }
        ensures goes { Leads turn
            (scene_of L.offered L.polls L.failures (G.asked gate.old) (G.told gate.old)
            (D.queries directory.old) self.old)
            log.old
            (scene_of L.offered L.polls L.failures (G.asked gate.new) (G.told gate.new)
            (D.queries directory.new) self.new)
            log.new }
        ensures kept { (self.new.stand.age.turns ≡ self.old.stand.age.turns)
            × (self.new.first ≡ self.old.first) × (self.new.ends ≡ self.old.ends) }
    {
        self.make_ready()?;
        if self.wire.unsent() >= MAX_PDU {
            log.push(&Step::Marked(Mark::Full), true);
            return self.halt(Progress::Brimming, at, rt, gate, log);
        }
        match self.decide_next(at, rt, gate, directory, now, log)? {
            Next::Part => {}
            next => {
                let progress = self.decide_left(next, at, rt, gate, directory, now, log)?;
                return self.halt(progress, at, rt, gate, log);
            }
        }
        let may = ask(log, gate, Point::Reading, turn);
        if !may {
            self.expire(Span::Twice, at, rt, gate, log)?;
            return Ok(Course::Ends(TurnEnd::Idle));
        }
        self.read_on(at, rt, gate, directory, now, log)
    }

    // Takes requests until the lane has none left to give, or as many octets wait as a PDU can have. The
    // first of them come in the list that is passed.
    fn take_on<R: Wait>(
        &mut self,
        filled: bool,
        list: Vec<Sent>,
        at: &Exchange,
        rt: &R,
        log: &mut Log<Event>,
    ) -> Result<TurnEnd, Fault>
        requires lock { slice_get at.now self.old.first.tap.lane
            ≡ Some self.old.first.tap.front.lock }
        requires room { 65536 ≤ self.old.wire.room }
        requires list { (list.items ≡ []) × (16 ≤ vec_capacity list) }
        requires bound { is_bound self.old.stand.session.state ≡ true }
        ensures phase { (t : Before) → phase_of t log.old ≡ MayTake filled false
            → IsTurn true (are_all_quiet log.new) result (phase_of t log.new) }
        ensures decided { (t : Before) → phase_of t log.old ≡ MayTake filled false
            → OnOk result (is_all_decided (phase_of t log.new) ≡ true → filled ≡ false) }
        ensures waits { (t : Before) → phase_of t log.old ≡ MayTake filled false
            → OnOk result (Waits (phase_of t log.new) self.new.wire.unsent self.new.wire.rest) }
        ensures goes { Moves L.offered L.polls L.failures self.old log.old self.new log.new }
        ensures same { self.new ≡ record self.old {
          wire = record self.old.wire {
            said = self.new.wire.said;
            unsent = self.new.wire.unsent;
            room = self.new.wire.room;
          };
          stand = record self.old.stand { tap = self.new.stand.tap };
          last = self.new.last;
          events = self.new.events;
        } }
    {
        let mut more = self.take_some(list, at, rt, log)?;
        while more {
            if self.wire.unsent() >= MAX_PDU {
                return Ok(filled_or(filled, TurnEnd::Worked));
            }
            self.make_room()?;
            let list = self.make_list()?;
            more = self.take_some(list, at, rt, log)?;
        }
        Ok(filled_or(filled, quiet_end(log.is_quiet())))
    }

    // Asks for leave, and in `Bound` asks the lane for requests.
    pub(crate) fn take_part<R: Wait, G: Gate>(
        &mut self,
        filled: bool,
        at: &Exchange,
        rt: &R,
        gate: &mut G,
        turn: u64,
        log: &mut Log<Event>,
    ) -> Result<TurnEnd, Fault>
        requires lock { slice_get at.now self.old.first.tap.lane
            ≡ Some self.old.first.tap.front.lock }
        requires few { length self.old.wire.unsent < 65536 }
        ensures phase { (t : Before) → phase_of t log.old ≡ Settled filled
            → IsTurn (is_bound self.new.stand.session.state) (are_all_quiet log.new) result
            (phase_of t log.new) }
        ensures decided { (t : Before) → phase_of t log.old ≡ Settled filled
            → OnOk result (is_all_decided (phase_of t log.new) ≡ true → filled ≡ false) }
        ensures waits { (t : Before) → phase_of t log.old ≡ Settled filled
            → OnOk result (Waits (phase_of t log.new) self.new.wire.unsent self.new.wire.rest) }
        ensures goes { (queries : _) → Leads turn
            (scene_of L.offered L.polls L.failures (G.asked gate.old)
            (G.told gate.old) queries self.old)
            log.old
            (scene_of L.offered L.polls L.failures (G.asked gate.new)
            (G.told gate.new) queries self.new)
            log.new }
        ensures kept { (self.new.held ≡ self.old.held) × (self.new.wire.link ≡ self.old.wire.link)
            × (self.new.wire.rest ≡ self.old.wire.rest)
            × (self.new.stand.age.turns ≡ self.old.stand.age.turns)
            × (self.new.first ≡ self.old.first) × (self.new.ends ≡ self.old.ends) }
    {
        self.make_room()?;
        let list = self.make_list()?;
        let may = ask(log, gate, Point::Taking, turn);
        if !may {
            return Ok(filled_or(filled, TurnEnd::Idle));
        }
        let bound = is_bound(self.session.state());
        if !bound {
            return Ok(filled_or(filled, quiet_end(log.is_quiet())));
        }
        self.take_on(filled, list, at, rt, log)
    }

    // A turn from where PDUs are decided, whose steps are written down.
    #[inline(always)]
    pub(crate) fn run_rest<R: Wait, G: Gate, D: Directory>(
        &mut self,
        at: &Exchange,
        rt: &R,
        gate: &mut G,
        directory: &mut D,
        now: u64,
        turn: u64,
        log: &mut Log<Event>,
    ) -> Result<TurnEnd, Fault>
        requires lock { slice_get at.now self.old.first.tap.lane
            ≡ Some self.old.first.tap.front.lock }
        requires none { self.old.held ≡ None }
        requires goes_on { self.old.ending ≡ None }
        ensures order { (t : Before) → t.now ≡ now → phase_of t log.old ≡ Deciding (Earlier false)
            → IsTurn (is_bound self.new.stand.session.state) (are_all_quiet log.new) result
            (phase_of t log.new) }
        ensures waits { (t : Before) → t.now ≡ now → phase_of t log.old ≡ Deciding (Earlier false)
            → OnOk result (Waits (phase_of t log.new) self.new.wire.unsent self.new.wire.rest) }
        ensures whole { (t : Before) → t.now ≡ now → phase_of t log.old ≡ Deciding (Earlier false)
            → OnOk result (is_all_decided (phase_of t log.new) ≡ true
            → HasNone 65536 self.new.wire.rest) }
        ensures reads { L.polls self.new.wire.link ≢ L.polls self.old.wire.link
            → HasNone 65536 self.old.wire.rest }
        ensures held { OnOk result (self.new.held ≡ None) }
        ensures goes { Leads turn
            (scene_of L.offered L.polls L.failures (G.asked gate.old) (G.told gate.old)
            (D.queries directory.old) self.old)
            log.old
            (scene_of L.offered L.polls L.failures (G.asked gate.new) (G.told gate.new)
            (D.queries directory.new) self.new)
            log.new }
        ensures kept { (self.new.stand.age.turns ≡ self.old.stand.age.turns)
            × (self.new.first ≡ self.old.first) × (self.new.ends ≡ self.old.ends) }
    {
        match self.read_part(at, rt, gate, directory, now, turn, log) {
            Ok(Course::Goes { filled }) => self.take_part(filled, at, rt, gate, turn, log),
            Ok(Course::Ends(end)) => Ok(end),
            Err(fault) => Err(fault),
        }
    }

    // A turn, whose steps are written down.
    pub(crate) fn run_turn<R: Wait, G: Gate, D: Directory>(
        &mut self,
        at: &Exchange,
        rt: &R,
        gate: &mut G,
        directory: &mut D,
        now: u64,
        log: &mut Log<Event>,
    ) -> Result<TurnEnd, Fault>
        requires lock { slice_get at.now self.old.first.tap.lane
            ≡ Some self.old.first.tap.front.lock }
        requires none { self.old.held ≡ None }
        requires opening { phase_of (before_turn now self.old) log.old ≡ Opening }
        ensures order { IsTurn (is_bound self.new.stand.session.state) (are_all_quiet log.new)
            result (phase_of (before_turn now self.old) log.new) }
        ensures waits { OnOk result (Waits (phase_of (before_turn now self.old) log.new)
            self.new.wire.unsent self.new.wire.rest) }
        ensures whole { OnOk result (is_all_decided (phase_of (before_turn now self.old) log.new)
            ≡ true → HasNone 65536 self.new.wire.rest) }
        ensures reads { L.polls self.new.wire.link ≢ L.polls self.old.wire.link
            → HasNone 65536 self.old.wire.rest }
        ensures held { OnOk result (self.new.held ≡ None) }
        ensures goes { Leads self.new.stand.age.turns
            (scene_of L.offered L.polls L.failures (G.asked gate.old) (G.told gate.old)
            (D.queries directory.old) self.old)
            log.old
            (scene_of L.offered L.polls L.failures (G.asked gate.new) (G.told gate.new)
            (D.queries directory.new) self.new)
            log.new }
        ensures count { self.new.stand.age.turns ≡ (next_turn self.old.stand.age).turns }
        ensures kept { (self.new.first ≡ self.old.first) × (self.new.ends ≡ self.old.ends) }
    {
        let turn = self.open(log);
        match self.open_part(at, rt, gate, now, log) {
            Ok(None) => self.run_rest(at, rt, gate, directory, now, turn, log),
            Ok(Some(end)) => Ok(end),
            Err(fault) => Err(fault),
        }
    }
}
