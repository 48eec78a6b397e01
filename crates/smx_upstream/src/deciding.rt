//! The PDUs that came, each decided once and in order.
ghost use Rattle.std.specs.Prelude.{◌≡◌, ◌≢◌, ◌≤◌, ◌<◌, true, false, is_some, length, slice_get, Some, None, Ok, IsSome, IfOk, OnOk};
ghost use Rattle.smx_frame.specs.Stream.{HasNone};
ghost use Rattle.smx_turns.specs.Wires.{has_ended as has_link_ended};
ghost use Rattle.smx_upstream.specs.Working.{scene_of, Leads};
ghost use Rattle.smx_upstream.specs.May.{MayDecide};
ghost use Rattle.smx_upstream.specs.Phases.{phase_of, when_decided, when_next, when_progress, source_of, has_end, link_faults, Before, Source, LeadsTo, Deciding};
ghost use Rattle.smx_upstream.specs.Phases.Source.{Earlier};

use crate::event::Event;
use crate::wiring::Front;
use crate::worker::UpstreamWorker;
use smx_link::{Link, Polled};
use smx_pdu::MAX_PDU;
use smx_shared::Exchange;
use smx_turns::{Directory, End, Fault, Gate, Log, Mark, Step, is_end};
use std::sync::Wait;

// What comes after a look at what was read.
#[derive(Clone, Copy, Debug, PartialEq, Eq)]
pub(crate) enum Next {
    // A PDU was decided, and more may follow.
    More,
    // A message was decided, which filled its client's box.
    Filled,
    // No whole PDU is there.
    Part,
    // Nothing more is decided in any turn.
    Over,
}

// What comes after a PDU that ends the work so, or not.
pub(crate) fn next_of(ends: Option<End>, full: bool) -> Next
    ensures phase { (source : Source) → when_next source result
        ≡ when_decided source (is_some ends) full }
    ensures goes_on { result ≢ Next.Over → ends ≡ None }
    ensures filled { result ≡ Next.Filled → full ≡ true }
    ensures whole { result ≢ Next.Part }
{
    match ends {
        Some(_) => Next::Over,
        None if full => Next::Filled,
        None => Next::More,
    }
}

// Whether the link has ended behind which PDUs are decided.
fn has_end(polled: Option<Polled>) -> bool
    ensures { result ≡ has_end polled }
{
    match polled {
        Some(polled) => is_end(polled),
        None => false,
    }
}

// How far the PDUs that came were decided.
#[derive(Clone, Copy, Debug, PartialEq, Eq)]
pub(crate) enum Progress {
    // No whole PDU is left.
    Part,
    // A message filled its client's box.
    Filled,
    // Too many octets wait.
    Brimming,
    // Nothing more is decided in any turn.
    Over,
}

impl<L: Link + Drop> UpstreamWorker<L> {
    // Decides the next whole PDU, where there is one.
    #[inline(always)]
    pub(crate) fn decide_next<R: Wait, G: Gate, D: Directory>(
        &mut self,
        at: &Exchange,
        rt: &R,
        gate: &mut G,
        directory: &mut D,
        now: u64,
        log: &mut Log<Event>,
    ) -> Result<Next, Fault>
        requires lock { slice_get at.now self.old.first.tap.lane
            ≡ Some self.old.first.tap.front.lock }
        requires none { self.old.held ≡ None }
        requires goes_on { self.old.ending ≡ None }
        requires may { MayDecide (L.polls self.old.wire.link) self.old.wire.unsent }
        ensures phase { (t : Before) (source : _) → t.now ≡ now
            → phase_of t log.old ≡ Deciding source
            → LeadsTo result (when_next source) (phase_of t log.new) }
        ensures held { OnOk result (self.new.held ≡ None) }
        ensures more { result ≡ Ok Next.More
            → (length self.new.wire.rest < length self.old.wire.rest) × (self.new.ending ≡ None) }
        ensures filled { result ≡ Ok Next.Filled
            → (length self.new.wire.rest < length self.old.wire.rest) × (self.new.ending ≡ None)
            × (self.new.wire.unsent ≡ self.old.wire.unsent) }
        ensures part { result ≡ Ok Next.Part
            → HasNone 65536 self.new.wire.rest × (self.new.ending ≡ None)
            × (self.new.wire.unsent ≡ self.old.wire.unsent)
            × (self.new.wire.rest ≡ self.old.wire.rest)
            × (self.new.wire.intake ≡ self.old.wire.intake) }
        ensures goes { (turn : _) → Leads turn
            (scene_of L.offered L.polls L.failures (G.asked gate.old) (G.told gate.old)
            (D.queries directory.old) self.old)
            log.old
            (scene_of L.offered L.polls L.failures (G.asked gate.new) (G.told gate.new)
            (D.queries directory.new) self.new)
            log.new }
        ensures kept { (self.new.wire.link ≡ self.old.wire.link)
            × (self.new.stand.age.turns ≡ self.old.stand.age.turns)
            × (self.new.first ≡ self.old.first) × (self.new.ends ≡ self.old.ends) }
    {
        self.make_room()?;
        match self.fetch(log)? {
            Front::Part => return Ok(Next::Part),
            Front::Broken => return Ok(Next::Over),
            Front::Whole => {}
        }
        if let Some(empty) = self.lists_to_bring() {
            return match self.bring(at, rt, gate, now, empty, log) {
                Ok(()) => Ok(Next::More),
                Err(fault) => Err(fault),
            };
        }
        let next = self.decide(at, rt, gate, directory, now, log);
        if self.held.is_some() {
            return Err(Fault::Spent);
        }
        Ok(next)
    }

    // Decides each whole PDU behind this read, or of those that an earlier turn left, as far as what waits
    // for the link and the boxes allow it.
    pub(crate) fn decide_all<R: Wait, G: Gate, D: Directory>(
        &mut self,
        polled: Option<Polled>,
        at: &Exchange,
        rt: &R,
        gate: &mut G,
        directory: &mut D,
        now: u64,
        log: &mut Log<Event>,
    ) -> Result<Progress, Fault>
        requires lock { slice_get at.now self.old.first.tap.lane
            ≡ Some self.old.first.tap.front.lock }
        requires none { self.old.held ≡ None }
        requires goes_on { self.old.ending ≡ None }
        requires ended { has_end polled ≡ true
            → has_link_ended (L.polls self.old.wire.link) ≡ true }
        ensures phase { (t : Before) → t.now ≡ now → phase_of t log.old ≡ Deciding (source_of polled)
            → LeadsTo result (when_progress (source_of polled)) (phase_of t log.new) }
        ensures held { OnOk result (self.new.held ≡ None) }
        ensures part { result ≡ Ok Progress.Part
            → HasNone 65536 self.new.wire.rest × (self.new.ending ≡ None) }
        ensures few { result ≡ Ok Progress.Part → has_end polled ≡ false
            → length self.new.wire.unsent < 65536 }
        ensures filled { result ≡ Ok Progress.Filled
            → (has_end polled ≡ false) × (length self.new.wire.unsent < 65536) }
        ensures brimming { result ≡ Ok Progress.Brimming
            → (has_end polled ≡ false) × (65536 ≤ length self.new.wire.unsent) }
        ensures goes { (turn : _) → Leads turn
            (scene_of L.offered L.polls L.failures (G.asked gate.old) (G.told gate.old)
            (D.queries directory.old) self.old)
            log.old
            (scene_of L.offered L.polls L.failures (G.asked gate.new) (G.told gate.new)
            (D.queries directory.new) self.new)
            log.new }
        ensures kept { (self.new.wire.link ≡ self.old.wire.link)
            × (self.new.stand.age.turns ≡ self.old.stand.age.turns)
            × (self.new.first ≡ self.old.first) × (self.new.ends ≡ self.old.ends) }
    {
        let ended = has_end(polled);
        loop {
            if !ended && self.wire.unsent() >= MAX_PDU {
                log.push(&Step::Marked(Mark::Full), true);
                return Ok(Progress::Brimming);
            }
            match self.decide_next(at, rt, gate, directory, now, log)? {
                Next::More => {}
                Next::Filled => {
                    if !ended {
                        return Ok(Progress::Filled);
                    }
                }
                Next::Part => return Ok(Progress::Part),
                Next::Over => return Ok(Progress::Over),
            }
        }
    }

    // Decides what an earlier turn left, behind the first PDU of it, which led to this.
    pub(crate) fn decide_left<R: Wait, G: Gate, D: Directory>(
        &mut self,
        next: Next,
        at: &Exchange,
        rt: &R,
        gate: &mut G,
        directory: &mut D,
        now: u64,
        log: &mut Log<Event>,
    ) -> Result<Progress, Fault>
        requires lock { slice_get at.now self.old.first.tap.lane
            ≡ Some self.old.first.tap.front.lock }
        requires none { self.old.held ≡ None }
        requires goes_on { next ≢ Next.Over → self.old.ending ≡ None }
        requires whole { next ≢ Next.Part }
        requires few { next ≡ Next.Filled → length self.old.wire.unsent < 65536 }
        ensures phase { (t : Before) → t.now ≡ now
            → phase_of t log.old ≡ when_next (Earlier false) next
            → LeadsTo result (when_progress (Earlier true)) (phase_of t log.new) }
        ensures held { OnOk result (self.new.held ≡ None) }
        ensures part { result ≡ Ok Progress.Part → HasNone 65536 self.new.wire.rest }
        ensures few { IfOk result (λ progress. (progress ≢ Progress.Over)
            → (progress ≢ Progress.Brimming) → length self.new.wire.unsent < 65536) }
        ensures brimming { result ≡ Ok Progress.Brimming → 65536 ≤ length self.new.wire.unsent }
        ensures goes { (turn : _) → Leads turn
            (scene_of L.offered L.polls L.failures (G.asked gate.old) (G.told gate.old)
            (D.queries directory.old) self.old)
            log.old
            (scene_of L.offered L.polls L.failures (G.asked gate.new) (G.told gate.new)
            (D.queries directory.new) self.new)
            log.new }
        ensures kept { (self.new.wire.link ≡ self.old.wire.link)
            × (self.new.stand.age.turns ≡ self.old.stand.age.turns)
            × (self.new.first ≡ self.old.first) × (self.new.ends ≡ self.old.ends) }
    {
        match next {
            Next::More => self.decide_all(None, at, rt, gate, directory, now, log),
            Next::Filled => Ok(Progress::Filled),
            Next::Over => Ok(Progress::Over),
            Next::Part => unreachable!(),
        }
    }
}
