//! Turns of the upstream worker, one after another, and its end.
ghost use Rattle.std.specs.Prelude.{◌≡◌, ◌≢◌, ℕ, ◌+◌, ◌++◌, ◌∷◌, [], List, true, length, slice_get, Some, None, Ok, Err, OnOk};
ghost use mathlib.Core.List.{IsPrefix};
ghost use Rattle.smx_frame.specs.Stream.{HasNone};
ghost use Rattle.smx_session.specs.Moments.{is_bound};
ghost use Rattle.smx_shared.specs.Taps.{known_of};
ghost use Rattle.smx_turns.specs.Rounds.{EndsSo};
ghost use Rattle.smx_turns.specs.Runs.{Runs, RunsOn};
ghost use Rattle.smx_upstream.specs.Ages.{next_turn};
ghost use Rattle.smx_upstream.specs.Quiet.{are_all_quiet};
ghost use Rattle.smx_upstream.specs.Standing.{Does};
ghost use Rattle.smx_upstream.specs.Timing.{TurnsAt, timing};
ghost use Rattle.smx_upstream.specs.Working.{before_turn, scene_of, Changes};
ghost use Rattle.smx_upstream.specs.Judging.{AreJudged};
ghost use Rattle.smx_upstream.specs.Events.{lost_tells};
ghost use Rattle.smx_upstream.specs.Losing.{Loses};
ghost use Rattle.smx_upstream.specs.Phases.{phase_of, is_all_decided, link_faults, Before, Waits, IsTurn, IsOver, Opening};

use crate::losing::{Lost, lose};
use crate::worker::UpstreamWorker;
use smx_box::{Receiver, Sender};
use smx_link::Link;
use smx_pdu::Pdu;
use smx_routes::MoWindow;
use smx_shared::{Exchange, Tap};
use smx_turns::{Directory, Fault, Gate, Log, MoItem, RunEnd, TurnEnd};
use std::sync::Wait;

/// What a worker leaves.
#[derive(Drop)]
pub struct Closed<L: Link + Drop> {
    /// Octets that it has not taken are let go.
    pub link: L,
    pub tap: Tap,
    pub answers: Receiver<Pdu>,
    pub senders: Vec<Sender<MoItem>>,
    /// The messages that clients have and have not answered.
    pub owed: Vec<MoWindow>,
    /// What became of its lane.
    pub lost: Lost,
}

impl<L: Link + Drop> UpstreamWorker<L> {
    /// One turn: it writes what waits, hands in the moment (in milliseconds), gets at most one
    /// answer from the return box, reads at most 4,096 octets, decides each whole PDU, judges the
    /// timers and takes requests, until the lane has none to give or as many octets wait as a PDU can
    /// have. Where an earlier turn left whole PDUs it decides these in place of the read. Where a message fills its client's box it decides no more, and is `Filled`. After
    /// a fault only `close` is called.
    pub fn turn<R: Wait, G: Gate, D: Directory>(
        &mut self,
        at: &Exchange,
        rt: &R,
        gate: &mut G,
        directory: &mut D,
        now: u64,
    ) -> Result<TurnEnd, Fault>
        requires lock { slice_get at.now self.old.stand.tap.lane
            ≡ Some self.old.stand.tap.front.lock }
        requires none { self.old.held ≡ None }
        ensures lock { slice_get at.now self.new.stand.tap.lane
            ≡ Some self.new.stand.tap.front.lock }

        // The turn's steps, and nothing else, lead from what was to what is, in the table's order.
        ensures changes { Changes self.new.stand.age.turns
            (scene_of L.offered L.polls L.failures (G.asked gate.old) (G.told gate.old)
            (D.queries directory.old) self.old)
            self.new.steps
            (scene_of L.offered L.polls L.failures (G.asked gate.new) (G.told gate.new)
            (D.queries directory.new) self.new) }
        ensures order { IsTurn (is_bound self.new.stand.session.state)
            (are_all_quiet self.new.steps) result
            (phase_of (before_turn now self.old) self.new.steps) }
        ensures waits { OnOk result (Waits (phase_of (before_turn now self.old) self.new.steps)
            self.new.wire.unsent self.new.wire.rest) }
        ensures whole { OnOk result
            (is_all_decided (phase_of (before_turn now self.old) self.new.steps) ≡ true
            → HasNone 65536 self.new.wire.rest) }

        // It reads only where each whole PDU that came before was decided.
        ensures reads { L.polls self.new.wire.link ≢ L.polls self.old.wire.link
            → HasNone 65536 self.old.wire.rest }

        ensures offered { IsPrefix (L.offered self.old.wire.link ++ self.old.wire.unsent)
            (L.offered self.new.wire.link) }
        ensures failures { L.failures self.new.wire.link
            ≡ L.failures self.old.wire.link + link_faults result }
        ensures held { OnOk result (self.new.held ≡ None) }
        ensures count { self.new.stand.age.turns ≡ (next_turn self.old.stand.age).turns }
        ensures ends { self.new.ends ≡ self.old.ends ++ result ∷ [] }
        ensures first { self.new.first ≡ self.old.first }

        // A timer is judged only behind a read of the turn that found that nothing more had come.
        ensures judged { AreJudged self.new.steps }
    {
        // (what the worker keeps of its tap is known below only once it is looked into)
        let _opened = &self.tap;
        let mut log = Log::new();
        let end = self.run_turn(at, rt, gate, directory, now, &mut log);
        self.steps = log.into_steps();
        self.ends = self.ends.and(&end);
        end
    }

    /// Ends the worker, and hands back what it was given. Its lane goes down, and each request that
    /// was taken and not answered fails, so that its client is told: nothing taken is sent again. Of each
    /// the gate is told.
    pub fn close<R: Wait, G: Gate>(self, at: &Exchange, rt: &R, gate: &mut G) -> Closed<L>
        requires lock { slice_get at.now self.stand.tap.lane ≡ Some self.stand.tap.front.lock }
        ensures link { result.link ≡ self.wire.link }
        ensures lock { (result.tap.lane ≡ self.stand.tap.lane)
            × (result.tap.front.lock ≡ self.stand.tap.front.lock) }
        ensures loses { Loses self.stand.tap.front result.tap.front result.lost }
        ensures count { result.lost.failed ≡ length result.lost.given }
        ensures all { result.lost.end ≡ None → result.lost.failed ≡ 1025 }
        ensures known { known_of result.tap.front.mine ≡ known_of self.stand.tap.front.mine }
        ensures answers { result.answers ≡ self.stand.answers }
        ensures senders { result.senders.items ≡ self.stand.senders }
        ensures owed { result.owed.items ≡ self.stand.owed }
        ensures told { G.told gate.new
            ≡ G.told gate.old ++ lost_tells self.stand.tap.lane result.lost }
        ensures asked { G.asked gate.new ≡ G.asked gate.old }
    {
        let UpstreamWorker {
            wire,
            mut tap,
            answers,
            senders,
            owed,
            ..
        } = self;
        let lost = lose(&mut tap, at, rt, gate);
        Closed {
            link: wire.into_link(),
            tap,
            answers,
            senders,
            owed,
            lost,
        }
    }
}

/// Turns a worker at most so often, and no more after a turn that wasn't `Worked`.
pub fn run_upstream<L: Link + Drop, R: Wait, G: Gate, D: Directory, C: FnMut() -> u64>(
    worker: &mut UpstreamWorker<L>,
    at: &Exchange,
    rt: &R,
    gate: &mut G,
    directory: &mut D,
    mut clock: C,
    turns: u64,
) -> RunEnd
    requires lock { slice_get at.now worker.old.stand.tap.lane
        ≡ Some worker.old.stand.tap.front.lock }
    requires none { worker.old.held ≡ None }
    requires clock { C.IsAlwaysCallable clock }
    ensures lock { slice_get at.now worker.new.stand.tap.lane
        ≡ Some worker.new.stand.tap.front.lock }
    ensures held { ((fault : Fault) → result ≢ RunEnd.Fault fault) → worker.new.held ≡ None }
    ensures first { worker.new.first ≡ worker.old.first }
    ensures ends { EndsSo turns result worker.old.ends worker.new.ends }
    ensures left { result ≡ RunEnd.Left
        → (t : Before) × (t.start ≡ Opening) × IsOver (phase_of t worker.new.steps) }
    ensures ran { RunsOn Does worker.old.stand worker.old.events
        worker.new.stand worker.new.events }

    // Each turn is one in the table's order, at the moment that one call of the clock gave, and
    // nothing else is asked of the gate, the directory and the link's reads.
    ensures clocked { (moments : List ℕ) × (last : C)
        × Runs (TurnsAt (λ a now b. C.step a now b) L.offered L.polls L.failures)
        (timing clock (G.asked gate.old) (G.told gate.old) (D.queries directory.old) worker.old)
        moments
        (timing last (G.asked gate.new) (G.told gate.new) (D.queries directory.new) worker.new) }
{
    for _turn in 0..turns {
        let now = clock();
        match worker.turn(at, rt, gate, directory, now) {
            Ok(TurnEnd::Done) => return RunEnd::Left,
            Ok(TurnEnd::Idle) => return RunEnd::Idle,
            Ok(TurnEnd::Filled) => return RunEnd::Filled,
            Ok(TurnEnd::Worked) => {}
            Err(fault) => return RunEnd::Fault(fault),
        }
    }
    RunEnd::Turns
}
