//! Parts of a turn, between two turns at one moment.
ghost use Rattle.std.specs.Prelude.{◌≡◌, ◌≢◌, ◌+◌, ◌<◌, length, slice_get, true, false, Some, None, OnOk};
ghost use Rattle.smx_frame.specs.Stream.{HasNone};
ghost use Rattle.smx_session.specs.Moments.{is_bound};
ghost use Rattle.smx_turns.specs.Endings.{ending_of};
ghost use Rattle.smx_upstream.specs.Events.{worth};
ghost use Rattle.smx_upstream.specs.Judging.{AreJudged};
ghost use Rattle.smx_upstream.specs.Quiet.{are_all_quiet};
ghost use Rattle.smx_upstream.specs.Phases.{phase_of, is_all_decided, link_faults, Before, Waits, IsTurn, Settled};
ghost use Rattle.smx_upstream.specs.Working.{before_rest, scene_of, Changes};

use crate::worker::UpstreamWorker;
use smx_link::Link;
use smx_shared::Exchange;
use smx_turns::{Directory, Fault, Gate, Log, TurnEnd};
use std::sync::Wait;

impl<L: Link + Drop> UpstreamWorker<L> {
    /// A turn but for its beginning, at the moment of the last turn and under its number: it decides what came,
    /// judges the timers and takes requests. It writes nothing, and asks neither its lane to turn over nor the return
    /// box, so it is for a worker for which that can't have changed since. After a fault only `close` is called.
    pub fn resume<R: Wait, G: Gate, D: Directory>(
        &mut self,
        at: &Exchange,
        rt: &R,
        gate: &mut G,
        directory: &mut D,
        now: u64,
    ) -> Result<TurnEnd, Fault>
        requires lock { slice_get at.now self.old.stand.tap.lane
            ≡ Some self.old.stand.tap.front.lock }
        requires none { self.old.held ≡ None }
        requires goes_on { ending_of worth self.old.events ≡ None }
        ensures lock { slice_get at.now self.new.stand.tap.lane
            ≡ Some self.new.stand.tap.front.lock }

        // Its steps, and nothing else, lead from what was to what is, in the table's order from where PDUs are
        // decided.
        ensures changes { Changes self.new.stand.age.turns
            (scene_of L.offered L.polls L.failures (G.asked gate.old) (G.told gate.old)
            (D.queries directory.old) self.old)
            self.new.steps
            (scene_of L.offered L.polls L.failures (G.asked gate.new) (G.told gate.new)
            (D.queries directory.new) self.new) }
        ensures order { IsTurn (is_bound self.new.stand.session.state)
            (are_all_quiet self.new.steps) result
            (phase_of (before_rest now self.old) self.new.steps) }
        ensures waits { OnOk result (Waits (phase_of (before_rest now self.old) self.new.steps)
            self.new.wire.unsent self.new.wire.rest) }
        ensures whole { OnOk result
            (is_all_decided (phase_of (before_rest now self.old) self.new.steps) ≡ true
            → HasNone 65536 self.new.wire.rest) }

        // It reads only where each whole PDU that came before was decided.
        ensures reads { L.polls self.new.wire.link ≢ L.polls self.old.wire.link
            → HasNone 65536 self.old.wire.rest }

        ensures failures { L.failures self.new.wire.link
            ≡ L.failures self.old.wire.link + link_faults result }
        ensures held { OnOk result (self.new.held ≡ None) }
        ensures kept { (self.new.stand.age.turns ≡ self.old.stand.age.turns)
            × (self.new.first ≡ self.old.first) × (self.new.ends ≡ self.old.ends) }

        // A timer is judged only behind a read of this part that found that nothing more had come.
        ensures judged { AreJudged self.new.steps }
    {
        // (what the worker keeps of its tap is known below only once it is looked into)
        let _opened = &self.tap;
        let turn = self.age.turns;
        let mut log = Log::new();
        let end = self.run_rest(at, rt, gate, directory, now, turn, &mut log);
        self.steps = log.into_steps();
        end
    }

    /// The end of a turn alone: it asks for leave, and in `Bound` takes requests until the lane has none to give, or
    /// as many octets wait as a PDU can have. Nothing is read. So it is for a worker whose last turn at this moment
    /// was `Idle`, and to which nothing can have come since but requests on its lane.
    pub fn take_between<R: Wait, G: Gate>(
        &mut self,
        at: &Exchange,
        rt: &R,
        gate: &mut G,
    ) -> Result<TurnEnd, Fault>
        requires lock { slice_get at.now self.old.stand.tap.lane
            ≡ Some self.old.stand.tap.front.lock }
        requires few { length self.old.wire.unsent < 65536 }
        requires goes_on { ending_of worth self.old.events ≡ None }
        ensures lock { slice_get at.now self.new.stand.tap.lane
            ≡ Some self.new.stand.tap.front.lock }

        // Its steps, and nothing else, lead from what was to what is, in the table's order from where all is decided.
        ensures changes { (queries : _) → Changes self.new.stand.age.turns
            (scene_of L.offered L.polls L.failures (G.asked gate.old) (G.told gate.old)
            queries self.old)
            self.new.steps
            (scene_of L.offered L.polls L.failures (G.asked gate.new) (G.told gate.new)
            queries self.new) }
        ensures order { (t : Before) → t.start ≡ Settled false
            → IsTurn (is_bound self.new.stand.session.state) (are_all_quiet self.new.steps) result
            (phase_of t self.new.steps) }
        ensures waits { (t : Before) → t.start ≡ Settled false → OnOk result
            (Waits (phase_of t self.new.steps) self.new.wire.unsent self.new.wire.rest) }

        ensures kept { (self.new.held ≡ self.old.held) × (self.new.wire.link ≡ self.old.wire.link)
            × (self.new.wire.rest ≡ self.old.wire.rest)
            × (self.new.stand.age.turns ≡ self.old.stand.age.turns)
            × (self.new.first ≡ self.old.first) × (self.new.ends ≡ self.old.ends) }
    {
        // (what the worker keeps of its tap is known below only once it is looked into)
        let _opened = &self.tap;
        let turn = self.age.turns;
        let mut log = Log::new();
        let end = self.take_part(false, at, rt, gate, turn, &mut log);
        self.steps = log.into_steps();
        end
    }
}
