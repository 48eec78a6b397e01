//! A request that the centre has left without an answer for too long.
ghost use Rattle.std.specs.Prelude.{◌≡◌, ◌++◌, slice_get, Some, Err, OnErr};
ghost use Rattle.smx_upstream.specs.Events.{expiry_tells};
ghost use Rattle.smx_upstream.specs.Phases.{phase_of, Phase, Before, LeadsTo, Sweeping};
ghost use Rattle.smx_upstream.specs.Working.{scene_of, Leads};

use crate::event::{Event, Span};
use crate::losing::tell_of;
use crate::spent::{is_spent_expiry, unless_spent};
use crate::worker::{UpstreamWorker, jot};
use smx_history::Failed;
use smx_link::Link;
use smx_shared::{Exchange, ExpiryFault};
use smx_turns::{Fault, Gate, Log};
use std::snapshot::Snapshot;
use std::sync::Wait;

// Tells the gate of the client whose request it was.
fn tell<G: Gate>(gate: &mut G, lane: usize, failed: &Result<Failed, ExpiryFault>)
    ensures asked { G.asked gate.new ≡ G.asked gate.old }
    ensures told { G.told gate.new ≡ G.told gate.old ++ expiry_tells lane failed.now }
{
    if let Ok(failed) = failed {
        tell_of(gate, lane, failed);
    }
}

impl<L: Link + Drop> UpstreamWorker<L> {
    // Gives up at most one request: one that was taken so long ago, as of the last moment that was
    // handed in.
    pub(crate) fn expire<R: Wait, G: Gate>(
        &mut self,
        span: Span,
        at: &Exchange,
        rt: &R,
        gate: &mut G,
        log: &mut Log<Event>,
    ) -> Result<(), Fault>
        requires lock { slice_get at.now self.old.first.tap.lane
            ≡ Some self.old.first.tap.front.lock }
        ensures phase { (t : Before) (p : Phase) → phase_of t log.old ≡ Sweeping span p
            → LeadsTo result (λ _. p) (phase_of t log.new) }
        ensures goes { (turn queries : _) → Leads turn
            (scene_of L.offered L.polls L.failures (G.asked gate.old)
            (G.told gate.old) queries self.old)
            log.old
            (scene_of L.offered L.polls L.failures (G.asked gate.new)
            (G.told gate.new) queries self.new)
            log.new }
        ensures same { self.new ≡ record self.old {
          stand = record self.old.stand { tap = self.new.stand.tap };
          events = self.new.events;
        } }
    {
        let lane = self.tap.lane();
        let now = self.session.latest();
        let time = self.age.time_of(span);
        let failed = self.tap.fail_expired(at, rt, now, time);
        tell(gate, lane, &failed);
        let event = Event::Expired(lane, span, Snapshot::of(&failed));
        jot(event, failed.is_err(), &mut self.events, log);
        unless_spent(is_spent_expiry(&failed))
    }
}
