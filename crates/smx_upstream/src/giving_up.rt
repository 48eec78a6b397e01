//! All that a lane holds is given up, while its link stays.
ghost use Rattle.std.specs.Prelude.{◌≡◌, ◌++◌, length, slice_get, Some, None};
ghost use Rattle.smx_upstream.specs.declared.abandoning.AbandonEnd.{AbandonEnd};
ghost use Rattle.smx_upstream.specs.declared.abandoning.AbandonEnd.TheVariants.{Emptied};
ghost use Rattle.smx_upstream.specs.declared.event.Event.TheVariants.{GaveUp};
ghost use Rattle.smx_upstream.specs.Abandoning.{LeavesNone};
ghost use Rattle.smx_upstream.specs.Events.{worth};
ghost use Rattle.smx_upstream.specs.GivingUp.{GivesUpSo};
ghost use Rattle.smx_upstream.specs.Standing.{Does};

use crate::abandoning::give_up_queued;
use crate::event::{Event, GivenUp};
use crate::losing::lose;
use crate::worker::UpstreamWorker;
use smx_link::Link;
use smx_shared::Exchange;
use smx_turns::Gate;
use std::snapshot::Snapshot;
use std::sync::Wait;

impl<L: Link + Drop> UpstreamWorker<L> {
    /// Gives up each request that was taken and not answered, and each that is queued, so that its client
    /// is told; of each the gate is told. The lane is down from then on, while the link and the session
    /// stay as they are: answers to messages still go out, and `stop` still unbinds. It is called between
    /// turns, may wait, and takes memory only where the lane's history is full. The moment is in
    /// milliseconds, as of a take. How many requests were given up.
    pub fn give_up<R: Wait, G: Gate>(
        &mut self,
        at: &Exchange,
        rt: &R,
        gate: &mut G,
        now: u64,
    ) -> usize
        requires lock { slice_get at.now self.old.stand.tap.lane
            ≡ Some self.old.stand.tap.front.lock }
        ensures lock { slice_get at.now self.new.stand.tap.lane
            ≡ Some self.new.stand.tap.front.lock }
        ensures event { GivesUpSo self.old.events self.new.events
            (λ given. Does self.old.stand (GaveUp given) self.new.stand) }
        ensures moment { GivesUpSo self.old.events self.new.events (λ given. given.now ≡ now) }
        ensures told { GivesUpSo self.old.events self.new.events
            (λ given. G.told gate.new ≡ G.told gate.old ++ (worth (GaveUp given)).tells) }
        ensures asked { G.asked gate.new ≡ G.asked gate.old }

        // It counts those of which the gate was told.
        ensures count { GivesUpSo self.old.events self.new.events
            (λ given. result ≡ length (worth (GaveUp given)).tells) }

        ensures all { GivesUpSo self.old.events self.new.events
            (λ given. given.lost.value.end ≡ None → length given.lost.value.given ≡ 1025) }

        // Each request that was accepted before the lane came up is settled, and the lane is down.
        ensures settled { GivesUpSo self.old.events self.new.events
            (λ given. given.abandoned.value.end ≡ Emptied
            → LeavesNone given.between.value.front self.new.stand.tap.front) }
        ensures same { self.new ≡ record self.old {
          stand = record self.old.stand { tap = self.new.stand.tap };
          events = self.new.events;
        } }
    {
        let lane = self.tap.lane();
        let lost = lose(&mut self.tap, at, rt, gate);
        let between = Snapshot::of(&self.tap);
        let abandoned = give_up_queued(&mut self.tap, at, rt, gate, now);
        let event = Event::GaveUp(GivenUp {
            lane,
            now,
            lost: Snapshot::of(&lost),
            between,
            abandoned: Snapshot::of(&abandoned),
        });
        self.events = self.events.and(&event);
        lost.failed + abandoned.failed
    }
}
