//! Requests that stand one behind the other are submitted by one hold.
ghost use Rattle.std.specs.Prelude.{◌≡◌, ◌≤◌, ◌<◌, Bool, List, [], true, length, vec_capacity, Some, None};
ghost use Rattle.smx_session.specs.declared.ask.Ask.{Ask};
ghost use Rattle.smx_shared.specs.Views.{locks_of};
ghost use Rattle.smx_turns.specs.declared.directory.Query.{Query};
ghost use Rattle.smx_client.specs.Scenes.{scene_of};
ghost use Rattle.smx_client.specs.Serving.{held_asks};
ghost use Rattle.smx_client.specs.Table.{Before, phase_of, Admitted, Deciding, weight};
ghost use Rattle.smx_client.specs.Turns.{Leads};

use super::ClientWorker;
use crate::event::Event;
use crate::ledger::note;
use crate::listing::{Lists, RequestList, gather, settle_list};
use smx_link::Link;
use smx_pdu::command::is_forwarded;
use smx_shared::Exchange;
use smx_trace::Trace;
use smx_turns::{Gate, Log};
use std::snapshot::Snapshot;
use std::sync::Wait;

impl<'d, L: Link + Drop> ClientWorker<'d, L> {
    // Whether another request stands behind the PDU that waits, and there is one lane.
    pub(super) fn is_followed(&self) -> bool
        ensures { result ≡ true → length self.now.port.fronts ≡ 1 }
    {
        let follows = matches!(self.wire.next_command(), Some(command) if is_forwarded(command));
        follows && self.port.lanes() == 1
    }

    // Submits the request that waits, whose leave was given, and those behind it that get one, in one hold,
    // and says the answers to those that are refused.
    pub(super) fn forward_all<R: Wait, G: Gate>(
        &mut self,
        at: &Exchange,
        rt: &R,
        gate: &mut G,
        turn: u64,
        empty: Lists,
        log: &mut Log<Event>,
    )
        requires locks { locks_of self.old.origin.port.value.fronts ≡ at.now }
        requires lane { length self.old.port.fronts ≡ 1 }
        requires goes_on { self.old.wire.failed ≡ None }
        requires room { 65536 ≤ self.old.wire.room }
        requires below { length self.old.wire.unsent < 65536 }
        requires asks { held_asks self.old ≡ Some Ask.Request }
        requires empty { (empty.0.items ≡ []) × (16 ≤ vec_capacity empty.0)
            × (empty.1.items ≡ []) × (16 ≤ vec_capacity empty.1) }
        ensures leads { (queries : List Query) → Leads turn
            (scene_of L.offered L.polls L.failures (G.asked gate.old) (G.told gate.old) queries
            self.old)
            log.old
            (scene_of L.offered L.polls L.failures (G.asked gate.new) (G.told gate.new) queries
            self.new)
            log.new }
        ensures phase { (t : Before) (ended : Bool) → phase_of t log.old ≡ Admitted ended 1
            → phase_of t log.new ≡ Deciding ended }
        ensures less { weight self.new.held self.new.wire.rest
            < weight self.old.held self.old.wire.rest }
        ensures same { self.new ≡ record self.old {
          port = self.new.port;
          wire = record self.old.wire {
            said = self.new.wire.said;
            unsent = self.new.wire.unsent;
            room = self.new.wire.room;
            heard = self.new.wire.heard;
            rest = self.new.wire.rest;
          };
          held = self.new.held;
          events = self.new.events;
        } }
    {
        let (offers, room) = empty;
        let Some(first) = self.held.take() else {
            unreachable!()
        };
        let mut requests = RequestList {
            read: Trace::new(),
            offers,
        };
        requests.push(first);
        let accounts = self.desk.accounts.as_slice();
        let next = gather(
            &mut self.wire,
            &self.session,
            accounts,
            gate,
            turn,
            &mut requests,
            log,
        );
        let RequestList { read, offers } = requests;
        let offered = Snapshot::of(&offers);
        let landed = self
            .port
            .submit_all(at, rt, offers, room, &mut self.spares.offers);
        let event = Event::Forwarded(read, offered, Snapshot::of(&landed));
        settle_list(
            &mut self.wire,
            gate,
            self.alloc,
            &mut self.spares.landings,
            landed,
        );
        self.held = next;
        note(&mut self.events, log, event, false);
    }
}
