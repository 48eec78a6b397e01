//! Responses that were read one behind the other go to the lane in one hold.
ghost use Rattle.std.specs.Prelude.{◌≡◌, ◌≤◌, ◌++◌, List, [], true, length, slice_get, vec_capacity, Some, None, IfSome, OnOk};
ghost use Rattle.std.specs.List.{AllByRecursion};
ghost use Rattle.std.specs.Result.{is_err};
ghost use Rattle.smx_pdu.specs.declared.pdu.Pdu.{Pdu};
ghost use Rattle.smx_session.specs.Moments.{is_bound};
ghost use Rattle.smx_upstream.specs.Events.{answer_tells, settled_tells, brought_tells};
ghost use Rattle.smx_upstream.specs.May.{MayDecide};
ghost use Rattle.smx_upstream.specs.Phases.{phase_of, going_on, Before, LeadsTo, Deciding};
ghost use Rattle.smx_upstream.specs.Standing.{is_answer};
ghost use Rattle.smx_upstream.specs.Working.{scene_of, Leads};

use crate::event::Event;
use crate::spent::unless_spent;
use crate::worker::{UpstreamWorker, jot};
use smx_history::Answered;
use smx_lane::{Sent, Settled};
use smx_link::{Link, Wire};
use smx_lock::Spent;
use smx_pdu::Pdu;
use smx_pdu::command::{RESPONSE, is_forwarded};
use smx_session::UpstreamState;
use smx_shared::{BATCH, Exchange, SpareList};
use smx_turns::{Fault, Gate, Log, Party};
use std::alloc::Global;
use std::collections::VecDeque;
use std::snapshot::Snapshot;
use std::sync::Wait;

// Whether a PDU of this command goes to the lane while the session is bound: it is the response of a
// request that is passed on.
fn is_answer(command: u32) -> bool
    ensures { result ≡ is_answer command }
{
    command >= RESPONSE && is_forwarded(command - RESPONSE)
}

// Hears the responses that stand behind the first, as many as a list has.
fn gather<L: Link + Drop>(wire: &mut Wire<L>, responses: &mut Vec<Pdu>)
    requires goes_on { wire.old.failed ≡ None }
    requires one { length responses.old.items ≡ 1 }
    requires room { 16 ≤ vec_capacity responses.old }
    ensures heard { (ps : List Pdu) × (responses.new.items ≡ responses.old.items ++ ps)
        × (wire.new.heard ≡ wire.old.heard ++ ps)
        × AllByRecursion (λ p. is_answer p.command ≡ true) ps }
    ensures few { length responses.new.items ≤ 16 }
    ensures less { length wire.new.rest ≤ length wire.old.rest }
    ensures same { wire.new ≡ record wire.old { heard = wire.new.heard; rest = wire.new.rest } }
{
    for _ in 1..BATCH {
        match wire.next_command() {
            Some(command) if is_answer(command) => {}
            _ => return,
        }
        match wire.hear() {
            Ok(Some(pdu)) => responses.push_reserved(pdu),
            Ok(None) => return,
            Err(_) => return,
        }
    }
}

// Tells the gate of the client whose request was settled.
fn tell_one<G: Gate>(gate: &mut G, lane: usize, answered: &Answered)
    ensures asked { G.asked gate.new ≡ G.asked gate.old }
    ensures told { G.told gate.new ≡ G.told gate.old ++ answer_tells lane answered.now }
{
    if let Answered::Queued { client } | Answered::Late { client } = answered {
        gate.ready(Party::Client {
            client: *client,
            lane,
        });
    }
}

// The same of each. Their list comes back, which is empty.
fn tell_each<G: Gate>(gate: &mut G, lane: usize, settled: Vec<Settled>) -> Vec<Settled>
    ensures asked { G.asked gate.new ≡ G.asked gate.old }
    ensures told { G.told gate.new ≡ G.told gate.old ++ settled_tells lane settled.items }
{
    let mut left = VecDeque::from_vec(settled);
    while let Some(one) = left.pop_front() {
        tell_one(gate, lane, &one.answered);
    }
    left.into_vec()
}

// The same of what the lane said of responses. Whether its tickets are spent.
fn tell_all<G: Gate>(
    gate: &mut G,
    lane: usize,
    spare: &mut SpareList<Settled>,
    brought: Result<Vec<Settled>, (Vec<Pdu>, Spent)>,
) -> bool
    ensures spent { result ≡ is_err brought }
    ensures asked { G.asked gate.new ≡ G.asked gate.old }
    ensures told { G.told gate.new ≡ G.told gate.old ++ brought_tells lane brought }
{
    match brought {
        Ok(settled) => {
            spare.keep(tell_each(gate, lane, settled));
            false
        }
        Err(_) => true,
    }
}

// Lists of which each hold wants one, kept for the next.
#[derive(Drop)]
pub(crate) struct SpareLists {
    pub(crate) responses: SpareList<Pdu>,
    pub(crate) settled: SpareList<Settled>,
    pub(crate) requests: SpareList<Sent>,
}

impl SpareLists {
    pub(crate) fn new() -> SpareLists {
        SpareLists {
            responses: SpareList::new(),
            settled: SpareList::new(),
            requests: SpareList::new(),
        }
    }
}

// Empty lists for responses and for what becomes of them, where there is memory.
fn lists(spares: &mut SpareLists, alloc: Global) -> Option<(Vec<Pdu>, Vec<Settled>)>
    ensures { IfSome result (λ l. (l.0.items ≡ []) × (16 ≤ vec_capacity l.0)
        × (l.1.items ≡ []) × (16 ≤ vec_capacity l.1)) }
{
    match (spares.responses.list(alloc), spares.settled.list(alloc)) {
        (Ok(responses), Ok(room)) => Some((responses, room)),
        _ => None,
    }
}

impl<L: Link + Drop> UpstreamWorker<L> {
    // Whether the PDU that waits goes to the lane, and the next one with it.
    #[inline(always)]
    fn holds_answer(&self) -> bool
        ensures { result ≡ true → (is_bound self.now.stand.session.state ≡ true)
            × (p : Pdu) × (self.now.held ≡ Some p) × (is_answer p.command ≡ true) }
    {
        let Some(pdu) = &self.held else {
            return false;
        };
        let follows = matches!(self.wire.next_command(), Some(command) if is_answer(command));
        follows && is_answer(pdu.command) && self.session.state() == UpstreamState::Bound
    }

    // Empty lists where the PDU that waits goes to the lane, and the next one with it, and there is memory
    // for them.
    #[inline(always)]
    pub(crate) fn lists_to_bring(&mut self) -> Option<(Vec<Pdu>, Vec<Settled>)>
        ensures empty { IfSome result (λ l. (l.0.items ≡ []) × (16 ≤ vec_capacity l.0)
            × (l.1.items ≡ []) × (16 ≤ vec_capacity l.1)) }
        ensures answer { IfSome result (λ l. (is_bound self.old.stand.session.state ≡ true)
            × (p : Pdu) × (self.old.held ≡ Some p) × (is_answer p.command ≡ true)) }
        ensures same { self.new ≡ self.old }
    {
        if !self.holds_answer() {
            return None;
        }
        lists(&mut self.spares, self.alloc)
    }

    // Brings the response that waits, and those that stand behind it, to the lane.
    pub(crate) fn bring<R: Wait, G: Gate>(
        &mut self,
        at: &Exchange,
        rt: &R,
        gate: &mut G,
        now: u64,
        empty: (Vec<Pdu>, Vec<Settled>),
        log: &mut Log<Event>,
    ) -> Result<(), Fault>
        requires lock { slice_get at.now self.old.first.tap.lane
            ≡ Some self.old.first.tap.front.lock }
        requires answer { (p : Pdu) × (self.old.held ≡ Some p) × (is_answer p.command ≡ true) }
        requires bound { is_bound self.old.stand.session.state ≡ true }
        requires goes_on { self.old.ending ≡ None }
        requires empty { (empty.0.items ≡ []) × (16 ≤ vec_capacity empty.0)
            × (empty.1.items ≡ []) × (16 ≤ vec_capacity empty.1) }
        requires may { MayDecide (L.polls self.old.wire.link) self.old.wire.unsent }
        ensures phase { (t : Before) (source : _) → t.now ≡ now
            → phase_of t log.old ≡ Deciding source
            → LeadsTo result (λ _. Deciding (going_on source)) (phase_of t log.new) }
        ensures less { length self.new.wire.rest ≤ length self.old.wire.rest }
        ensures goes { (turn queries : _) → Leads turn
            (scene_of L.offered L.polls L.failures (G.asked gate.old)
            (G.told gate.old) queries self.old)
            log.old
            (scene_of L.offered L.polls L.failures (G.asked gate.new)
            (G.told gate.new) queries self.new)
            log.new }
        ensures same { self.new ≡ record self.old {
          wire = record self.old.wire { heard = self.new.wire.heard; rest = self.new.wire.rest };
          stand = record self.old.stand {
            session = self.new.stand.session;
            tap = self.new.stand.tap;
          };
          held = None;
          events = self.new.events;
        } }
    {
        let (mut responses, room) = empty;
        let Some(first) = self.held.take() else {
            unreachable!()
        };
        self.session.on_pdu(&first, now);
        responses.push_reserved(first);
        gather(&mut self.wire, &mut responses);
        let read = Snapshot::of(&responses);
        let lane = self.tap.lane();
        let brought = self
            .tap
            .answer_all(at, rt, responses, room, &mut self.spares.responses);
        let event = Event::Brought(read, now, lane, Snapshot::of(&brought));
        let spent = tell_all(gate, lane, &mut self.spares.settled, brought);
        jot(event, false, &mut self.events, log);
        unless_spent(spent)
    }
}
