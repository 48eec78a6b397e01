//! What becomes of a PDU that the session has decided.
ghost use Rattle.std.specs.Prelude.{◌≡◌, ◌≢◌, ◌++◌, ◌∷◌, ◌<◌, [], slice_get, length, false, Some, None, IfSome, IfNone};
ghost use Rattle.smx_session.specs.declared.up_act.UpAct.TheVariants as act;
ghost use Rattle.smx_pdu.specs.Answers.{refusal};
ghost use Rattle.smx_routes.specs.Window.{Window, IsFirstFree};
ghost use Rattle.smx_turns.specs.Worth.{IsWorth};
ghost use Rattle.smx_upstream.specs.Events.{fate_worth, decided_worth, kept_by, finding, lane_end};
ghost use Rattle.smx_turns.specs.Puts.{AtIndex};
ghost use Rattle.smx_upstream.specs.Standing.{Becomes, Owes, Reads};

use crate::event::Fate;
use crate::rising::{raise, stays_down};
use smx_box::{PutFault, Sender};
use smx_history::Answered;
use smx_pdu::status::{ESME_RINVCMDLEN, ESME_RMSGQFUL, ESME_RX_T_APPN};
use smx_pdu::{Pdu, read_destination};
use smx_routes::MoWindow;
use smx_session::UpAct;
use smx_shared::{Exchange, Tap};
use smx_turns::{Directory, End, Gate, MoItem, Outcome, Party, Place, is_full_at, put_at};
use std::alloc::Global;
use std::snapshot::Snapshot;
use std::sync::Wait;

// What became of a PDU, and the PDU itself where it waits.
type Carried = Outcome<Fate, Option<Pdu>>;

fn settled(fate: Fate, sent: Option<Pdu>, ends: Option<End>) -> Carried
    ensures fate { result.event ≡ fate }
    ensures sent { result.sent ≡ sent }
    ensures ends { (result.ends ≡ ends) × (result.quiet ≡ false) }
    ensures back { result.answer ≡ None }
{
    Outcome {
        event: fate,
        quiet: false,
        sent,
        ends,
        answer: None,
    }
}

// It waits, since a lane or a box takes no more calls.
fn kept(fate: Fate, pdu: Pdu) -> Carried
    ensures fate { result.event ≡ fate }
    ensures sent { result.sent ≡ None }
    ensures ends { (result.ends ≡ None) × (result.quiet ≡ false) }
    ensures back { result.answer ≡ Some pdu }
{
    Outcome {
        event: fate,
        quiet: false,
        sent: None,
        ends: None,
        answer: Some(pdu),
    }
}

// How a lane ends the work that stays down.
fn lane_end(stays_down: bool) -> Option<End>
    ensures { result ≡ lane_end stays_down }
{
    if stays_down {
        Some(End::LaneDown)
    } else {
        None
    }
}

// A response goes to the lane.
pub(crate) fn to_lane<R: Wait, G: Gate>(
    tap: &mut Tap,
    at: &Exchange,
    rt: &R,
    gate: &mut G,
    pdu: Pdu,
) -> Carried
    requires lock { slice_get at.now tap.old.lane ≡ Some tap.old.front.lock }
    ensures lock { (tap.new.lane ≡ tap.old.lane) × (tap.new.front.lock ≡ tap.old.front.lock) }
    ensures becomes { (ss : _) → Becomes pdu act.ToLane result.event tap.old ss tap.new ss }
    ensures owes { (w : _) → Owes tap.old.lane pdu result.event w w }
    ensures worth { IsWorth result (decided_worth pdu act.ToLane result.event) }
    ensures back { result.answer ≡ kept_by pdu result.event }
    ensures finds { (fate_worth pdu result.event).finds ≡ [] }
    ensures asked { G.asked gate.new ≡ G.asked gate.old }
    ensures told { G.told gate.new ≡ G.told gate.old ++ (fate_worth pdu result.event).tells }
{
    let lane = tap.lane();
    match tap.answer(at, rt, pdu) {
        Ok(answered) => {
            if let Answered::Queued { client } | Answered::Late { client } = &answered {
                gate.ready(Party::Client {
                    client: *client,
                    lane,
                });
            }
            settled(Fate::Lane(lane, Snapshot::of(&answered)), None, None)
        }
        Err((pdu, _)) => kept(Fate::LaneSpent, pdu),
    }
}

// A message whose client has no sender here, or no place for it, is answered.
fn refused(alloc: Global, pdu: &Pdu, fate: Fate, status: u32) -> Carried
    ensures fate { result.event ≡ fate }
    ensures sent { result.sent ≡ Some (refusal pdu.now.command status pdu.now.number) }
    ensures ends { (result.ends ≡ None) × (result.quiet ≡ false) }
    ensures back { result.answer ≡ None }
{
    let answer = Pdu::refusal(alloc, pdu.command, status, pdu.number);
    settled(fate, Some(answer), None)
}

// The number under which this slot's client is put the next message, where it may have one more.
fn number_at(owed: &Vec<MoWindow>, slot: usize) -> Option<u32>
    ensures next { IfSome result (λ given. (w : Window) × (slice_get owed.now.items slot ≡ Some w)
        × IsFirstFree w given × (length w.waiting ≢ w.places)) }
    ensures none { IfNone result ((w : Window) → slice_get owed.now.items slot ≡ Some w
        → length w.waiting ≡ w.places) }
{
    if slot >= owed.len() || owed[slot].is_full() {
        return None;
    }
    Some(owed[slot].next())
}

// Takes in a message that was put.
fn keep_at(
    owed: &mut Vec<MoWindow>,
    slot: usize,
    given: u32,
    lane: usize,
    number: u32,
    command: u32,
)
    requires { (w : Window) × (slice_get owed.old.items slot ≡ Some w)
        × IsFirstFree w given × (length w.waiting ≢ w.places) }
    ensures { AtIndex slot owed.old.items owed.new.items (λ w v. IsFirstFree w given
        × (v ≡ record w {
          last = given;
          waiting = w.waiting
              ++ record {
                given = given;
                lane = lane;
                number = number;
                command = command;
                since = 0;
              } ∷ [];
        })) }
{
    owed[slot].keep(given, lane, number, command, 0);
}

// A message goes into the box of the slot that the directory names, under a number of this link's own.
pub(crate) fn to_box<R: Wait, G: Gate>(
    alloc: Global,
    tap: &Tap,
    senders: &mut Vec<Sender<MoItem>>,
    owed: &mut Vec<MoWindow>,
    rt: &R,
    gate: &mut G,
    place: Place,
    pdu: Pdu,
) -> Carried
    requires slot { place.slot < length senders.old.items }
    requires read { Reads pdu }
    ensures becomes { Becomes pdu act.Mo result.event tap.now senders.old.items tap.now senders.new.items }
    ensures owes { Owes tap.now.lane pdu result.event owed.old.items owed.new.items }
    ensures worth { IsWorth result (decided_worth pdu act.Mo result.event) }
    ensures back { result.answer ≡ kept_by pdu result.event }
    ensures finds { (fate_worth pdu result.event).finds ≡ finding pdu (Some place) }
    ensures asked { G.asked gate.new ≡ G.asked gate.old }
    ensures told { G.told gate.new ≡ G.told gate.old ++ (fate_worth pdu result.event).tells }
{
    let Some(given) = number_at(owed, place.slot) else {
        return refused(alloc, &pdu, Fate::Crowded(place), ESME_RMSGQFUL);
    };
    let (lane, number, command) = (tap.lane(), pdu.number, pdu.command);
    let item = MoItem {
        client: place.client,
        lane,
        number: given,
        pdu,
    };
    match put_at(rt, senders, place.slot, item) {
        Ok(nth) => {
            keep_at(owed, place.slot, given, lane, number, command);
            gate.ready(Party::Slot(place.slot));
            let full = is_full_at(rt, senders, place.slot);
            settled(Fate::Put(place, nth, given, full), None, None)
        }
        Err((item, PutFault::Full)) => refused(alloc, &item.pdu, Fate::Full(place), ESME_RMSGQFUL),
        Err((item, PutFault::Spent)) => kept(Fate::BoxSpent(place), item.pdu),
    }
}

// A message goes to the client to which its destination is routed.
pub(crate) fn route<R: Wait, G: Gate, D: Directory>(
    alloc: Global,
    tap: &Tap,
    senders: &mut Vec<Sender<MoItem>>,
    owed: &mut Vec<MoWindow>,
    rt: &R,
    gate: &mut G,
    directory: &mut D,
    pdu: Pdu,
) -> Carried
    ensures becomes { Becomes pdu act.Mo result.event tap.now senders.old.items tap.now senders.new.items }
    ensures owes { Owes tap.now.lane pdu result.event owed.old.items owed.new.items }
    ensures worth { IsWorth result (decided_worth pdu act.Mo result.event) }
    ensures back { result.answer ≡ kept_by pdu result.event }
    ensures finds { D.queries directory.new
        ≡ D.queries directory.old ++ (fate_worth pdu result.event).finds }
    ensures asked { G.asked gate.new ≡ G.asked gate.old }
    ensures told { G.told gate.new ≡ G.told gate.old ++ (fate_worth pdu result.event).tells }
{
    let found = match read_destination(pdu.body.as_slice()) {
        Ok(destination) => directory.find(rt, destination),
        Err(_) => return refused(alloc, &pdu, Fate::Unread, ESME_RINVCMDLEN),
    };
    let Some(place) = found else {
        return refused(alloc, &pdu, Fate::Unrouted(None), ESME_RX_T_APPN);
    };
    if place.slot >= senders.len() {
        return refused(alloc, &pdu, Fate::Unrouted(Some(place)), ESME_RX_T_APPN);
    }
    to_box(alloc, tap, senders, owed, rt, gate, place, pdu)
}

// What becomes of a PDU that the session decided so.
pub(crate) fn carry<R: Wait, G: Gate, D: Directory>(
    alloc: Global,
    tap: &mut Tap,
    senders: &mut Vec<Sender<MoItem>>,
    owed: &mut Vec<MoWindow>,
    at: &Exchange,
    rt: &R,
    gate: &mut G,
    directory: &mut D,
    act: UpAct,
    pdu: Pdu,
) -> Carried
    requires lock { slice_get at.now tap.old.lane ≡ Some tap.old.front.lock }
    ensures lock { (tap.new.lane ≡ tap.old.lane) × (tap.new.front.lock ≡ tap.old.front.lock) }
    ensures becomes { Becomes pdu act result.event tap.old senders.old.items tap.new senders.new.items }
    ensures owes { Owes tap.old.lane pdu result.event owed.old.items owed.new.items }
    ensures worth { IsWorth result (decided_worth pdu act result.event) }
    ensures back { result.answer ≡ kept_by pdu result.event }
    ensures finds { D.queries directory.new
        ≡ D.queries directory.old ++ (fate_worth pdu result.event).finds }
    ensures asked { G.asked gate.new ≡ G.asked gate.old }
    ensures told { G.told gate.new ≡ G.told gate.old ++ (fate_worth pdu result.event).tells }
{
    match act {
        UpAct::ToLane => to_lane(tap, at, rt, gate, pdu),
        UpAct::Mo => route(alloc, tap, senders, owed, rt, gate, directory, pdu),
        UpAct::Up => {
            let rise = raise(tap, at, rt);
            let ends = lane_end(stays_down(&rise));
            settled(Fate::Up(Snapshot::of(&rise)), None, ends)
        }
        UpAct::Answer(answer) => settled(Fate::Own, Some(answer), None),
        UpAct::Leave(answer) => settled(Fate::Own, Some(answer), Some(End::Left)),
        UpAct::Failed(status) => settled(Fate::Own, None, Some(End::Refused(status))),
        UpAct::Closed => settled(Fate::Own, None, Some(End::Stopped)),
        UpAct::Ignore => settled(Fate::Own, None, None),
    }
}
