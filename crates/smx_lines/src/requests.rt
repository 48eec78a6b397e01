//! Requests of clients, which go to the lanes.
ghost use Rattle.std.specs.Prelude.{◌≡◌, ◌+◌, ◌%◌, List, length, Some, IfOk, IfSome, IfNone};
ghost use Rattle.std.specs.Prelude.{slice_get, set};
ghost use Rattle.std.specs.List.{AllByRecursion, find};
ghost use Rattle.smx_history.specs.declared.note.Note.{Note};
ghost use Rattle.smx_history.specs.Contents.{AgreesWith, Content};
ghost use Rattle.smx_history.specs.Ring.{ring};
ghost use Rattle.smx_lines.specs.declared.state.LinkedClient.{LinkedClient};
ghost use Rattle.smx_lines.specs.declared.state.LinkedLane.{LinkedLane};
ghost use Rattle.smx_lines.specs.Relay.{Relay, client_of, in_turn_at, lane_for, request_of};
ghost use Rattle.smx_lines.specs.Relay.{with_request};
ghost use Rattle.smx_lines.specs.ClientTurn.{forward};
ghost use Rattle.smx_lines.specs.States.{StandsFor, IsReached, TurnLeaves, IsKnown};
ghost use Rattle.smx_lines.specs.Private.Lanes.{MayAcceptNext, accepts_in};

use crate::on_lane::CALLER;
use crate::state::{LinkedLane, State};
use crate::texts::{accepted_line, to_line};
use smx_history::{Request, Unaccepted, refusal_of};
use smx_pdu::{Pdu, is_forwarded};
use std::alloc::{AllocError, Global};

// Offers a request to each lane, from one on in a ring, and gives the first that accepts it.
fn accept_in_ring(lanes: &mut Vec<LinkedLane>, last: u64, request: Request) -> Option<usize>
    requires own { AllByRecursion (MayAcceptNext request.client request.ordinal) lanes.old.items }
    ensures first { result ≡ find (λ i. accepts_in request.client (slice_get lanes.old.items i))
        (ring (last % length lanes.old.items) (length lanes.old.items)) }
    ensures accepted { IfSome result (λ i.
        (l : LinkedLane) × (after : Content) × (slice_get lanes.old.items i ≡ Some l)
        × (lanes.new.items ≡ set lanes.old.items i (record l { lane = after }))
        × (after.limits ≡ l.lane.limits)
        × ((h : List Note) → AgreesWith h l.lane → AgreesWith (with_request request h) after)) }
    ensures refused { IfNone result (lanes.new.items ≡ lanes.old.items) }
{
    let count = lanes.len();
    if count == 0 {
        return None;
    }
    let first = (last % count as u64) as usize;
    let mut request = request;
    for k in 0..count {
        let at = (first + k) % count;
        match lanes[at].lane.accept(CALLER, request) {
            Ok(()) => return Some(at),
            Err((back, _)) => request = back,
        }
    }
    None
}

// A client's request under its ordinal, of a PDU that is passed on.
#[tactic(auto, unfolding(crate::specs::Relay::request_of))]
fn request_of(client: u64, ordinal: u64, pdu: Pdu) -> Option<Request>
    ensures { result ≡ request_of client ordinal pdu }
{
    if !is_forwarded(pdu.command) {
        return None;
    }
    Some(Request {
        client,
        ordinal,
        own: pdu.number,
        command: pdu.command,
        body: pdu.body,
    })
}

// Offers a client's next request to the lanes.
fn offer(
    alloc: Global,
    state: &mut State,
    last: u64,
    request: Request,
) -> Result<Vec<u8>, AllocError>
    requires reached { IsReached state.old }
    requires known { (k : LinkedClient)
        × (client_of state.old.clients.list.items request.client ≡ Some k)
        × (k.last ≡ last) }
    requires next { request.ordinal ≡ last + 1 }
    ensures { (s : Relay) → StandsFor state.old s → IfOk result (λ text.
        TurnLeaves (in_turn_at s request (lane_for s request.client last)) state.new text.items) }
{
    let client = request.client;
    let ordinal = request.ordinal;
    let refusal = refusal_of(alloc, Unaccepted::AllFull, request.command, request.own);
    match accept_in_ring(&mut state.lanes, last, request) {
        Some(at) => {
            state.clients.known_mut(client).last = ordinal;
            accepted_line(alloc, client, at as u64)
        }
        None => to_line(alloc, client, &refusal),
    }
}

/// A client's request goes to the first lane that accepts it.
#[tactic(auto, unfolding(crate::specs::ClientTurn::forward))]
pub fn forward(
    alloc: Global,
    state: &mut State,
    client: u64,
    pdu: Pdu,
) -> Result<Vec<u8>, AllocError>
    requires reached { IsReached state.old }
    requires known { IsKnown state.old.clients.list.items client }
    ensures { (s : Relay) → StandsFor state.old s → IfOk result (λ text.
        TurnLeaves (forward client pdu s) state.new text.items) }
{
    let Some(known) = state.clients.get(client) else {
        unreachable!()
    };
    let last = known.last;
    // No script has so many lines that the ordinals end.
    let Some(ordinal) = last.checked_add(1) else {
        return Err(AllocError);
    };
    match request_of(client, ordinal, pdu) {
        Some(request) => offer(alloc, state, last, request),
        None => Ok(Vec::new(alloc)),
    }
}
