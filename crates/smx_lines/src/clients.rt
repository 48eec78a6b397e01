//! Clients that enter, collect and leave.
ghost use Rattle.std.specs.Prelude.{◌≡◌, ℕ, List, ◌++◌, length, map, Option, IfOk};
ghost use Rattle.std.specs.List.{flat_map};
ghost use Rattle.smx_history.specs.declared.limits.Limits.{Limits};
ghost use Rattle.smx_lines.specs.Relay.{Relay, RelayLane, client_turn, collect_text, collect_lane};
ghost use Rattle.smx_lines.specs.Relay.{enter_lane, enter_and_leave_lane};
ghost use Rattle.smx_lines.specs.Relay.{client_of, lane_after};
ghost use Rattle.smx_lines.specs.Messages.{leave_turn};
ghost use Rattle.smx_lines.specs.Turns.{collect_turn};
ghost use Rattle.smx_lines.specs.States.{StandsFor, AreOn, IsReached, Prints, TurnLeaves, IsKnown};
ghost use Rattle.smx_lines.specs.Private.Lanes.{AreReached, EntersLanes, HasLeftLanes, HaveEntered};

use crate::link::ClientLink;
use crate::messages::{left_lines, send};
use crate::on_lane::{CALLER, collect_on};
use crate::state::{LinkedClient, LinkedLane, State};
use crate::texts::{client_line, none_line};
use smx_lane::AdmitFault;
use smx_session::Kind;
use std::alloc::{AllocError, Global};

// Admits the client on one lane after another, and gives the index of the first that refuses it.
fn admit_all(lanes: &mut Vec<LinkedLane>, client: u64) -> Result<Option<usize>, AllocError>
    ensures { (limits : Limits) (clients : List (Option ℕ)) (ls : List RelayLane)
        → AreOn limits clients ls lanes.old.items
        → IfOk result (λ refusing. EntersLanes limits clients ls client refusing lanes.new.items) }
{
    for at in 0..lanes.len() {
        match lanes[at].lane.admit(CALLER, client) {
            Ok(()) => {}
            Err(AdmitFault::NoMemory) => return Err(AllocError),
            Err(AdmitFault::Known) => return Ok(Some(at)),
            Err(AdmitFault::HistoryFull) => return Ok(Some(at)),
        }
    }
    Ok(None)
}

// Retires the client on the lanes before an index.
fn retire_before(lanes: &mut Vec<LinkedLane>, count: usize, client: u64)
    requires { HaveEntered client count lanes.old.items }
    ensures { (limits : Limits) (clients : List (Option ℕ))
        (some : List RelayLane) (others : List RelayLane) → length some ≡ count
        → AreOn limits clients (map (lane_after (enter_lane client)) some ++ others) lanes.old.items
        → AreOn limits clients (map (lane_after (enter_and_leave_lane client)) some ++ others)
        lanes.new.items }
{
    for at in 0..count {
        let _ = lanes[at].lane.retire(CALLER, client);
    }
}

/// A new client enters on each lane, or on none where a lane refuses it. It is bound so, or is
/// still to bind.
pub fn enter(alloc: Global, state: &mut State, kind: Option<Kind>) -> Result<Vec<u8>, AllocError>
    requires { IsReached state.old }
    ensures { (s : Relay) → StandsFor state.old s → IfOk result (λ text.
        TurnLeaves (client_turn s kind) state.new text.items) }
{
    let client = state.clients.list.len() as u64;
    match admit_all(&mut state.lanes, client)? {
        None => {
            let link = ClientLink::new(alloc, kind, state.places);
            state
                .clients
                .list
                .push(Some(LinkedClient { last: 0, link }))?;
            client_line(alloc, client)
        }
        Some(refusing) => {
            retire_before(&mut state.lanes, refusing, client);
            state.clients.list.push(None)?;
            Vec::from_slice(alloc, b"refused\n")
        }
    }
}

// The client leaves each lane where it is present.
fn leave_all(lanes: &mut Vec<LinkedLane>, client: u64)
    requires { AreReached lanes.old.items }
    ensures { HasLeftLanes client lanes.old.items lanes.new.items }
{
    for at in 0..lanes.len() {
        let _left = lanes[at].lane.retire(CALLER, client);
    }
}

/// A client leaves each lane, its prefixes go, and each of its messages is answered.
pub(crate) fn leave(alloc: Global, state: &mut State, client: u64) -> Result<Vec<u8>, AllocError>
    requires reached { IsReached state.old }
    requires known { IsKnown state.old.clients.list.items client }
    ensures { (s : Relay) → StandsFor state.old s → IfOk result (λ text.
        TurnLeaves (leave_turn client s) state.new text.items) }
{
    leave_all(&mut state.lanes, client);
    state.routes.remove(client);
    let messages = state.clients.known_mut(client).link.empty()?;
    left_lines(alloc, &messages)
}

// Collects on one lane after another what waits for the client.
fn collect_all(
    alloc: Global,
    lanes: &mut Vec<LinkedLane>,
    client: u64,
) -> Result<Vec<u8>, AllocError>
    requires { AreReached lanes.old.items }
    ensures { (limits : Limits) (clients : List (Option ℕ)) (ls : List RelayLane)
        → AreOn limits clients ls lanes.old.items
        → IfOk result (λ text. (text.items ≡ flat_map (λ l. collect_text client l.history) ls)
        × AreOn limits clients (map (lane_after (collect_lane client)) ls) lanes.new.items) }
{
    let mut text = Vec::new(alloc);
    for at in 0..lanes.len() {
        let waiting = collect_on(alloc, &mut lanes[at].lane, client)?;
        text.extend_from_slice(&waiting)?;
    }
    Ok(text)
}

/// A client collects what waits for it. There is no text where the client isn't known.
pub fn collect(alloc: Global, state: &mut State, client: u64) -> Result<Option<Vec<u8>>, AllocError>
    requires { IsReached state.old }
    ensures { (s : Relay) → StandsFor state.old s → IfOk result (λ text.
        Prints (collect_turn s client (client_of s.clients client)) state.new text) }
{
    if state.clients.get(client).is_none() {
        return Ok(None);
    }
    let mut text = collect_all(alloc, &mut state.lanes, client)?;
    text.extend_from_slice(&send(alloc, state, client)?)?;
    if text.is_empty() {
        return Ok(Some(none_line(alloc, client)?));
    }
    Ok(Some(text))
}
