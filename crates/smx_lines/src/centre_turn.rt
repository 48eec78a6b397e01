//! Octets of the centre on a lane: the lane's session decides each PDU.
ghost use Rattle.std.specs.Prelude.{◌≡◌, ◌<◌, length, IfOk};
ghost use Rattle.smx_pdu.specs.Answers.{nack_of_undecoded};
ghost use Rattle.smx_lines.specs.Relay.{Relay};
ghost use Rattle.smx_lines.specs.ClientTurn.{each_pdu};
ghost use Rattle.smx_lines.specs.CentreTurn.{BackTurn, centre_act, centre_end, centre_pdu, to_lane};
ghost use Rattle.smx_lines.specs.States.{StandsFor, IsReached, MayPrint, TurnLeaves};

use crate::lane_link::{give_up, lower};
use crate::messages::message;
use crate::on_lane::back_on;
use crate::state::State;
use crate::texts::{down_line, farewell_lines, up_line};
use smx_pdu::Pdu;
use smx_session::UpAct;
use std::alloc::{AllocError, Global};

// Hands a response to a lane.
fn back(alloc: Global, state: &mut State, lane: u64, response: Pdu) -> Result<Vec<u8>, AllocError>
    requires { lane < length state.old.lanes.items }
    ensures turned { (s : Relay) → StandsFor state.old s → IfOk result (λ text.
        TurnLeaves (to_lane lane response s) state.new text.items) }
    ensures lanes { length state.new.lanes.items ≡ length state.old.lanes.items }
{
    back_on(alloc, &mut state.lanes[lane as usize].lane, response)
}

// Does what a lane's session says of a PDU.
fn centre_act(
    alloc: Global,
    state: &mut State,
    lane: u64,
    pdu: Pdu,
    act: UpAct,
) -> Result<Vec<u8>, AllocError>
    requires there { lane < length state.old.lanes.items }
    requires reached { IsReached state.old }
    ensures turned { (s : Relay) → StandsFor state.old s → IfOk result (λ text.
        TurnLeaves (centre_act lane pdu act s) state.new text.items) }
    ensures lanes { length state.new.lanes.items ≡ length state.old.lanes.items }
{
    match act {
        UpAct::ToLane => back(alloc, state, lane, pdu),
        UpAct::Mo => message(alloc, state, lane, pdu),
        UpAct::Answer(answer) => up_line(alloc, lane, &answer),
        UpAct::Leave(answer) => {
            lower(state, lane);
            farewell_lines(alloc, lane, &answer)
        }
        UpAct::Failed(_) => {
            lower(state, lane);
            down_line(alloc, lane)
        }
        UpAct::Closed => {
            lower(state, lane);
            down_line(alloc, lane)
        }
        UpAct::Up => Ok(Vec::new(alloc)),
        UpAct::Ignore => Ok(Vec::new(alloc)),
    }
}

// A PDU of the centre. What comes after its unbind is dropped.
fn centre_pdu(alloc: Global, state: &mut State, lane: u64, pdu: Pdu) -> Result<Vec<u8>, AllocError>
    requires there { lane < length state.old.lanes.items }
    requires reached { IsReached state.old }
    ensures turned { (s : Relay) → StandsFor state.old s → IfOk result (λ text.
        TurnLeaves (centre_pdu lane pdu s) state.new text.items) }
    ensures lanes { length state.new.lanes.items ≡ length state.old.lanes.items }
{
    let link = &mut state.lanes[lane as usize].link;
    if link.has_left() {
        return Ok(Vec::new(alloc));
    }
    let act = link.decide(&pdu);
    centre_act(alloc, state, lane, pdu, act)
}

// Each PDU of the centre in turn.
fn each_centre_pdu(
    alloc: Global,
    state: &mut State,
    lane: u64,
    pdus: Vec<Pdu>,
) -> Result<Vec<u8>, AllocError>
    requires there { lane < length state.old.lanes.items }
    requires reached { IsReached state.old }
    ensures turned { (s : Relay) → StandsFor state.old s → IfOk result (λ text.
        TurnLeaves (each_pdu (centre_pdu lane) s pdus.items) state.new text.items) }
    ensures lanes { length state.new.lanes.items ≡ length state.old.lanes.items }
{
    let mut text = Vec::new(alloc);
    for pdu in pdus {
        text.extend_from_slice(&centre_pdu(alloc, state, lane, pdu)?)?;
    }
    Ok(text)
}

// A lane's link is lost at a bad length.
fn centre_end(
    alloc: Global,
    state: &mut State,
    lane: u64,
    has_failed: bool,
) -> Result<Vec<u8>, AllocError>
    requires { lane < length state.old.lanes.items }
    ensures turned { (s : Relay) → StandsFor state.old s → IfOk result (λ text.
        TurnLeaves (centre_end lane has_failed s) state.new text.items) }
    ensures lanes { length state.new.lanes.items ≡ length state.old.lanes.items }
{
    if !has_failed {
        return Ok(Vec::new(alloc));
    }
    if state.lanes[lane as usize].link.has_left() {
        return Ok(Vec::new(alloc));
    }
    lower(state, lane);
    farewell_lines(alloc, lane, &Pdu::undecoded(alloc))
}

/// Octets of the centre. There is no text where there is no such lane.
pub(crate) fn receive_back(
    alloc: Global,
    state: &mut State,
    lane: u64,
    octets: &[u8],
) -> Result<Option<Vec<u8>>, AllocError>
    requires { IsReached state.old }
    ensures { (s : Relay) → StandsFor state.old s → IfOk result (λ text.
        MayPrint (BackTurn s lane octets.now) state.new text) }
{
    let at = lane as usize;
    if at >= state.lanes.len() {
        return Ok(None);
    }
    if !state.lanes[at].lane.is_up() {
        return Ok(Some(down_line(alloc, lane)?));
    }
    let link = &mut state.lanes[at].link;
    let pdus = link.receive(alloc, octets)?;
    let has_failed = link.has_failed();
    let mut text = each_centre_pdu(alloc, state, lane, pdus)?;
    text.extend_from_slice(&centre_end(alloc, state, lane, has_failed)?)?;
    give_up(state, lane);
    Ok(Some(text))
}
