//! Octets of a client: its session decides each PDU.
ghost use Rattle.std.specs.Prelude.{◌≡◌, IfOk};
ghost use Rattle.smx_lines.specs.Relay.{Relay};
ghost use Rattle.smx_lines.specs.ClientTurn.{InTurn, client_act, client_end, client_pdu, each_pdu};
ghost use Rattle.smx_lines.specs.ClientTurn.{hang_up};
ghost use Rattle.smx_lines.specs.States.{StandsFor, IsReached, MayPrint, TurnLeaves, IsKnown};

use crate::clients::leave;
use crate::messages::answer;
use crate::requests::forward;
use crate::state::State;
use crate::texts::{closed_line, hangup_lines, to_line};
use smx_pdu::Pdu;
use smx_session::Act;
use std::alloc::{AllocError, Global};

// A client that is hung up leaves.
fn hang_up(
    alloc: Global,
    state: &mut State,
    client: u64,
    answer: &Pdu,
) -> Result<Vec<u8>, AllocError>
    requires reached { IsReached state.old }
    requires known { IsKnown state.old.clients.list.items client }
    ensures { (s : Relay) → StandsFor state.old s → IfOk result (λ text.
        TurnLeaves (hang_up client answer.now s) state.new text.items) }
{
    let mut text = hangup_lines(alloc, client, answer)?;
    text.extend_from_slice(&leave(alloc, state, client)?)?;
    Ok(text)
}

// Does what a client's session says of a PDU.
fn client_act(
    alloc: Global,
    state: &mut State,
    client: u64,
    pdu: Pdu,
    act: &Act,
) -> Result<Vec<u8>, AllocError>
    requires reached { IsReached state.old }
    requires known { IsKnown state.old.clients.list.items client }
    ensures { (s : Relay) → StandsFor state.old s → IfOk result (λ text.
        TurnLeaves (client_act client pdu act.now s) state.new text.items) }
{
    match act {
        Act::Answer(answer) => to_line(alloc, client, answer),
        Act::Bind {
            kind: _,
            account: _,
            answer,
        } => to_line(alloc, client, answer),
        Act::Refuse(answer) => to_line(alloc, client, answer),
        Act::Forward => forward(alloc, state, client, pdu),
        Act::Leave(answer) => {
            let mut text = to_line(alloc, client, answer)?;
            text.extend_from_slice(&leave(alloc, state, client)?)?;
            Ok(text)
        }
        Act::Closed => leave(alloc, state, client),
        Act::Hangup(answer) => hang_up(alloc, state, client, answer),
        Act::MoAnswer { number: _ } => answer(alloc, state, client, pdu),
        Act::Ignore => Ok(Vec::new(alloc)),
    }
}

// A PDU of a client.
fn client_pdu(
    alloc: Global,
    state: &mut State,
    client: u64,
    pdu: Pdu,
) -> Result<Vec<u8>, AllocError>
    requires reached { IsReached state.old }
    requires known { IsKnown state.old.clients.list.items client }
    ensures { (s : Relay) → StandsFor state.old s → IfOk result (λ text.
        TurnLeaves (client_pdu client pdu s) state.new text.items) }
{
    let known = state.clients.known_mut(client);
    let act = known.link.decide(&pdu, &state.accounts)?;
    client_act(alloc, state, client, pdu, &act)
}

// Each PDU of a client in turn.
fn each_client_pdu(
    alloc: Global,
    state: &mut State,
    client: u64,
    pdus: Vec<Pdu>,
) -> Result<Vec<u8>, AllocError>
    requires reached { IsReached state.old }
    requires known { IsKnown state.old.clients.list.items client }
    ensures { (s : Relay) → StandsFor state.old s → IfOk result (λ text.
        TurnLeaves (each_pdu (client_pdu client) s pdus.items) state.new text.items) }
{
    let mut text = Vec::new(alloc);
    for pdu in pdus {
        text.extend_from_slice(&client_pdu(alloc, state, client, pdu)?)?;
    }
    Ok(text)
}

// A client is hung up at a bad length.
fn client_end(
    alloc: Global,
    state: &mut State,
    client: u64,
    has_failed: bool,
) -> Result<Vec<u8>, AllocError>
    requires reached { IsReached state.old }
    requires known { IsKnown state.old.clients.list.items client }
    ensures { (s : Relay) → StandsFor state.old s → IfOk result (λ text.
        TurnLeaves (client_end client has_failed s) state.new text.items) }
{
    if !has_failed {
        return Ok(Vec::new(alloc));
    }
    let answer = state.clients.known_mut(client).link.end();
    hang_up(alloc, state, client, &answer)
}

/// Octets of a client. There is no text where the client isn't known.
pub(crate) fn receive_in(
    alloc: Global,
    state: &mut State,
    client: u64,
    octets: &[u8],
) -> Result<Option<Vec<u8>>, AllocError>
    requires { IsReached state.old }
    ensures { (s : Relay) → StandsFor state.old s → IfOk result (λ text.
        MayPrint (InTurn s client octets.now) state.new text) }
{
    if state.clients.get(client).is_none() {
        return Ok(None);
    }
    let link = &mut state.clients.known_mut(client).link;
    if link.has_failed() {
        return Ok(Some(closed_line(alloc, client)?));
    }
    let pdus = link.receive(alloc, octets)?;
    let has_failed = link.has_failed();
    let mut text = each_client_pdu(alloc, state, client, pdus)?;
    text.extend_from_slice(&client_end(alloc, state, client, has_failed)?)?;
    Ok(Some(text))
}
