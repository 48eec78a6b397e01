//! Messages of the centre: they go to clients, and their answers to the centre.
ghost use Rattle.std.specs.Prelude.{◌≡◌, Some, IfOk};
ghost use Rattle.std.specs.List.{flat_map};
ghost use Rattle.smx_lines.specs.Texts.{pdu_line, to_client, up_lane};
ghost use Rattle.smx_pdu.specs.Answers.{refusal};
ghost use Rattle.smx_lines.specs.Relay.{Relay};
ghost use Rattle.smx_lines.specs.Messages.{answer_turn, left_line, message_turn, put_to, send_turn};
ghost use Rattle.smx_lines.specs.Turns.{RouteTurn};
ghost use Rattle.smx_lines.specs.States.{StandsFor, IsReached, MayPrint, TurnLeaves, IsKnown};

use crate::state::State;
use crate::texts::{message_line, push_to_client, push_up, up_line};
use smx_mailbox::{Message, Unanswered};
use smx_pdu::status::{ESME_RINVCMDLEN, ESME_RMSGQFUL, ESME_RX_T_APPN};
use smx_pdu::{Pdu, read_destination};
use smx_routes::RouteFault;
use std::alloc::{AllocError, Global};

/// A client that is bound to receive has one prefix more. There is no text where it isn't, or has the
/// prefix.
pub(crate) fn route(
    alloc: Global,
    state: &mut State,
    client: u64,
    prefix: &[u8],
) -> Result<Option<Vec<u8>>, AllocError>
    ensures { (s : Relay) → StandsFor state.old s → IfOk result (λ text.
        MayPrint (RouteTurn s client prefix.now) state.new text) }
{
    let Some(known) = state.clients.get(client) else {
        return Ok(None);
    };
    if !known.link.may_receive() {
        return Ok(None);
    }
    match state.routes.insert(prefix, client) {
        Ok(()) => Ok(Some(Vec::new(alloc))),
        Err(RouteFault::TooLong) => Ok(None),
        Err(RouteFault::Known) => Ok(None),
        Err(RouteFault::NoMemory) => Err(AllocError),
    }
}

// Answers a message that no client gets.
fn refuse(alloc: Global, lane: u64, message: &Pdu, status: u32) -> Result<Vec<u8>, AllocError>
    ensures { IfOk result (λ line.
        line.items ≡ pdu_line (up_lane lane)
        (refusal message.now.command status message.now.number)) }
{
    let answer = Pdu::refusal(alloc, message.command, status, message.number);
    up_line(alloc, lane, &answer)
}

// Puts a message into the mailbox of a client.
fn put(
    alloc: Global,
    state: &mut State,
    lane: u64,
    client: u64,
    pdu: Pdu,
) -> Result<Vec<u8>, AllocError>
    requires { IsKnown state.old.clients.list.items client }
    ensures turned { (s : Relay) → StandsFor state.old s → IfOk result (λ text.
        TurnLeaves (put_to s lane pdu (Some client)) state.new text.items) }
    ensures lanes { state.new.lanes ≡ state.old.lanes }
{
    let message = Message {
        lane: lane as usize,
        pdu,
    };
    match state.clients.known_mut(client).link.put(message)? {
        Ok(()) => message_line(alloc, client),
        Err(message) => refuse(alloc, lane, &message.pdu, ESME_RMSGQFUL),
    }
}

/// A message of the centre goes to the client to which its destination is routed (SMPP 3.4, section 4.6).
pub(crate) fn message(
    alloc: Global,
    state: &mut State,
    lane: u64,
    pdu: Pdu,
) -> Result<Vec<u8>, AllocError>
    requires { IsReached state.old }
    ensures turned { (s : Relay) → StandsFor state.old s → IfOk result (λ text.
        TurnLeaves (message_turn lane pdu s) state.new text.items) }
    ensures lanes { state.new.lanes ≡ state.old.lanes }
{
    let routed = match read_destination(pdu.body.as_slice()) {
        Ok(address) => state.routes.route(address),
        Err(_) => return refuse(alloc, lane, &pdu, ESME_RINVCMDLEN),
    };
    match routed {
        Some(client) => put(alloc, state, lane, client, pdu),
        None => refuse(alloc, lane, &pdu, ESME_RX_T_APPN),
    }
}

/// A client's answer to a message goes to the lane from which that came, under the centre's number. An
/// answer that no message waits for is dropped.
pub(crate) fn answer(
    alloc: Global,
    state: &mut State,
    client: u64,
    pdu: Pdu,
) -> Result<Vec<u8>, AllocError>
    requires { IsKnown state.old.clients.list.items client }
    ensures { (s : Relay) → StandsFor state.old s → IfOk result (λ text.
        TurnLeaves (answer_turn client pdu s) state.new text.items) }
{
    match state
        .clients
        .known_mut(client)
        .link
        .settle(pdu.number, pdu.command)
    {
        Some((lane, number)) => {
            let Pdu {
                command,
                status,
                number: _,
                body,
            } = pdu;
            let answer = Pdu {
                command,
                status,
                number,
                body,
            };
            up_line(alloc, lane as u64, &answer)
        }
        None => Ok(Vec::new(alloc)),
    }
}

/// The answers to the messages of a client that has left.
pub(crate) fn left_lines(alloc: Global, messages: &[Unanswered]) -> Result<Vec<u8>, AllocError>
    ensures { IfOk result (λ text. text.items ≡ flat_map left_line messages.now) }
{
    let mut text = Vec::new(alloc);
    for message in messages {
        let answer = Pdu::refusal(alloc, message.command, ESME_RX_T_APPN, message.number);
        push_up(alloc, &mut text, message.lane as u64, &answer)?;
    }
    Ok(text)
}

// What a client gets, one PDU after another.
fn sent_lines(alloc: Global, client: u64, pdus: &[Pdu]) -> Result<Vec<u8>, AllocError>
    ensures { IfOk result (λ text. text.items ≡ flat_map (pdu_line (to_client client)) pdus.now) }
{
    let mut text = Vec::new(alloc);
    for pdu in pdus {
        push_to_client(alloc, &mut text, client, pdu)?;
    }
    Ok(text)
}

/// The client is sent the messages that its window has places for.
pub(crate) fn send(alloc: Global, state: &mut State, client: u64) -> Result<Vec<u8>, AllocError>
    requires { IsKnown state.old.clients.list.items client }
    ensures { (s : Relay) → StandsFor state.old s → IfOk result (λ text.
        TurnLeaves (send_turn client s) state.new text.items) }
{
    let pdus = state.clients.known_mut(client).link.send()?;
    sent_lines(alloc, client, &pdus)
}
