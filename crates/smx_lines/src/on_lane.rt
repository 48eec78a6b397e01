//! What a line does on one lane.
ghost use Rattle.std.specs.Prelude.{◌≡◌, ℕ, List, IfOk};
ghost use Rattle.smx_history.specs.declared.note.Note.{Note};
ghost use Rattle.smx_history.specs.Contents.{AgreesWith};
ghost use Rattle.smx_lines.specs.Relay.{take_on, back_on, history_on, turn_on};
ghost use Rattle.smx_lines.specs.Turns.{IsFreeNumber};
ghost use Rattle.smx_lines.specs.Private.Lanes.{TurnsLane};

use crate::texts::{
    down_line, empty_line, entry_lines, failed_line, full_line, kept_line, push_to_client,
    queued_line, turned_line, up_line,
};
use smx_history::{Answered, Request, TakeRefusal};
use smx_lane::{Lane, Sent};
use smx_pdu::Pdu;
use std::alloc::{AllocError, Global};

/// The number of the one caller of all lanes.
pub const CALLER: u64 = 0;

/// Takes the oldest request of a lane that is up, at this moment.
#[tactic(auto, unfolding(crate::specs::Relay::take_on))]
pub fn take_on(alloc: Global, lane: &mut Lane, at: u64, moment: u64) -> Result<Vec<u8>, AllocError>
    ensures { (h : List Note) → AgreesWith h lane.old → IfOk result (λ text. (u : ℕ)
        × IsFreeNumber h u
        × TurnsLane (take_on lane.old.limits moment u at h) lane.old lane.new text.items) }
{
    if !lane.is_up() {
        return down_line(alloc, at);
    }
    match lane.take(CALLER, moment) {
        Ok(sent) => {
            let Sent { request, upstream } = sent;
            let Request {
                client: _,
                ordinal: _,
                own: _,
                command,
                body,
            } = request;
            let pdu = Pdu {
                command,
                status: 0,
                number: upstream,
                body,
            };
            up_line(alloc, at, &pdu)
        }
        Err(TakeRefusal::QueueEmpty) => empty_line(alloc, at),
        Err(TakeRefusal::WindowFull) => full_line(alloc, at),
        Err(TakeRefusal::Down) => unreachable!(),
    }
}

/// Hands in a response.
#[tactic(auto, unfolding(crate::specs::Relay::back_on))]
pub fn back_on(alloc: Global, lane: &mut Lane, response: Pdu) -> Result<Vec<u8>, AllocError>
    ensures { (h : List Note) → AgreesWith h lane.old → IfOk result (λ text.
        TurnsLane (back_on response h) lane.old lane.new text.items) }
{
    match lane.answer(CALLER, response) {
        Answered::Queued { client } => queued_line(alloc, client),
        Answered::Late { .. } => Vec::from_slice(alloc, b"late\n"),
        Answered::Unknown(_response) => Vec::from_slice(alloc, b"unknown\n"),
    }
}

/// Lists the stored entries.
#[tactic(auto, unfolding(crate::specs::Relay::history_on))]
pub fn history_on(alloc: Global, lane: &Lane) -> Result<Vec<u8>, AllocError>
    ensures { (h : List Note) → AgreesWith h lane.now → IfOk result (λ text.
        TurnsLane (history_on h) lane.now lane.now text.items) }
{
    entry_lines(alloc, lane.entries())
}

/// Lists the stored entries, and how many there are. The lane goes on without them.
#[tactic(auto, unfolding(crate::specs::Relay::turn_on))]
pub fn turn_on(alloc: Global, lane: &mut Lane, at: u64) -> Result<Vec<u8>, AllocError>
    ensures { (h : List Note) → AgreesWith h lane.old → IfOk result (λ text.
        TurnsLane (turn_on at h) lane.old lane.new text.items) }
{
    let Some(entries) = lane.turn_over(CALLER, 0)? else {
        unreachable!()
    };
    let mut text = entry_lines(alloc, &entries)?;
    text.extend_from_slice(&turned_line(alloc, at, entries.len() as u64)?)?;
    Ok(text)
}

ghost use Rattle.smx_history.specs.declared.place.Place.{Place};
ghost use Rattle.smx_history.specs.Prefixes.{SameCounts};
ghost use Rattle.smx_history.specs.Contents.{window_after};
ghost use Rattle.smx_lines.specs.LaneLinks.{give_up_lane};

/// Each request that was taken and not answered fails, on a lane that is down. Which of them first,
/// isn't said.
pub fn give_up_on(lane: &mut Lane)
    requires { (h : List Note) × AgreesWith h lane.old }
    ensures agrees { (h : List Note) → AgreesWith h lane.old → (qs : List Place)
        × SameCounts (window_after h) qs × AgreesWith (give_up_lane qs h) lane.new }
    ensures limits { lane.new.limits ≡ lane.old.limits }
{
    if lane.is_up() {
        return;
    }
    while let Ok(_failed) = lane.fail(CALLER) {}
}

ghost use Rattle.smx_lines.specs.Expiring.{expire_on, expired_after};

/// Each request that was taken at least `age` milliseconds before the moment and not answered fails,
/// on a lane that is up. Which of them first, isn't said.
#[tactic(auto, unfolding(crate::specs::Expiring::expire_on))]
pub fn expire_on(
    alloc: Global,
    lane: &mut Lane,
    at: u64,
    moment: u64,
    age: u64,
) -> Result<Vec<u8>, AllocError>
    requires { (h : List Note) × AgreesWith h lane.old }
    ensures { (h : List Note) → AgreesWith h lane.old → IfOk result (λ text. (qs : List Place)
        × SameCounts (expired_after moment age h) qs
        × TurnsLane (expire_on at qs h) lane.old lane.new text.items) }
{
    if !lane.is_up() {
        return kept_line(alloc, at);
    }
    let mut text = Vec::new(alloc);
    while let Ok(failed) = lane.fail_expired(CALLER, moment, age) {
        text.extend_from_slice(&failed_line(alloc, failed)?)?;
    }
    if text.is_empty() {
        return kept_line(alloc, at);
    }
    Ok(text)
}

ghost use Rattle.smx_lines.specs.Relay.{collect_text, collect_lane};
ghost use Rattle.smx_lines.specs.Private.Lanes.{AreOurs};

/// Collects each response that waits for the client.
pub fn collect_on(alloc: Global, lane: &mut Lane, client: u64) -> Result<Vec<u8>, AllocError>
    requires { (h : List Note) × AgreesWith h lane.old × AreOurs h }
    ensures { (h : List Note) → AgreesWith h lane.old → IfOk result (λ text.
        TurnsLane (collect_text client h, collect_lane client h) lane.old lane.new text.items) }
{
    let mut text = Vec::new(alloc);
    while let Some(response) = lane.collect(CALLER, client) {
        push_to_client(alloc, &mut text, client, &response)?;
    }
    Ok(text)
}
