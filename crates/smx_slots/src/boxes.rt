//! The boxes of messages and of their answers: all that will ever be are made at the start.

use smx_box::{BoxFault, Boxed, Receiver, Sender};
use smx_pdu::Pdu;
use smx_routes::{MoWindow, WindowFault};
use smx_turns::MoItem;
use std::alloc::{AllocError, Global};
use std::sync::Wait;

/// A client's ends of the boxes: that of its own, and a sender for the return box of each lane.
#[derive(Drop)]
pub struct ClientEnds {
    pub inbox: Receiver<MoItem>,
    pub senders: Vec<Sender<Pdu>>,
}

/// A lane's ends: that of its return box, and for each slot a sender for its box and a window for the
/// messages that its client has and has not answered.
#[derive(Drop)]
pub struct LaneEnds {
    pub answers: Receiver<Pdu>,
    pub senders: Vec<Sender<MoItem>>,
    pub owed: Vec<MoWindow>,
}

/// The most places of a box.
const MOST: usize = 131_072;

fn refused(_: BoxFault) -> AllocError {
    AllocError
}

// For each slot a window with a place for each message that its client may have: as many in its box
// as it has been sent and has not answered.
fn owed_by(alloc: Global, slots: usize, places: usize) -> Result<Vec<MoWindow>, AllocError> {
    let most = places.saturating_mul(2).min(1_024) as u32;
    let mut owed = Vec::with_capacity(alloc, slots)?;
    for _ in 0..slots {
        owed.push(MoWindow::new(alloc, most).map_err(|_: WindowFault| AllocError)?)?;
    }
    Ok(owed)
}

// How many answers can be owed to a lane: for each message that a client of a slot may have.
fn answers_owed(slots: usize, places: usize) -> usize {
    slots
        .saturating_mul(2)
        .saturating_mul(places)
        .clamp(1, MOST)
}

// So many boxes, each with so many senders: their receivers, and for each sender's index those of
// all boxes.
fn boxes_of<T: Drop, R: Wait>(
    rt: &R,
    alloc: Global,
    boxes: usize,
    senders: usize,
    places: usize,
) -> Result<(Vec<Receiver<T>>, Vec<Vec<Sender<T>>>), AllocError> {
    let mut receivers = Vec::with_capacity(alloc, boxes)?;
    let mut rows = Vec::with_capacity(alloc, senders)?;
    for _ in 0..senders {
        rows.push(Vec::with_capacity(alloc, boxes)?)?;
    }
    for _ in 0..boxes {
        let (receiver, mut all) = Boxed::new(rt, alloc, senders, places).map_err(refused)?;
        receivers.push(receiver)?;
        all.reverse();
        for row in rows.iter_mut() {
            if let Some(sender) = all.pop() {
                row.push(sender)?;
            }
        }
    }
    Ok((receivers, rows))
}

/// The ends of all boxes, by slot and by lane. A client's box has so many places, and a lane's return box
/// as many as answers can be owed to it, so that an answer finds room even while nobody gets any. Want
/// of memory is answered, and so are sizes that no box has.
pub fn ends_of<R: Wait>(
    rt: &R,
    alloc: Global,
    slots: usize,
    lanes: usize,
    places: usize,
) -> Result<(Vec<ClientEnds>, Vec<LaneEnds>), AllocError> {
    let (inboxes, mut to_slots) = boxes_of(rt, alloc, slots, lanes, places)?;
    let owed = answers_owed(slots, places);
    let (answers, mut to_lanes) = boxes_of(rt, alloc, lanes, slots, owed)?;
    let mut clients = Vec::with_capacity(alloc, slots)?;
    to_lanes.reverse();
    for inbox in inboxes {
        if let Some(senders) = to_lanes.pop() {
            clients.push(ClientEnds { inbox, senders })?;
        }
    }
    let mut all = Vec::with_capacity(alloc, lanes)?;
    to_slots.reverse();
    for answers in answers {
        if let Some(senders) = to_slots.pop() {
            let owed = owed_by(alloc, slots, places)?;
            all.push(LaneEnds {
                answers,
                senders,
                owed,
            })?;
        }
    }
    Ok((clients, all))
}
