//! Who has something to do.

use crate::guests::Guests;
use crate::pressure::Pressure;
use smx_slots::{Line, Schedule};
use smx_socket::Socket;
use smx_turns::RunEnd;
use std::alloc::{AllocError, Global};

/// A turn of a party is so many turns of its worker at most.
pub(crate) const TURNS: u64 = 64;

/// It ends once so many octets went over its link, as many as one read gives.
pub(crate) const OCTETS: u64 = 4_096;

/// At a tick one of so many parties is ready again, should an event be lost.
const SHARE: usize = 10;

/// Whether a party's turn is over, where its socket's traffic was that and is this, and at most so many octets
/// more may go over it.
pub(crate) fn is_enough(before: u64, traffic: u64, most: u64) -> bool {
    traffic.wrapping_sub(before) >= most
}

/// Whether an event tells of whatever is to be read from a socket next.
pub(crate) fn is_read_out(socket: &Socket) -> bool {
    !socket.is_readable() && !socket.has_ended() && !socket.has_failed()
}

/// Who has something to do. Parties are numbered: the lanes, then the slots.
#[derive(Drop)]
pub(crate) struct Queues {
    // The lanes and the bound clients are of the first class.
    pub schedule: Schedule,
    // Those whose sockets may have octets.
    dirty: Line,
    // The lanes that are to be asked how much they hold.
    weighed: Line,
    pub pressure: Pressure,
    // What is due at a tick is due at once.
    hurried: bool,
    // The first party that the next tick makes ready again.
    netted: usize,
    // How many requests failed since the start, as their link was lost or they were given up.
    pub failed: u64,
    // How many of each there are.
    pub lanes: usize,
    pub slots: usize,
}

/// What a party's turn did.
#[derive(Clone, Copy)]
pub(crate) struct Progress {
    pub end: RunEnd,
    /// Octets went over its link.
    pub moved: bool,
    /// Somebody was told of something.
    pub rang: bool,
    /// Its socket takes octets.
    pub writable: bool,
}

impl Queues {
    /// Of so many lanes and slots the lanes are ready.
    pub fn new(alloc: Global, lanes: usize, slots: usize) -> Result<Queues, AllocError> {
        let parties = lanes.saturating_add(slots);
        let mut queues = Queues {
            schedule: Schedule::new(alloc, parties)?,
            dirty: Line::new(alloc, parties)?,
            weighed: Line::new(alloc, lanes)?,
            pressure: Pressure::new(alloc, parties)?,
            hurried: false,
            netted: 0,
            failed: 0,
            lanes,
            slots,
        };
        for lane in 0..lanes {
            queues.schedule.place(lane, true);
        }
        queues.add_lanes();
        Ok(queues)
    }

    /// The party of a slot.
    pub fn party(&self, slot: usize) -> usize {
        self.lanes.saturating_add(slot)
    }

    /// Each lane is ready.
    pub fn add_lanes(&mut self) {
        for lane in 0..self.lanes {
            self.schedule.add(lane);
        }
    }

    /// What is due at a tick is due at once.
    pub fn hurry(&mut self) {
        self.hurried = true;
    }

    /// Whether that was said and isn't done yet.
    pub fn is_hurried(&self) -> bool {
        self.hurried
    }

    /// Whether that was said since this was asked.
    pub fn take_hurry(&mut self) -> bool {
        std::mem::take(&mut self.hurried)
    }

    /// A lane's link was lost: its return box was emptied, and each client may have a response that tells
    /// of its request, so each slot is ready.
    pub fn add_slots(&mut self) {
        self.empty_boxes();
        for slot in 0..self.slots {
            self.schedule.add(self.lanes.saturating_add(slot));
        }
    }

    /// So many requests failed.
    pub fn fail(&mut self, failed: usize) {
        self.failed = self.failed.saturating_add(failed as u64);
    }

    /// The slot has another client, or none: it is unbound, and ready.
    pub fn begin_anew(&mut self, slot: usize) {
        let party = self.party(slot);
        self.schedule.place(party, false);
        self.schedule.resume(party);
        self.schedule.add(party);
    }

    /// The slot's client is bound.
    pub fn bind(&mut self, slot: usize) {
        let party = self.party(slot);
        self.schedule.place(party, true);
    }

    /// A party had a turn. One that isn't idle has another, but where it could do nothing: then it waits
    /// for its socket where that takes no octets, and else, where it is a client, for a return box.
    pub fn was_turned(&mut self, party: usize, progress: Progress) {
        let Progress {
            end,
            moved,
            rang,
            writable,
        } = progress;
        if moved {
            self.dirty.add(party);
        }
        if !matches!(end, RunEnd::Turns | RunEnd::Filled) {
            return;
        }
        if !(moved || rang || writable) {
            self.schedule.stall(party);
        } else if !(moved || rang) && party >= self.lanes {
            self.schedule.crowd(party);
        } else {
            self.schedule.add(party);
        }
    }

    /// A lane's worker got on, and may have emptied its return box: who waits for that is ready.
    pub fn empty_boxes(&mut self) {
        for _ in 0..self.slots {
            if self.schedule.uncrowd().is_none() {
                return;
            }
        }
    }

    /// At a tick a tenth of the parties is ready, another one each time, whether they are stalled or not,
    /// but for slots that nobody has: an event may have been lost, or a timer be due. So is each that waits
    /// for a return box.
    pub fn unstall(&mut self, guests: &Guests<'_>) {
        let parties = self.lanes.saturating_add(self.slots);
        for party in (self.netted..parties).step_by(SHARE) {
            let slot = party.saturating_sub(self.lanes);
            if party < self.lanes || guests.socket(slot).is_some() {
                self.schedule.resume(party);
                self.schedule.add(party);
            }
        }
        self.netted = self.netted.saturating_add(1) % SHARE;
        self.empty_boxes();
    }

    /// The lane is to be asked how much it holds, once the pass is over.
    pub fn weigh(&mut self, lane: usize) {
        self.weighed.add(lane);
    }

    /// The first lane that is to be asked, which is so no more from here on.
    pub fn next_to_weigh(&mut self) -> Option<usize> {
        self.weighed.begin()
    }

    /// A party's socket may have octets.
    pub fn add_dirty(&mut self, party: usize) {
        self.dirty.add(party);
    }

    /// How many parties' sockets may have octets.
    pub fn dirty(&self) -> usize {
        self.dirty.len()
    }

    /// The first of them, whose socket may have octets again from here on.
    pub fn next_to_flush(&mut self) -> Option<usize> {
        self.dirty.begin()
    }
}
