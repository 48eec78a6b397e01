//! A lane: its lists, and what they keep.
ghost use Rattle.std.specs.Prelude.{◌≡◌, ◌-◌, [], ◌↔◌, length, slice_get, IsTrue, IfOk, IfErr};
ghost use Rattle.smx_history.specs.Contents.{AgreesWith};
ghost use Rattle.smx_history.specs.Room.{AreLimits};
ghost use Rattle.smx_history.specs.Replies.{has_room};
ghost use Rattle.smx_lane.specs.Faults.{IsLaneFault};
ghost use Rattle.smx_lane.specs.Loads.{IsLoad};

mod clients;
mod expiry;
mod links;
mod requests;
mod responses;
mod shifts;

use crate::fault::LaneFault;
use crate::load::Load;
use crate::roster::Roster;
use crate::window::Window;
use circular_buffer::HeapCircularBuffer;
use smx_history::{Entry, Limits, Request};
use std::alloc::{AllocError, Global};
use std::marker::Model;

/// The queue, the window and the response boxes of one upstream bind.
#[derive(Drop)]
pub struct Lane {
    limits: Limits,
    queue: HeapCircularBuffer<Request, Global>,
    window: Window,
    roster: Roster,
    // The greatest number of a client that was admitted, or 0.
    greatest: u64,
    // Whether there is a link upstream.
    up: bool,
    entries: Vec<Entry>,
}

impl Model for Lane {
    ghost use Rattle.smx_history.specs.Contents.{Content};

    ghost Value = { Content };

    ghost use Rattle.smx_lane.specs.Inside.{content_of, KeepsLimits};

    ghost view = { content_of };

    ghost invariant = { KeepsLimits };
}

// Whether the limits are in their ranges.
fn are_limits(limits: Limits) -> bool
    ensures { IsTrue result ↔ AreLimits limits }
{
    (1..=65_535).contains(&limits.queue)
        && (1..=1_024).contains(&limits.window)
        && (1..=256).contains(&limits.client)
        && (1_000..=1_000_000).contains(&limits.history)
}

impl Lane {
    /// An empty lane, with all the room that its queue, its window and its history may take.
    /// Admits take memory from `alloc` later.
    pub fn new(alloc: Global, limits: Limits) -> Result<Lane, LaneFault>
        ensures ok { IfOk result (λ lane. AreLimits limits × (lane.limits ≡ limits)) }
        ensures agrees { IfOk result (AgreesWith []) }
        ensures err { IfErr result (IsLaneFault limits) }
    {
        if !are_limits(limits) {
            return Err(LaneFault::BadLimits);
        }
        Lane::reserve(alloc, limits).map_err(|_| LaneFault::NoMemory)
    }

    // An empty lane under limits that are in their ranges.
    fn reserve(alloc: Global, limits: Limits) -> Result<Lane, AllocError>
        requires { AreLimits limits }
        ensures limits { IfOk result (λ lane. lane.limits ≡ limits) }
        ensures agrees { IfOk result (AgreesWith []) }
    {
        Ok(Lane {
            limits,
            queue: HeapCircularBuffer::with_capacity(alloc, limits.queue as usize)?,
            window: Window::new(alloc, limits.window)?,
            roster: Roster::new(alloc, limits.client),
            greatest: 0,
            up: true,
            entries: Vec::with_capacity(alloc, limits.history as usize)?,
        })
    }

    /// The limits that it was made with.
    pub fn limits(&self) -> Limits
        ensures { result ≡ self.now.limits }
    {
        self.limits
    }

    /// Whether there is a link upstream, so that requests are accepted and taken.
    pub fn is_up(&self) -> bool
        ensures { result ≡ self.now.up }
    {
        self.up
    }

    /// The notes since the last shift, without bodies and statuses, the oldest first.
    pub fn entries(&self) -> &[Entry]
        ensures { result.now ≡ self.now.entries }
    {
        self.entries.as_slice()
    }

    /// The entry of the newest note, or none where nothing was noted since the last shift.
    pub fn last_entry(&self) -> Option<Entry>
        ensures { result ≡ slice_get self.now.entries (length self.now.entries - 1) }
    {
        self.entries.last().copied()
    }

    /// How much it holds. It looks at each place of the window, and takes no memory.
    pub fn load(&self) -> Load
        ensures { IsLoad self.now result }
    {
        Load {
            queued: self.queue.len(),
            unanswered: self.window.len(),
            earliest: self.window.earliest(),
            entries: self.entries.len(),
        }
    }

    /// Whether there is room in the history for one more admit or accept, and all that may follow.
    pub fn has_room(&self) -> bool
        ensures { result ≡ has_room self.now }
    {
        let used = self.entries.len()
            + 3 * self.queue.len()
            + 2 * self.window.len()
            + self.roster.waiting()
            + self.roster.len()
            + usize::from(self.up);
        used + 4 <= self.limits.history as usize
    }
}
