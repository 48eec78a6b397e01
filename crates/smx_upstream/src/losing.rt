//! The end of a worker's link, as its lane has it.
ghost use Rattle.std.specs.Prelude.{◌≡◌, ◌≤◌, ◌++◌, length, slice_get, Some, None};
ghost use Rattle.std.specs.List.{flat_map};
ghost use Rattle.smx_shared.specs.Taps.{known_of};
ghost use Rattle.smx_upstream.specs.Events.{failed_tells, lost_tells};
ghost use Rattle.smx_upstream.specs.Losing.{GivesAll, Loses};

use smx_history::Failed;
use smx_shared::{DownFault, Exchange, FailFault, Tap};
use smx_trace::Trace;
use smx_turns::{Gate, Party};
use std::sync::Wait;

// One more than a window holds.
const MOST: usize = 1_025;

/// What became of the lane of a worker that was closed.
#[derive(Drop)]
pub struct Lost {
    /// What the lane said as it went down.
    pub down: Result<(), DownFault>,
    /// How many requests that were taken and not answered were given up.
    pub failed: usize,
    /// What became of each, for contracts alone.
    pub given: Trace<Failed>,
    /// Why no more was given up: the window is empty, or the lane's tickets are spent. `None` after
    /// 1,025, which is more than a window holds.
    pub end: Option<FailFault>,
}

// Requests that were given up, and why no more were.
#[derive(Drop)]
struct Given {
    failed: usize,
    given: Trace<Failed>,
    end: Option<FailFault>,
}

// Tells the gate of the client whose request was given up.
pub(crate) fn tell_of<G: Gate>(gate: &mut G, lane: usize, failed: &Failed)
    ensures asked { G.asked gate.new ≡ G.asked gate.old }
    ensures told { G.told gate.new ≡ G.told gate.old ++ failed_tells lane failed.now }
{
    let (Failed::Queued { client } | Failed::Late { client }) = failed;
    gate.ready(Party::Client {
        client: *client,
        lane,
    });
}

// Gives up what was taken and not answered.
fn give_up<R: Wait, G: Gate>(tap: &mut Tap, at: &Exchange, rt: &R, gate: &mut G) -> Given
    requires lock { slice_get at.now tap.old.lane ≡ Some tap.old.front.lock }
    ensures lock { (tap.new.lane ≡ tap.old.lane) × (tap.new.front.lock ≡ tap.old.front.lock) }
    ensures gives { GivesAll tap.old.front tap.new.front result.given result.end }
    ensures count { result.failed ≡ length result.given }
    ensures few { result.failed ≤ 1025 }
    ensures all { result.end ≡ None → result.failed ≡ 1025 }
    ensures known { known_of tap.new.front.mine ≡ known_of tap.old.front.mine }
    ensures told { G.told gate.new
        ≡ G.told gate.old ++ flat_map (failed_tells tap.old.lane) result.given }
    ensures asked { G.asked gate.new ≡ G.asked gate.old }
{
    let lane = tap.lane();
    let mut given = Trace::new();
    for failed in 0..MOST {
        match tap.fail(at, rt) {
            Ok(one) => {
                tell_of(gate, lane, &one);
                given = given.and(&one);
            }
            Err(fault) => {
                return Given {
                    failed,
                    given,
                    end: Some(fault),
                };
            }
        }
    }
    Given {
        failed: MOST,
        given,
        end: None,
    }
}

/// Brings the lane down, and gives up each request that was taken and not answered, so that its client
/// is told; of each the gate is told. It may wait, and takes no memory.
pub fn lose<R: Wait, G: Gate>(tap: &mut Tap, at: &Exchange, rt: &R, gate: &mut G) -> Lost
    requires lock { slice_get at.now tap.old.lane ≡ Some tap.old.front.lock }
    ensures lock { (tap.new.lane ≡ tap.old.lane) × (tap.new.front.lock ≡ tap.old.front.lock) }
    ensures loses { Loses tap.old.front tap.new.front result }
    ensures count { result.failed ≡ length result.given }
    ensures few { result.failed ≤ 1025 }
    ensures all { result.end ≡ None → result.failed ≡ 1025 }
    ensures known { known_of tap.new.front.mine ≡ known_of tap.old.front.mine }
    ensures told { G.told gate.new ≡ G.told gate.old ++ lost_tells tap.old.lane result }
    ensures asked { G.asked gate.new ≡ G.asked gate.old }
{
    let down = tap.down(at, rt);
    let Given { failed, given, end } = give_up(tap, at, rt, gate);
    Lost {
        down,
        failed,
        given,
        end,
    }
}
