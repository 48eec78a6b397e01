//! Requests that wait on a lane that has no link.
ghost use Rattle.std.specs.Prelude.{◌≡◌, ◌≢◌, ◌≤◌, ◌++◌, ◌*◌, true, length, slice_get, Some, IfOk, IfErr, OnErr};
ghost use Rattle.smx_upstream.specs.Abandoning.{TakesAll, GoesRound, HasEmptied, IsSpentIn, Abandons, LeavesNone};
ghost use Rattle.smx_upstream.specs.Events.{lost_tells, rounds_tells};
ghost use Rattle.smx_upstream.specs.Rising.{Rises, said_last, stays_down};

use crate::event::Rise;
use crate::losing::{Lost, lose};
use crate::rising::{raise, stays_down};
use smx_history::{FailRefusal, TakeRefusal};
use smx_lane::Sent;
use smx_shared::{Exchange, FailFault, TakeFault, Tap};
use smx_trace::Trace;
use smx_turns::Gate;
use std::sync::Wait;

// One more than a window holds.
const MOST: usize = 1_025;

// One more than a queue holds: each round takes one request at least.
const ROUNDS: usize = 65_536;

/// One round: the lane came up, gave requests to take, and went down, and what was taken was given up.
#[derive(Drop)]
pub struct Round {
    /// How the lane came up.
    pub rise: Rise,
    /// The requests that it gave, for contracts alone.
    pub taken: Trace<Sent>,
    /// Why it gave no more. `None` after 1,025, which is more than a window holds.
    pub stop: Option<TakeFault>,
    /// What became of them.
    pub lost: Lost,
}

/// Why no more requests were given up.
#[derive(Drop)]
pub enum AbandonEnd {
    /// Nothing is queued.
    Emptied,
    /// The lane was to come up, and stays down.
    StaysDown(Rise),
    /// The lane takes no more calls.
    Spent,
    /// Requests are queued still after 65,536 rounds, which is more than a queue needs.
    Left,
}

/// What became of requests that waited on a lane that has no link.
#[derive(Drop)]
pub struct Abandoned {
    /// How many requests were given up.
    pub failed: usize,
    /// The rounds, for contracts alone.
    pub rounds: Trace<Round>,
    pub end: AbandonEnd,
}

// Requests that were taken, and why no more were.
#[derive(Drop)]
struct Taken {
    taken: Trace<Sent>,
    stop: Option<TakeFault>,
}

// Takes all that the window holds.
fn take_all<R: Wait>(tap: &mut Tap, at: &Exchange, rt: &R, now: u64) -> Taken
    requires lock { slice_get at.now tap.old.lane ≡ Some tap.old.front.lock }
    ensures lock { (tap.new.lane ≡ tap.old.lane) × (tap.new.front.lock ≡ tap.old.front.lock) }
    ensures takes { TakesAll now tap.old.front tap.new.front result.taken result.stop }
{
    let mut taken = Trace::new();
    for _taken in 0..MOST {
        match tap.take(at, rt, now) {
            Ok(sent) => taken = taken.and(&sent),
            Err(fault) => {
                return Taken {
                    taken,
                    stop: Some(fault),
                };
            }
        }
    }
    Taken { taken, stop: None }
}

// One round, or how the lane stays down.
fn make_round<R: Wait, G: Gate>(
    tap: &mut Tap,
    at: &Exchange,
    rt: &R,
    gate: &mut G,
    now: u64,
) -> Result<Round, Rise>
    requires lock { slice_get at.now tap.old.lane ≡ Some tap.old.front.lock }
    ensures lock { (tap.new.lane ≡ tap.old.lane) × (tap.new.front.lock ≡ tap.old.front.lock) }
    ensures round { IfOk result (λ made. GoesRound now tap.old.front made tap.new.front) }
    ensures down { IfErr result (λ rise. Rises tap.old.front tap.new.front rise
        × (stays_down (said_last rise) ≡ true)) }
    ensures few { IfOk result (λ made. made.lost.failed ≤ 1025) }
    ensures count { IfOk result (λ made. made.lost.failed ≡ length made.lost.given) }
    ensures told { IfOk result (λ made. G.told gate.new
        ≡ G.told gate.old ++ lost_tells tap.old.lane made.lost) }
    ensures untold { OnErr result (G.told gate.new ≡ G.told gate.old) }
    ensures asked { G.asked gate.new ≡ G.asked gate.old }
{
    let rise = raise(tap, at, rt);
    if stays_down(&rise) {
        return Err(rise);
    }
    let Taken { taken, stop } = take_all(tap, at, rt, now);
    let lost = lose(tap, at, rt, gate);
    Ok(Round {
        rise,
        taken,
        stop,
        lost,
    })
}

// Whether a round is the last, and why.
fn end_of(round: &Round) -> Option<AbandonEnd>
    ensures emptied { result ≡ Some AbandonEnd.Emptied → HasEmptied round.now }
    ensures spent { result ≡ Some AbandonEnd.Spent → IsSpentIn round.now }
    ensures none_stays { (rise : Rise) → result ≢ Some (AbandonEnd.StaysDown rise) }
    ensures none_left { result ≢ Some AbandonEnd.Left }
{
    match (round.stop, round.lost.end) {
        (Some(TakeFault::Spent), _) | (_, Some(FailFault::Spent)) => Some(AbandonEnd::Spent),
        (
            Some(TakeFault::Refused(TakeRefusal::QueueEmpty)),
            Some(FailFault::Refused(FailRefusal::WindowEmpty)),
        ) => Some(AbandonEnd::Emptied),
        _ => None,
    }
}

/// Gives up each request that is queued on a lane that is down, so that its client is told: the lane
/// comes up, gives what its window holds to take, goes down, and fails each of these, until nothing
/// is queued. No link is at hand, so nothing is sent. The moment is in milliseconds, as of a take.
/// After it the lane is down; of each the gate was told. It may wait, and takes memory only where the
/// lane's history is full.
pub fn give_up_queued<R: Wait, G: Gate>(
    tap: &mut Tap,
    at: &Exchange,
    rt: &R,
    gate: &mut G,
    now: u64,
) -> Abandoned
    requires lock { slice_get at.now tap.old.lane ≡ Some tap.old.front.lock }
    ensures lock { (tap.new.lane ≡ tap.old.lane) × (tap.new.front.lock ≡ tap.old.front.lock) }
    ensures rounds { Abandons now tap.old.front tap.new.front result }
    ensures told { G.told gate.new
        ≡ G.told gate.old ++ rounds_tells tap.old.lane result.rounds }
    ensures asked { G.asked gate.new ≡ G.asked gate.old }
    ensures count { result.failed ≡ length (rounds_tells tap.old.lane result.rounds) }
    ensures few { result.failed ≤ 65536 * 1025 }

    // Each request that was accepted before the lane came up is settled, and the lane is down.
    ensures settled { result.end ≡ AbandonEnd.Emptied
        → LeavesNone tap.old.front tap.new.front }
{
    let mut rounds = Trace::new();
    let mut failed = 0;
    for _made in 0..ROUNDS {
        let made = match make_round(tap, at, rt, gate, now) {
            Ok(made) => made,
            Err(rise) => {
                return Abandoned {
                    failed,
                    rounds,
                    end: AbandonEnd::StaysDown(rise),
                };
            }
        };
        failed += made.lost.failed;
        rounds = rounds.and(&made);
        if let Some(end) = end_of(&made) {
            return Abandoned {
                failed,
                rounds,
                end,
            };
        }
    }
    Abandoned {
        failed,
        rounds,
        end: AbandonEnd::Left,
    }
}
