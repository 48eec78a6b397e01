//! The lane comes up once its link is bound.
ghost use Rattle.std.specs.Prelude.{◌≡◌, slice_get, Some};
ghost use Rattle.smx_upstream.specs.Rising.{Rises, is_history_full, said_last, stays_down};

use crate::event::Rise;
use smx_history::UpRefusal;
use smx_shared::{Exchange, Tap, UpFault};
use std::sync::Wait;

// Whether the lane's history has no room.
fn is_full(said: &Result<(), UpFault>) -> bool
    ensures { result ≡ is_history_full said.now }
{
    matches!(said, Err(UpFault::Refused(UpRefusal::HistoryFull)))
}

// What the lane said at last.
fn said_last(rise: &Rise) -> &Result<(), UpFault>
    ensures { result.now ≡ said_last rise.now }
{
    match rise {
        Rise::Asked(said) | Rise::Renewed(_, said) => said,
    }
}

// Whether the lane is down still.
pub(crate) fn stays_down(rise: &Rise) -> bool
    ensures { result ≡ stays_down (said_last rise.now) }
{
    match said_last(rise) {
        Ok(()) | Err(UpFault::Refused(UpRefusal::AlreadyUp)) => false,
        Err(_) => true,
    }
}

// Brings the lane up. Where its history is full it hands its entries out first.
pub(crate) fn raise<R: Wait>(tap: &mut Tap, at: &Exchange, rt: &R) -> Rise
    requires lock { slice_get at.now tap.old.lane ≡ Some tap.old.front.lock }
    ensures lock { (tap.new.lane ≡ tap.old.lane) × (tap.new.front.lock ≡ tap.old.front.lock) }
    ensures rises { Rises tap.old.front tap.new.front result }
{
    let first = tap.up(at, rt);
    if !is_full(&first) {
        return Rise::Asked(first);
    }
    let entries = tap.turn_over(at, rt, 1);
    let said = tap.up(at, rt);
    Rise::Renewed(entries, said)
}
