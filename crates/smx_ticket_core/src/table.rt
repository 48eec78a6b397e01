//! The event table: what an event does to the two numbers and to its caller.
//!
//! | Event         | From         | Effect |
//! |---------------|--------------|--------|
//! | `ReadNext`    | `Idle`, `Read` | `Read(next)` |
//! | `Draw`        | `Read(x)`    | next is x: refused at 2^62, else next rises by one and the caller is `Waiting(x)`. Next is not x: `Read(next)` |
//! | `Look`        | `Waiting(t)` | serving is t: `Holding(t)`. Else nothing |
//! | `Leave`       | `Holding(t)` | serving becomes t + 1, the caller `Idle` |
//! | `ReadServing` | `Idle`       | `Saw(serving)` |
//! | `TryDraw`     | `Saw(x)`     | next is x: refused at 2^62, else next rises by one and the caller is `Holding(x)`. Next is not x: `Idle` |
ghost use Rattle.std.specs.Prelude.{◌≡◌, ◌≤◌, MatchResult, Ok, Err};
ghost use Rattle.smx_ticket_core.specs.Machine.{most, who, row, draw, FitsNumbers};

use crate::{Caller, Event, Illegal};

/// The first ticket that no draw takes, 2^62.
pub const MOST: u64 = 1 << 62;

// The index of the caller that takes the step.
pub(crate) fn caller_of(event: Event) -> usize
    ensures { result ≡ who event }
{
    match event {
        Event::ReadNext(i) => i,
        Event::Draw(i) => i,
        Event::Look(i) => i,
        Event::Leave(i) => i,
        Event::ReadServing(i) => i,
        Event::TryDraw(i) => i,
    }
}

// A draw of the ticket `next`.
fn drawn(next: u64, serving: u64, won: Caller) -> Result<(u64, u64, Caller), Illegal>
    requires { next ≤ most }
    ensures { MatchResult result (λ t. draw next serving next won ≡ Ok (t.0, (t.1, t.2)))
        (λ x. draw next serving next won ≡ Err x) }
{
    if next == MOST {
        Err(Illegal::Spent)
    } else {
        Ok((next + 1, serving, won))
    }
}

// The row of the table: next, serving and the caller's state after the event.
pub(crate) fn turn(
    next: u64,
    serving: u64,
    event: Event,
    caller: Caller,
) -> Result<(u64, u64, Caller), Illegal>
    requires fits { FitsNumbers next serving caller }
    requires bounded { next ≤ most }
    ensures { MatchResult result (λ t. row next serving event caller ≡ Ok (t.0, (t.1, t.2)))
        (λ x. row next serving event caller ≡ Err x) }
{
    match (event, caller) {
        (Event::ReadNext(_), Caller::Idle | Caller::Read(_)) => Ok((
            next,
            serving,
            Caller::Read(next),
        )),
        (Event::Draw(_), Caller::Read(x)) => {
            if next == x {
                drawn(next, serving, Caller::Waiting(x))
            } else {
                Ok((next, serving, Caller::Read(next)))
            }
        }
        (Event::Look(_), Caller::Waiting(t)) => {
            let state = if serving == t {
                Caller::Holding(t)
            } else {
                Caller::Waiting(t)
            };
            Ok((next, serving, state))
        }
        (Event::Leave(_), Caller::Holding(t)) => Ok((next, t + 1, Caller::Idle)),
        (Event::ReadServing(_), Caller::Idle) => Ok((next, serving, Caller::Saw(serving))),
        (Event::TryDraw(_), Caller::Saw(x)) => {
            if next == x {
                drawn(next, serving, Caller::Holding(x))
            } else {
                Ok((next, serving, Caller::Idle))
            }
        }
        _ => Err(Illegal::WrongState),
    }
}
