//! When the system is asked for events.
ghost use Rattle.std.specs.Prelude.{◌≢◌, ◌≤◌, ◌⊎◌, ◌↔◌, IsTrue};

/// After so many passes events are asked for in any case.
const PASSES: u64 = 4;

/// Whether events are asked for before a pass: where the millisecond isn't that in which they last were,
/// where an unbound party has a turn in it, and after four passes.
pub fn is_poll_due(now: u64, polled: u64, passes: u64, has_unbound: bool) -> bool
    ensures { IsTrue result ↔ (now ≢ polled) ⊎ IsTrue has_unbound ⊎ (4 ≤ passes) }
{
    now != polled || has_unbound || passes >= PASSES
}
