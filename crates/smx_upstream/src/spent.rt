//! Answers of a lane or a box that takes no more calls.
ghost use Rattle.std.specs.Prelude.{◌≡◌, true, Bool, Ok, Err, OnErr};
ghost use Rattle.smx_upstream.specs.Phases.{Phase, LeadsTo, unless_spent};
ghost use Rattle.smx_upstream.specs.Events.{is_spent_expiry, is_spent_shift};

use smx_history::{Entry, Failed};
use smx_shared::{ExpiryFault, TurnFault};
use smx_turns::Fault;

pub(crate) fn is_spent_expiry(failed: &Result<Failed, ExpiryFault>) -> bool
    ensures { result ≡ is_spent_expiry failed.now }
{
    matches!(failed, Err(ExpiryFault::Spent))
}

pub(crate) fn is_spent_shift(entries: &Result<Option<Vec<Entry>>, TurnFault>) -> bool
    ensures { result ≡ is_spent_shift entries.now }
{
    matches!(entries, Err(TurnFault::Spent))
}

// Whether a lane may have more to give, or the fault of a spent lane.
pub(crate) fn more_unless_spent(more: bool, spent: bool) -> Result<bool, Fault>
    ensures leads { (next : Bool → Phase) (q : Phase) → q ≡ unless_spent spent (next more)
        → LeadsTo result next q }
    ensures err { OnErr result (result ≡ Err Fault.Spent) }
    ensures ok { result ≡ Ok true → more ≡ true }
{
    if spent { Err(Fault::Spent) } else { Ok(more) }
}

// The fault of a spent call.
pub(crate) fn unless_spent(spent: bool) -> Result<(), Fault>
    ensures leads { (p q : Phase) → q ≡ unless_spent spent p → LeadsTo result (λ _. p) q }
    ensures err { OnErr result (result ≡ Err Fault.Spent) }
{
    if spent { Err(Fault::Spent) } else { Ok(()) }
}
