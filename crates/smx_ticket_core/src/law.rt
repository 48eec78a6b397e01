//! The theorem about every run of the machine.
ghost use Rattle.smx_ticket_core.specs.Machine.{ExclusionLaw};

/// In every run of the machine, by any number of callers and from any first ticket up to 2^62, at
/// most one caller holds at any moment, and the k-th hold has the ticket `first + k - 1`.
pub fn exclusion_law()
    ensures { ExclusionLaw }
{}
