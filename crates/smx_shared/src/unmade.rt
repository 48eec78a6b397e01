//! An exchange that was not made.
ghost use Rattle.std.specs.Prelude.{◌≡◌, Some, None};

use crate::fault::MakeFault;
use crate::lane_seat::LaneSeat;
use std::marker::Model;

/// Why an exchange was not made. Where a lane's tickets were spent its seat comes back: nothing can
/// be done with it, and contracts see by it that they were.
#[derive(Drop)]
pub struct Unmade {
    pub fault: MakeFault,
    pub(crate) seat: Option<LaneSeat>,
}

impl Model for Unmade {
    ghost use Rattle.smx_shared.specs.Views.{UnmadeView};

    ghost Value = { UnmadeView };

    ghost view = { λ u. record { fault = u.fault; seat = u.seat } };
}

impl Unmade {
    // Before any seat found its tickets spent.
    pub(crate) fn because(fault: MakeFault) -> Unmade
        ensures { result ≡ record { fault = fault; seat = None } }
    {
        Unmade { fault, seat: None }
    }

    // The tickets of this seat's lane are spent.
    pub(crate) fn spent(seat: LaneSeat) -> Unmade
        ensures { result ≡ record { fault = MakeFault.Spent; seat = Some seat } }
    {
        Unmade {
            fault: MakeFault::Spent,
            seat: Some(seat),
        }
    }
}
