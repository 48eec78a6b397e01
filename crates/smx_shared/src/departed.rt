//! What is left of a client that is gone.

ghost use Rattle.std.specs.Prelude.{◌≡◌, [], None};

use crate::lane_seat::LaneSeat;
use std::alloc::Global;
use std::marker::Model;

/// The seats of a client that has left or was refused, one a lane. Nothing can be done with them but
/// to let them go: contracts see by them what the last hold of each lane did.
#[derive(Drop)]
pub struct Departed {
    pub(crate) client: u64,
    // On the lanes that it entered, from the first on.
    pub(crate) seats: Vec<LaneSeat>,
    // On the lane that refused it.
    pub(crate) barred: Option<LaneSeat>,
}

impl Model for Departed {
    ghost use Rattle.smx_shared.specs.Views.{DepartedView};

    ghost Value = { DepartedView };

    ghost view = { λ d. record { client = d.client; fronts = d.seats.items; barred = d.barred } };
}

impl Departed {
    // Of a client for whom no seat was made. It takes no memory.
    pub(crate) fn seatless(alloc: Global, client: u64) -> Departed
        ensures { result ≡ record { client = client; fronts = []; barred = None } }
    {
        Departed {
            client,
            seats: Vec::new(alloc),
            barred: None,
        }
    }
}
