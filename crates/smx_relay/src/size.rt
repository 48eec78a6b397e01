//! How much a run has reserved.
ghost use Rattle.std.specs.Prelude.{◌≡◌, ◌+◌, ◌<◌, ◌^◌};
ghost use Rattle.smx_lines.specs.Relay.{Relay};
ghost use Rattle.smx_relay.specs.Sizes.{lane_places, client_places, places_of, is_too_large};
ghost use Rattle.smx_lines.specs.States.{StandsFor};

use smx_history::Limits;
use smx_lines::State;

/// The most places that a run may reserve. A request, a response, an entry and a message have at most 48 octets
/// each, so these are less than 1 GB.
const MOST_PLACES: u128 = 20_000_000;

/// The places for a client's row on a lane: it has 80 octets, and a ring that grows has twice as many.
const ROW_PLACES: u128 = 4;

/// The places for a client's link, likewise.
const LINK_PLACES: u128 = 16;

// The places of a lane with so many clients.
fn lane_places(limits: Limits, clients: usize) -> u128
    ensures value { result ≡ lane_places limits clients }
    ensures small { result < 2 ^ 64 + 2 ^ 35 }
{
    let clients = (clients as u128).min(limits.history as u128);
    limits.queue as u128
        + limits.window as u128
        + limits.history as u128
        + clients * (limits.client as u128 + ROW_PLACES)
}

// The places of a client's link and mailbox.
fn client_places(places: u32) -> u128
    ensures value { result ≡ client_places places }
    ensures small { result < 2 ^ 34 }
{
    2 * places as u128 + LINK_PLACES
}

// The places that are reserved.
fn places(state: &State) -> u128
    ensures { (s : Relay) → StandsFor state.now s → result ≡ places_of s }
{
    let clients = state.clients.list.len();
    state.lanes.len() as u128 * lane_places(state.limits, clients)
        + clients as u128 * client_places(state.places)
}

/// Whether more is reserved than a run may.
pub(crate) fn is_too_large(state: &State) -> bool
    ensures { (s : Relay) → StandsFor state.now s → result ≡ is_too_large s }
{
    places(state) > MOST_PLACES
}
