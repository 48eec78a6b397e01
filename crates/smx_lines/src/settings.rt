//! The settings, and the start of the lanes.
ghost use Rattle.std.specs.Prelude.{◌≡◌, ℕ, List, IfOk, OnOk};
ghost use Rattle.smx_lines.specs.Relay.{Relay, new_relay, begin_lanes, set_turn};
ghost use Rattle.smx_lines.specs.States.{StandsFor, Prints};

use crate::link::CentreLink;
use crate::state::{Clients, LinkedLane, State};
use smx_history::Limits;
use smx_lane::Lane;
use smx_routes::Routes;
use smx_script::Setting;
use std::alloc::{AllocError, Global};

/// The places of a mailbox, unless the script says how many.
const PLACES: u32 = 16;

/// The state before the first line.
pub fn new_state(alloc: Global) -> Result<State, AllocError>
    ensures { IfOk result (λ state. StandsFor state new_relay) }
{
    let mut clients = Vec::new(alloc);
    clients.push(None)?;
    Ok(State {
        limits: Limits {
            queue: 100,
            window: 10,
            client: 20,
            history: 10_000,
        },
        count: 1,
        places: PLACES,
        accounts: Vec::new(alloc),
        started: false,
        moment: 0,
        lanes: Vec::new(alloc),
        clients: Clients { list: clients },
        routes: Routes::new(alloc),
    })
}

/// The most accounts that a script has.
const MAX_ACCOUNTS: usize = 256;

/// Keeps a setting, unless the lanes were started.
pub fn set(
    alloc: Global,
    state: &mut State,
    setting: Setting,
) -> Result<Option<Vec<u8>>, AllocError>
    ensures { (s : Relay) → StandsFor state.old s → IfOk result (λ text.
        Prints (set_turn s setting) state.new text) }
{
    if state.started {
        return Ok(None);
    }
    match setting {
        Setting::Sizes(limits) => state.limits = limits,
        Setting::Lanes(count) => state.count = count,
        Setting::Places(places) => state.places = places,
        Setting::Account(account) => {
            if state.accounts.len() >= MAX_ACCOUNTS {
                return Ok(None);
            }
            state.accounts.push(account)?;
        }
    }
    Ok(Some(Vec::new(alloc)))
}

/// Makes the lanes and their links, unless they were made.
pub fn begin(alloc: Global, state: &mut State) -> Result<(), AllocError>
    ensures { (s : Relay) → StandsFor state.old s
        → OnOk result (StandsFor state.new (begin_lanes s)) }
{
    if state.started {
        return Ok(());
    }
    state.started = true;
    for _ in 0..state.count {
        let Ok(lane) = Lane::new(alloc, state.limits) else {
            return Err(AllocError);
        };
        let link = CentreLink::bound(alloc)?;
        state.lanes.push(LinkedLane { lane, link })?;
    }
    Ok(())
}
