//! What a run holds between two lines.
ghost use Rattle.std.specs.Prelude.{◌≡◌, Some, None, IfSome, IfNone};
ghost use Rattle.std.specs.Borrow.{sem};
ghost use Rattle.smx_lines.specs.Relay.{client_of};
ghost use Rattle.smx_lines.specs.States.{IsKnown};
ghost use Rattle.smx_lines.specs.Private.Lending.{LendsClient};

use crate::link::{CentreLink, ClientLink};
use smx_history::Limits;
use smx_lane::Lane;
use smx_routes::Routes;
use smx_session::Account;

/// A lane, and its link to the centre.
#[derive(Drop)]
pub struct LinkedLane {
    pub lane: Lane,
    pub link: CentreLink,
}

/// A client: the ordinal of its last request, and its link.
#[derive(Drop)]
pub struct LinkedClient {
    pub last: u64,
    pub link: ClientLink,
}

/// The clients, by their numbers; none of a number that no client has.
#[derive(Drop)]
pub struct Clients {
    pub list: Vec<Option<LinkedClient>>,
}

impl Clients {
    /// The client with this number.
    pub fn get(&self, client: u64) -> Option<&LinkedClient>
        ensures some { IfSome result (λ k. client_of self.now.list.items client ≡ Some k.now) }
        ensures none { IfNone result (client_of self.now.list.items client ≡ None) }
    {
        let at = client as usize;
        if at >= self.list.len() {
            return None;
        }
        match &self.list[at] {
            Some(known) => Some(known),
            None => None,
        }
    }

    /// The client with this number, which there is.
    pub fn known_mut(&mut self, client: u64) -> &mut LinkedClient
        requires { IsKnown self.old.list.items client }
        ensures* writes_back { sem 𝓛 (LendsClient self.entry client result) }
        ensures value { client_of self.old.list.items client ≡ Some result.now }
    {
        self.list[client as usize].as_mut().unwrap()
    }
}

/// The settings, the lanes and the clients.
#[derive(Drop)]
pub struct State {
    /// The sizes of each lane.
    pub limits: Limits,
    /// How many lanes there are to be, 1 to 16.
    pub count: usize,
    /// The places of each client's mailbox, 1 to 256.
    pub places: u32,
    /// Who may bind.
    pub accounts: Vec<Account>,
    /// A line other than a setting was run, so the lanes are made.
    pub started: bool,
    /// The moment, in milliseconds. It never falls.
    pub moment: u64,
    pub lanes: Vec<LinkedLane>,
    pub clients: Clients,
    /// The prefixes of the clients that messages go to.
    pub routes: Routes,
}
