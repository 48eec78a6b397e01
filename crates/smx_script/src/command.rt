//! What the lines of a script ask for.

use crate::octets::Octets;
use smx_history::Limits;
use smx_session::{Account, Kind};

/// What holds for all lanes and clients.
#[derive(Debug, Drop)]
pub enum Setting {
    /// The sizes of each lane.
    Sizes(Limits),
    /// The number of lanes, 1 to 16.
    Lanes(usize),
    /// The places of each client's mailbox, 1 to 256.
    Places(u32),
    /// A client that may bind.
    Account(Account),
}

/// What a line does on the lanes.
#[derive(Debug, Drop)]
pub enum Action {
    /// A new client enters. It is bound so, or is still to bind.
    Client { kind: Option<Kind> },
    /// Messages to destinations with this prefix go to a client.
    Prefix { client: u64, prefix: Octets },
    /// Octets come from a client.
    In { client: u64, octets: Octets },
    /// The oldest request of a lane goes upstream.
    Take { lane: u64 },
    /// Octets come from the centre on a lane.
    Back { lane: u64, octets: Octets },
    /// A client collects what waits for it on each lane.
    Collect { client: u64 },
    /// A lane's stored entries are listed.
    History { lane: u64 },
    /// A lane's stored entries are listed, and it goes on without them.
    Turn { lane: u64 },
    /// A lane's link to the centre is lost.
    Lose { lane: u64 },
    /// A lane is bound to the centre again.
    Bind { lane: u64 },
    /// The moment, in milliseconds, becomes this.
    Moment { moment: u64 },
    /// What was taken on a lane at least so many milliseconds ago, and not answered, fails.
    Expire { lane: u64, age: u64 },
}

/// What a line asks for.
#[derive(Debug, Drop)]
pub enum Command {
    /// Nothing: the line is empty or a comment.
    Skip,
    Set(Setting),
    Run(Action),
}
