//! Where the counts of an exchange start.

/// Where the counts of an exchange start: its lanes' tickets, the clients' numbers and each client's
/// ordinals. A ticket is at most 2^62, the others are 1 to 2^62.
#[derive(Clone, Copy, Debug, PartialEq, Eq)]
pub struct Starts {
    pub ticket: u64,
    pub client: u64,
    pub ordinal: u64,
}

impl Starts {
    /// Ticket 0, client 1 and ordinal 1.
    pub const FIRST: Starts = Starts {
        ticket: 0,
        client: 1,
        ordinal: 1,
    };
}
