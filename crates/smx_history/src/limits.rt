//! The sizes that a lane keeps to.

/// How much a lane holds.
#[derive(Clone, Copy, Debug, PartialEq, Eq)]
pub struct Limits {
    /// The most requests that are accepted and not taken: 1 to 65,535.
    pub queue: u32,
    /// The most requests that are taken and not answered: 1 to 1,024.
    pub window: u32,
    /// The most requests of one client that are accepted and not collected: 1 to 256.
    pub client: u32,
    /// The most entries that are stored: 1,000 to 1,000,000.
    pub history: u32,
}
