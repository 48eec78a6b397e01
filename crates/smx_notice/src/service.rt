//! What a service manager is told: lines as sd_notify(3) has them.

use thiserror::Error;

/// How many upstreams are bound, of how many, and how many clients.
#[derive(Clone, Copy, Debug, PartialEq, Eq, Error)]
#[error("{bound} of {upstreams} upstreams bound, {clients} clients")]
pub struct Counts {
    pub bound: usize,
    pub upstreams: usize,
    pub clients: usize,
}

/// One line for a service manager. No password is in it.
#[derive(Clone, Copy, Debug, Error)]
pub enum Service<'a> {
    /// Clients can connect, or the address to listen at is tried again, or a reload is over.
    #[error("READY=1")]
    Ready,
    /// Nobody can connect at this address, which is tried again.
    #[error("STATUS=no connections can be awaited at {0}; it is tried again every 2 seconds")]
    Awaiting(&'a str),
    /// Who is bound now.
    #[error("STATUS={0}")]
    Counts(Counts),
    /// The loop turns.
    #[error("WATCHDOG=1")]
    Alive,
    /// The configuration is read again.
    #[error("RELOADING=1")]
    Reloading,
    #[error("STOPPING=1")]
    Stopping,
}
