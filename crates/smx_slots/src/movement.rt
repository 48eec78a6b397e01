//! What a ledger is told.

/// What a ledger was told, for contracts alone.
#[derive(Clone, Copy, Debug, PartialEq, Eq)]
pub enum Movement {
    /// The client is bound by the account with this key.
    Bound(u64, usize),
    /// A lane accepted a request of the client.
    Accepted(u64),
    /// A request of the client was answered or failed.
    Settled(u64),
    /// The client is gone.
    Left(u64),
}
