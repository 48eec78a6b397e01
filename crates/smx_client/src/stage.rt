//! How far a worker's life is.

/// How far a worker's life is.
#[derive(Clone, Copy, Debug, PartialEq, Eq)]
pub enum Stage {
    /// It reads and collects: no read has answered that the link has ended.
    Open,
    /// The link has ended: the whole PDUs that are left are decided.
    Drained,
    /// Nothing more is decided: what waits is written.
    Closed,
}
