//! A place of the window.

/// A request that was taken and has no answer, without its body.
#[derive(Clone, Copy, Debug, PartialEq, Eq)]
pub struct Place {
    /// The sequence number that the request bears upstream.
    pub upstream: u32,
    pub client: u64,
    pub ordinal: u64,
    /// The client's own sequence number.
    pub own: u32,
    pub command: u32,
    /// When it was taken, in milliseconds.
    pub moment: u64,
}
