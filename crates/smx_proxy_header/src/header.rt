//! What octets begin with.
use crate::source::Source;

/// What the octets of a connection begin with, as far as they came.
#[derive(Clone, Copy, Debug, PartialEq, Eq)]
pub enum ProxyHeader {
    /// Less than a header.
    Part,
    /// A header of so many octets, and the source that it names.
    Whole { length: usize, source: Source },
    /// No header, whatever follows.
    Wrong,
}
