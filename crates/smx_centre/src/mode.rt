//! How a centre gives its responses.

/// How a centre gives its responses to the requests that a proxy forwards: submit_sm,
/// submit_multi, query_sm, cancel_sm, replace_sm and data_sm. Other PDUs are answered at once in
/// each mode.
#[derive(Clone, Copy, Debug, PartialEq, Eq)]
pub enum Mode {
    /// Each at once.
    Plain,
    /// The first of each two after the second.
    Reversed,
    /// Each two times.
    Twice,
    /// Each at once, followed by a copy with the sequence_number 0x70000000.
    Stranger,
    /// None.
    Silent,
}
