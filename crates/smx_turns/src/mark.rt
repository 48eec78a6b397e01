//! How far a turn came.

/// What a turn came to, beside its questions, its reads and its events.
#[derive(Clone, Copy, Debug, PartialEq, Eq)]
pub enum Mark {
    /// It offered the link all that waits.
    Offered {
        /// Octets waited.
        waited: bool,
        /// The link took an octet or more.
        wrote: bool,
        /// Octets wait still.
        left: bool,
    },
    /// The write failed.
    WriteFailed,
    /// PDUs that came are still to be decided, so nothing is read.
    Waited,
    /// As many octets wait as a PDU can have, so no more are made.
    Full,
    /// Every number of the window is given, so no item is got.
    NoRoom,
    /// No whole PDU is left of what was read.
    Part,
    /// The prefixes of this account were entered into the directory: whether there was memory for all.
    Entered(usize, bool),
}
