//! Kinds of binds.

/// How an ESME binds (SMPP 3.4, section 2.1).
#[derive(Clone, Copy, Debug, PartialEq, Eq)]
pub enum Kind {
    /// As transmitter: it sends requests to the centre.
    Tx,
    /// As receiver: it is sent messages.
    Rx,
    /// As transceiver: both.
    Trx,
}
