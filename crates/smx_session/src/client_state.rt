//! States of a client's session.

/// The state of a client's session (SMPP 3.4, section 2.2).
#[derive(Clone, Copy, Debug, PartialEq, Eq)]
pub enum ClientState {
    /// Connected and not bound.
    Opened,
    BoundTx,
    BoundRx,
    BoundTrx,
    /// It was sent unbind.
    Unbinding,
    /// Unbound, or hung up.
    Ended,
}
