//! States of the session with a centre.

/// The state of the session with a centre (SMPP 3.4, section 2.2).
#[derive(Clone, Copy, Debug, PartialEq, Eq)]
pub enum UpstreamState {
    /// The proxy's bind is not answered.
    Binding,
    Bound,
    /// The proxy's unbind is not answered.
    Unbinding,
    Ended,
}
