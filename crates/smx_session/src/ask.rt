//! What leave is asked for.

/// The leave that is asked for before a client's PDU is decided.
#[derive(Clone, Copy, Debug, PartialEq, Eq)]
pub enum Ask {
    /// To bind the client by the account with this index.
    Bind(usize),
    /// To refuse its bind.
    RefusedBind,
    /// For its request to go to a lane.
    Request,
}
