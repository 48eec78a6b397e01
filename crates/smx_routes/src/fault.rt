//! Why a window isn't made, and why a prefix isn't added.

/// Why a window isn't made.
#[derive(Clone, Copy, Debug, PartialEq, Eq, thiserror::Error)]
pub enum WindowFault {
    /// There are to be none or more than 1,024 places.
    #[error("the number of places is 1 to 1,024")]
    BadSize,
    /// The places could not be reserved.
    #[error("no memory for the places")]
    NoMemory,
}

/// Why a prefix is not added: the first of these that stands.
#[derive(Clone, Copy, Debug, PartialEq, Eq, thiserror::Error)]
pub enum RouteFault {
    /// The prefix has more than 64 octets.
    #[error("the prefix has more than 64 octets")]
    TooLong,
    /// The client has this prefix already.
    #[error("the client has this prefix already")]
    Known,
    /// There is no memory for one more prefix.
    #[error("no memory for the prefix")]
    NoMemory,
}
