//! Why a lane is not made, and why a client is not retired.

/// Why a lane is not made.
#[derive(Clone, Copy, Debug, PartialEq, Eq, thiserror::Error)]
pub enum LaneFault {
    /// A limit is outside its range: queue 1 to 65,535, window 1 to 1,024, client 1 to 256, history 1,000 to 1,000,000.
    #[error("a limit of the lane is outside its range")]
    BadLimits,
    /// The lists could not be reserved.
    #[error("no memory for the lane")]
    NoMemory,
}

/// The client was not admitted, or has retired.
#[derive(Clone, Copy, Debug, PartialEq, Eq, thiserror::Error)]
#[error("the client is not admitted")]
pub struct NotAdmitted;
