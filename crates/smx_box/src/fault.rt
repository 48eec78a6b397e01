//! Why a box isn't made, and why nothing is got.

/// Why a box isn't made.
#[derive(Clone, Copy, Debug, PartialEq, Eq, thiserror::Error)]
pub enum BoxFault {
    /// There are to be no senders or more than 256, or no places or more than 131,072.
    #[error("a box has 1 to 256 senders and 1 to 131,072 places")]
    BadSize,
    /// The places could not be reserved.
    #[error("no memory for the places")]
    NoMemory,
    /// The box takes no calls. No call answers this.
    #[error("the box takes no calls")]
    Spent,
}

/// The box takes no more gets. No call answers this.
#[derive(Clone, Copy, Debug, PartialEq, Eq, thiserror::Error)]
#[error("the box takes no more gets")]
pub struct Spent;
