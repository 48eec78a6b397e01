//! Why a body can't be read.

use thiserror::Error;

/// Why a body can't be read, by the first field at fault.
#[derive(Clone, Copy, Debug, PartialEq, Eq, Error)]
pub enum BodyFault {
    /// The octets end within a field.
    #[error("the body ends within a field")]
    Truncated,
    /// A text has no ending 0 within its greatest length.
    #[error("a text has no end within its greatest length")]
    FieldTooLong,
}
