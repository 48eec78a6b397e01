//! Why a stream goes no further.

use thiserror::Error;

/// Why a stream goes no further.
#[derive(Clone, Copy, Debug, PartialEq, Eq, Error)]
pub enum FrameFault {
    /// A command_length below 16, which a header alone has, stands in a PDU's place.
    #[error("a length below the 16 octets of a header")]
    Below16,
    /// A command_length above the greatest one stands in a PDU's place.
    #[error("a length above the greatest one")]
    AboveMax,
    /// Memory was refused.
    #[error("out of memory")]
    NoMemory,
}
