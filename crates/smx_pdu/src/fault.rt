//! Why octets are no PDU.

use thiserror::Error;

/// Why octets are no PDU: the first of these that stands.
#[derive(Clone, Copy, Debug, PartialEq, Eq, Error)]
pub enum PduFault {
    /// They are fewer than a header has.
    #[error("{octets} octets are fewer than the 16 of a header")]
    Short { octets: usize },
    /// The length field is below 16, or isn't how many they are.
    #[error("the length field says {field}, and there are {octets} octets")]
    Length { field: u32, octets: usize },
    /// They are more than a PDU has.
    #[error("{octets} octets are more than the 65,536 of a PDU")]
    TooLong { octets: usize },
    /// Memory for the body was refused.
    #[error("out of memory")]
    NoMemory,
}
