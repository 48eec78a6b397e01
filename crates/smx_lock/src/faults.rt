//! Why a lock refuses a call.

use thiserror::Error;

/// Every ticket below 2^62 was drawn, or every seat below 2^62 was made. It stays so.
#[derive(Clone, Copy, PartialEq, Eq, Debug, Error)]
#[error("every ticket or seat was given out")]
pub struct Spent;

/// A hold is not over, so the value was not in its place. It is lost.
#[derive(Clone, Copy, PartialEq, Eq, Debug, Error)]
#[error("the locked value was not in its place")]
pub struct StateOut;

/// Why a try did not get the lock.
#[derive(Clone, Copy, PartialEq, Eq, Debug, Error)]
pub enum TryFault {
    /// Every ticket below 2^62 was drawn. It stays so.
    #[error("every ticket was drawn")]
    Spent,
    /// Another caller holds the lock or has drawn a ticket, or drew one in the course of the try.
    /// No clause says that it comes only then; a test shows a try that nobody is beside.
    #[error("another caller has the lock")]
    Busy,
}
