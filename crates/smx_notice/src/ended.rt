//! How a run of the proxy ends.

use std::alloc::AllocError;

/// How a run of the proxy ended.
#[derive(Clone, Copy, Debug, PartialEq, Eq, thiserror::Error)]
pub enum Ended {
    /// It was told to stop: it has unbound, and what waited is written.
    #[error("stopped")]
    Stopped,
    /// There is no memory for the lanes or the boxes.
    #[error("no memory")]
    NoMemory,
    /// The system gives no threads for what is read and written beside it.
    #[error("the system gives no threads")]
    NoThreads,
    /// The system gives no events any more, or no time.
    #[error("the system gives no events")]
    NoEvents,
}

impl From<AllocError> for Ended {
    fn from(_: AllocError) -> Ended {
        Ended::NoMemory
    }
}
