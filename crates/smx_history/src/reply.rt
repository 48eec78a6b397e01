//! What the calls of a lane answer.

use smx_pdu::Pdu;
use thiserror::Error;

/// Why a client is not admitted: the first of these that stands.
#[derive(Clone, Copy, Debug, PartialEq, Eq, Error)]
pub enum AdmitFault {
    /// The number is 0, or isn't above that of every client admitted so far.
    #[error("the client's number is not above that of every client admitted so far")]
    Known,
    /// There is no room for what may follow of one more client.
    #[error("the history has no room for one more client")]
    HistoryFull,
    /// The client's row or box could not be made.
    #[error("no memory for the client")]
    NoMemory,
}

/// Why a request is not accepted: the first of these that stands.
#[derive(Clone, Copy, Debug, PartialEq, Eq, Error)]
pub enum Refusal {
    /// The client was not admitted, or has retired.
    #[error("the client is not admitted")]
    NotAdmitted,
    /// As many of the client's requests as it may have are accepted and not collected.
    #[error("the client has as many requests as it may have")]
    ClientFull,
    /// As many requests as the queue holds are accepted and not taken.
    #[error("the queue is full")]
    QueueFull,
    /// There is no room for what may follow of one more request.
    #[error("the history has no room for one more request")]
    HistoryFull,
    /// The link upstream is lost.
    #[error("the lane is down")]
    Down,
}

/// Why nothing is taken: the first of these that stands.
#[derive(Clone, Copy, Debug, PartialEq, Eq, Error)]
pub enum TakeRefusal {
    /// No request is queued.
    #[error("the queue is empty")]
    QueueEmpty,
    /// As many requests as the window holds are taken and not answered.
    #[error("the window is full")]
    WindowFull,
    /// The link upstream is lost.
    #[error("the lane is down")]
    Down,
}

/// The lane is down already.
#[derive(Clone, Copy, Debug, PartialEq, Eq, Error)]
#[error("the lane is down already")]
pub struct AlreadyDown;

/// Why a lane does not come up: the first of these that stands.
#[derive(Clone, Copy, Debug, PartialEq, Eq, Error)]
pub enum UpRefusal {
    /// The lane is up.
    #[error("the lane is up already")]
    AlreadyUp,
    /// Some request that was taken before the link was lost has neither been answered nor failed.
    #[error("a taken request is neither answered nor failed")]
    WindowNotEmpty,
    /// There is no room for what may follow.
    #[error("the history has no room for the lane to come up")]
    HistoryFull,
}

/// Why no request fails: the first of these that stands.
#[derive(Clone, Copy, Debug, PartialEq, Eq, Error)]
pub enum FailRefusal {
    /// The lane is up, and the requests that were taken may still be answered.
    #[error("the lane is up")]
    Up,
    /// No request is taken and not answered.
    #[error("the window is empty")]
    WindowEmpty,
}

/// No request that was taken is so old without an answer.
#[derive(Clone, Copy, Debug, PartialEq, Eq, Error)]
#[error("no taken request is so old")]
pub struct NoneExpired;

/// What became of a request that failed.
#[derive(Clone, Copy, Debug, PartialEq, Eq)]
pub enum Failed {
    /// What tells its client so waits for the client.
    Queued { client: u64 },
    /// Its client has retired.
    Late { client: u64 },
}

/// What became of a response.
#[derive(Debug, Drop)]
pub enum Answered {
    /// It waits for its client.
    Queued { client: u64 },
    /// Its client has retired, and the response is gone.
    Late { client: u64 },
    /// It answers no place of the window, and is handed back.
    Unknown(Pdu),
}
