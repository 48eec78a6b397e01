//! Why a call is refused.

use smx_history::{AlreadyDown, FailRefusal, NoneExpired, TakeRefusal, UpRefusal};
use thiserror::Error;

/// Why an exchange is not made: the first of these that stands.
#[derive(Clone, Copy, Debug, PartialEq, Eq, Error)]
pub enum MakeFault {
    /// Not 1 to 16 lanes.
    #[error("there are 1 to 16 lanes")]
    BadLanes,
    /// A limit of a lane is outside its range.
    #[error("a limit of the lanes is outside its range")]
    BadLimits,
    /// A lane, its lock or a list could not be made.
    #[error("no memory for the lanes")]
    NoMemory,
    /// A lane's tickets were drawn before its tap had a seat, as where they start at 2^62.
    #[error("every ticket was drawn")]
    Spent,
}

/// Why a client does not enter: the first refusal met. All but `Exhausted` use its number up.
#[derive(Clone, Copy, Debug, PartialEq, Eq, Error)]
pub enum EnterFault {
    /// Client 2^62 was given.
    #[error("every client number was given")]
    Exhausted,
    /// Every ticket of a lane was drawn, or it has 2^62 seats.
    #[error("every ticket or seat was given out")]
    Spent,
    /// A lane has no room for what may follow of one more client: what it holds takes all.
    #[error("the history is full")]
    HistoryFull,
    /// The seats' list, or the client's row or box on a lane, could not be made.
    #[error("no memory for the client")]
    NoMemory,
    /// A lane has admitted this client or one above it. The door gives each number once and in
    /// rising order, so this is not met; no clause says so.
    #[error("the client's number is not above every number admitted so far")]
    Known,
}

/// Why a request is not accepted. None of these uses an ordinal.
#[derive(Clone, Copy, Debug, PartialEq, Eq, Error)]
pub enum SubmitFault {
    /// Ordinal 2^62 was used.
    #[error("every ordinal was used")]
    Exhausted,
    /// Every ticket of a lane was drawn; the lanes after it were not tried.
    #[error("every ticket was drawn")]
    Spent,
    /// Each lane in turn was found full, for the client, in its queue or in its history, or down.
    #[error("every lane is full")]
    AllFull,
}

/// Why no entries are handed out. The lane goes on as it was.
#[derive(Clone, Copy, Debug, PartialEq, Eq, Error)]
pub enum TurnFault {
    /// Every ticket was drawn.
    #[error("every ticket was drawn")]
    Spent,
    /// There is no memory for a new list of as many places as the limits' `history`.
    #[error("no memory for a new list of entries")]
    NoMemory,
}

/// Why nothing is taken.
#[derive(Clone, Copy, Debug, PartialEq, Eq, Error)]
pub enum TakeFault {
    /// Every ticket was drawn.
    #[error("every ticket was drawn")]
    Spent,
    /// The lane gives no request.
    #[error("{0}")]
    Refused(TakeRefusal),
}

/// Why a try takes nothing.
#[derive(Clone, Copy, Debug, PartialEq, Eq, Error)]
pub enum TryTakeFault {
    /// Every ticket was drawn.
    #[error("every ticket was drawn")]
    Spent,
    /// Another caller has the lane.
    #[error("another caller has the lane")]
    Busy,
    /// The lane gives no request.
    #[error("{0}")]
    Refused(TakeRefusal),
}

/// Why a lane does not go down.
#[derive(Clone, Copy, Debug, PartialEq, Eq, Error)]
pub enum DownFault {
    /// Every ticket was drawn.
    #[error("every ticket was drawn")]
    Spent,
    /// The lane is down already.
    #[error("{0}")]
    Refused(AlreadyDown),
}

/// Why no request fails.
#[derive(Clone, Copy, Debug, PartialEq, Eq, Error)]
pub enum FailFault {
    /// Every ticket was drawn.
    #[error("every ticket was drawn")]
    Spent,
    /// The lane gives no request up.
    #[error("{0}")]
    Refused(FailRefusal),
}

/// Why no request expires.
#[derive(Clone, Copy, Debug, PartialEq, Eq, Error)]
pub enum ExpiryFault {
    /// Every ticket was drawn.
    #[error("every ticket was drawn")]
    Spent,
    /// No request is so old.
    #[error("{0}")]
    Refused(NoneExpired),
}

/// Why a lane does not come up.
#[derive(Clone, Copy, Debug, PartialEq, Eq, Error)]
pub enum UpFault {
    /// Every ticket was drawn.
    #[error("every ticket was drawn")]
    Spent,
    /// The lane stays down, or is up.
    #[error("{0}")]
    Refused(UpRefusal),
}

/// A lane was not in its place at the end, as where a hold was never ended: the first such one.
#[derive(Clone, Copy, Debug, PartialEq, Eq, Error)]
#[error("lane {lane} was not in its place")]
pub struct StateOut {
    pub lane: usize,
}
