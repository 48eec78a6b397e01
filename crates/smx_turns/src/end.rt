//! How a turn ends, and how a run of turns does.
ghost use Rattle.std.specs.Prelude.{◌≡◌};
ghost use Rattle.smx_turns.specs.Rounds.{last_end};

/// Why a turn stops. After it a worker is only closed.
#[derive(Clone, Copy, Debug, PartialEq, Eq, thiserror::Error)]
pub enum Fault {
    #[error("the link failed")]
    Link,
    /// Every ticket of a lock was drawn.
    #[error("a lane or a box takes no more calls")]
    Spent,
    /// What wanted the memory was not done.
    #[error("no memory")]
    NoMemory,
}

/// How a turn ended.
#[derive(Clone, Copy, Debug, PartialEq, Eq)]
pub enum TurnEnd {
    /// Something was done, or octets wait to be written.
    Worked,
    /// A message filled a client's box, so no more was decided: that client is to be turned first.
    Filled,
    /// The gate said no, or there was nothing to do.
    Idle,
    /// The worker has nothing more to do.
    Done,
}

/// Why a worker is turned no more.
#[derive(Clone, Copy, Debug, PartialEq, Eq)]
pub enum RunEnd {
    /// A turn was `Done`: only closing is left.
    Left,
    /// All turns were made.
    Turns,
    /// A turn was `Filled`.
    Filled,
    /// A turn was `Idle`.
    Idle,
    /// A turn stopped: only closing is left.
    Fault(Fault),
}

/// How a worker's work ended. A turn that met a fault tells that itself.
#[derive(Clone, Copy, Debug, PartialEq, Eq)]
pub enum End {
    /// The peer unbound, and was answered (SMPP 3.4, section 4.2).
    Left,
    /// The peer answered the proxy's unbind.
    Stopped,
    /// A bad length was answered by a generic_nack (section 4.3).
    BadLength,
    /// The centre refused the bind with this status (section 4.1).
    Refused(u32),
    /// The link was bound, but its lane stays down.
    LaneDown,
    /// The peer didn't answer an enquire_link in time (sections 4.11 and 7.2).
    Silent,
    /// The link has ended, and no whole PDU is left.
    LinkEnded,
}

/// How a turn ends that only writes: whether octets are left.
pub fn last_end(left: bool) -> TurnEnd
    ensures { result ≡ last_end left }
{
    if left { TurnEnd::Worked } else { TurnEnd::Done }
}
