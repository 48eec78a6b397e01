//! What is said of links to centres.

use crate::count::{Count, requests};
use crate::facts::{Facts, Figures, Party};
use crate::last_sent::LastSent;
use crate::level::Level;
use crate::reason::Reason;
use smx_pdu::status::{ESME_RINVPASWD, ESME_RINVSYSID, Status};
use smx_turns::Fault;
use std::{fmt, io};
use thiserror::Error;

/// An upstream, as lines name it: its index among the upstreams of the configuration, and its
/// system_id and its address as they stand there.
#[derive(Clone, Copy, Debug, Error)]
#[error("upstream {lane} {system_id} at {address}")]
pub struct UpstreamName<'a> {
    pub lane: usize,
    pub system_id: &'a str,
    pub address: &'a str,
}

/// How a link to a centre was lost, or why none came about.
#[derive(Clone, Copy, Debug, Error)]
pub enum LinkLoss {
    /// No connection came about, for this reason, where it is known.
    #[error("can't be reached{}", Because(*.0))]
    Unreached(Option<io::Error>),
    /// The centre refused the bind with this status.
    #[error("bind refused with {}", Status(*.0))]
    Refused(u32),
    /// The centre closed the connection.
    #[error("ended, it closed the connection")]
    Closed,
    /// The centre unbound.
    #[error("ended, it unbound")]
    Unbound,
    /// The centre sent a PDU whose length is none.
    #[error("ended, it sent a bad length")]
    BadLength,
    /// The centre was silent, and answered no enquire_link.
    #[error("ended, it answered no enquire_link")]
    Silent,
    /// The centre answered no bind.
    #[error("answered no bind")]
    Unanswered,
    /// It is bound, and its lane takes no requests any more.
    #[error("ended, its lane takes no requests")]
    LaneDown,
    /// The worker stopped for a fault.
    #[error("ended, {0}")]
    Fault(Fault),
}

/// What becomes of an upstream.
#[derive(Clone, Copy, Debug)]
pub enum UpstreamNews<'a> {
    Bound,
    /// The proxy unbound, near its end.
    Unbound,
    /// It has no link, this request went out last over the last one, where one did, so many failed with
    /// it, and in so many milliseconds it is tried again.
    Lost {
        loss: LinkLoss,
        last: Option<LastSent<'a>>,
        failed: usize,
        again: u64,
    },
    /// Its name has no address, for this reason, which is empty where none is known. In so many
    /// milliseconds it is looked up again.
    Unknown {
        reason: &'a str,
        again: u64,
    },
    /// So many requests that waited for a link of it failed.
    GivenUp {
        failed: usize,
    },
}

/// Where the link of an upstream stands. Times are in milliseconds.
#[derive(Clone, Copy, Debug, Error)]
pub enum LinkState {
    /// It is bound for so long, and octets wait for its socket or don't.
    #[error("bound for {time} ms")]
    Bound { time: u64, waits: bool },
    /// So long ago its connection was begun, and its bind isn't answered.
    #[error("connecting for {time} ms")]
    Binding { time: u64 },
    /// There is none, and one is tried again in so long; 0 while the name is looked up.
    #[error("no link, {}", Again(*again))]
    Down { again: u64 },
}

/// How an upstream stands.
#[derive(Clone, Copy, Debug)]
pub struct UpstreamStanding {
    pub link: LinkState,
    /// How many requests wait for the link.
    pub queued: u64,
    /// How many went over it and are neither answered nor failed.
    pub under_way: u64,
    /// For how many milliseconds the oldest of those is under way, where there is one.
    pub oldest: Option<u64>,
    /// How many entries its history has.
    pub history: u64,
}

// The system's reason, where there is one.
#[derive(Clone, Copy)]
struct Because(Option<io::Error>);

impl fmt::Display for Because {
    fn fmt<W: fmt::Write>(&self, f: &mut fmt::Formatter<W>) -> fmt::Result {
        match self.0 {
            Some(error) => write!(f, ": {error}"),
            None => Ok(()),
        }
    }
}

// In how many milliseconds a link is tried again; 0 while the name is looked up.
#[derive(Clone, Copy)]
struct Again(u64);

impl fmt::Display for Again {
    fn fmt<W: fmt::Write>(&self, f: &mut fmt::Formatter<W>) -> fmt::Result {
        match self.0 {
            0 => f.write_str("its name is looked up"),
            again => write!(f, "it is tried again in {again} ms"),
        }
    }
}

// What to compare where a centre refuses a bind with this status (SMPP 3.4, section 5.1.3).
fn to_compare(status: u32) -> Option<&'static str> {
    match status {
        ESME_RINVPASWD => Some("password"),
        ESME_RINVSYSID => Some("system_id"),
        _ => None,
    }
}

impl LinkLoss {
    fn status(self) -> Option<u32> {
        match self {
            LinkLoss::Refused(status) => Some(status),
            _ => None,
        }
    }

    // What to compare, where that is known.
    fn advice(self) -> Option<&'static str> {
        to_compare(self.status()?)
    }
}

// What becomes of an upstream, in words.
pub(crate) fn write_news<W: fmt::Write>(
    f: &mut fmt::Formatter<W>,
    name: UpstreamName<'_>,
    news: UpstreamNews<'_>,
) -> fmt::Result {
    write!(f, "{name}: ")?;
    match news {
        UpstreamNews::Bound => f.write_str("bound"),
        UpstreamNews::Unbound => f.write_str("unbound"),
        UpstreamNews::Lost {
            loss,
            last,
            failed,
            again,
        } => {
            write!(f, "{loss}")?;
            if let Some(key) = loss.advice() {
                write!(f, ": compare the {key} of upstream {}", name.lane)?;
            }
            if let Some(last) = last {
                write!(f, "; the last request on it was {last}")?;
            }
            write!(f, "; {} failed; ", requests(failed as u64))?;
            write!(f, "it is tried again in {again} ms")
        }
        UpstreamNews::Unknown { reason, again } => {
            f.write_str("the name isn't known")?;
            if !reason.is_empty() {
                write!(f, " ({reason})")?;
            }
            write!(f, "; it is looked up again in {again} ms")
        }
        UpstreamNews::GivenUp { failed } => {
            let failed = Count(failed as u64, "queued request", "queued requests");
            write!(f, "has no link for long, {failed} failed")
        }
    }
}

impl fmt::Display for UpstreamStanding {
    fn fmt<W: fmt::Write>(&self, f: &mut fmt::Formatter<W>) -> fmt::Result {
        let UpstreamStanding {
            link,
            queued,
            under_way,
            oldest,
            history,
        } = *self;
        write!(f, "{link}, {queued} queued, {under_way} under way")?;
        if let Some(oldest) = oldest {
            write!(f, ", the oldest for {oldest} ms")?;
        }
        write!(f, ", {} of history", Count(history, "entry", "entries"))?;
        match link {
            LinkState::Bound { waits: true, .. } => f.write_str(", octets wait"),
            _ => Ok(()),
        }
    }
}

// How a link was lost, as facts.
fn lost<'a>(loss: LinkLoss, last: Option<LastSent<'a>>, failed: usize, again: u64) -> Facts<'a> {
    let level = match loss {
        LinkLoss::Refused(_) => Level::Error,
        _ => Level::Warn,
    };
    let mut figures = Figures::none().size("failed", failed);
    if let Some(last) = last {
        figures = figures
            .word("last_command", last.name())
            .number("last_client", last.client);
    }
    let facts = Facts::new(level, "upstream_lost")
        .because(Reason::Loss(loss))
        .counted(figures.number("again_ms", again));
    match loss.status() {
        Some(status) => facts.with(status),
        None => facts,
    }
}

impl<'a> UpstreamNews<'a> {
    fn facts(self) -> Facts<'a> {
        match self {
            UpstreamNews::Bound => Facts::new(Level::Info, "upstream_bound"),
            UpstreamNews::Unbound => Facts::new(Level::Info, "upstream_unbound"),
            UpstreamNews::Lost {
                loss,
                last,
                failed,
                again,
            } => lost(loss, last, failed, again),
            UpstreamNews::Unknown { reason, again } => Facts::new(Level::Warn, "upstream_unknown")
                .because(Reason::Words(reason))
                .counted(Figures::none().number("again_ms", again)),
            UpstreamNews::GivenUp { failed } => Facts::new(
                Level::Warn,
                "upstream_given_up",
            ).counted(Figures::none().size("failed", failed)),
        }
    }
}

impl UpstreamStanding {
    fn figures(self) -> Figures {
        let figures = match self.link {
            LinkState::Bound { time, waits } => Figures::none()
                .word("link", "bound")
                .number("since_ms", time)
                .word("at_socket", if waits { "some" } else { "none" }),
            LinkState::Binding { time } => Figures::none()
                .word("link", "connecting")
                .number("since_ms", time),
            LinkState::Down { again } => Figures::none()
                .word("link", "none")
                .number("again_ms", again),
        };
        let figures = figures
            .number("queued", self.queued)
            .number("under_way", self.under_way)
            .number("history", self.history);
        match self.oldest {
            Some(oldest) => figures.number("oldest_ms", oldest),
            None => figures,
        }
    }
}

impl<'a> UpstreamName<'a> {
    // The facts of something that is about this upstream.
    fn named(self, facts: Facts<'a>) -> Facts<'a> {
        Facts {
            party: Some(Party::Upstream(self.lane)),
            account: Some(self.system_id),
            address: Some(self.address),
            ..facts
        }
    }

    pub(crate) fn news(self, news: UpstreamNews<'a>) -> Facts<'a> {
        self.named(news.facts())
    }

    pub(crate) fn standing(self, standing: UpstreamStanding) -> Facts<'a> {
        let facts = Facts::new(Level::Info, "status_upstream");
        self.named(facts.counted(standing.figures()))
    }
}
