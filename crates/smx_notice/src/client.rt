//! What is said of clients.

use crate::count::{Count, requests as some_requests};
use crate::facts::{Facts, Figures, Party};
use crate::level::Level;
use crate::reason::{Quoted, Reason};
use smx_pdu::status::{ESME_RINVPASWD, ESME_RINVSYSID, Status};
use smx_session::Kind;
use smx_turns::Fault;
use std::fmt;
use thiserror::Error;

/// A client, as lines name it: its number, the system_id of its account once it is bound, and the
/// address that it connected from.
#[derive(Clone, Copy, Debug)]
pub struct ClientName<'a> {
    pub client: u64,
    pub system_id: Option<&'a str>,
    pub address: &'a str,
}

/// What became of the account that a client is bound by, when the configuration was read again.
#[derive(Clone, Copy, Debug, PartialEq, Eq, Error)]
pub enum AccountChange {
    #[error("its account is gone; it is unbound")]
    Gone,
    #[error("its password is another one now; it is unbound")]
    Password,
    #[error("its prefixes are others now")]
    Prefixes,
    #[error("what it may send is another now, from its next bind on")]
    Rules,
    #[error("its prefixes are others now, and from its next bind on what it may send")]
    Both,
}

/// Why a client is gone.
#[derive(Clone, Copy, Debug, PartialEq, Eq, Error)]
pub enum ClientEnd {
    /// It unbound.
    #[error("left")]
    Left,
    /// It answered the proxy's unbind.
    #[error("unbound")]
    Unbound,
    /// It didn't answer the proxy's unbind.
    #[error("answered no unbind")]
    NotUnbound,
    /// It wasn't bound, and the proxy stops.
    #[error("let go before its bind, as the proxy stops")]
    Stopped,
    /// So many of its binds were refused that its connection is closed.
    #[error("hung up, three refused binds")]
    TurnedOut,
    /// Its connection began with no header of the PROXY protocol.
    #[error("began with no header of the PROXY protocol")]
    NoHeader,
    /// It closed its connection without an unbind.
    #[error("closed its connection")]
    Closed,
    /// It sent a PDU whose length is none.
    #[error("hung up, a bad length")]
    BadLength,
    /// It was enquired, and no octet came.
    #[error("answered no enquire_link")]
    Silent,
    /// Octets wait for it, and it takes none.
    #[error("takes no octets")]
    Stuck,
    /// It wasn't bound in time.
    #[error("not bound in time")]
    Late,
    /// It wasn't bound, and another one connected.
    #[error("gave its place to another")]
    Displaced,
    /// It wasn't bound, and who may bind has changed.
    #[error("let go before its bind, as the accounts changed")]
    Renewed,
    /// The worker stopped for a fault.
    #[error("ended, {0}")]
    Fault(Fault),
}

impl ClientEnd {
    // One that neither the client nor the proxy meant is graver.
    fn level(self) -> Level {
        match self {
            ClientEnd::Left
            | ClientEnd::Unbound
            | ClientEnd::Stopped
            | ClientEnd::Closed
            | ClientEnd::Displaced
            | ClientEnd::Renewed => Level::Info,
            ClientEnd::NotUnbound
            | ClientEnd::TurnedOut
            | ClientEnd::NoHeader
            | ClientEnd::BadLength
            | ClientEnd::Silent
            | ClientEnd::Stuck
            | ClientEnd::Late
            | ClientEnd::Fault(_) => Level::Warn,
        }
    }
}

/// What a bind said that was refused.
#[derive(Clone, Copy, Debug)]
pub enum BindSaid<'a> {
    /// The system_id of an account.
    Known,
    /// This system_id, which no account has.
    Unknown(&'a [u8]),
    /// What can't be read.
    Unreadable,
}

impl<'a> BindSaid<'a> {
    // Why it was refused with this status, where the status alone doesn't say it.
    fn reason(self, status: u32) -> Option<Reason<'a>> {
        match (self, status) {
            (BindSaid::Known, _) => None,
            (BindSaid::Unknown(said), _) => Some(Reason::NoAccount(Quoted(said))),
            (BindSaid::Unreadable, ESME_RINVSYSID) => {
                Some(Reason::Words("its system_id has more than 15 octets"))
            }
            (BindSaid::Unreadable, ESME_RINVPASWD) => {
                Some(Reason::Words("its password has more than 8 octets"))
            }
            (BindSaid::Unreadable, _) => Some(Reason::Words("its body can't be read")),
        }
    }
}

/// What becomes of a client.
#[derive(Clone, Copy, Debug)]
pub enum ClientNews<'a> {
    Connected,
    Bound(Kind),
    /// Its bind, which said this, was refused with this status.
    BindRefused { status: u32, said: BindSaid<'a> },
    /// Its account is another one now.
    Changed(AccountChange),
    /// There is no memory for all prefixes that its account has now.
    Unrouted,
    Gone(ClientEnd),
}

/// How a client stands.
#[derive(Clone, Copy, Debug)]
pub struct ClientStanding {
    /// As what it is bound, where it is.
    pub kind: Option<Kind>,
    /// How long it is connected, in milliseconds.
    pub time: u64,
    /// How many of its requests are accepted and neither answered nor failed.
    pub requests: u64,
    /// How many messages it was sent and hasn't answered.
    pub messages: u64,
    /// How many octets wait behind those at its socket.
    pub octets: usize,
    /// Octets wait at its socket.
    pub waits: bool,
}

// As what a client is bound.
fn kind_word(kind: Kind) -> &'static str {
    match kind {
        Kind::Tx => "transmitter",
        Kind::Rx => "receiver",
        Kind::Trx => "transceiver",
    }
}

impl fmt::Display for ClientName<'_> {
    fn fmt<W: fmt::Write>(&self, f: &mut fmt::Formatter<W>) -> fmt::Result {
        let ClientName {
            client,
            system_id,
            address,
        } = *self;
        match system_id {
            Some(system_id) => write!(f, "client {client} {system_id} at {address}"),
            None => write!(f, "client {client} at {address}"),
        }
    }
}

impl fmt::Display for ClientNews<'_> {
    fn fmt<W: fmt::Write>(&self, f: &mut fmt::Formatter<W>) -> fmt::Result {
        match *self {
            ClientNews::Connected => f.write_str("connected"),
            ClientNews::Bound(kind) => write!(f, "bound as {}", kind_word(kind)),
            ClientNews::BindRefused {
                status,
                said: BindSaid::Unknown(said),
            } => {
                let (name, status) = (Quoted(said), Status(status));
                write!(f, "bind as {name} refused, {status}: no such account")
            }
            ClientNews::BindRefused { status, said } => {
                write!(f, "bind refused, {}", Status(status))?;
                match said.reason(status) {
                    Some(reason) => write!(f, ": {reason}"),
                    None => Ok(()),
                }
            }
            ClientNews::Changed(change) => write!(f, "{change}"),
            ClientNews::Unrouted => f.write_str("no memory for its prefixes"),
            ClientNews::Gone(end) => write!(f, "{end}"),
        }
    }
}

impl fmt::Display for ClientStanding {
    fn fmt<W: fmt::Write>(&self, f: &mut fmt::Formatter<W>) -> fmt::Result {
        let ClientStanding {
            kind,
            time,
            requests,
            messages,
            octets,
            waits,
        } = *self;
        let kind = match kind {
            Some(kind) => kind_word(kind),
            None => "not bound",
        };
        write!(f, "{kind}, connected for {time} ms, ")?;
        let messages = Count(messages, "message", "messages");
        let octets = Count(octets as u64, "octet waits", "octets wait");
        write!(f, "{} under way, ", some_requests(requests))?;
        write!(f, "{messages} unanswered, {octets}")?;
        f.write_str(if waits {
            " behind those at its socket"
        } else {
            ""
        })
    }
}

impl<'a> ClientNews<'a> {
    fn facts(self) -> Facts<'a> {
        match self {
            ClientNews::Connected => Facts::new(Level::Info, "client_connected"),
            ClientNews::Bound(kind) => Facts::new(Level::Info, "client_bound").counted(
                Figures::none().word("kind", kind_word(kind)),
            ),
            ClientNews::BindRefused { status, said } => {
                let facts = Facts::new(Level::Warn, "bind_refused").with(status);
                match said.reason(status) {
                    Some(reason) => facts.because(reason),
                    None => facts,
                }
            }
            ClientNews::Changed(change) => {
                Facts::new(Level::Info, "account_changed").because(Reason::Account(change))
            }
            ClientNews::Unrouted => {
                Facts::new(Level::Error, "client_unrouted").because(Reason::Words("no memory"))
            }
            ClientNews::Gone(end) => {
                Facts::new(end.level(), "client_gone").because(Reason::Client(end))
            }
        }
    }
}

impl ClientStanding {
    fn figures(self) -> Figures {
        let kind = match self.kind {
            Some(kind) => kind_word(kind),
            None => "none",
        };
        Figures::none()
            .word("kind", kind)
            .number("connected_ms", self.time)
            .number("under_way", self.requests)
            .number("unanswered", self.messages)
            .size("octets", self.octets)
            .word("at_socket", if self.waits { "some" } else { "none" })
    }
}

impl<'a> ClientName<'a> {
    // The facts of something that is about this client.
    fn named(self, facts: Facts<'a>) -> Facts<'a> {
        Facts {
            party: Some(Party::Client(self.client)),
            account: self.system_id,
            address: Some(self.address),
            ..facts
        }
    }

    pub(crate) fn news(self, news: ClientNews<'a>) -> Facts<'a> {
        self.named(news.facts())
    }

    pub(crate) fn standing(self, standing: ClientStanding) -> Facts<'a> {
        let facts = Facts::new(Level::Info, "status_client");
        self.named(facts.counted(standing.figures()))
    }
}
