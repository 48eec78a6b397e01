//! What is wrong with a configuration.
ghost use Rattle.std.specs.Prelude.{◌≡◌, ◌↔◌, IsTrue};

use thiserror::Error;

/// The first fault of a configuration, in this order, but for want of memory, which can come at any
/// point. Indices are those of the file's tables, from 0.
#[derive(Clone, Copy, Debug, PartialEq, Eq, Error)]
pub enum ConfigFault {
    /// The text isn't TOML.
    #[error("the text is not TOML")]
    NotToml,
    /// `listen` is missing or is no address, as `127.0.0.1:2775`.
    #[error("listen is not an address")]
    Listen,
    /// `clients`, `box` or `silence` is no number in its range.
    #[error("clients, box or silence is out of range")]
    Numbers,
    /// `proxy_protocol` is neither true nor false.
    #[error("proxy_protocol is neither true nor false")]
    ProxyProtocol,
    /// `log` or `log_level` is none of its words.
    #[error("log or log_level is none of its words")]
    Log,
    /// `limits` is no table, or one of its keys is no number in its range.
    #[error("limits are out of range")]
    Limits,
    /// `timers` is no table, one of its keys is no number in its range, or `enquire` stands beside
    /// `silence`.
    #[error("timers are out of range, or enquire stands twice")]
    Timers,
    /// `upstream` is missing or isn't a list of 1 to 16 tables.
    #[error("upstream is not a list of 1 to 16 tables")]
    Upstreams,
    /// A field of this upstream is missing or isn't what it may be.
    #[error("upstream {0} has a bad field")]
    Upstream(usize),
    /// `account` is missing or isn't a list of 1 to 256 tables.
    #[error("account is not a list of 1 to 256 tables")]
    Accounts,
    /// A field of this account is missing or isn't what it may be, or an account before it has the
    /// same system_id.
    #[error("account {0} has a bad field, or the system_id of an earlier one")]
    Account(usize),
    /// Memory was refused.
    #[error("out of memory")]
    NoMemory,
}

impl ConfigFault {
    /// Whether it is want of memory, which says nothing of the text.
    pub fn is_memory(self) -> bool
        ensures { IsTrue result ↔ (self ≡ ConfigFault.NoMemory) }
    {
        self == ConfigFault::NoMemory
    }
}
