//! The numbers of a configuration.
ghost use Rattle.std.specs.Prelude.{◌≡◌, Some, None, IfSome, IsTrue};
ghost use Rattle.toml.specs.View.{table_view, view};
ghost use Rattle.smx_config.specs.Keys.{number_row, all_numbers, is_number, is_read};
ghost use Rattle.smx_config.specs.Settings.{number_of, number_or_default, number_in, limit_in};

use crate::section::Section;
use crate::table::find;
use toml::{Table, Value};

/// A key with a number.
#[derive(Clone, Copy, Debug, PartialEq, Eq)]
pub(crate) enum Number {
    Clients,
    Places,
    Silence,
    Queue,
    Window,
    Client,
    History,
    Response,
    Reconnect,
    ReconnectMost,
    Enquire,
    Bind,
    ClientSilence,
    Message,
    Stop,
    InterfaceVersion,
    Binds,
    Requests,
}

/// The range of a key with a number, and where it stands.
#[derive(Clone, Copy, Debug)]
pub(crate) struct NumberRule {
    /// The table where the key stands.
    pub(crate) section: Section,
    /// The key as a file writes it.
    pub(crate) key: &'static str,
    pub(crate) least: u32,
    pub(crate) most: u32,
    /// The number where the key is absent. None where nothing is limited then.
    pub(crate) default: Option<u32>,
}

fn row(section: Section, key: &'static str, least: u32, most: u32, default: u32) -> NumberRule
    ensures section { result.section ≡ section }
    ensures key { result.key.now ≡ key.now }
    ensures least { result.least ≡ least }
    ensures most { result.most ≡ most }
    ensures default { result.default ≡ Some default }
{
    NumberRule {
        section,
        key,
        least,
        most,
        default: Some(default),
    }
}

fn limit_row(section: Section, key: &'static str, least: u32, most: u32) -> NumberRule
    ensures section { result.section ≡ section }
    ensures key { result.key.now ≡ key.now }
    ensures least { result.least ≡ least }
    ensures most { result.most ≡ most }
    ensures default { result.default ≡ None }
{
    NumberRule {
        section,
        key,
        least,
        most,
        default: None,
    }
}

impl Number {
    /// Every key with a number, in the order in which they are told of.
    pub(crate) fn all() -> &'static [Number]
        ensures { result.now ≡ all_numbers }
    {
        use Number::{
            Bind, Binds, Client, ClientSilence, Clients, Enquire, History, InterfaceVersion,
            Message, Places, Queue, Reconnect, ReconnectMost, Requests, Response, Silence, Stop,
            Window,
        };
        &[
            Clients,
            Places,
            Silence,
            Queue,
            Window,
            Client,
            History,
            Response,
            Reconnect,
            ReconnectMost,
            Enquire,
            Bind,
            ClientSilence,
            Message,
            Stop,
            InterfaceVersion,
            Binds,
            Requests,
        ]
    }

    /// The row of the key.
    pub(crate) fn rule(self) -> NumberRule
        ensures section { result.section ≡ (number_row self).section }
        ensures key { result.key.now ≡ (number_row self).key }
        ensures least { result.least ≡ (number_row self).least }
        ensures most { result.most ≡ (number_row self).most }
        ensures default { result.default ≡ (number_row self).default }
        ensures read { IsTrue (is_read (number_row self).section (number_row self).key) }
    {
        use Section::{Account, Limits, Timers, Top, Upstream};
        match self {
            Number::Clients => row(Top, "clients", 1, 256, 8),
            Number::Places => row(Top, "box", 1, 256, 16),
            Number::Silence => row(Top, "silence", 100, 3_600_000, 30_000),
            Number::Queue => row(Limits, "queue", 1, 65_535, 100),
            Number::Window => row(Limits, "window", 1, 1_024, 10),
            Number::Client => row(Limits, "client", 1, 256, 20),
            Number::History => row(Limits, "history", 1_000, 1_000_000, 100_000),
            Number::Response => row(Timers, "response", 1_000, 3_600_000, 60_000),
            Number::Reconnect => row(Timers, "reconnect", 100, 3_600_000, 1_000),
            Number::ReconnectMost => row(Timers, "reconnect_most", 100, 3_600_000, 30_000),
            Number::Enquire => row(Timers, "enquire", 100, 3_600_000, 30_000),
            Number::Bind => row(Timers, "bind", 1_000, 3_600_000, 10_000),
            Number::ClientSilence => row(Timers, "client_silence", 0, 3_600_000, 60_000),
            Number::Message => row(Timers, "message", 0, 3_600_000, 60_000),
            Number::Stop => row(Timers, "stop", 0, 600_000, 5_000),
            Number::InterfaceVersion => row(Upstream, "interface_version", 0, 255, 52),
            Number::Binds => limit_row(Account, "binds", 1, 65_535),
            Number::Requests => limit_row(Account, "requests", 1, 65_535),
        }
    }

    /// What the number is, in words for a person.
    pub(crate) fn means(self) -> &'static str {
        match self {
            Number::Clients => "connections of clients at a time",
            Number::Places => {
                "messages that wait for a client; as many again that it was sent and has not answered"
            }
            Number::Silence =>
                "another name of `enquire` of `[timers]`, beside which it may not stand",
            Number::Queue => "requests accepted and not sent yet",
            Number::Window => "requests sent and not answered yet",
            Number::Client => {
                "requests of one client that were accepted and whose responses it has not got"
            }
            Number::History => "entries that the lane stores, with the room that must be left",
            Number::Response =>
                "how long a request may be unanswered, or queued on a lane without a link",
            Number::Reconnect => {
                "the pause before a lost link is tried again; up to a tenth is added by chance"
            }
            Number::ReconnectMost => {
                "up to this each pause is twice the last, until a link was bound for a minute"
            }
            Number::Enquire => {
                "a centre's silence before it is enquired; also how long connecting, its bind and its \
                 answer to that may take"
            }
            Number::Bind => "how long a client may be connected and not bound",
            Number::ClientSilence => {
                "a bound client's silence before it is enquired; also how long its answer to that may take; \
                 0: never"
            }
            Number::Message => {
                "how long a message that a client was sent may be unanswered; 0: for ever"
            }
            Number::Stop => "how long a stop waits for requests that are under way",
            Number::InterfaceVersion =>
                "the version that the bind names (section 5.2.4); that of 3.4 is 0x34",
            Number::Binds => "clients bound by the account at a time",
            Number::Requests => {
                "requests of the account's clients, gone ones too, accepted and not yet answered or failed"
            }
        }
    }

    fn allows(self, number: u32) -> bool
        ensures { result ≡ is_number self number }
    {
        let rule = self.rule();
        rule.least <= number && number <= rule.most
    }

    /// The number that a value is, where it may stand at this key.
    pub(crate) fn of(self, value: &Value) -> Option<u32>
        ensures value { result ≡ number_of self (view value.now) }
        ensures kept { IfSome result (λ n. IsTrue (is_number self n)) }
    {
        match value.as_integer() {
            Some(number) => match u32::try_from(number) {
                Ok(number) => {
                    if self.allows(number) {
                        Some(number)
                    } else {
                        None
                    }
                }
                Err(_) => None,
            },
            None => None,
        }
    }

    /// The number at this key, or its default where the key is absent.
    pub(crate) fn at(self, table: &Table) -> Option<u32>
        ensures value { result ≡ number_or_default self (table_view table.now) }
        ensures kept { IfSome result (λ n. IsTrue (is_number self n)) }
    {
        let rule = self.rule();
        match find(table, rule.key) {
            Some(value) => self.of(value),
            None => rule.default,
        }
    }

    /// The number at this key of a value that is a table, or its default where the key is absent.
    pub(crate) fn within(self, value: &Value) -> Option<u32>
        ensures value { result ≡ number_in self (view value.now) }
        ensures kept { IfSome result (λ n. IsTrue (is_number self n)) }
    {
        let rule = self.rule();
        match value.get(rule.key) {
            Some(value) => self.of(value),
            None => rule.default,
        }
    }

    /// The limit at this key of a value that is a table: `Some(None)` where the key is absent.
    pub(crate) fn limit_within(self, value: &Value) -> Option<Option<u32>>
        ensures value { result ≡ limit_in self (view value.now) }
        ensures kept { IfSome result (λ limit. IfSome limit
            (λ n. IsTrue (is_number self n))) }
    {
        match value.get(self.rule().key) {
            Some(value) => match self.of(value) {
                Some(number) => Some(Some(number)),
                None => None,
            },
            None => Some(None),
        }
    }
}
