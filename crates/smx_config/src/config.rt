//! A whole configuration.
use crate::account::Account;
use crate::log_form::LogForm;
use crate::log_level::LogLevel;
use crate::timers::Timers;
use crate::upstream::Upstream;
use smx_history::Limits;
use std::marker::Model;

/// The settings of the proxy, each within its limits.
#[derive(Debug, Drop)]
pub struct Config {
    /// Where clients connect: an address of 1 to 255 octets, as `127.0.0.1:2775`.
    pub listen: String,
    /// Whether each connection of a client begins with a header of the PROXY protocol, version 2.
    pub proxy_protocol: bool,
    /// How the lines of the log are written.
    pub log: LogForm,
    /// Which lines of the log are written.
    pub log_level: LogLevel,
    /// The most clients at a time: 1 to 256.
    pub clients: u32,
    /// The places of each client's message box, of its window of messages, and of each lane's return
    /// box: 1 to 256. Its key is `box`.
    pub places: u32,
    /// What each lane holds.
    pub limits: Limits,
    /// How long what may last.
    pub timers: Timers,
    /// The binds to the message centre, a lane each: 1 to 16.
    pub upstream: Vec<Upstream>,
    /// The clients that may bind, no two with one system_id: 1 to 256.
    pub account: Vec<Account>,
}

impl Model for Config {
    ghost use Rattle.std.specs.Prelude.{string_bytes};
    ghost use Rattle.smx_config.specs.Settings.{Settings, IsConfig};

    ghost Value = { Settings };

    ghost view = { λ c. record {
      listen = string_bytes c.listen;
      proxy_protocol = c.proxy_protocol;
      log = c.log;
      log_level = c.log_level;
      clients = c.clients;
      places = c.places;
      limits = c.limits;
      timers = c.timers;
      upstream = c.upstream.items;
      account = c.account.items;
    } };

    ghost invariant = { λ c. IsConfig
        (record {
          listen = string_bytes c.listen;
          proxy_protocol = c.proxy_protocol;
          log = c.log;
          log_level = c.log_level;
          clients = c.clients;
          places = c.places;
          limits = c.limits;
          timers = c.timers;
          upstream = c.upstream.items;
          account = c.account.items;
        }) };
}
