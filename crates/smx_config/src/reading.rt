//! A text read as a configuration.
ghost use Rattle.std.specs.Prelude.{◌≡◌, ◌≢◌, ◌⊎◌, IfOk, IfErr, IfSome, IsTrue, IsErrOf, MatchResult, ok_or};
ghost use Rattle.toml.specs.Parse.{parse_document};
ghost use Rattle.toml.specs.View.{table_view};
ghost use Rattle.smx_history.specs.Room.{AreLimits};
ghost use Rattle.smx_config.specs.Keys.{is_number};
ghost use Rattle.smx_config.specs.Settings.{number_or_default, stated_limits, limits_at, config_of, settings_of};

use crate::account::read_accounts;
use crate::config::Config;
use crate::fault::ConfigFault;
use crate::flag::Flag;
use crate::log_form::LogForm;
use crate::log_level::LogLevel;
use crate::number::Number;
use crate::table::{find, tables_at};
use crate::text::Text;
use crate::timers::read_timers;
use crate::upstream::read_upstreams;
use smx_history::Limits;
use std::alloc::Global;
use toml::Table;

/// The most upstreams.
pub(crate) const MAX_UPSTREAMS: usize = 16;
/// The most accounts.
pub(crate) const MAX_ACCOUNTS: usize = 256;

// The number at a key of the whole file, or its default.
fn number_at(table: &Table, key: Number) -> Result<u32, ConfigFault>
    ensures value { result ≡ ok_or (number_or_default key (table_view table.now))
        ConfigFault.Numbers }
    ensures kept { IfOk result (λ n. IsTrue (is_number key n)) }
{
    match key.at(table) {
        Some(number) => Ok(number),
        None => Err(ConfigFault::Numbers),
    }
}

// What the keys of a table say of a lane's limits.
fn limits_in(table: &Table) -> Option<Limits>
    ensures value { result ≡ stated_limits (table_view table.now) }
    ensures kept { IfSome result (λ limits. AreLimits limits) }
{
    let queue = Number::Queue.at(table)?;
    let window = Number::Window.at(table)?;
    let client = Number::Client.at(table)?;
    let history = Number::History.at(table)?;
    Some(Limits {
        queue,
        window,
        client,
        history,
    })
}

fn limits(alloc: Global, table: &Table) -> Option<Limits>
    ensures value { result ≡ limits_at (table_view table.now) }
    ensures kept { IfSome result (λ limits. AreLimits limits) }
{
    match find(table, "limits") {
        Some(value) => match value.as_table() {
            Some(table) => limits_in(table),
            None => None,
        },
        None => limits_in(&Table::new(alloc)),
    }
}

fn read_table(alloc: Global, table: &Table) -> Result<Config, ConfigFault>
    ensures value { MatchResult result (λ c. config_of (table_view table.now) ≡ Ok c)
        (λ e. (e ≡ ConfigFault.NoMemory) ⊎ (config_of (table_view table.now) ≡ Err e)) }
    ensures fault { IfErr result (λ e. e ≢ ConfigFault.NotToml) }
{
    let Some(listen) = Text::Listen.at(table) else {
        return Err(ConfigFault::Listen);
    };
    let clients = number_at(table, Number::Clients)?;
    let places = number_at(table, Number::Places)?;
    let silence = number_at(table, Number::Silence)?;
    let Some(proxy_protocol) = Flag::ProxyProtocol.at(table) else {
        return Err(ConfigFault::ProxyProtocol);
    };
    let Some(log) = LogForm::at(table) else {
        return Err(ConfigFault::Log);
    };
    let Some(log_level) = LogLevel::at(table) else {
        return Err(ConfigFault::Log);
    };
    let Some(limits) = limits(alloc, table) else {
        return Err(ConfigFault::Limits);
    };
    let Some(timers) = read_timers(alloc, table, silence) else {
        return Err(ConfigFault::Timers);
    };
    let Some(upstreams) = tables_at(table, "upstream", MAX_UPSTREAMS) else {
        return Err(ConfigFault::Upstreams);
    };
    let upstream = read_upstreams(alloc, upstreams)?;
    let Some(accounts) = tables_at(table, "account", MAX_ACCOUNTS) else {
        return Err(ConfigFault::Accounts);
    };
    let account = read_accounts(alloc, accounts)?;
    match String::from_str(alloc, listen) {
        Ok(listen) => Ok(Config {
            listen,
            proxy_protocol,
            log,
            log_level,
            clients,
            places,
            limits,
            timers,
            upstream,
            account,
        }),
        Err(_) => Err(ConfigFault::NoMemory),
    }
}

/// The configuration that a text states, or its first fault. Unknown keys are ignored.
pub fn read(alloc: Global, text: &str) -> Result<Config, ConfigFault>
    ensures ok { IfOk result (λ config. settings_of text.now ≡ Ok config) }
    ensures err { IfErr result (λ e. (e ≡ ConfigFault.NoMemory) ⊎ (settings_of text.now ≡ Err e)) }

    // A text is called no TOML exactly where `toml` refuses it, want of memory apart.
    ensures not_toml { IsErrOf result ConfigFault.NotToml → parse_document text.now ≡ None }
    ensures refused { parse_document text.now ≡ None
        → IsErrOf result ConfigFault.NotToml ⊎ IsErrOf result ConfigFault.NoMemory }
{
    match toml::table_from_str(alloc, text) {
        Ok(table) => read_table(alloc, &table),
        Err(e) if e.is_memory() => Err(ConfigFault::NoMemory),
        Err(_) => Err(ConfigFault::NotToml),
    }
}
