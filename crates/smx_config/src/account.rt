//! The clients that may bind.
ghost use Rattle.std.specs.Prelude.{◌≡◌, ◌≢◌, ◌⊎◌, IfOk, IfErr, IfSome, MatchResult, All, AllPairs, IsTrue, length, map, option_map, string_bytes};
ghost use Rattle.std.specs.List.{list_any};
ghost use Rattle.std.specs.Str.{bytes_eq};
ghost use Rattle.toml.specs.View.{view, items_view};
ghost use Rattle.smx_config.specs.declared.text.Text.TheVariants as text;
ghost use Rattle.smx_config.specs.Keys.{is_text};
ghost use Rattle.smx_config.specs.Settings.{ArePrefixes, prefix_in, prefixes_of, prefixes_in, account_in, accounts_of};

use crate::bodies::Bodies;
use crate::commands::Commands;
use crate::fault::ConfigFault;
use crate::number::Number;
use crate::text::Text;
use std::alloc::{AllocError, Global};
use std::fmt;
use std::marker::Model;
use toml::Value;

/// The most prefixes of an account.
pub(crate) const MAX_PREFIXES: usize = 16;

/// A client that may bind, and the messages that it gets. Printed for debugging it has its system_id
/// alone, so that no password is seen.
#[derive(Drop)]
pub struct Account {
    /// 1 to 15 octets, none of them 0. No other account of a configuration has it.
    pub system_id: String,
    /// At most 8 octets, none of them 0.
    pub password: String,
    /// The fronts of the addresses whose messages it gets: at most 16, no two equal, each of at most
    /// 64 octets.
    pub prefixes: Vec<String>,
    /// The most clients that are bound by it at a time: 1 to 65,535. None: no limit.
    pub binds: Option<u32>,
    /// The most requests of its clients, gone ones too, that are accepted and not yet answered or failed:
    /// 1 to 65,535. None: no limit.
    pub requests: Option<u32>,
    /// The requests that its clients may send.
    pub commands: Commands,
    /// The bodies that those may have.
    pub bodies: Bodies,
}

impl Model for Account {
    ghost use Rattle.std.specs.Prelude.{string_bytes, map};
    ghost use Rattle.smx_config.specs.Settings.{AccountSettings, IsAccount};

    ghost Value = { AccountSettings };

    ghost view = { λ a. record {
      system_id = string_bytes a.system_id;
      password = string_bytes a.password;
      prefixes = map string_bytes a.prefixes.items;
      binds = a.binds;
      requests = a.requests;
      commands = a.commands;
      bodies = a.bodies;
    } };

    ghost invariant = { λ a. IsAccount
        (record {
          system_id = string_bytes a.system_id;
          password = string_bytes a.password;
          prefixes = map string_bytes a.prefixes.items;
          binds = a.binds;
          requests = a.requests;
          commands = a.commands;
          bodies = a.bodies;
        }) };
}

impl fmt::Debug for Account {
    fn fmt<W: fmt::Write>(&self, f: &mut fmt::Formatter<W>) -> fmt::Result {
        write!(f, "Account({})", self.system_id)
    }
}

// Whether one of the texts is this one.
fn is_among(texts: &[String], text: &str) -> bool
    ensures { result ≡ list_any (λ other. bytes_eq text.now (string_bytes other)) texts.now }
{
    texts.iter().any(|other| text == other.as_str())
}

// Whether one of the accounts has this system_id.
fn is_known(accounts: &[Account], system_id: &str) -> bool
    ensures { result ≡ list_any (λ a. bytes_eq system_id.now a.system_id) accounts.now }
{
    accounts
        .iter()
        .any(|account| system_id == account.system_id.as_str())
}

// The prefix that a value states after others.
fn read_prefix(
    alloc: Global,
    before: &[String],
    value: &Value,
) -> Result<Option<String>, AllocError>
    ensures value { IfOk result (λ r. option_map string_bytes r
        ≡ prefix_in (map string_bytes before.now) (view value.now)) }
    ensures short { IfOk result (λ r. IfSome r
        (λ p. IsTrue (is_text text.Prefix (string_bytes p)))) }
    ensures new { IfOk result (λ r. IfSome r
        (λ p. All (λ q. q ≢ string_bytes p) (map string_bytes before.now))) }
{
    let Some(prefix) = Text::Prefix.of(value) else {
        return Ok(None);
    };
    if is_among(before, prefix) {
        return Ok(None);
    }
    let prefix = String::from_str(alloc, prefix)?;
    Ok(Some(prefix))
}

// The prefixes that values state.
fn read_prefixes(alloc: Global, values: &[Value]) -> Result<Option<Vec<String>>, AllocError>
    ensures value { IfOk result (λ r. option_map (λ list. map string_bytes list.items) r
        ≡ prefixes_of (items_view values.now)) }
    ensures kept { IfOk result (λ r. IfSome r (λ list. ArePrefixes (map string_bytes list.items))) }
{
    if values.len() > MAX_PREFIXES {
        return Ok(None);
    }
    let mut list = Vec::new(alloc);
    for value in values {
        let Some(prefix) = read_prefix(alloc, &list, value)? else {
            return Ok(None);
        };
        list.push(prefix)?;
    }
    Ok(Some(list))
}

// The prefixes of an account, of which it may have none.
fn prefixes_within(alloc: Global, value: &Value) -> Result<Option<Vec<String>>, AllocError>
    ensures value { IfOk result (λ r. option_map (λ list. map string_bytes list.items) r
        ≡ prefixes_in (view value.now)) }
    ensures kept { IfOk result (λ r. IfSome r (λ list. ArePrefixes (map string_bytes list.items))) }
{
    match value.get(Text::Prefix.rule().key) {
        Some(value) => match value.as_array() {
            Some(values) => read_prefixes(alloc, values.as_slice()),
            None => Ok(None),
        },
        None => Ok(Some(Vec::new(alloc))),
    }
}

// The account that a value states after others.
fn read_account(
    alloc: Global,
    before: &[Account],
    value: &Value,
) -> Result<Option<Account>, AllocError>
    ensures value { IfOk result (λ a. a ≡ account_in before.now (view value.now)) }
    ensures new { IfOk result (λ r. IfSome r
        (λ a. All (λ b. b.system_id ≢ a.system_id) before.now)) }
{
    let Some(system_id) = Text::SystemId.within(value) else {
        return Ok(None);
    };
    let Some(password) = Text::Password.within(value) else {
        return Ok(None);
    };
    let Some(prefixes) = prefixes_within(alloc, value)? else {
        return Ok(None);
    };
    let Some(binds) = Number::Binds.limit_within(value) else {
        return Ok(None);
    };
    let Some(requests) = Number::Requests.limit_within(value) else {
        return Ok(None);
    };
    let Some(commands) = Commands::within(value) else {
        return Ok(None);
    };
    let Some(bodies) = Bodies::within(value) else {
        return Ok(None);
    };
    if is_known(before, system_id) {
        return Ok(None);
    }
    let system_id = String::from_str(alloc, system_id)?;
    let password = String::from_str(alloc, password)?;
    Ok(Some(Account {
        system_id,
        password,
        prefixes,
        binds,
        requests,
        commands,
        bodies,
    }))
}

/// The accounts that values state, or the first that states none.
pub(crate) fn read_accounts(alloc: Global, values: &[Value]) -> Result<Vec<Account>, ConfigFault>
    ensures value { MatchResult result (λ list. accounts_of (items_view values.now)
        ≡ Ok list.items) (λ e. (e ≡ ConfigFault.NoMemory)
        ⊎ (accounts_of (items_view values.now) ≡ Err e)) }
    ensures fault { IfErr result (λ e. e ≢ ConfigFault.NotToml) }
    ensures count { IfOk result (λ list. length list.items ≡ length values.now) }
    ensures distinct { IfOk result (λ list. AllPairs
        (λ a b. a.system_id ≢ b.system_id) list.items) }
{
    let mut list = Vec::new(alloc);
    for value in values {
        let Ok(read) = read_account(alloc, &list, value) else {
            return Err(ConfigFault::NoMemory);
        };
        let Some(account) = read else {
            return Err(ConfigFault::Account(list.len()));
        };
        let Ok(()) = list.push(account) else {
            return Err(ConfigFault::NoMemory);
        };
    }
    Ok(list)
}
