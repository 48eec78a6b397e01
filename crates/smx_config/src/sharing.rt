//! Whether the accounts of a configuration share the lanes.
ghost use Rattle.std.specs.Prelude.{◌≡◌, is_none};
ghost use Rattle.std.specs.List.{list_all};
ghost use Rattle.smx_config.specs.Settings.{may_take_all};

use crate::account::Account;
use crate::config::Config;

// Whether none of the accounts has a limit of its requests.
fn are_boundless(accounts: &[Account]) -> bool
    ensures { result ≡ list_all (λ a. is_none a.requests) accounts.now }
{
    accounts.iter().all(|account| account.requests.is_none())
}

/// Whether nothing keeps one of several accounts from all that the lanes hold: none has `requests`.
pub fn may_take_all(config: &Config) -> bool
    ensures { result ≡ may_take_all config.now }
{
    config.account.len() > 1 && are_boundless(&config.account)
}
