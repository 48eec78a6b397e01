//! Who may bind, by the configuration.

use smx_client::Desk;
use smx_config::Config;
use smx_notice::AccountChange;
use smx_session::{Account, Bodies, Commands, Rules};
use smx_slots::AccountLimits;
use std::alloc::{AllocError, Global};

// The octets of texts.
fn octets_of(alloc: Global, texts: &[String]) -> Result<Vec<Vec<u8>>, AllocError> {
    let mut all = Vec::new(alloc);
    for text in texts {
        all.push(Vec::from_slice(alloc, text.as_str().as_bytes())?)?;
    }
    Ok(all)
}

// What its clients may send.
fn rules_of(account: &smx_config::Account) -> Rules {
    let smx_config::Commands {
        submit_sm,
        submit_multi,
        data_sm,
        query_sm,
        cancel_sm,
        replace_sm,
    } = account.commands;
    Rules {
        commands: Commands {
            submit_sm,
            submit_multi,
            data_sm,
            query_sm,
            cancel_sm,
            replace_sm,
        },
        bodies: match account.bodies {
            smx_config::Bodies::Any => Bodies::Any,
            smx_config::Bodies::Readable => Bodies::Readable,
        },
    }
}

// The accounts and their prefixes.
pub(crate) fn desk_of(alloc: Global, config: &Config) -> Result<Desk, AllocError> {
    let mut accounts = Vec::new(alloc);
    let mut prefixes = Vec::new(alloc);
    for account in config.account.as_slice() {
        accounts.push(Account {
            system_id: Vec::from_slice(alloc, account.system_id.as_str().as_bytes())?,
            password: Vec::from_slice(alloc, account.password.as_str().as_bytes())?,
            rules: rules_of(account),
        })?;
        prefixes.push(octets_of(alloc, account.prefixes.as_slice())?)?;
    }
    Ok(Desk { accounts, prefixes })
}

// Whether two lists of texts are the same.
fn are_same_texts(one: &[Vec<u8>], other: &[Vec<u8>]) -> bool {
    if one.len() != other.len() {
        return false;
    }
    for (index, text) in one.iter().enumerate() {
        match other.get(index) {
            Some(found) if found.as_slice() == text.as_slice() => {}
            _ => return false,
        }
    }
    true
}

// Where the account with this system_id stands.
fn place_of(desk: &Desk, system_id: &[u8]) -> Option<usize> {
    let accounts = desk.accounts.as_slice();
    accounts
        .iter()
        .position(|account| account.system_id.as_slice() == system_id)
}

// What became of the account with this place, where there is one, in another desk.
fn change_at(desk: &Desk, place: usize, other: &Desk) -> Option<AccountChange> {
    let account = desk.accounts.as_slice().get(place)?;
    let Some(found) = place_of(other, account.system_id.as_slice()) else {
        return Some(AccountChange::Gone);
    };
    let same = other.accounts.as_slice().get(found)?;
    if !same.has_password(account.password.as_slice()) {
        return Some(AccountChange::Password);
    }
    let prefixes = desk.prefixes.as_slice().get(place)?;
    let others = other.prefixes.as_slice().get(found)?;
    let have_others = !are_same_texts(prefixes.as_slice(), others.as_slice());
    match (have_others, same.rules != account.rules) {
        (true, true) => Some(AccountChange::Both),
        (true, false) => Some(AccountChange::Prefixes),
        (false, true) => Some(AccountChange::Rules),
        (false, false) => None,
    }
}

/// The prefixes of the account with this system_id.
pub(crate) fn prefixes_of<'d>(desk: &'d Desk, system_id: Option<&str>) -> Option<&'d [Vec<u8>]> {
    let place = place_of(desk, system_id?.as_bytes())?;
    Some(desk.prefixes.as_slice().get(place)?.as_slice())
}

/// Where each account of a desk stands in another one.
pub(crate) fn moves_of(
    alloc: Global,
    desk: &Desk,
    other: &Desk,
) -> Result<Vec<Option<usize>>, AllocError> {
    let mut moves = Vec::with_capacity(alloc, desk.accounts.len())?;
    for account in desk.accounts.as_slice() {
        moves.push(place_of(other, account.system_id.as_slice()))?;
    }
    Ok(moves)
}

/// What each account may have, by the configuration.
pub(crate) fn limits_of(alloc: Global, config: &Config) -> Result<Vec<AccountLimits>, AllocError> {
    let mut limits = Vec::with_capacity(alloc, config.account.len())?;
    for account in config.account.as_slice() {
        limits.push(AccountLimits {
            binds: account.binds,
            requests: account.requests,
        })?;
    }
    Ok(limits)
}

/// What became of the account with this system_id in another desk, where it isn't the same there.
pub(crate) fn change_of(desk: &Desk, system_id: &[u8], other: &Desk) -> Option<AccountChange> {
    change_at(desk, place_of(desk, system_id)?, other)
}

/// Whether the same may bind by both, and for the same messages.
pub(crate) fn is_same(desk: &Desk, other: &Desk) -> bool {
    let count = desk.accounts.len();
    if count != other.accounts.len() {
        return false;
    }
    for place in 0..count {
        if change_at(desk, place, other).is_some() {
            return false;
        }
    }
    true
}
