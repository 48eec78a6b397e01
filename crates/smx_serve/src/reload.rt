//! A configuration that was read again while the loop goes on.

use crate::desk::{desk_of, is_same, limits_of, moves_of};
use crate::pace::Moment;
use crate::turning::Loop;
use smx_client::Desk;
use smx_config::{Config, Upstream};
use smx_notice::{Notice, ReloadNews, Service};
use std::alloc::{AllocError, Global};
use std::sync::Wait;

/// The keys and tables of a file that are taken at the start alone.
const NAMES: [&str; 6] = [
    "listen",
    "proxy_protocol",
    "clients",
    "box",
    "[limits]",
    "[[upstream]]",
];

// Whether two upstreams are the same.
fn is_same_upstream(one: &Upstream, other: &Upstream) -> bool {
    one.address == other.address
        && one.system_id == other.system_id
        && one.password == other.password
        && one.bind == other.bind
        && one.system_type == other.system_type
        && one.address_range == other.address_range
        && one.interface_version == other.interface_version
}

// Whether two lists of upstreams are the same.
fn are_same_upstreams(one: &[Upstream], other: &[Upstream]) -> bool {
    if one.len() != other.len() {
        return false;
    }
    for (index, upstream) in one.iter().enumerate() {
        match other.get(index) {
            Some(found) if is_same_upstream(upstream, found) => {}
            _ => return false,
        }
    }
    true
}

// Of each of those names whether it is the same in both.
fn are_same(one: &Config, other: &Config) -> [bool; 6] {
    [
        one.listen == other.listen,
        one.proxy_protocol == other.proxy_protocol,
        one.clients == other.clients,
        one.places == other.places,
        one.limits == other.limits,
        are_same_upstreams(one.upstream.as_slice(), other.upstream.as_slice()),
    ]
}

// Says which of those names are others in this file than what is served by.
fn say_not_taken<R: Wait>(rt: &R, moment: &Moment<'_>, read: &Config) {
    let same = are_same(moment.config, read);
    for (index, name) in NAMES.iter().enumerate() {
        if same.get(index) == Some(&false) {
            moment.say(rt, Notice::Reload(ReloadNews::NotTaken(name)));
        }
    }
}

// Who may bind by this configuration, where that isn't what it was. It is never freed, since a client may
// be bound by it till the end.
fn other_desk<'d>(
    alloc: Global,
    config: &Config,
    desk: &Desk,
) -> Result<Option<&'d Desk>, AllocError> {
    let read = desk_of(alloc, config)?;
    if is_same(desk, &read) {
        return Ok(None);
    }
    Ok(Some(Box::leak(Box::new(alloc, read)?)))
}

impl<'d> Loop<'d> {
    // What each account may have is what this configuration says, whose accounts are those of that desk.
    fn renew_limits(&mut self, read: &Config, desk: &Desk) -> Result<(), AllocError> {
        let alloc = self.pace.moment.alloc;
        let moves = moves_of(alloc, self.pace.moment.desk, desk)?;
        let limits = limits_of(alloc, read)?;
        self.addresses
            .ledger
            .renew(moves.as_slice(), limits.as_slice())
    }

    // From now on clients bind by these accounts. Those that aren't bound yet are let go; those whose
    // account is gone or has another password are unbound.
    fn replace_desk<R: Wait>(&mut self, rt: &R, desk: &'d Desk) {
        self.pace.moment.desk = desk;
        let moment = &self.pace.moment;
        self.guests
            .renew(rt, moment, &mut self.queues, &mut self.addresses);
    }

    // Takes what is taken while the loop goes on.
    fn take<R: Wait>(&mut self, rt: &R, read: &Config) {
        let moment = self.pace.moment;
        let Ok(desk) = other_desk(moment.alloc, read, moment.desk) else {
            moment.say(rt, Notice::Reload(ReloadNews::NotReloaded("no memory")));
            return;
        };
        if self
            .renew_limits(read, desk.unwrap_or(moment.desk))
            .is_err()
        {
            moment.say(rt, Notice::Reload(ReloadNews::NotReloaded("no memory")));
            return;
        }
        self.pace.moment.timers = read.timers;
        moment.teller.renew(rt, read);
        moment.say(rt, Notice::Reload(ReloadNews::Reloaded(read.account.len())));
        say_not_taken(rt, &moment, read);
        if let Some(desk) = desk {
            self.replace_desk(rt, desk);
        }
    }

    /// Serves by the timers and the accounts of this configuration from now on.
    pub fn reload<R: Wait>(&mut self, rt: &R, read: &Config) {
        let herald = self.pace.moment.herald;
        herald.say(rt, Service::Reloading);
        self.take(rt, read);
        herald.say(rt, Service::Ready);
    }
}
