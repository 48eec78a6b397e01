//! What may be meant otherwise in a configuration without a fault, in words for a person.
ghost use Rattle.std.specs.Prelude.{◌≡◌};
ghost use Rattle.std.specs.List.{list_all};
ghost use Rattle.smx_config.specs.Settings.{brings_none, has_few_clients, is_receiver, is_transmitter, takes_none};

use crate::account::Account;
use crate::bind_kind::BindKind;
use crate::config::Config;
use crate::hosts::{host, leads_to};
use crate::sharing::may_take_all;
use crate::upstream::Upstream;
use std::alloc::{AllocError, Global};
use thiserror::Error;

/// The most octets of a PDU that the proxy takes.
const MAX_PDU: u64 = 65_536;
/// The fewest places of a box that hold a burst of messages.
const BURST: u32 = 16;
/// The passwords of the example.
const EXAMPLES: [&str; 3] = ["pw", "a1", "b2"];

/// What may be meant otherwise in a configuration. Names are shown with what isn't printable as an escape,
/// and passwords not at all.
#[derive(Clone, Copy, Debug, Error)]
pub enum Advice<'a> {
    /// `history` is below this number, which always has room.
    #[error("limits: history is too small for queue, window and all clients together: write history = {0}")]
    History(u64),
    /// There are fewer clients than accounts: both numbers.
    #[error("clients = {0} is below the {1} accounts: not all can be bound at a time")]
    FewClients(u32, usize),
    /// `box` holds no burst of messages.
    #[error("box is below 16: of a burst of messages to one client the rest is answered 0x14 ESME_RMSGQFUL")]
    SmallBox,
    /// One account can take all lanes.
    #[error("one account's requests can take all lanes: write requests = 100, or another limit, in each [[account]]")]
    Sharing,
    /// Both accounts have one prefix.
    #[error("account {name}: prefix \"{text}\" is that of account {other}, too: whoever connected first gets the messages", name = .second.escape_debug(), text = .prefix.escape_debug(), other = .first.escape_debug())]
    SamePrefix {
        first: &'a str,
        second: &'a str,
        prefix: &'a str,
    },
    /// A prefix of this account has a `*` or a `+`.
    #[error("account {name}: prefix \"{text}\" is taken as it stands: write the digits with which addresses begin", name = .account.escape_debug(), text = .prefix.escape_debug())]
    Pattern {
        account: &'a str,
        prefix: &'a str,
    },
    /// This upstream is at another host than the first.
    #[error("upstream {0}: its host isn't that of upstream 0: query_sm, cancel_sm and replace_sm go to any upstream, and a message id of one centre means nothing to another")]
    OtherHost(usize),
    /// This upstream is where the proxy itself listens.
    #[error("upstream {0}: address is where the proxy itself listens: write the centre's address")]
    OwnListen(usize),
    /// All upstreams are receivers.
    #[error("each upstream binds as receiver: no request is taken")]
    NoRequests,
    /// All upstreams are transmitters.
    #[error("each upstream binds as transmitter: no message comes")]
    NoMessages,
    /// The password of this upstream is empty.
    #[error("upstream {0}: password is empty")]
    NoUpstreamPassword(usize),
    /// The password of this upstream is one of the example.
    #[error("upstream {0}: password is that of the example: ask for another one")]
    ExampleUpstreamPassword(usize),
    /// The password of this account is empty.
    #[error("account {name}: password is empty", name = .0.escape_debug())]
    NoAccountPassword(&'a str),
    /// The password of this account is one of the example.
    #[error("account {name}: password is that of the example: write another one", name = .0.escape_debug())]
    ExampleAccountPassword(&'a str),
}

// A history that has room for all that a lane can have accepted, from all clients at once.
fn wanted_history(config: &Config) -> u64 {
    let limits = config.limits;
    let clients = u64::from(config.clients);
    let accepted = clients.saturating_mul(u64::from(limits.client));
    let queued = accepted.min(u64::from(limits.queue));
    let sent = accepted
        .saturating_sub(queued)
        .min(u64::from(limits.window));
    // Three entries of each that is queued, two of each that is sent, one of each other; one of each client,
    // one of the link, and four.
    accepted
        .saturating_add(queued.saturating_mul(2))
        .saturating_add(sent)
        .saturating_add(clients)
        .saturating_add(5)
}

/// The most octets that the bodies of all that waits may come to: what each lane has queued, sent and not
/// handed to its client yet, and each client's messages, that wait for it and that it hasn't answered.
pub fn bodies_held(config: &Config) -> u64 {
    let limits = config.limits;
    let lanes = config.upstream.len() as u64;
    let clients = u64::from(config.clients);
    let of_a_lane = u64::from(limits.queue)
        .saturating_add(u64::from(limits.window))
        .saturating_add(clients.saturating_mul(u64::from(limits.client)));
    let messages = clients
        .saturating_mul(u64::from(config.places))
        .saturating_mul(2);
    lanes
        .saturating_mul(of_a_lane)
        .saturating_add(messages)
        .saturating_mul(MAX_PDU)
}

fn is_receiver(upstream: &Upstream) -> bool
    ensures { result ≡ is_receiver upstream.now }
{
    upstream.bind == BindKind::Receiver
}

fn is_transmitter(upstream: &Upstream) -> bool
    ensures { result ≡ is_transmitter upstream.now }
{
    upstream.bind == BindKind::Transmitter
}

fn are_receivers(upstreams: &[Upstream]) -> bool
    ensures { result ≡ list_all is_receiver upstreams.now }
{
    upstreams.iter().all(is_receiver)
}

fn are_transmitters(upstreams: &[Upstream]) -> bool
    ensures { result ≡ list_all is_transmitter upstreams.now }
{
    upstreams.iter().all(is_transmitter)
}

/// Whether no upstream takes requests.
pub fn takes_none(config: &Config) -> bool
    ensures { result ≡ takes_none config.now }
{
    are_receivers(&config.upstream)
}

/// Whether no upstream brings messages.
pub fn brings_none(config: &Config) -> bool
    ensures { result ≡ brings_none config.now }
{
    are_transmitters(&config.upstream)
}

/// Whether not all accounts can be bound at a time.
pub fn has_few_clients(config: &Config) -> bool
    ensures { result ≡ has_few_clients config.now }
{
    (config.clients as usize) < config.account.len()
}

fn is_example(password: &str) -> bool {
    EXAMPLES.iter().any(|example| password == *example)
}

// On numbers of the whole configuration.
fn on_numbers<'a>(config: &'a Config, all: &mut Vec<Advice<'a>>) -> Result<(), AllocError> {
    let wanted = wanted_history(config);
    if u64::from(config.limits.history) < wanted {
        all.push(Advice::History(wanted))?;
    }
    if has_few_clients(config) {
        all.push(Advice::FewClients(config.clients, config.account.len()))?;
    }
    if config.places < BURST {
        all.push(Advice::SmallBox)?;
    }
    if may_take_all(config) {
        all.push(Advice::Sharing)?;
    }
    Ok(())
}

fn on_upstreams<'a>(config: &'a Config, all: &mut Vec<Advice<'a>>) -> Result<(), AllocError> {
    let upstreams = config.upstream.as_slice();
    for (index, upstream) in upstreams.iter().enumerate() {
        let address = upstream.address.as_str();
        let first = upstreams.first().unwrap_or(upstream);
        if host(address) != host(first.address.as_str()) {
            all.push(Advice::OtherHost(index))?;
        }
        if leads_to(address, config.listen.as_str()) {
            all.push(Advice::OwnListen(index))?;
        }
        if upstream.password.is_empty() {
            all.push(Advice::NoUpstreamPassword(index))?;
        } else if is_example(upstream.password.as_str()) {
            all.push(Advice::ExampleUpstreamPassword(index))?;
        }
    }
    if takes_none(config) {
        all.push(Advice::NoRequests)?;
    }
    if brings_none(config) {
        all.push(Advice::NoMessages)?;
    }
    Ok(())
}

// On the first prefix of an account that one of these accounts has.
fn on_shared<'a>(
    before: &'a [Account],
    account: &'a Account,
    all: &mut Vec<Advice<'a>>,
) -> Result<(), AllocError> {
    for prefix in account.prefixes.iter() {
        for other in before {
            if other
                .prefixes
                .iter()
                .any(|own| own.as_str() == prefix.as_str())
            {
                all.push(Advice::SamePrefix {
                    first: other.system_id.as_str(),
                    second: account.system_id.as_str(),
                    prefix: prefix.as_str(),
                })?;
                return Ok(());
            }
        }
    }
    Ok(())
}

fn on_accounts<'a>(config: &'a Config, all: &mut Vec<Advice<'a>>) -> Result<(), AllocError> {
    let accounts = config.account.as_slice();
    for (index, account) in accounts.iter().enumerate() {
        let name = account.system_id.as_str();
        on_shared(accounts.get(..index).unwrap_or(&[]), account, all)?;
        for prefix in account.prefixes.iter() {
            let prefix = prefix.as_str();
            if prefix.contains("*") || prefix.contains("+") {
                all.push(Advice::Pattern {
                    account: name,
                    prefix,
                })?;
            }
        }
        if account.password.is_empty() {
            all.push(Advice::NoAccountPassword(name))?;
        } else if is_example(account.password.as_str()) {
            all.push(Advice::ExampleAccountPassword(name))?;
        }
    }
    Ok(())
}

/// What may be meant otherwise in a configuration, in the order of the file's keys: what its numbers come
/// to, its upstreams, its accounts. Of what is advised no clause says anything but by [`may_take_all`],
/// [`takes_none`], [`brings_none`] and [`has_few_clients`].
pub fn counsel<'a>(alloc: Global, config: &'a Config) -> Result<Vec<Advice<'a>>, AllocError> {
    let mut all = Vec::new(alloc);
    on_numbers(config, &mut all)?;
    on_upstreams(config, &mut all)?;
    on_accounts(config, &mut all)?;
    Ok(all)
}
