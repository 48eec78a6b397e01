//! How long what may last.
ghost use Rattle.std.specs.Prelude.{◌≡◌, IfSome, IsTrue};
ghost use Rattle.toml.specs.View.{table_view};
ghost use Rattle.smx_config.specs.Keys.{is_number};
ghost use Rattle.smx_config.specs.Settings.{AreTimers, enquire_at, stated_timers, timers_at};

use crate::number::Number;
use crate::table::find;
use std::alloc::Global;
use toml::Table;

/// How long what may last, in milliseconds, each but the last up to 3,600,000.
#[derive(Clone, Copy, Debug, PartialEq, Eq)]
pub struct Timers {
    /// A request at the centre without an answer (SMPP 3.4, section 7.2), and one that is queued on a
    /// lane without a link: from 1,000 on.
    pub response: u64,
    /// The first pause before a link is tried again: from 100 on.
    pub reconnect: u64,
    /// The longest such pause, where the first is no longer: from 100 on.
    pub reconnect_most: u64,
    /// The silence of a centre before it is enquired; also a connection to it, its bind and its answer
    /// to the enquiry: from 100 on.
    pub enquire: u64,
    /// A client that is connected and not bound: from 1,000 on.
    pub bind: u64,
    /// A bound client's silence before it is enquired (section 7.2), and its answer to that: from 0 on,
    /// which is never.
    pub client_silence: u64,
    /// A message that a client was sent and hasn't answered: from 0 on, which is never.
    pub message: u64,
    /// What is under way at a stop: from 0 to 600,000.
    pub stop: u64,
}

// The number at `enquire` of the timers, in a whole file of this silence.
fn enquire_at(whole: &Table, silence: u32, table: &Table) -> Option<u32>
    requires { IsTrue (is_number Number.Silence silence) }
    ensures value { result ≡ enquire_at (table_view whole.now) silence (table_view table.now) }
    ensures kept { IfSome result (λ n. IsTrue (is_number Number.Enquire n)) }
{
    let Some(value) = find(table, Number::Enquire.rule().key) else {
        return Some(silence);
    };
    if find(whole, Number::Silence.rule().key).is_some() {
        None
    } else {
        Number::Enquire.of(value)
    }
}

// What the keys of a table say of the timers, in a whole file of this silence.
fn timers_in(whole: &Table, silence: u32, table: &Table) -> Option<Timers>
    requires { IsTrue (is_number Number.Silence silence) }
    ensures value { result ≡ stated_timers (table_view whole.now) silence (table_view table.now) }
    ensures kept { IfSome result (λ timers. AreTimers timers) }
{
    let response = Number::Response.at(table)?;
    let reconnect = Number::Reconnect.at(table)?;
    let reconnect_most = Number::ReconnectMost.at(table)?;
    let enquire = enquire_at(whole, silence, table)?;
    let bind = Number::Bind.at(table)?;
    let client_silence = Number::ClientSilence.at(table)?;
    let message = Number::Message.at(table)?;
    let stop = Number::Stop.at(table)?;
    Some(Timers {
        response: u64::from(response),
        reconnect: u64::from(reconnect),
        reconnect_most: u64::from(reconnect_most),
        enquire: u64::from(enquire),
        bind: u64::from(bind),
        client_silence: u64::from(client_silence),
        message: u64::from(message),
        stop: u64::from(stop),
    })
}

/// The timers that a whole file of this silence states.
pub(crate) fn read_timers(alloc: Global, whole: &Table, silence: u32) -> Option<Timers>
    requires { IsTrue (is_number Number.Silence silence) }
    ensures value { result ≡ timers_at silence (table_view whole.now) }
    ensures kept { IfSome result (λ timers. AreTimers timers) }
{
    match find(whole, "timers") {
        Some(value) => match value.as_table() {
            Some(table) => timers_in(whole, silence, table),
            None => None,
        },
        None => timers_in(whole, silence, &Table::new(alloc)),
    }
}
