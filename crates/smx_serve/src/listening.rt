//! How the proxy comes to listen: an address that can't be had is tried again.

use crate::pace::Moment;
use crate::parties::LISTENER;
use crate::remote::Remote;
use mio::net::TcpListener;
use mio::{Events, Interest, Poll, Token};
use smx_notice::{DoorNews, Ended, Notice, RunNews, Service};
use std::io;
use std::net::{Net, TcpStream};
use std::sync::Wait;
use std::time::Duration;

/// How long it waits between two attempts, in milliseconds.
const PAUSE: u64 = 2_000;

/// Of so many attempts the first is told of: one a minute.
const ATTEMPTS: u64 = 30;

// What listens at this address, watched, or why the system doesn't let it.
fn listen<R>(rt: &R, poll: &Poll, address: &str) -> io::Result<TcpListener>
where
    R: Net<Listener = std::net::TcpListener, Stream = TcpStream>,
{
    let listener = std::net::TcpListener::bind(rt, address)?;
    listener.set_nonblocking(true)?;
    let mut listener = TcpListener::from_std(listener);
    let registry = poll.registry();
    registry.register(&mut listener, Token(LISTENER), Interest::READABLE)?;
    Ok(listener)
}

// Waits for the next attempt, or until the proxy is told to stop, which ends it.
fn pause<R: Wait>(
    rt: &R,
    poll: &mut Poll,
    events: &mut Events,
    moment: &Moment<'_>,
    remote: &Remote,
) -> Result<(), Ended> {
    let time = Some(Duration::from_millis(PAUSE));
    if poll.poll(events, time).is_err() {
        return Err(Ended::NoEvents);
    }
    if remote.is_stopping() {
        moment.say(rt, Notice::Run(RunNews::Stopping));
        moment.herald.say(rt, Service::Stopping);
        return Err(Ended::Stopped);
    }
    Ok(())
}

/// What listens at the configuration's address. One that isn't there or is in use is tried again every
/// two seconds, and told of every minute, until the proxy is told to stop.
pub(crate) fn await_listener<R>(
    rt: &R,
    poll: &mut Poll,
    events: &mut Events,
    moment: &Moment<'_>,
    remote: &Remote,
) -> Result<TcpListener, Ended>
where
    R: Wait + Net<Listener = std::net::TcpListener, Stream = TcpStream>,
{
    let Moment { config, .. } = *moment;
    let address = config.listen.as_str();
    for attempt in 0..u64::MAX {
        let error = match listen(rt, poll, address) {
            Ok(listener) => return Ok(listener),
            Err(error) => error,
        };
        if attempt % ATTEMPTS == 0 {
            moment.say(rt, Notice::Door(DoorNews::NotListening(address, error)));
        }
        if attempt == 0 {
            moment.herald.say(rt, Service::Awaiting(address));
            moment.herald.say(rt, Service::Ready);
        }
        moment.herald.say(rt, Service::Alive);
        pause(rt, poll, events, moment, remote)?;
    }
    Err(Ended::NoEvents)
}

/// The port, and 0 where the system doesn't say it.
pub(crate) fn port_of(listener: &TcpListener) -> u16 {
    match listener.local_addr() {
        Ok(found) => found.port(),
        Err(_) => 0,
    }
}
