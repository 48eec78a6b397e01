//! A proxy from its configuration on.

use crate::addresses::Addresses;
use crate::desk::{desk_of, limits_of};
use crate::entrance::Entrance;
use crate::exchanges::gateway_of;
use crate::guests::Guests;
use crate::herald::Herald;
use crate::lane::Lane;
use crate::listening::{await_listener, port_of};
use crate::log::{Log, wall};
use crate::lookup::Lookups;
use crate::pace::{Moment, Pace};
use crate::parties::WAKER;
use crate::queues::Queues;
use crate::remote::Remote;
use crate::room::Room;
use crate::seats::{Drawer, Gateway};
use crate::status::Survey;
use crate::teller::Teller;
use crate::turning::Loop;
use mio::{Events, Poll, Token, Waker};
use smx_config::Config;
use smx_notice::{DoorNews, Ended, Form, Notice, Service};
use smx_slots::{ClientEnds, LaneEnds, Slots, ends_of};
use std::alloc::{AllocError, Global};
use std::net::{Net, TcpStream};
use std::rt::Clock;
use std::sync::{Arc, Wait};
use std::time::Instant;

/// A proxy that isn't running yet.
#[derive(Drop)]
pub struct Server {
    poll: Poll,
    shared: Shared,
}

// The boxes between the slots of so many clients and the lanes.
fn boxes_of<R: Wait>(
    rt: &R,
    alloc: Global,
    config: &Config,
    clients: usize,
) -> Result<(Vec<ClientEnds>, Vec<LaneEnds>), Ended> {
    let places = config.places as usize;
    Ok(ends_of(rt, alloc, clients, config.upstream.len(), places)?)
}

// Each lane beside its boxes, not connected yet.
fn lanes_of<R: Wait>(
    rt: &R,
    alloc: Global,
    drawers: Vec<Drawer>,
    mut ends: Vec<LaneEnds>,
) -> Result<Vec<Lane>, AllocError> {
    let mut lanes = Vec::new(alloc);
    ends.reverse();
    for drawer in drawers {
        if let Some(ends) = ends.pop() {
            lanes.push(Lane::new(rt, alloc, drawer, ends))?;
        }
    }
    Ok(lanes)
}

// The door, the lanes and the clients, of whom nobody is connected.
#[derive(Drop)]
struct Wiring<'d> {
    gateway: Gateway,
    lanes: Vec<Lane>,
    guests: Guests<'d>,
}

fn wiring_of<'d, R: Wait>(
    rt: &R,
    alloc: Global,
    config: &Config,
    clients: usize,
) -> Result<Wiring<'d>, Ended> {
    let (gateway, drawers) = gateway_of(rt, alloc, config)?;
    let (ends, lane_ends) = boxes_of(rt, alloc, config, clients)?;
    let lanes = lanes_of(rt, alloc, drawers, lane_ends)?;
    let guests = Guests::new(alloc, Slots::new(alloc, ends)?)?;
    Ok(Wiring {
        gateway,
        lanes,
        guests,
    })
}

// What a loop over so many lanes and slots begins with.
#[derive(Drop)]
struct Tables {
    events: Events,
    queues: Queues,
    addresses: Addresses,
}

fn tables_of(
    alloc: Global,
    config: &Config,
    lanes: usize,
    slots: usize,
) -> Result<Tables, AllocError> {
    let events = Events::with_capacity(alloc, 512)?;
    let queues = Queues::new(alloc, lanes, slots)?;
    let limits = limits_of(alloc, config)?;
    let addresses = Addresses::new(alloc, slots, lanes, limits.as_slice())?;
    Ok(Tables {
        events,
        queues,
        addresses,
    })
}

// How many clients are let in at most. Where the system's descriptors leave out some, that is said.
fn room_for<R: Wait + Net>(rt: &R, moment: &Moment<'_>) -> usize {
    let room = Room::new(rt, moment.alloc, moment.config);
    if let Some(notice) = room.notice() {
        moment.say(rt, notice);
    }
    room.clients
}

// The loop, once it listens; it is not connected yet. Its first moment is that one.
fn loop_of<'d, R>(
    rt: &R,
    mut poll: Poll,
    moment: &Moment<'d>,
    remote: &Remote,
) -> Result<Loop<'d>, Ended>
where
    R: Clock + Wait + Net<Listener = std::net::TcpListener, Stream = TcpStream>,
{
    let Moment { alloc, config, .. } = *moment;
    let clients = room_for(rt, moment);
    let Wiring {
        gateway,
        lanes,
        guests,
    } = wiring_of(rt, alloc, config, clients)?;
    let Tables {
        mut events,
        queues,
        addresses,
    } = tables_of(alloc, config, lanes.len(), guests.slots.count())?;
    let listener = await_listener(rt, &mut poll, &mut events, moment, remote)?;
    let Ok(start) = Instant::now(rt) else {
        return Err(Ended::NoEvents);
    };
    remote.listen(port_of(&listener));
    let entrance = Entrance {
        listener: Some(listener),
        gateway,
        short: false,
        more: false,
        is_open: false,
    };
    Ok(Loop {
        pace: Pace::new(*moment, start),
        poll,
        events,
        lanes,
        guests,
        entrance,
        queues,
        addresses,
        survey: Survey::new(),
    })
}

// What other threads have of a proxy: what stops it, what it says, and the look-ups of names.
#[derive(Drop)]
struct Shared {
    remote: Arc<Remote>,
    log: Arc<Log>,
    // What a service manager is told, where there is one.
    service: Option<Arc<Log>>,
    lookups: Arc<Lookups>,
}

impl Shared {
    fn new(alloc: Global, waker: Waker) -> Result<Shared, AllocError> {
        let remote = Arc::new(alloc, Remote::new(waker))?;
        let log = Arc::new(alloc, Log::new(alloc, Some(Form::Text))?)?;
        let lookups = Lookups::new(alloc, Arc::try_clone(&remote)?)?;
        Ok(Shared {
            remote,
            log,
            service: None,
            lookups: Arc::new(alloc, lookups)?,
        })
    }
}

impl Server {
    /// A proxy, and with it what stops it. None where the system has no descriptors or no memory.
    pub fn new<R: Net>(rt: &R, alloc: Global) -> Option<Server> {
        let Ok(poll) = Poll::new(rt) else {
            return None;
        };
        let Ok(waker) = Waker::new(poll.registry(), Token(WAKER)) else {
            return None;
        };
        match Shared::new(alloc, waker) {
            Ok(shared) => Some(Server { poll, shared }),
            Err(_) => None,
        }
    }

    /// What stops it, for another thread. None where there is no memory.
    pub fn remote(&self) -> Option<Arc<Remote>> {
        match Arc::try_clone(&self.shared.remote) {
            Ok(remote) => Some(remote),
            Err(_) => None,
        }
    }

    /// What it says, one line an event, for a thread that writes it. Where nobody does, nothing waits
    /// for it. None where there is no memory.
    pub fn log(&self) -> Option<Arc<Log>> {
        match Arc::try_clone(&self.shared.log) {
            Ok(log) => Some(log),
            Err(_) => None,
        }
    }

    /// What a service manager is told from now on, in lines as of sd_notify(3), for a thread that writes
    /// them. Without this call nothing is said of that. None where there is no memory.
    pub fn service(&mut self, alloc: Global) -> Option<Arc<Log>> {
        if self.shared.service.is_none() {
            let Ok(log) = Log::new(alloc, None) else {
                return None;
            };
            let Ok(lines) = Arc::new(alloc, log) else {
                return None;
            };
            self.shared.service = Some(lines);
        }
        match Arc::try_clone(self.shared.service.as_ref()?) {
            Ok(lines) => Some(lines),
            Err(_) => None,
        }
    }

    /// The look-ups of its upstreams' names, for threads that do them, one for each upstream that has a
    /// name. None where there is no memory.
    pub fn lookups(&self) -> Option<Arc<Lookups>> {
        match Arc::try_clone(&self.shared.lookups) {
            Ok(lookups) => Some(lookups),
            Err(_) => None,
        }
    }

    /// Serves by this configuration until it is told to stop, on this thread alone. An address to listen
    /// at that can't be had is tried again every two seconds; an upstream that can't be reached, refuses
    /// the bind or ends, after the pauses of the configuration's timers.
    pub fn serve<R>(self, rt: &R, alloc: Global, config: &Config) -> Ended
    where
        R: Clock + Wait + Net<Listener = std::net::TcpListener, Stream = TcpStream>,
    {
        let Server { poll, shared } = self;
        let Shared {
            remote,
            log,
            service,
            lookups,
        } = shared;
        let Ok(desk) = desk_of(alloc, config) else {
            return Ended::NoMemory;
        };
        log.write_by(rt, config);
        let teller = Teller::new(log);
        let herald = Herald::new(service);
        let moment = Moment {
            alloc,
            config,
            timers: config.timers,
            desk: &desk,
            teller: &teller,
            herald: &herald,
            lookups: &lookups,
            now: 0,
            wall: wall(rt),
            chance: 0,
            stopping: false,
        };
        let ended = match open(rt, poll, &moment, &remote) {
            Ok(ended) => ended,
            Err(ended) => ended,
        };
        lookups.close(rt);
        ended
    }
}

// Makes the lanes and the boxes, listens, connects, and turns.
fn open<R>(rt: &R, poll: Poll, moment: &Moment<'_>, remote: &Remote) -> Result<Ended, Ended>
where
    R: Clock + Wait + Net<Listener = std::net::TcpListener, Stream = TcpStream>,
{
    let mut turning = loop_of(rt, poll, moment, remote)?;
    let Moment { config, .. } = *moment;
    moment.say(
        rt,
        Notice::Door(DoorNews::Listening(config.listen.as_str())),
    );
    moment.herald.say(rt, Service::Ready);
    Ok(turning.run(rt, remote))
}
