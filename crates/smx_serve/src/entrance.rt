//! Where clients connect.

use crate::addresses::Addresses;
use crate::guest::Guest;
use crate::guests::Guests;
use crate::pace::Moment;
use crate::preface::Preface;
use crate::queues::Queues;
use crate::refusals::Refusals;
use crate::seats::{Gateway, Member};
use crate::stillness::Stillness;
use mio::net::{TcpListener, TcpStream};
use mio::{Registry, Token};
use smx_notice::{ClientName, ClientNews, DoorNews, Notice, TurnedAway};
use smx_slots::ClientEnds;
use smx_socket::{Socket, SocketLink};
use std::alloc::Global;
use std::io::ErrorKind;
use std::net::SocketAddr;
use std::rc::Rc;
use std::sync::Wait;

/// The acceptor.
#[derive(Drop)]
pub(crate) struct Entrance {
    // None once nobody is let in any more.
    pub listener: Option<TcpListener>,
    pub gateway: Gateway,
    // The system had no descriptor for a connection that waits.
    pub short: bool,
    // Connections may wait.
    pub more: bool,
    // Clients are let in.
    pub is_open: bool,
}

/// How many connections are accepted at a time; more wait for the next pass.
const ACCEPTS: u64 = 8;

// What came of waiting for a connection.
#[derive(Drop)]
enum Next {
    Came(TcpStream, SocketAddr),
    Nobody,
    // The system has no descriptor for it.
    Short,
}

// The next connection.
fn next_of(listener: &TcpListener) -> Next {
    for _ in 0..u64::MAX {
        let error = match listener.accept() {
            Ok((stream, address)) => return Next::Came(stream, address),
            Err(error) => error.kind(),
        };
        match error {
            ErrorKind::Interrupted | ErrorKind::ConnectionAborted => {}
            ErrorKind::WouldBlock => return Next::Nobody,
            _ => return Next::Short,
        }
    }
    Next::Nobody
}

// A link over a socket, and the socket for the loop.
pub(crate) fn link_of(alloc: Global, socket: Socket) -> Option<(Rc<Socket>, SocketLink)> {
    let Ok(socket) = Rc::new(alloc, socket) else {
        return None;
    };
    let Ok(shared) = Rc::clone(&socket) else {
        return None;
    };
    Some((socket, SocketLink::new(shared)))
}

// The same of a stream, which the loop knows by this token.
pub(crate) fn wire(
    alloc: Global,
    registry: &Registry,
    stream: TcpStream,
    party: usize,
) -> Option<(Rc<Socket>, SocketLink)> {
    let _ = stream.set_nodelay(true);
    match Socket::new(alloc, stream, registry, Token(party)) {
        Some(socket) => link_of(alloc, socket),
        None => None,
    }
}

// A client that was let in, its worker and its socket.
#[derive(Drop)]
struct Entered<'d> {
    client: u64,
    member: Member<'d>,
    socket: Rc<Socket>,
}

impl Gateway {
    // Enters a client over this connection, with the ends of its slot, and makes its worker. Where
    // that can't be the ends come back, and why.
    fn admit<'d, R: Wait>(
        &mut self,
        rt: &R,
        registry: &Registry,
        moment: &Moment<'d>,
        stream: TcpStream,
        party: usize,
        ends: ClientEnds,
    ) -> Result<Entered<'d>, (ClientEnds, TurnedAway)> {
        let Moment {
            alloc,
            config,
            desk,
            timers,
            now,
            ..
        } = *moment;
        let entrant = match self.enter(rt) {
            Ok(entrant) => entrant,
            Err(fault) => return Err((ends, TurnedAway::NotEntered(fault))),
        };
        let client = entrant.client();
        let Some((socket, link)) = wire(alloc, registry, stream, party) else {
            entrant.leave(rt);
            return Err((ends, TurnedAway::Unwatched));
        };
        match Member::new(
            rt,
            alloc,
            entrant,
            desk,
            ends,
            config.places,
            link,
            timers,
            now,
        ) {
            Ok(member) => Ok(Entered {
                client,
                member,
                socket,
            }),
            Err(ends) => Err((ends, TurnedAway::Unwatched)),
        }
    }
}

fn say_connected<R: Wait>(rt: &R, moment: &Moment<'_>, client: u64, address: &str) {
    let name = ClientName {
        client,
        system_id: None,
        address,
    };
    moment.say(rt, Notice::Client(name, ClientNews::Connected));
}

// Says that a connection from this address was closed at once.
fn turn_away<R: Wait>(rt: &R, moment: &Moment<'_>, address: &str, reason: TurnedAway) {
    moment.say(rt, Notice::Door(DoorNews::TurnedAway(address, reason)));
}

impl Entrance {
    // The next connection, or none for now. A want of descriptors is said once.
    fn accept<R: Wait>(&mut self, rt: &R, moment: &Moment<'_>) -> Option<(TcpStream, SocketAddr)> {
        let next = match &self.listener {
            Some(listener) => next_of(listener),
            None => Next::Nobody,
        };
        let was_short = self.short;
        self.short = matches!(next, Next::Short);
        if self.short && !was_short {
            moment.say(rt, Notice::Door(DoorNews::NoDescriptor));
        }
        match next {
            Next::Came(stream, address) => Some((stream, address)),
            Next::Nobody | Next::Short => None,
        }
    }

    // Gives a connection a slot and enters its client; else closes it. One that isn't bound may lose its
    // slot for it.
    fn welcome<'d, R: Wait>(
        &mut self,
        rt: &R,
        registry: &Registry,
        moment: &Moment<'d>,
        guests: &mut Guests<'d>,
        queues: &mut Queues,
        addresses: &mut Addresses,
        stream: TcpStream,
        address: String,
    ) {
        let Moment { config, .. } = *moment;
        guests.make_place(rt, moment, queues, addresses);
        let Some((slot, ends)) = guests.slots.pick() else {
            turn_away(rt, moment, address.as_str(), TurnedAway::NoSlot);
            return;
        };
        let party = queues.party(slot);
        match self
            .gateway
            .admit(rt, registry, moment, stream, party, ends)
        {
            Ok(entered) => {
                if !config.proxy_protocol {
                    say_connected(rt, moment, entered.client, address.as_str());
                }
                let _ = addresses.roll.add(entered.client, slot);
                queues.begin_anew(slot);
                addresses.mail.begin_anew(slot);
                guests.seat(slot, guest_of(entered, address, moment));
            }
            Err((ends, reason)) => {
                guests.slots.give_back(slot, ends);
                turn_away(rt, moment, address.as_str(), reason);
            }
        }
    }

    // Nobody is let in any more: a connection is refused by the system.
    pub fn close(&mut self, registry: &Registry) {
        if let Some(listener) = &mut self.listener {
            let _ = registry.deregister(listener);
        }
        self.listener = None;
        self.more = false;
    }

    // Whether connections may wait that are let in.
    pub fn has_more(&self) -> bool {
        self.is_open && self.more && self.listener.is_some()
    }

    // Connections may wait, where none could be accepted before.
    pub fn try_again(&mut self) {
        self.more |= self.short;
    }

    // Lets those in who wait, at most eight of them. Nothing is said of one for the words of whose address
    // there is no memory: it is closed.
    pub fn let_in<'d, R: Wait>(
        &mut self,
        rt: &R,
        registry: &Registry,
        moment: &Moment<'d>,
        guests: &mut Guests<'d>,
        queues: &mut Queues,
        addresses: &mut Addresses,
    ) {
        if !self.has_more() {
            return;
        }
        for _ in 0..ACCEPTS {
            let Some((stream, address)) = self.accept(rt, moment) else {
                self.more = false;
                return;
            };
            if let Ok(address) = format!(in moment.alloc; "{address}") {
                self.welcome(
                    rt, registry, moment, guests, queues, addresses, stream, address,
                );
            }
        }
    }
}

// A client that isn't bound yet.
fn guest_of<'d>(entered: Entered<'d>, address: String, moment: &Moment<'d>) -> Guest<'d> {
    let Moment { alloc, config, .. } = *moment;
    let Entered {
        client,
        member,
        socket,
    } = entered;
    Guest {
        client,
        address,
        member,
        socket,
        desk: moment.desk,
        name: None,
        kind: None,
        since: moment.now,
        is_late: false,
        preface: config.proxy_protocol.then(|| Preface::new(alloc)),
        refusals: Refusals::new(),
        stillness: Stillness::new(),
        parting: None,
    }
}
