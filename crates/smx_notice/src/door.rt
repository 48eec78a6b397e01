//! What is said of the address where clients connect.

use crate::facts::{Facts, Figures};
use crate::level::Level;
use crate::reason::Reason;
use smx_shared::EnterFault;
use std::io::{self, ErrorKind};
use thiserror::Error;

/// Why a connection was closed at once.
#[derive(Clone, Copy, Debug, Error)]
pub enum TurnedAway {
    #[error("no slot is free")]
    NoSlot,
    /// The system doesn't watch it, or there is no memory for it.
    #[error("it can't be watched")]
    Unwatched,
    /// The lanes let no client in.
    #[error("{0}")]
    NotEntered(EnterFault),
}

/// What becomes of the address to listen at, and of connections that have no client.
#[derive(Clone, Copy, Debug, Error)]
pub enum DoorNews<'a> {
    /// Clients can connect at this address.
    #[error("listening on {0}")]
    Listening(&'a str),
    /// Nobody can connect at this address, for this reason, and it is tried again.
    #[error("listen = \"{0}\": {1}{advice}; it is tried again every 2 seconds", advice = advice(*.1))]
    NotListening(&'a str, io::Error),
    /// So many descriptors can be had, and so many are wanted; so many clients are let in at most.
    #[error("the system gives {found} of {wanted} descriptors: at most {clients} clients are let in; raise the limit of open files")]
    FewDescriptors {
        found: usize,
        wanted: usize,
        clients: usize,
    },
    /// A connection from this address was closed at once.
    #[error("{0}: refused, {1}")]
    TurnedAway(&'a str, TurnedAway),
    /// The system has no descriptor for a connection that waits.
    #[error("no connection can be accepted now")]
    NoDescriptor,
}

// What may be done where the system doesn't let the program listen.
fn advice(error: io::Error) -> &'static str {
    match error.kind() {
        ErrorKind::PermissionDenied => "; a port below 1024 wants CAP_NET_BIND_SERVICE",
        _ => "",
    }
}

impl<'a> DoorNews<'a> {
    pub(crate) fn facts(self) -> Facts<'a> {
        match self {
            DoorNews::Listening(address) => Facts::new(Level::Info, "listening").at(address),
            DoorNews::NotListening(address, error) => Facts::new(Level::Error, "not_listening")
                .at(address)
                .because(Reason::System(error)),
            DoorNews::FewDescriptors {
                found,
                wanted,
                clients,
            } => {
                let figures = Figures::none()
                    .size("found", found)
                    .size("wanted", wanted)
                    .size("clients", clients);
                Facts::new(Level::Warn, "few_descriptors").counted(figures)
            }
            DoorNews::TurnedAway(address, reason) => Facts::new(Level::Warn, "turned_away")
                .at(address)
                .because(Reason::Door(reason)),
            DoorNews::NoDescriptor => Facts::new(Level::Error, "no_descriptor"),
        }
    }
}
