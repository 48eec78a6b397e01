//! Links over sockets that never wait.
#![tactic(auto)]

mod connection;
mod keeping;
mod link;
mod marks;
mod outgoing;
mod socket;
mod tcp;
mod traffic;
mod transport;

pub use connection::{Answers, Connection, Drained, Flushed};
pub use link::SocketLink;
pub use marks::Marks;
pub use outgoing::{MOST, Outgoing};
pub use socket::Socket;
pub use tcp::Tcp;
pub use transport::{Outcome, Transport};
