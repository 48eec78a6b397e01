//! PDUs over a link: those that a peer's octets spell, and those that are said to it.
#![tactic(auto)]

mod link;
mod wire;

pub use link::{Link, LinkFault, Polled};
pub use wire::Wire;
