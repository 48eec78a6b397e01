//! The parts below shared lanes against octets and replies worked out by hand: the codec, framing,
//! sessions and the loopback centre, lanes and the check of their histories, boxes, routes and mailboxes,
//! the lock, and connections of sockets; and a lane against a slow model of it. It has tests alone, in a
//! crate of their own, so that none of those is proved twice.
#![tactic(auto)]

#[cfg(test)]
mod boxes;
#[cfg(test)]
mod lanes;
#[cfg(test)]
mod locks;
#[cfg(test)]
mod pdus;
#[cfg(test)]
mod rows;
#[cfg(test)]
mod sockets;
