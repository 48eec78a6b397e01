//! The proxy and its demonstration over sockets of the loopback. It has tests alone, in a crate of their
//! own, so that none of them is proved twice.
#![tactic(auto)]

#[cfg(test)]
mod cells;
#[cfg(test)]
mod hostile;
#[cfg(test)]
mod lines;
#[cfg(test)]
mod loopback;
#[cfg(test)]
mod returning;
#[cfg(test)]
mod showing;
#[cfg(test)]
mod stage;
