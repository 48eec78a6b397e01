//! Shared lanes, the workers over links in memory and the tables of the loop, against answers and octets
//! worked out by hand. It has tests alone, in a crate of their own, so that no lane or worker is proved
//! twice.
#![tactic(auto)]

#[cfg(test)]
mod client;
#[cfg(test)]
mod hall;
#[cfg(test)]
mod messages;
#[cfg(test)]
mod shared;
#[cfg(test)]
mod stand;
#[cfg(test)]
mod tables;
#[cfg(test)]
mod threads;
#[cfg(test)]
mod upstream;
