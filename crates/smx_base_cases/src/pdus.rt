//! PDUs against octets of the standard, and what reads, decides and answers them.

mod bodies;
mod centre;
mod clients;
mod codec;
mod frames;
mod requests;
mod spelling;
mod statuses;
mod upstreams;
