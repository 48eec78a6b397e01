//! An example of a layer above the ticket lock: a counter whose notes are additions.
//!
//! `Adder` has one seat of the counter's lock, and its contracts say that one hold served each
//! call: the hold found a history that begins with all that the seat had seen and has the seat's own
//! additions just once each, the count was their total, and the call's own addition stands at the
//! end of what the seat has seen from then on.
#![tactic(auto)]

mod adder;
mod counter;

pub use adder::Adder;
pub use counter::{Added, Counter, Deed};
