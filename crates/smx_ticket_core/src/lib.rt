//! The ticket lock as a machine of two numbers and its callers' states.
//!
//! The algorithm is that of Mellor-Crummey and Scott (1991): a caller draws a ticket, waits until
//! that ticket is served, holds, and serves the next ticket as it leaves. Three things are this
//! project's own: the draw is a load and a compare-exchange, so that a caller may lose it; a caller
//! may try, and draws then only the ticket that is served at that moment; and the tickets end at
//! 2^62.
//!
//! The machine knows no memory order and no value. `exclusion_law` is the theorem about its runs.
#![tactic(auto)]

mod callers;
mod law;
mod machine;
mod table;

pub use callers::{Caller, Event, Illegal};
pub use law::exclusion_law;
pub use machine::Core;
pub use table::MOST;
