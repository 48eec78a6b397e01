//! The tables of the proxy: who has something to do, which client has which slot, which slots are
//! free and which ends of boxes each has, and what workers ask of them: their gate and the directory.
//!
//! Nothing here has a socket, a clock or a thread. All memory is taken when a table is made, but for
//! the routes of clients, and of the ledger when a client is bound or its limits are renewed.
#![tactic(auto)]

mod accounts;
mod boxes;
mod client_bell;
mod entries;
mod fitting;
mod guide;
mod hints;
mod lane_bell;
mod ledger;
mod limits;
mod line;
mod movement;
mod parties;
mod polling;
mod roll;
mod schedule;
mod slots;

pub use boxes::{ClientEnds, LaneEnds, ends_of};
pub use client_bell::{ClientBell, ClientTurn};
pub use fitting::clients_that_fit;
pub use guide::Guide;
pub use hints::{Hints, is_hinted};
pub use lane_bell::LaneBell;
pub use ledger::Ledger;
pub use limits::AccountLimits;
pub use line::{Line, is_in_turn};
pub use movement::Movement;
pub use polling::is_poll_due;
pub use roll::Roll;
pub use schedule::Schedule;
pub use slots::Slots;
