//! A ticket lock that is proved to exclude, whatever the schedule.
//!
//! A `TicketLock` keeps one value. Whoever has a `LockSeat` of it may acquire: the seat becomes a
//! `Held`, which has the value, and `release` makes it a seat again. For contracts the value has a
//! history, a list of notes. Each hold finds one history, which begins with all that its seat had
//! seen and has the seat's own notes just once each; it may leave the value only where that agrees
//! with the history found, followed by notes of this seat.
//!
//! Nothing is promised of progress: not that a caller is ever served, nor when, nor in which order
//! two callers meet.
#![tactic(auto)]

mod faults;
mod in_place;
mod lock;
mod noted;
mod plays;
mod section;
mod tokens;
mod views;

pub use faults::{Spent, StateOut, TryFault};
pub use in_place::SeatInPlace;
pub use lock::TicketLock;
pub use section::CriticalSection;
pub use smx_kept::{Kept, Told};
pub use tokens::{Held, LockSeat};
