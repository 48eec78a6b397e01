//! Lanes that threads share through tokens.
//!
//! An `Exchange` keeps the lanes, each under its ticket lock. A `Door` enters clients, a `Port` is
//! one client's right to submit, to collect and to leave, and a `Tap` takes from one lane, brings its
//! answers, gives up requests that are too old, turns it over, and brings it down and up with its
//! link. A call of a port or a tap is served by one hold of each lane that it uses, and so is
//! `Door::load`. `Door::enter` holds each lane twice, to make a seat and by that seat, and a lane that
//! it leaves again a third time.
#![tactic(auto)]

mod accepting;
mod admit;
mod batch;
mod batching;
mod departed;
mod door;
mod exchange;
mod fault;
mod lane_call;
mod lane_seat;
mod naming;
mod offer;
mod opening;
mod port;
mod retire;
mod spare;
mod starts;
mod submit;
mod tap;
mod token;
mod unmade;

pub use batch::{BATCH, Collected, Landing, Takings};
pub use departed::Departed;
pub use door::Door;
pub use exchange::Exchange;
pub use fault::{
    DownFault, EnterFault, ExpiryFault, FailFault, MakeFault, StateOut, SubmitFault, TakeFault,
    TryTakeFault, TurnFault, UpFault,
};
pub use offer::Offer;
pub use port::Port;
pub use spare::SpareList;
pub use starts::Starts;
pub use tap::Tap;
pub use token::{HasSeat, Token};
pub use unmade::Unmade;
