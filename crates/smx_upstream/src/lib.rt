//! The worker towards the centre: turns over a link, a lane's tap and the boxes of messages.
#![tactic(auto)]

mod abandoning;
mod acting;
mod age;
mod between;
mod bringing;
mod carry;
mod deciding;
mod event;
mod expiring;
mod giving_up;
mod judging;
mod last;
mod laws;
mod losing;
mod rising;
mod running;
mod saying;
mod spent;
mod stopping;
mod turning;
mod wiring;
mod worker;

pub use abandoning::{AbandonEnd, Abandoned, Round, give_up_queued};
pub use event::{Event, Fate, GivenUp, Rise, Span};
pub use last::LastRequest;
pub use laws::law;
pub use losing::{Lost, lose};
pub use running::{Closed, run_upstream};
pub use worker::{Parts, UpstreamWorker};
