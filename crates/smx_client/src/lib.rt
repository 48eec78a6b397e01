//! The worker of one client: it turns the client's link.
#![tactic(auto)]

mod deliver;
mod desk;
mod ending;
mod event;
mod leaver;
mod ledger;
mod listing;
mod prefixes;
mod reply;
mod saying;
mod stage;
mod worker;

pub use desk::Desk;
pub use ending::Refusal;
pub use event::{Delivery, Event, Fate};
pub use leaver::{Closed, Leaving};
pub use listing::SpareLists;
pub use reply::{Parked, Reply};
pub use stage::Stage;
pub use worker::{ClientWorker, Origin, run_client};
