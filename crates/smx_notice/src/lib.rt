//! The lines of the proxy's log, as values, their words, and the forms in which they are written.
#![tactic(auto)]

mod client;
mod count;
mod door;
mod ended;
mod facts;
mod last_sent;
mod level;
mod meter;
mod notice;
mod object;
mod plain;
mod reason;
mod reload;
mod run;
mod service;
mod spelling;
mod standing;
mod upstream;

pub use client::{AccountChange, BindSaid, ClientEnd, ClientName, ClientNews, ClientStanding};
pub use door::{DoorNews, TurnedAway};
pub use ended::Ended;
pub use facts::{Facts, Figure, Figures, Party};
pub use last_sent::LastSent;
pub use level::{Form, Level};
pub use meter::{Meter, MeteredKind, Tally};
pub use notice::Notice;
pub use reason::{Quoted, Reason};
pub use reload::ReloadNews;
pub use run::RunNews;
pub use service::{Counts, Service};
pub use spelling::spell;
pub use standing::Standing;
pub use upstream::{LinkLoss, LinkState, UpstreamName, UpstreamNews, UpstreamStanding};
