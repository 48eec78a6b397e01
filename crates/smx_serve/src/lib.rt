//! The proxy over sockets: one thread turns the workers that have something to do.
#![tactic(auto)]

mod addresses;
mod course;
mod desk;
mod entrance;
mod exchanges;
mod guest;
mod guests;
mod herald;
mod lane;
mod lingering;
mod linked;
mod linking;
mod listening;
mod log;
mod lookup;
mod mail;
mod pace;
mod parties;
mod preface;
mod pressure;
mod queues;
mod refusals;
mod reload;
mod remote;
mod room;
mod seating;
mod seats;
mod serve;
mod status;
mod stillness;
mod stop;
mod teller;
mod turning;
mod upstreams;

pub use log::{Log, wall};
pub use lookup::{Lookups, is_name};
pub use remote::Remote;
pub use serve::Server;
pub use smx_notice::{
    AccountChange, ClientEnd, ClientName, ClientNews, ClientStanding, Counts, DoorNews, Ended,
    Form, LastSent, Level, LinkLoss, LinkState, MeteredKind, Notice, ReloadNews, RunNews, Service,
    Standing, TurnedAway, UpstreamName, UpstreamNews, UpstreamStanding,
};
