//! The history of a lane: its notes and entries, which histories are legal, and what a lane holds after one.
#![tactic(auto)]

mod entry;
mod limits;
mod note;
mod place;
mod reply;
mod request;
mod response;
mod telling;

pub use entry::{Entry, Kind};
pub use limits::Limits;
pub use note::{Event, Note};
pub use place::Place;
pub use reply::{
    AdmitFault, AlreadyDown, Answered, FailRefusal, Failed, NoneExpired, Refusal, TakeRefusal,
    UpRefusal,
};
pub use request::Request;
pub use response::Response;
pub use telling::{Unaccepted, failure, failure_command, refusal_of};
