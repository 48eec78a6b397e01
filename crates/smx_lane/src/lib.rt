//! A lane: the request queue, the window and the response boxes of one upstream bind.
#![tactic(auto)]

mod ages;
mod call;
mod client_rows;
mod fault;
mod kept;
mod lane;
mod load;
mod numbers;
mod response_box;
mod roster;
mod rows;
mod sent;
mod settled;
mod window;

pub use call::{Call, Reply, run, run_all};
pub use fault::{LaneFault, NotAdmitted};
pub use lane::Lane;
pub use load::Load;
pub use sent::Sent;
pub use settled::Settled;
pub use smx_history::{
    AdmitFault, AlreadyDown, Answered, Entry, Event, FailRefusal, Failed, Kind, Limits,
    NoneExpired, Note, Place, Refusal, Request, Response, TakeRefusal, UpRefusal,
};
