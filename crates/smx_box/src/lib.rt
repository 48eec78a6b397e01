//! Boxes, in which items wait, from several senders to one receiver, each of which may be used by a
//! thread of its own. A box is a bounded queue, with a pass for each of its ends.
#![tactic(auto)]

mod boxed;
mod end;
mod fault;
mod letter;
mod receiver;
mod rule;
mod sender;

pub use boxed::Boxed;
pub use fault::{BoxFault, Spent};
pub use receiver::{Got, Receiver};
pub use sender::{Closed, PutFault, Sender};
