//! A client's mailbox: the messages of the centre that wait for it, and those that it was sent and has
//! not answered. It has no lock: one thread owns it.
#![tactic(auto)]

mod mailbox;
mod message;

pub use mailbox::Mailbox;
pub use message::{Message, Unanswered};
