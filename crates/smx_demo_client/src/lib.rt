//! A client that tries a proxy: it binds, sends a few messages one after another, and counts the
//! answers.
#![tactic(auto)]

mod asking;
mod esme;

pub use asking::ask;
pub use esme::MESSAGES;
