//! The script of the relay: its lines, read as commands.
#![tactic(auto)]

mod command;
mod octets;
mod reading;
mod reason;
mod subject;
mod words;

pub use command::{Action, Command, Setting};
pub use octets::Octets;
pub use reading::{lines_of, read_command};
pub use reason::{Reason, Wrong};
pub use subject::{Subject, subject_of};
