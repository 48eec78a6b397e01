//! A message centre to try a proxy against, with no network: PDUs of SMPP 3.4 go in, and what it
//! answers comes out. It routes nothing and stores nothing.
#![tactic(auto)]

mod centre;
mod class;
mod mode;
mod pdus;
mod response;

pub use centre::Centre;
pub use mode::Mode;
