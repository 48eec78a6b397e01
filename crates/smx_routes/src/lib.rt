//! Messages from the centre: which client they go to, and the numbers under which they go to it.
//! No lock is here: one thread owns the routes and each window.
#![tactic(auto)]

mod by_client;
mod by_prefix;
mod fault;
mod mo_window;
mod routes;

pub use fault::{RouteFault, WindowFault};
pub use mo_window::{Full, MoWindow, Waiting};
pub use routes::Routes;
