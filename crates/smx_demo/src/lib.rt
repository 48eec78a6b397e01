//! A proxy at work in one process over loopback: a centre for each upstream, the proxy, and a
//! client for each account.
#![tactic(auto)]

mod centres;
mod loopback;
mod showing;
mod stream_peer;
mod visitors;

pub use centres::answer_all;
pub use showing::{Demo, NotShown};
