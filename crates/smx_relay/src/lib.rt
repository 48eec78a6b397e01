//! The relay: a script of lines drives lanes on one thread, and each line prints what it caused.
#![tactic(auto)]

mod end;
mod engine;
mod size;

pub use end::RunEnd;
pub use engine::{run, run_on};
pub use smx_lines::new_state;
