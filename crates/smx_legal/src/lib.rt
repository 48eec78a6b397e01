//! The plain check of a finished history.
#![tactic(auto)]

mod legal;
mod part;
mod past;
mod totals;

pub use legal::{is_legal, is_legal_shifts};
