//! The lines of a script, each run on a state of lanes, links and clients: what it prints, and why a
//! bad line is bad.
#![tactic(auto)]

mod centre_turn;
mod client_turn;
mod clients;
mod inbox;
mod lane_link;
mod line;
mod link;
mod messages;
mod on_lane;
mod reasons;
mod receive;
mod requests;
mod settings;
mod state;
mod texts;

pub use line::run_line;
pub use reasons::reason;
pub use settings::new_state;
pub use state::State;
pub use texts::bad_line;
