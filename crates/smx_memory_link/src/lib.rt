//! Links over memory, and a gate and a directory to turn workers with: for tests and measurements.
#![tactic(auto)]

mod centre_peer;
mod gate;
mod memory_link;
mod nobody;
mod script;

pub use centre_peer::CentrePeer;
pub use gate::FlagGate;
pub use memory_link::{MemoryLink, Peer};
pub use nobody::Nobody;
pub use script::{Piece, Script};
