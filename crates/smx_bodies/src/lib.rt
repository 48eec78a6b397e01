//! The bodies of the requests that a client sends to the centre: whether each can be read (SMPP 3.4,
//! sections 4.4, 4.5 and 4.7 to 4.10, and 5.3.2). Nothing is copied, and nothing takes memory.
#![tactic(auto)]

mod destinations;
mod fields;
mod layout;
mod parameters;
mod reading;
mod unreadable;

pub use layout::Part;
pub use reading::{after_parts, check_body};
pub use unreadable::Unreadable;
