//! Whole texts: a reader is read to its end, and a text is written to its end.
#![tactic(auto)]

mod reading;
mod writing;

pub use reading::{ReadFault, read_octets};
pub use writing::{WriteFault, write_text};
