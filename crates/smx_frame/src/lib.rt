//! PDUs from a stream that comes in pieces (SMPP 3.4, sections 3.2 and 4).
#![tactic(auto)]

mod buffer;
mod fault;
mod framer;
mod front;
mod law;
mod spares;
mod whole;

pub use buffer::compact;
pub use fault::FrameFault;
pub use framer::Framer;
pub use law::stream_law;
