//! The header of the PROXY protocol, version 2, with which a connection begins where a proxy in front of
//! this one tells the client's address ("The PROXY protocol, versions 1 & 2", section 2.2).
#![tactic(auto)]

mod addresses;
mod header;
mod reading;
mod source;

pub use header::ProxyHeader;
pub use reading::{MAX_HEADER, MAX_LENGTH, read_proxy_header};
pub use source::Source;
