//! The address from which a client came.
ghost use Rattle.std.specs.Prelude.{Some};
ghost use Rattle.smx_proxy_header.specs.Text.{source_text};

use std::fmt;
use std::net::{Ipv4Addr, Ipv6Addr};

/// From where a client came. It shows itself as an address, as `10.0.0.7:4711` or `[2001:db8::1]:4711`.
#[derive(Clone, Copy, Debug, PartialEq, Eq)]
pub enum Source {
    /// From where the connection itself came.
    Local,
    /// From a port of this IPv4 address.
    V4 { address: [u8; 4], port: u16 },
    /// From a port of this IPv6 address.
    V6 { address: [u8; 16], port: u16 },
}

impl fmt::Display for Source {
    ghost output = { λ source. Some (source_text source) };

    fn fmt<W: fmt::Write>(&self, f: &mut fmt::Formatter<W>) -> fmt::Result {
        match *self {
            Source::Local => write!(f, "the connection's own address"),
            Source::V4 { address, port } => {
                let address = Ipv4Addr::from(address);
                write!(f, "{address}:{port}")
            }
            Source::V6 { address, port } => {
                let address = Ipv6Addr::from(address);
                write!(f, "[{address}]:{port}")
            }
        }
    }
}
