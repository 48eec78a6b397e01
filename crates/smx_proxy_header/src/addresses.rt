//! The addresses of a header.
ghost use Rattle.std.specs.Prelude.{◌≡◌, ◌+◌, ◌*◌, ◌≤◌, length};
ghost use Rattle.smx_proxy_header.specs.Header.{addresses_of, count, source_in};

use crate::source::Source;

/// Version 2 and the command LOCAL, in one octet.
const LOCAL: u8 = 0x20;

/// Version 2 and the command PROXY, in one octet.
const PROXY: u8 = 0x21;

/// AF_INET and STREAM, in one octet.
const TCP4: u8 = 0x11;

/// AF_INET6 and STREAM, in one octet.
const TCP6: u8 = 0x21;

/// The addresses that stand behind a header's length.
#[derive(Clone, Copy, Debug, PartialEq, Eq)]
pub(crate) enum Addresses {
    /// None that is read.
    Unread,
    /// The source, the destination and their ports, of TCP over IPv4.
    Tcp4,
    /// The same of TCP over IPv6.
    Tcp6,
}

/// The addresses, by the octet of the version and the command, and by that of the family and the
/// transport. None where the first is no octet of version 2.
pub(crate) fn addresses_of(command: u8, family: u8) -> Option<Addresses>
    ensures { result ≡ addresses_of command family }
{
    match command {
        LOCAL => Some(Addresses::Unread),
        PROXY => match family {
            TCP4 => Some(Addresses::Tcp4),
            TCP6 => Some(Addresses::Tcp6),
            _ => Some(Addresses::Unread),
        },
        _ => None,
    }
}

/// The number in two octets in network order.
pub(crate) fn number(high: u8, low: u8) -> u16
    ensures { result ≡ high * 256 + low }
{
    u16::from(high) * 256 + u16::from(low)
}

impl Addresses {
    /// How many octets they take.
    pub(crate) fn count(self) -> usize
        ensures { result ≡ count self }
    {
        match self {
            Addresses::Unread => 0,
            Addresses::Tcp4 => 12,
            Addresses::Tcp6 => 36,
        }
    }

    /// The source in the octets that begin with them.
    pub(crate) fn source(self, octets: &[u8]) -> Source
        requires { count self ≤ length octets.now }
        ensures { result ≡ source_in self octets.now }
    {
        match self {
            Addresses::Unread => Source::Local,
            Addresses::Tcp4 => Source::V4 {
                address: *octets.first_chunk::<4>().unwrap(),
                port: number(octets[8], octets[9]),
            },
            Addresses::Tcp6 => Source::V6 {
                address: *octets.first_chunk::<16>().unwrap(),
                port: number(octets[32], octets[33]),
            },
        }
    }
}
