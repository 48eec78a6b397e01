//! A header read from the octets that came.
ghost use Rattle.std.specs.Prelude.{◌≡◌, ◌++◌, ◌∷◌, ◌<◌, length};
ghost use Rattle.smx_proxy_header.specs.Header.{signature, Begins};
ghost use Rattle.smx_proxy_header.specs.Private.Front.{may_begin};

use crate::addresses::{addresses_of, number};
use crate::header::ProxyHeader;

/// The most octets behind a header's length: a limit of this reader, where the protocol's is 65,535.
pub const MAX_LENGTH: usize = 4_096;

/// The most octets of a header.
pub const MAX_HEADER: usize = 4_112;

/// The upper octet of the greatest length.
const MAX_HIGH: u8 = 16;

/// The octets with which each header begins.
const SIGNATURE: [u8; 12] = [
    0x0D, 0x0A, 0x0D, 0x0A, 0x00, 0x0D, 0x0A, 0x51, 0x55, 0x49, 0x54, 0x0A,
];

// Whether a header may go on so behind its signature, up to its length.
fn may_begin(octets: &[u8]) -> bool
    requires { length octets.now < 4 }
    ensures { result ≡ may_begin octets.now }
{
    match octets {
        [] => true,
        [command, _, high] => addresses_of(*command, 0).is_some() && *high <= MAX_HIGH,
        [command, ..] => addresses_of(*command, 0).is_some(),
    }
}

// What octets are, of which these four follow the signature, and the rest follows them.
fn read_fields(command: u8, family: u8, high: u8, low: u8, rest: &[u8]) -> ProxyHeader
    ensures { Begins (signature ++ command ∷ family ∷ high ∷ low ∷ rest.now) result }
{
    let length = usize::from(number(high, low));
    if length > MAX_LENGTH {
        return ProxyHeader::Wrong;
    }
    let Some(addresses) = addresses_of(command, family) else {
        return ProxyHeader::Wrong;
    };
    if length < addresses.count() {
        return ProxyHeader::Wrong;
    }
    match rest.get(..length) {
        Some(rest) => ProxyHeader::Whole {
            length: 16 + length,
            source: addresses.source(rest),
        },
        None => ProxyHeader::Part,
    }
}

// What octets are that begin with the signature, behind which these stand.
fn read_rest(octets: &[u8]) -> ProxyHeader
    ensures { Begins (signature ++ octets.now) result }
{
    if let [command, family, high, low, rest @ ..] = octets {
        return read_fields(*command, *family, *high, *low, rest);
    }
    if may_begin(octets) {
        ProxyHeader::Part
    } else {
        ProxyHeader::Wrong
    }
}

/// What the octets of a connection begin with, as far as they came: a header of version 2, less than
/// one, or neither. Version 1, which is text, isn't read.
pub fn read_proxy_header(octets: &[u8]) -> ProxyHeader
    ensures value { Begins octets.now result }
    ensures few { result ≡ ProxyHeader.Part → length octets.now < MAX_HEADER }
{
    if octets.starts_with(&SIGNATURE) {
        read_rest(&octets[SIGNATURE.len()..])
    } else if SIGNATURE.starts_with(octets) {
        ProxyHeader::Part
    } else {
        ProxyHeader::Wrong
    }
}
