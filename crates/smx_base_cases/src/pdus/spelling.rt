//! What the tests spell and compare.

use smx_pdu::{Pdu, encode};
use std::alloc::Global;
use std::process::Abort;
use std::test::*;

/// A copy of the octets.
pub fn copy(rt: &impl Abort, alloc: Global, octets: &[u8]) -> Vec<u8> {
    Vec::from_slice(alloc, octets).expect(rt, "out of memory")
}

/// A PDU with this body and the status 0.
pub fn pdu_of(rt: &impl Abort, alloc: Global, command: u32, number: u32, body: &[u8]) -> Pdu {
    let pdu = Pdu::new(command, 0, number, copy(rt, alloc, body)).ok();
    pdu.expect(rt, "the body is short enough")
}

/// Whether the PDU's octets are these.
pub fn is_spelled(rt: &impl Abort, alloc: Global, pdu: &Pdu, wanted: &[u8]) -> bool {
    let mut octets = Vec::new(alloc);
    encode(pdu, &mut octets).expect(rt, "out of memory");
    octets.as_slice() == wanted
}
