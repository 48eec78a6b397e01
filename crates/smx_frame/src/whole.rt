//! Octets that are a whole PDU.
ghost use Rattle.std.specs.Prelude.{◌≡◌, ◌≤◌, IfOk, OnErr, length};
ghost use Rattle.smx_pdu.specs.Pdu.{Spells, length_field};
ghost use Rattle.smx_pdu.specs.declared.pdu.Pdu.{Pdu};

use smx_pdu::{Pdu, decode_into};
use std::alloc::AllocError;

// Reads octets that are a whole PDU by their length field, with the body in this list: only memory can
// be wanting.
#[inline(always)]
pub fn decode_whole(list: Vec<u8>, octets: &[u8]) -> Result<Pdu, AllocError>
    requires least { 16 ≤ length octets.now }
    requires most { length octets.now ≤ 65536 }
    requires field { length_field octets.now ≡ length octets.now }
    ensures ok { IfOk result (λ p. Spells p octets.now) }
    ensures err { OnErr result ((p : Pdu) × Spells p octets.now) }
{
    decode_into(list, octets).map_err(|_| AllocError)
}
