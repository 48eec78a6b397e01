//! A PDU and the octets that spell it.
ghost use Rattle.std.specs.Prelude.{◌≡◌, ◌≢◌, ◌+◌, ◌<◌, ◌≤◌, ◌↔◌, ◌⊎◌, ◌++◌, length, IfOk, OnOk, OnErr, IsErrOf, IfErr, IsSome, Ok, vec_len, vec_capacity, Some, None};
ghost use Rattle.smx_pdu.specs.Pdu.{pdu_of, Spells, spelling, length_field, NeverBegins};

use crate::body::Body;
use crate::fault::PduFault;
use crate::header::{Header, read_header, write_header};
use crate::pdu::Pdu;
use std::alloc::{AllocError, Global};

/// The most octets that a PDU has, its header included.
pub const MAX_PDU: usize = 65_536;

// The list with these octets alone.
#[inline(always)]
fn refilled(mut list: Vec<u8>, octets: &[u8]) -> Result<Vec<u8>, AllocError>
    ensures items { IfOk result (λ list. list.items ≡ octets.now) }
{
    list.clear();
    list.extend_from_slice(octets)?;
    Ok(list)
}

/// Reads the one PDU that the octets spell (SMPP 3.4, section 3.2). It allocates once, for the body.
pub fn decode(alloc: Global, octets: &[u8]) -> Result<Pdu, PduFault>
    ensures found { IfOk result (λ p. Spells p octets.now) }
    ensures short { IsErrOf result (PduFault.Short (length octets.now)) ↔ (length octets.now < 16) }
    ensures length { IsErrOf result (PduFault.Length (length_field octets.now) (length octets.now))
        ↔ ((16 ≤ length octets.now)
        × ((length_field octets.now < 16) ⊎ (length_field octets.now ≢ length octets.now))) }
    ensures too_long { IsErrOf result (PduFault.TooLong (length octets.now))
        ↔ ((length_field octets.now ≡ length octets.now) × (65536 < length octets.now)) }

    // What is spelled is read, unless memory runs out, which is said of nothing else.
    ensures only { (p : _) → Spells p octets.now → (result ≡ Ok p)
        ⊎ IsErrOf result PduFault.NoMemory }
    ensures memory { IsErrOf result PduFault.NoMemory → IsSome (pdu_of octets.now) }

    // The same, said by the function that reads octets.
    ensures read { IfOk result (λ p. pdu_of octets.now ≡ Some p) }
    ensures none { IfErr result (λ e. (e ≢ PduFault.NoMemory) → pdu_of octets.now ≡ None) }
{
    decode_into(Vec::new(alloc), octets)
}

/// The same, with the body in a list that is used again, whose octets go. It allocates only where the
/// body has no room there.
#[inline(always)]
pub fn decode_into(list: Vec<u8>, octets: &[u8]) -> Result<Pdu, PduFault>
    ensures found { IfOk result (λ p. Spells p octets.now) }
    ensures short { IsErrOf result (PduFault.Short (length octets.now)) ↔ (length octets.now < 16) }
    ensures length { IsErrOf result (PduFault.Length (length_field octets.now) (length octets.now))
        ↔ ((16 ≤ length octets.now)
        × ((length_field octets.now < 16) ⊎ (length_field octets.now ≢ length octets.now))) }
    ensures too_long { IsErrOf result (PduFault.TooLong (length octets.now))
        ↔ ((length_field octets.now ≡ length octets.now) × (65536 < length octets.now)) }

    // What is spelled is read, unless memory runs out, which is said of nothing else.
    ensures only { (p : _) → Spells p octets.now → (result ≡ Ok p)
        ⊎ IsErrOf result PduFault.NoMemory }
    ensures memory { IsErrOf result PduFault.NoMemory → IsSome (pdu_of octets.now) }

    // The same, said by the function that reads octets.
    ensures read { IfOk result (λ p. pdu_of octets.now ≡ Some p) }
    ensures none { IfErr result (λ e. (e ≢ PduFault.NoMemory) → pdu_of octets.now ≡ None) }
{
    let Some(first) = octets.first_chunk::<16>() else {
        return Err(PduFault::Short {
            octets: octets.len(),
        });
    };
    let header = read_header(first);
    let length = header.length as usize;
    if length < 16 || length != octets.len() {
        return Err(PduFault::Length {
            field: header.length,
            octets: octets.len(),
        });
    }
    if length > MAX_PDU {
        return Err(PduFault::TooLong { octets: length });
    }
    let Ok(body) = refilled(list, &octets[16..]) else {
        return Err(PduFault::NoMemory);
    };
    let Ok(body) = Body::new(body) else {
        return Err(PduFault::TooLong { octets: length });
    };
    Ok(Pdu {
        command: header.command,
        status: header.status,
        number: header.number,
        body,
    })
}

// Writes octets at the end, where there is room.
#[inline(always)]
pub fn append_within(out: &mut Vec<u8>, octets: &[u8])
    requires { vec_len out.old + length octets.now ≤ vec_capacity out.old }
    ensures items { out.new.items ≡ out.old.items ++ octets.now }
    ensures len { vec_len out.new ≡ vec_len out.old + length octets.now }
    ensures capacity { vec_capacity out.old ≤ vec_capacity out.new }
{
    let _ = out.extend_from_slice(octets);
}

// Writes the PDU's octets at the end, where there is room for so many.
fn append_pdu(pdu: &Pdu, out: &mut Vec<u8>)
    requires { vec_len out.old + (16 + length pdu.now.body) ≤ vec_capacity out.old }
    ensures items { out.new.items ≡ out.old.items ++ spelling pdu.now }
    ensures spells { Spells pdu.now (spelling pdu.now) }
{
    let body = pdu.body.as_slice();
    let header = Header {
        length: (16 + body.len()) as u32,
        command: pdu.command,
        status: pdu.status,
        number: pdu.number,
    };
    append_within(out, &write_header(header));
    append_within(out, body);
}

/// Writes the PDU's octets at the end. It allocates once at most; where that is refused, `out` is
/// unchanged.
pub fn encode(pdu: &Pdu, out: &mut Vec<u8>) -> Result<(), AllocError>
    ensures ok { OnOk result (out.new.items ≡ out.old.items ++ spelling pdu.now) }
    ensures spells { OnOk result (Spells pdu.now (spelling pdu.now)) }
    ensures err { OnErr result (out.new.items ≡ out.old.items) }

    // Memory is wanted only where there is no room for the PDU.
    ensures memory { OnErr result (vec_capacity out.old
        < vec_len out.old + (16 + length pdu.now.body)) }
{
    out.reserve(16 + pdu.body.len())?;
    append_pdu(pdu, out);
    Ok(())
}

/// Writes the PDU's octets at the end, where there is room for the longest PDU. It takes no memory.
pub fn encode_within(pdu: &Pdu, out: &mut Vec<u8>)
    requires { vec_len out.old + MAX_PDU ≤ vec_capacity out.old }
    ensures items { out.new.items ≡ out.old.items ++ spelling pdu.now }
    ensures spells { Spells pdu.now (spelling pdu.now) }
{
    let _ = pdu.body.len();
    append_pdu(pdu, out);
}

/// No PDU's octets begin another's, and octets spell one PDU at most.
pub fn one_spelling()
    ensures { NeverBegins }
{}
