//! Lists of PDUs that a centre sends.
ghost use Rattle.std.specs.Prelude.{◌≡◌, ◌<◌, ◌≤◌, ◌++◌, ◌∷◌, [], vec_len, vec_capacity, IfOk};

use smx_pdu::Pdu;
use std::alloc::{AllocError, Global};

// Adds a PDU, where there is room for it.
pub(crate) fn add(pdus: &mut Vec<Pdu>, pdu: Pdu)
    requires { vec_len pdus.old < vec_capacity pdus.old }
    ensures items { pdus.new.items ≡ pdus.old.items ++ pdu ∷ [] }
    ensures capacity { vec_capacity pdus.old ≤ vec_capacity pdus.new }
{
    let _ = pdus.push(pdu);
}

// One PDU alone.
pub(crate) fn one(alloc: Global, pdu: Pdu) -> Result<Vec<Pdu>, AllocError>
    ensures { IfOk result (λ pdus. pdus.items ≡ pdu ∷ []) }
{
    let mut pdus = Vec::with_capacity(alloc, 1)?;
    add(&mut pdus, pdu);
    Ok(pdus)
}

// One PDU and then another.
pub(crate) fn two(alloc: Global, first: Pdu, second: Pdu) -> Result<Vec<Pdu>, AllocError>
    ensures { IfOk result (λ pdus. pdus.items ≡ first ∷ second ∷ []) }
{
    let mut pdus = Vec::with_capacity(alloc, 2)?;
    add(&mut pdus, first);
    add(&mut pdus, second);
    Ok(pdus)
}
