//! The PDUs that a centre sends.
ghost use Rattle.std.specs.Prelude.{◌≡◌, ◌+◌, ◌<◌, ◌≤◌, List, [], ◌∷◌, ◌++◌, IfOk, length, codes, replicate};
ghost use Rattle.std.specs.Fmt.{decimal};
ghost use Rattle.smx_centre.specs.Answers.{delivery, forwarded_response};

use smx_pdu::command::{DELIVER_SM, RESPONSE};
use smx_pdu::status::{ESME_ROK, ESME_RSYSERR};
use smx_pdu::{Body, Pdu};
use std::alloc::{AllocError, Global};

// The body of a bind's response: the system_id of the centre (section 4.1.2).
pub(crate) fn system_id(alloc: Global) -> Result<Body, AllocError>
    ensures { IfOk result (λ b. b ≡ codes "centre" ++ 0 ∷ []) }
{
    Ok(Body::short(Vec::from_slice(alloc, b"centre\0")?))
}

// The body of a message's response: its message_id in decimal (section 4.4.2).
pub(crate) fn message_id(alloc: Global, id: u32) -> Result<Body, AllocError>
    ensures { IfOk result (λ b. b ≡ decimal id ++ 0 ∷ []) }
{
    let mut octets = id.to_string(alloc)?.into_bytes();
    octets.push(0)?;
    Ok(Body::short(octets))
}

// A message to a destination, all else in it empty.
pub(crate) fn delivery(alloc: Global, number: u32, destination: &[u8]) -> Result<Pdu, AllocError>
    requires { length destination.now ≤ 20 }
    ensures { IfOk result (λ p. p ≡ delivery number destination.now) }
{
    let mut octets = Vec::with_capacity(alloc, 17 + destination.len())?;
    octets.extend_from_slice(&[0; 6])?;
    octets.extend_from_slice(destination)?;
    octets.extend_from_slice(&[0; 11])?;
    Ok(Pdu {
        command: DELIVER_SM,
        status: ESME_ROK,
        number,
        body: Body::short(octets),
    })
}

// The response to a forwarded command: to a message with its message id, else that it failed.
pub(crate) fn forwarded_response(
    alloc: Global,
    request: &Pdu,
    message: Option<u32>,
) -> Result<Pdu, AllocError>
    requires { request.now.command < RESPONSE }
    ensures { IfOk result (λ p. p ≡ forwarded_response message request.now) }
{
    match message {
        Some(id) => Ok(request.response(ESME_ROK, message_id(alloc, id)?)),
        None => Ok(request.header_response(alloc, ESME_RSYSERR)),
    }
}
