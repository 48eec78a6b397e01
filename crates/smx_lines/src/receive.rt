//! The PDUs that octets of a stream complete.
ghost use Rattle.std.specs.Prelude.{◌≡◌, IfOk};
ghost use Rattle.smx_lines.specs.Links.{Receives};

use smx_frame::{FrameFault, Framer};
use smx_pdu::Pdu;
use std::alloc::{AllocError, Global};

/// Feeds octets, and hands out the PDUs that are whole then, up to a bad length. A stream that has
/// failed isn't fed: its link is closed.
pub(crate) fn receive(
    alloc: Global,
    framer: &mut Framer,
    octets: &[u8],
) -> Result<Vec<Pdu>, AllocError>
    ensures { IfOk result (λ pdus.
        Receives framer.old.stream octets.now pdus.items framer.new.stream) }
{
    let Ok(()) = framer.feed(octets) else {
        return Err(AllocError);
    };
    let mut pdus = Vec::new(alloc);
    loop {
        match framer.next_pdu() {
            Ok(Some(pdu)) => pdus.push(pdu)?,
            Ok(None) => return Ok(pdus),
            Err(FrameFault::NoMemory) => return Err(AllocError),
            Err(FrameFault::Below16) => return Ok(pdus),
            Err(FrameFault::AboveMax) => return Ok(pdus),
        }
    }
}
