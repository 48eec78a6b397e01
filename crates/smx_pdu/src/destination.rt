//! The destination of a message (SMPP 3.4, sections 4.6.1 and 4.7.1).
ghost use Rattle.std.specs.Prelude.{◌≡◌, IfOk, IfErr, Ok};
ghost use Rattle.smx_pdu.specs.Fields.{AllSaid, Holds, FirstFault, message_fields};
ghost use Rattle.smx_pdu.specs.Reading.{destination_in, destination_at, Gives};
ghost use Rattle.smx_pdu.specs.declared.body_fault.BodyFault.{BodyFault};

use crate::body_fault::BodyFault;
use crate::fields::{octet_field, text_field};

// The greatest lengths of the texts, their ending 0 counted.
const SERVICE_TYPE: usize = 6;

const SOURCE_ADDR: usize = 65;

const DESTINATION_ADDR: usize = 65;

// The destination of the message that a body begins with.
#[tactic(auto, unfolding(crate::specs::Reading::destination_at))]
fn destination_of(body: &[u8]) -> Result<&[u8], BodyFault>
    ensures { Gives (λ d. d.now) result (destination_at body.now) }
{
    let (_service_type, rest) = text_field(body, SERVICE_TYPE)?;
    let (_source_addr_ton, rest) = octet_field(rest)?;
    let (_source_addr_npi, rest) = octet_field(rest)?;
    let (_source_addr, rest) = text_field(rest, SOURCE_ADDR)?;
    let (_dest_addr_ton, rest) = octet_field(rest)?;
    let (_dest_addr_npi, rest) = octet_field(rest)?;
    let (destination_addr, _) = text_field(rest, DESTINATION_ADDR)?;
    Ok(destination_addr)
}

/// Reads the destination_addr of a deliver_sm's or data_sm's body, without its ending 0. The fault
/// is that of the first field up to it that can't be read; octets after it are left unread. It takes
/// no memory.
pub fn read_destination(body: &[u8]) -> Result<&[u8], BodyFault>
    // What is read stands there, and what stands there is read.
    ensures found { IfOk result (λ d. (said : AllSaid message_fields)
        × (Holds message_fields said body.now × (d.now ≡ destination_in said))) }
    ensures only { (said : AllSaid message_fields) → Holds message_fields said body.now
        → Gives (λ d. d.now) result (Ok (destination_in said)) }

    // The fault is the first one, and there is one only where no destination is.
    ensures fault { IfErr result (λ e. FirstFault message_fields e body.now) }
    ensures first { (e : BodyFault) → FirstFault message_fields e body.now → result ≡ Err e }

    // The same, said by the function that reads octets.
    ensures read { Gives (λ d. d.now) result (destination_at body.now) }
{
    destination_of(body)
}
