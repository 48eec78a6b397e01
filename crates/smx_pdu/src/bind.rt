//! The body of a bind (SMPP 3.4, sections 4.1.1, 4.1.3 and 4.1.5).
ghost use Rattle.std.specs.Prelude.{◌≡◌, ◌+◌, ◌<◌, ◌≤◌, ◌↔◌, ◌++◌, ℕ, List, length, drop, IsTrue, IfOk, IfErr, OnOk, OnErr, Ok, vec_len, vec_capacity};
ghost use Rattle.smx_pdu.specs.Fields.{Holds, FirstFault, bind_fields, all_octets};
ghost use Rattle.smx_pdu.specs.Reading.{BindFields, BindFits, said_by, in_order, bind_at, Gives};
ghost use Rattle.smx_pdu.specs.declared.body_fault.BodyFault.{BodyFault};

use crate::body_fault::BodyFault;
use crate::fields::{append_octet, append_text, is_text, octet_field, text_field};
use std::alloc::AllocError;

// The greatest lengths of a bind's texts, their ending 0 counted.
const SYSTEM_ID: usize = 16;

const PASSWORD: usize = 9;

const SYSTEM_TYPE: usize = 13;

const ADDRESS_RANGE: usize = 41;

/// What bind_transmitter, bind_receiver and bind_transceiver say. The texts are without their
/// ending 0. It can't be printed, so that no password is.
#[derive(Clone, Copy)]
pub struct Bind<'a> {
    /// The name of the ESME, or of the message centre: at most 15 octets.
    pub system_id: &'a [u8],
    /// At most 8 octets.
    pub password: &'a [u8],
    /// At most 12 octets.
    pub system_type: &'a [u8],
    /// The version that the ESME speaks: 0x34 for SMPP 3.4, and less for an earlier one.
    pub interface_version: u8,
    /// The type of number of the ESME's addresses (section 5.2.5).
    pub addr_ton: u8,
    /// Their numbering plan (section 5.2.6).
    pub addr_npi: u8,
    /// The addresses that the ESME serves: at most 40 octets.
    pub address_range: &'a [u8],
}

impl Bind<'_> {
    /// Whether each text keeps its limit and has no octet 0, so that the bind can be written.
    pub fn fits(&self) -> bool
        ensures { IsTrue result ↔ BindFits (said_by self.now) }
    {
        is_text(self.system_id, SYSTEM_ID)
            && is_text(self.password, PASSWORD)
            && is_text(self.system_type, SYSTEM_TYPE)
            && is_text(self.address_range, ADDRESS_RANGE)
    }
}

// The bind that a body begins with.
#[tactic(auto, unfolding(crate::specs::Reading::bind_at))]
fn bind_of(body: &[u8]) -> Result<Bind<'_>, BodyFault>
    ensures { Gives said_by result (bind_at body.now) }
{
    let (system_id, rest) = text_field(body, SYSTEM_ID)?;
    let (password, rest) = text_field(rest, PASSWORD)?;
    let (system_type, rest) = text_field(rest, SYSTEM_TYPE)?;
    let (interface_version, rest) = octet_field(rest)?;
    let (addr_ton, rest) = octet_field(rest)?;
    let (addr_npi, rest) = octet_field(rest)?;
    let (address_range, _) = text_field(rest, ADDRESS_RANGE)?;
    Ok(Bind {
        system_id,
        password,
        system_type,
        interface_version,
        addr_ton,
        addr_npi,
        address_range,
    })
}

/// Reads the body of a bind. The fault is that of the first field that can't be read; octets after
/// the last field are left unread. It takes no memory.
pub fn read_bind(body: &[u8]) -> Result<Bind<'_>, BodyFault>
    // What is read stands there, and what stands there is read.
    ensures found { IfOk result (λ b. Holds bind_fields (in_order (said_by b)) body.now) }
    ensures only { (b : BindFields) → Holds bind_fields (in_order b) body.now
        → Gives said_by result (Ok b) }

    // The fault is the first one, and there is one only where no bind is.
    ensures fault { IfErr result (λ e. FirstFault bind_fields e body.now) }
    ensures first { (e : BodyFault) → FirstFault bind_fields e body.now → result ≡ Err e }

    // The same, said by the function that reads octets.
    ensures read { Gives said_by result (bind_at body.now) }
{
    bind_of(body)
}

// Writes the body of a bind at the end, where there is room for its texts, their four endings and
// the three numbers.
fn append_bind(bind: &Bind<'_>, out: &mut Vec<u8>)
    requires { vec_len out.old
        + (length bind.now.system_id.now + length bind.now.password.now
        + length bind.now.system_type.now
        + length bind.now.address_range.now + 7) ≤ vec_capacity out.old }
    ensures { out.new.items ≡ out.old.items ++ all_octets bind_fields
        (in_order (said_by bind.now)) }
{
    append_text(out, bind.system_id);
    append_text(out, bind.password);
    append_text(out, bind.system_type);
    append_octet(out, bind.interface_version);
    append_octet(out, bind.addr_ton);
    append_octet(out, bind.addr_npi);
    append_text(out, bind.address_range);
}

/// Writes the body of a bind at the end. It allocates once at most; where that is refused, `out` is
/// unchanged.
pub fn write_bind(bind: &Bind<'_>, out: &mut Vec<u8>) -> Result<(), AllocError>
    requires { BindFits (said_by bind.now) }
    ensures ok { OnOk result (out.new.items
        ≡ out.old.items ++ all_octets bind_fields (in_order (said_by bind.now))) }
    ensures err { OnErr result (out.new.items ≡ out.old.items) }

    // Memory is wanted only where there is no room for the body.
    ensures memory { OnErr result (vec_capacity out.old < vec_len out.old
        + (length bind.now.system_id.now + length bind.now.password.now
        + length bind.now.system_type.now
        + length bind.now.address_range.now + 7)) }

    // What was written is read as the same bind, whatever follows it.
    ensures again { OnOk result ((more : List ℕ)
        → bind_at (drop (length out.old.items) out.new.items ++ more) ≡ Ok (said_by bind.now)) }
{
    let texts = bind.system_id.len()
        + bind.password.len()
        + bind.system_type.len()
        + bind.address_range.len();
    out.reserve(texts + 7)?;
    append_bind(bind, out);
    Ok(())
}
