//! PDUs that answer others, and those that are a header alone.
ghost use Rattle.std.specs.Prelude.{◌≡◌, ◌<◌, []};
ghost use Rattle.smx_pdu.specs.Answers.{header_only, response, refusal, unknown, nack_of_undecoded};

use crate::body::Body;
use crate::command::{GENERIC_NACK, RESPONSE, response_id};
use crate::pdu::Pdu;
use crate::status::{ESME_RINVCMDID, ESME_RINVCMDLEN};
use std::alloc::Global;

impl Pdu {
    /// A PDU without a body, as enquire_link and unbind. It takes no memory.
    pub fn header_only(alloc: Global, command: u32, status: u32, number: u32) -> Pdu
        ensures { result ≡ header_only command status number }
    {
        Pdu {
            command,
            status,
            number,
            body: Body::empty(alloc),
        }
    }

    /// The response to this request: its command_id with the top bit, and its sequence_number
    /// (SMPP 3.4, sections 3.2 and 5.1.2.1). It takes no memory.
    pub fn response(&self, status: u32, body: Body) -> Pdu
        requires { self.now.command < RESPONSE }
        ensures { result ≡ response self.now status body }
    {
        Pdu {
            command: RESPONSE + self.command,
            status,
            number: self.number,
            body,
        }
    }

    /// The same without a body. It takes no memory.
    pub fn header_response(&self, alloc: Global, status: u32) -> Pdu
        requires { self.now.command < RESPONSE }
        ensures { result ≡ response self.now status [] }
    {
        self.response(status, Body::empty(alloc))
    }

    /// What refuses a request with this command_id and sequence_number: its response without a
    /// body, or generic_nack where it has none (section 4.3). It takes no memory.
    pub fn refusal(alloc: Global, command: u32, status: u32, number: u32) -> Pdu
        ensures { result ≡ refusal command status number }
    {
        let command = response_id(command).unwrap_or(GENERIC_NACK);
        Pdu::header_only(alloc, command, status, number)
    }

    /// generic_nack of a PDU whose command_id is unknown, with its sequence_number (section 4.3).
    /// It takes no memory.
    pub fn unknown(alloc: Global, number: u32) -> Pdu
        ensures { result ≡ unknown number }
    {
        Pdu::header_only(alloc, GENERIC_NACK, ESME_RINVCMDID, number)
    }

    /// generic_nack of what can't be decoded, with the sequence_number 0 (section 4.3.1). It takes
    /// no memory.
    pub fn undecoded(alloc: Global) -> Pdu
        ensures { result ≡ nack_of_undecoded }
    {
        Pdu::header_only(alloc, GENERIC_NACK, ESME_RINVCMDLEN, 0)
    }
}
