//! Command ids, and which of them are requests with a response.
ghost use Rattle.std.specs.Prelude.{◌≡◌};
ghost use Rattle.smx_pdu.specs.Command.{is_forwarded, is_response_to, response_of};

pub const BIND_RECEIVER: u32 = 0x0000_0001;

pub const BIND_TRANSMITTER: u32 = 0x0000_0002;

pub const QUERY_SM: u32 = 0x0000_0003;

pub const SUBMIT_SM: u32 = 0x0000_0004;

pub const DELIVER_SM: u32 = 0x0000_0005;

pub const UNBIND: u32 = 0x0000_0006;

pub const REPLACE_SM: u32 = 0x0000_0007;

pub const CANCEL_SM: u32 = 0x0000_0008;

pub const BIND_TRANSCEIVER: u32 = 0x0000_0009;

pub const OUTBIND: u32 = 0x0000_000B;

pub const ENQUIRE_LINK: u32 = 0x0000_0015;

pub const SUBMIT_MULTI: u32 = 0x0000_0021;

pub const ALERT_NOTIFICATION: u32 = 0x0000_0102;

pub const DATA_SM: u32 = 0x0000_0103;

pub const GENERIC_NACK: u32 = 0x8000_0000;

/// The top bit, which a response's id has.
pub const RESPONSE: u32 = 0x8000_0000;

/// The id of the response to this request, where it has one.
pub fn response_id(command: u32) -> Option<u32>
    ensures { result ≡ response_of command }
{
    match command {
        BIND_RECEIVER
        | BIND_TRANSMITTER
        | QUERY_SM
        | SUBMIT_SM
        | DELIVER_SM
        | UNBIND
        | REPLACE_SM
        | CANCEL_SM
        | BIND_TRANSCEIVER
        | ENQUIRE_LINK
        | SUBMIT_MULTI
        | DATA_SM => { Some(RESPONSE + command) }
        _ => None,
    }
}

/// Whether requests of this kind are passed on to a message centre: submit_sm, submit_multi,
/// query_sm, cancel_sm, replace_sm and data_sm.
pub fn is_forwarded(command: u32) -> bool
    ensures { result ≡ is_forwarded command }
{
    matches!(
        command,
        SUBMIT_SM | SUBMIT_MULTI | QUERY_SM | CANCEL_SM | REPLACE_SM | DATA_SM
    )
}

/// Whether a PDU with this command answers a request with that one: it bears the request's id with
/// the top bit, or is generic_nack (SMPP 3.4, section 4.3).
pub fn is_response_to(request: u32, command: u32) -> bool
    ensures { result ≡ is_response_to request command }
{
    command == GENERIC_NACK || (command >= RESPONSE && command - RESPONSE == request)
}
