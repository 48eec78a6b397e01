//! The commands of a centre, as the rows of its session's table.
ghost use Rattle.std.specs.Prelude.{◌≡◌};
ghost use Rattle.smx_session.specs.UpstreamTable.{upstream_row, message_row};
ghost use Rattle.smx_session.specs.Binds.{bind_command};

use crate::kind::Kind;
use smx_pdu::command::{
    ALERT_NOTIFICATION, BIND_RECEIVER, BIND_TRANSCEIVER, BIND_TRANSMITTER, CANCEL_SM, DATA_SM,
    DELIVER_SM, ENQUIRE_LINK, GENERIC_NACK, OUTBIND, QUERY_SM, REPLACE_SM, RESPONSE, SUBMIT_MULTI,
    SUBMIT_SM, UNBIND,
};

/// The number of the proxy's own bind.
pub const BIND_NUMBER: u32 = 0x7FFF_FFFD;

/// The number of the proxy's own enquire_link, of which at most one is unanswered.
pub const ENQUIRY_NUMBER: u32 = 0x7FFF_FFFE;

/// The number of the proxy's own unbind.
pub const UNBIND_NUMBER: u32 = 0x7FFF_FFFF;

const BIND_RECEIVER_RESP: u32 = RESPONSE + BIND_RECEIVER;

const BIND_TRANSMITTER_RESP: u32 = RESPONSE + BIND_TRANSMITTER;

const BIND_TRANSCEIVER_RESP: u32 = RESPONSE + BIND_TRANSCEIVER;

const ENQUIRE_LINK_RESP: u32 = RESPONSE + ENQUIRE_LINK;

const UNBIND_RESP: u32 = RESPONSE + UNBIND;

/// PDUs of a centre that its session treats alike.
#[derive(Clone, Copy, Debug, PartialEq, Eq)]
pub enum UpstreamRow {
    /// The response to the proxy's bind, of its kind.
    BindAnswer,
    /// generic_nack of the proxy's bind.
    BindNack,
    /// enquire_link_resp, or generic_nack of the proxy's enquire_link.
    EnquiryAnswer,
    /// unbind_resp, or generic_nack of the proxy's unbind.
    UnbindAnswer,
    /// Any other response to a bind.
    OtherBindAnswer,
    /// Any other command with the top bit.
    OtherResponse,
    /// deliver_sm and data_sm.
    Message,
    /// The same over a transmitter's bind.
    MessageToTransmitter,
    EnquireLink,
    Unbind,
    /// Any other request that has a response.
    OtherRequest,
    /// outbind and alert_notification.
    Unanswered,
    /// Any other command.
    Unknown,
}

// The command of a bind of this kind.
pub(crate) fn bind_command(kind: Kind) -> u32
    ensures { result ≡ bind_command kind }
{
    match kind {
        Kind::Tx => BIND_TRANSMITTER,
        Kind::Rx => BIND_RECEIVER,
        Kind::Trx => BIND_TRANSCEIVER,
    }
}

// The row of a message over a bind of this kind.
fn message_row(kind: Kind) -> UpstreamRow
    ensures { result ≡ message_row kind }
{
    match kind {
        Kind::Tx => UpstreamRow::MessageToTransmitter,
        Kind::Rx | Kind::Trx => UpstreamRow::Message,
    }
}

pub(crate) fn upstream_row(kind: Kind, command: u32, number: u32) -> UpstreamRow
    ensures { result ≡ upstream_row kind command number }
{
    if number == BIND_NUMBER && command == RESPONSE + bind_command(kind) {
        return UpstreamRow::BindAnswer;
    }
    match (command, number) {
        (GENERIC_NACK, BIND_NUMBER) => UpstreamRow::BindNack,
        (GENERIC_NACK, ENQUIRY_NUMBER) | (ENQUIRE_LINK_RESP, _) => UpstreamRow::EnquiryAnswer,
        (GENERIC_NACK, UNBIND_NUMBER) | (UNBIND_RESP, _) => UpstreamRow::UnbindAnswer,
        (BIND_RECEIVER_RESP | BIND_TRANSMITTER_RESP | BIND_TRANSCEIVER_RESP, _) => {
            UpstreamRow::OtherBindAnswer
        }
        (DELIVER_SM | DATA_SM, _) => message_row(kind),
        (ENQUIRE_LINK, _) => UpstreamRow::EnquireLink,
        (UNBIND, _) => UpstreamRow::Unbind,
        (
            BIND_RECEIVER
            | BIND_TRANSMITTER
            | BIND_TRANSCEIVER
            | QUERY_SM
            | SUBMIT_SM
            | REPLACE_SM
            | CANCEL_SM
            | SUBMIT_MULTI,
            _,
        ) => UpstreamRow::OtherRequest,
        (OUTBIND | ALERT_NOTIFICATION, _) => UpstreamRow::Unanswered,
        _ if command >= RESPONSE => UpstreamRow::OtherResponse,
        _ => UpstreamRow::Unknown,
    }
}
