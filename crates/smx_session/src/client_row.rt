//! The commands of a client, as the rows of its session's table.
ghost use Rattle.std.specs.Prelude.{◌≡◌};
ghost use Rattle.smx_session.specs.ClientTable.{client_row};

use crate::kind::Kind;
use smx_pdu::command::{
    ALERT_NOTIFICATION, BIND_RECEIVER, BIND_TRANSCEIVER, BIND_TRANSMITTER, CANCEL_SM, DATA_SM,
    DELIVER_SM, ENQUIRE_LINK, GENERIC_NACK, OUTBIND, QUERY_SM, REPLACE_SM, RESPONSE, SUBMIT_MULTI,
    SUBMIT_SM, UNBIND,
};

const DELIVER_SM_RESP: u32 = RESPONSE + DELIVER_SM;

const DATA_SM_RESP: u32 = RESPONSE + DATA_SM;

const UNBIND_RESP: u32 = RESPONSE + UNBIND;

/// Commands of a client that its session treats alike.
#[derive(Clone, Copy, Debug, PartialEq, Eq)]
pub enum ClientRow {
    Bind(Kind),
    /// submit_sm, submit_multi, query_sm, cancel_sm, replace_sm and data_sm.
    Forwarded,
    DeliverSm,
    EnquireLink,
    Unbind,
    /// deliver_sm_resp, data_sm_resp and generic_nack.
    MessageAnswer,
    /// unbind_resp.
    UnbindAnswer,
    /// Any other command with the top bit.
    OtherResponse,
    /// outbind and alert_notification.
    Unanswered,
    /// Any other command.
    Unknown,
}

#[inline(always)]
pub(crate) fn client_row(command: u32) -> ClientRow
    ensures { result ≡ client_row command }
{
    match command {
        BIND_TRANSMITTER => ClientRow::Bind(Kind::Tx),
        BIND_RECEIVER => ClientRow::Bind(Kind::Rx),
        BIND_TRANSCEIVER => ClientRow::Bind(Kind::Trx),
        SUBMIT_SM | SUBMIT_MULTI | QUERY_SM | CANCEL_SM | REPLACE_SM | DATA_SM => {
            ClientRow::Forwarded
        }
        DELIVER_SM => ClientRow::DeliverSm,
        ENQUIRE_LINK => ClientRow::EnquireLink,
        UNBIND => ClientRow::Unbind,
        DELIVER_SM_RESP | DATA_SM_RESP | GENERIC_NACK => ClientRow::MessageAnswer,
        UNBIND_RESP => ClientRow::UnbindAnswer,
        OUTBIND | ALERT_NOTIFICATION => ClientRow::Unanswered,
        _ if command >= RESPONSE => ClientRow::OtherResponse,
        _ => ClientRow::Unknown,
    }
}
