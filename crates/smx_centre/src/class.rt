//! Commands by what a centre answers to them.
ghost use Rattle.std.specs.Prelude.{◌≡◌};
ghost use Rattle.smx_centre.specs.Answers.{class_of};

use smx_pdu::command::{
    BIND_RECEIVER, BIND_TRANSCEIVER, BIND_TRANSMITTER, CANCEL_SM, DATA_SM, ENQUIRE_LINK, QUERY_SM,
    REPLACE_SM, RESPONSE, SUBMIT_MULTI, SUBMIT_SM, UNBIND,
};

/// Commands by what a centre answers to them.
#[derive(Clone, Copy, Debug, PartialEq, Eq)]
pub enum Class {
    /// bind_receiver, bind_transmitter and bind_transceiver.
    Bind,
    /// enquire_link and unbind.
    Session,
    /// submit_sm and data_sm, whose responses have a message_id.
    Message,
    /// The other requests that a proxy forwards.
    Forwarded,
    /// Any other command without the top bit.
    OtherRequest,
    /// Any command with the top bit.
    Response,
}

pub(crate) fn class_of(command: u32) -> Class
    ensures { result ≡ class_of command }
{
    match command {
        BIND_RECEIVER | BIND_TRANSMITTER | BIND_TRANSCEIVER => Class::Bind,
        ENQUIRE_LINK | UNBIND => Class::Session,
        SUBMIT_SM | DATA_SM => Class::Message,
        SUBMIT_MULTI | QUERY_SM | CANCEL_SM | REPLACE_SM => Class::Forwarded,
        _ if command < RESPONSE => Class::OtherRequest,
        _ => Class::Response,
    }
}
