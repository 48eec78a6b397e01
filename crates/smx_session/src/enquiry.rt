//! What a moment asks of a client's session.

use smx_pdu::Pdu;

/// What a moment asks of a client's session.
#[derive(Debug, Drop)]
pub enum Enquiry {
    /// Nothing.
    NotDue,
    /// This enquire_link is sent to the client, which was silent.
    Due(Pdu),
    /// No octet came after the last one, and the session has ended.
    Unanswered,
}
