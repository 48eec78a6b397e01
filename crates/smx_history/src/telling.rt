//! What tells a client that a request of its own failed, or was accepted by no lane.
ghost use Rattle.std.specs.Prelude.{◌≡◌};
ghost use Rattle.smx_history.specs.Failures.{failure_command as command_of_failure, failure as failure_of};
ghost use Rattle.smx_history.specs.Failures.{refusal_of, refusal_status};

use crate::place::Place;
use smx_pdu::Pdu;
use smx_pdu::command::{DATA_SM, GENERIC_NACK, RESPONSE, SUBMIT_MULTI, SUBMIT_SM};
use smx_pdu::status::{ESME_RMSGQFUL, ESME_RSUBMITFAIL, ESME_RSYSERR};
use std::alloc::Global;

/// The command_id of what tells the client of a request with this command_id that the request failed: that of its
/// response for submit_sm, submit_multi and data_sm, whose response may be a header alone, else generic_nack (SMPP 3.4,
/// sections 4.4.2, 4.5.2, 4.7.2 and 4.3).
pub fn failure_command(request: u32) -> u32
    ensures { result ≡ command_of_failure request }
{
    if request == SUBMIT_SM || request == SUBMIT_MULTI || request == DATA_SM {
        RESPONSE + request
    } else {
        GENERIC_NACK
    }
}

/// What the request of the place gets in place of a response, with its number upstream: ESME_RSUBMITFAIL in a response
/// and ESME_RSYSERR in generic_nack (section 5.1.3), without a body. It takes no memory.
pub fn failure(alloc: Global, place: &Place) -> Pdu
    ensures { result ≡ failure_of (command_of_failure place.now.command) place.now.upstream }
{
    let command = failure_command(place.command);
    let status = if command == GENERIC_NACK {
        ESME_RSYSERR
    } else {
        ESME_RSUBMITFAIL
    };
    Pdu::header_only(alloc, command, status, place.upstream)
}

/// Why no lane accepts a client's request.
#[derive(Clone, Copy, Debug, PartialEq, Eq)]
pub enum Unaccepted {
    /// Each lane refused it: full for the client, in its queue or in its history, or down.
    AllFull,
    /// A count that never starts again is used up: of the client's ordinals, or of a lane's tickets.
    UsedUp,
}

fn refusal_status(why: Unaccepted) -> u32
    ensures { result ≡ refusal_status why }
{
    match why {
        Unaccepted::AllFull => ESME_RMSGQFUL,
        Unaccepted::UsedUp => ESME_RSYSERR,
    }
}

/// What the client of a request with this command_id and sequence_number gets where no lane accepts it, for this
/// reason: its response without a body, or generic_nack where it has none (section 4.3), with ESME_RMSGQFUL where each
/// lane is full or down and ESME_RSYSERR where a count is used up (section 5.1.3). It takes no memory.
pub fn refusal_of(alloc: Global, why: Unaccepted, command: u32, number: u32) -> Pdu
    ensures { result ≡ refusal_of why command number }
{
    Pdu::refusal(alloc, command, refusal_status(why), number)
}
