//! Lists of calls, made one after another.
ghost use Rattle.std.specs.Prelude.{◌≡◌, List, [], ◌∷◌, IfOk, OnErr};
ghost use Rattle.smx_history.specs.declared.note.Note.{Note};
ghost use Rattle.smx_lane.specs.Calls.{IsReply, GoesOn, Ran, HandsOut, HandsOutLegal};

use crate::fault::NotAdmitted;
use crate::lane::Lane;
use crate::sent::Sent;
use smx_history::{
    AdmitFault, AlreadyDown, Answered, Entry, FailRefusal, Failed, NoneExpired, Refusal, Request,
    TakeRefusal, UpRefusal,
};
use smx_pdu::Pdu;
use std::alloc::{AllocError, Global};

/// One call of a lane.
#[derive(Debug, Drop)]
pub enum Call {
    Admit { by: u64, client: u64 },
    Accept { by: u64, request: Request },
    Take { by: u64, now: u64 },
    Answer { by: u64, response: Pdu },
    Collect { by: u64, client: u64 },
    Retire { by: u64, client: u64 },
    TurnOver { by: u64, least: usize },
    Down { by: u64 },
    Fail { by: u64 },
    FailExpired { by: u64, now: u64, age: u64 },
    Up { by: u64 },
}

/// What came of a call.
#[derive(Debug, Drop)]
pub enum Reply {
    Admitted(Result<(), AdmitFault>),
    Accepted(Result<(), (Request, Refusal)>),
    Taken(Result<Sent, TakeRefusal>),
    Answered(Answered),
    Collected(Option<Pdu>),
    Retired(Result<(), NotAdmitted>),
    TurnedOver(Result<Option<Vec<Entry>>, AllocError>),
    WentDown(Result<(), AlreadyDown>),
    Failed(Result<Failed, FailRefusal>),
    Expired(Result<Failed, NoneExpired>),
    CameUp(Result<(), UpRefusal>),
    /// The call did not keep to its condition, and was not made.
    Unkept,
}

/// Makes the call where it keeps to its condition.
pub fn run(lane: &mut Lane, call: Call) -> Reply
    ensures reply { (own : List Note) × IsReply lane.old call result own lane.new
        × GoesOn lane.old own lane.new × HandsOut lane.old (result ∷ []) own lane.new }
    ensures limits { lane.new.limits ≡ lane.old.limits }
{
    match call {
        Call::Admit { by, client } => Reply::Admitted(lane.admit(by, client)),
        Call::Accept { by, request } => {
            if !lane.is_next(by, request.client, request.ordinal) {
                return Reply::Unkept;
            }
            Reply::Accepted(lane.accept(by, request))
        }
        Call::Take { by, now } => Reply::Taken(lane.take(by, now)),
        Call::Answer { by, response } => Reply::Answered(lane.answer(by, response)),
        Call::Collect { by, client } => {
            if !lane.is_own(by, client) {
                return Reply::Unkept;
            }
            Reply::Collected(lane.collect(by, client))
        }
        Call::Retire { by, client } => {
            if !lane.is_own(by, client) {
                return Reply::Unkept;
            }
            Reply::Retired(lane.retire(by, client))
        }
        Call::TurnOver { by, least } => Reply::TurnedOver(lane.turn_over(by, least)),
        Call::Down { by } => Reply::WentDown(lane.down(by)),
        Call::Fail { by } => Reply::Failed(lane.fail(by)),
        Call::FailExpired { by, now, age } => Reply::Expired(lane.fail_expired(by, now, age)),
        Call::Up { by } => Reply::CameUp(lane.up(by)),
    }
}

/// Makes the calls one after another. Where there is no memory for the replies, none is made. The lists that the turns
/// over hand out, and what the lane stores at the end, are all that was noted, in order and each entry once.
pub fn run_all(lane: &mut Lane, alloc: Global, calls: Vec<Call>) -> Result<Vec<Reply>, AllocError>
    ensures ran { IfOk result
        (λ replies. (notes : List Note) × Ran lane.old calls.items replies.items notes lane.new
        × GoesOn lane.old notes lane.new × HandsOut lane.old replies.items notes lane.new) }
    ensures legal { IfOk result (λ replies. HandsOutLegal lane.old replies.items lane.new) }
    ensures err { OnErr result (lane.new ≡ lane.old) }
    ensures limits { lane.new.limits ≡ lane.old.limits }
{
    let mut replies = Vec::with_capacity(alloc, calls.len())?;
    for call in calls {
        replies.push_reserved(run(lane, call));
    }
    Ok(replies)
}
