//! The calls of a lane, each a type of its own: what a hold of the lane's lock may do.
ghost use Rattle.std.specs.Prelude.{◌≡◌, not};
ghost use Rattle.smx_history.specs.Replies.{has_room};
ghost use Rattle.smx_lane.specs.Calls.{GoesOn};
ghost use Rattle.smx_lane.specs.declared.call.Call.TheVariants as call;
ghost use Rattle.smx_lane.specs.declared.call.Reply.TheVariants as reply;
ghost use Rattle.smx_shared.specs.Roomy.{turned_where, shifts_where};

use smx_history::{
    AlreadyDown, Answered, Entry, FailRefusal, Failed, NoneExpired, Note, Refusal, Request,
    TakeRefusal, UpRefusal,
};
use smx_lane::{AdmitFault, Lane, Load, NotAdmitted, Sent};
use smx_lock::CriticalSection;
use smx_pdu::Pdu;
use std::alloc::AllocError;

// A call of a lane, made in one hold.
pub(crate) trait LaneCall {
    ghost use Rattle.std.specs.Prelude.{◌≡◌, ℕ};
    ghost use Rattle.smx_lane.specs.declared.call.Call.{Call};
    ghost use Rattle.smx_lane.specs.declared.call.Reply.{Reply};
    ghost use Rattle.smx_lane.specs.Calls.{Keeps};
    ghost use Rattle.smx_shared.specs.Steps.{IsMade};

    // What the lane answers.
    type Answer;

    // The call, as a seat with this number makes it.
    ghost call: { Self → ℕ → Call };
    // The answer, as the lane's reply.
    ghost reply: { Self.Answer → Reply };

    fn make(self, lane: &mut Lane, by: u64) -> Self::Answer
        requires { Keeps lane.old (call self by) }
        ensures { IsMade by lane.old (call self by) (reply result) lane.new };
}

// A call that is made in one hold.
#[derive(Drop)]
pub(crate) struct Calling<C: LaneCall> {
    pub(crate) made: C,
}

impl<C: LaneCall> CriticalSection<Lane, Note> for Calling<C> {
    ghost use Rattle.smx_lane.specs.Calls.{Keeps};
    ghost use Rattle.smx_shared.specs.Steps.{IsMade, hold_notes};

    type Answer = C::Answer;

    ghost may = { λ s by lane. Keeps lane (C.call s.made by) };

    ghost does = { λ s by old answer new. IsMade by old (C.call s.made by) (C.reply answer) new };

    ghost notes = { λ s by old answer. hold_notes by old (C.call s.made by) (C.reply answer) };

    fn run(self, value: &mut Lane, number: u64) -> C::Answer {
        let Calling { made } = self;
        made.make(value, number)
    }
}

// Tells how much a lane holds, in one hold that changes nothing.
#[derive(Drop)]
pub(crate) struct Weighing;

impl CriticalSection<Lane, Note> for Weighing {
    ghost use Rattle.std.specs.Prelude.{◌≡◌, []};
    ghost use Rattle.smx_lane.specs.Loads.{IsLoad};

    type Answer = Load;

    ghost may = { λ s by lane. Unit {0} };

    ghost does = { λ s by old answer new. (new ≡ old) × IsLoad old answer };

    ghost notes = { λ s by old answer. [] };

    fn run(self, value: &mut Lane, _number: u64) -> Load {
        value.load()
    }
}

// Turns the lane over where its history is full, for a call that wants room there. Whether it was.
pub(crate) fn make_room(lane: &mut Lane, by: u64) -> bool
    ensures turned { result ≡ not (has_room lane.old) }
    ensures met { lane.new ≡ turned_where (not (has_room lane.old)) lane.old }
    ensures agrees { GoesOn lane.old (shifts_where (not (has_room lane.old)) by) lane.new }
{
    let full = !lane.has_room();
    if full {
        lane.let_go(by);
    }
    full
}

#[derive(Drop)]
pub(crate) struct Admitting {
    pub(crate) client: u64,
}

impl LaneCall for Admitting {
    type Answer = Result<(), AdmitFault>;

    ghost call = { λ c by. call.Admit by c.client };

    ghost reply = { reply.Admitted };

    fn make(self, lane: &mut Lane, by: u64) -> Result<(), AdmitFault> {
        make_room(lane, by);
        lane.admit(by, self.client)
    }
}

#[derive(Drop)]
pub(crate) struct Accepting {
    pub(crate) request: Request,
}

impl LaneCall for Accepting {
    type Answer = Result<(), (Request, Refusal)>;

    ghost call = { λ c by. call.Accept by c.request };

    ghost reply = { reply.Accepted };

    fn make(self, lane: &mut Lane, by: u64) -> Result<(), (Request, Refusal)> {
        make_room(lane, by);
        lane.accept(by, self.request)
    }
}

#[derive(Drop)]
pub(crate) struct Taking {
    pub(crate) now: u64,
}

impl LaneCall for Taking {
    type Answer = Result<Sent, TakeRefusal>;

    ghost call = { λ c by. call.Take by c.now };

    ghost reply = { reply.Taken };

    fn make(self, lane: &mut Lane, by: u64) -> Result<Sent, TakeRefusal> {
        lane.take(by, self.now)
    }
}

#[derive(Drop)]
pub(crate) struct Answering {
    pub(crate) response: Pdu,
}

impl LaneCall for Answering {
    type Answer = Answered;

    ghost call = { λ c by. call.Answer by c.response };

    ghost reply = { reply.Answered };

    fn make(self, lane: &mut Lane, by: u64) -> Answered {
        lane.answer(by, self.response)
    }
}

#[derive(Drop)]
pub(crate) struct Collecting {
    pub(crate) client: u64,
}

impl LaneCall for Collecting {
    type Answer = Option<Pdu>;

    ghost call = { λ c by. call.Collect by c.client };

    ghost reply = { reply.Collected };

    fn make(self, lane: &mut Lane, by: u64) -> Option<Pdu> {
        lane.collect(by, self.client)
    }
}

#[derive(Drop)]
pub(crate) struct Retiring {
    pub(crate) client: u64,
}

impl LaneCall for Retiring {
    type Answer = Result<(), NotAdmitted>;

    ghost call = { λ c by. call.Retire by c.client };

    ghost reply = { reply.Retired };

    fn make(self, lane: &mut Lane, by: u64) -> Result<(), NotAdmitted> {
        lane.retire(by, self.client)
    }
}

#[derive(Drop)]
pub(crate) struct TurningOver {
    pub(crate) least: usize,
}

impl LaneCall for TurningOver {
    type Answer = Result<Option<Vec<Entry>>, AllocError>;

    ghost call = { λ c by. call.TurnOver by c.least };

    ghost reply = { reply.TurnedOver };

    fn make(self, lane: &mut Lane, by: u64) -> Result<Option<Vec<Entry>>, AllocError> {
        lane.turn_over(by, self.least)
    }
}

#[derive(Drop)]
pub(crate) struct GoingDown;

impl LaneCall for GoingDown {
    type Answer = Result<(), AlreadyDown>;

    ghost call = { λ c by. call.Down by };

    ghost reply = { reply.WentDown };

    fn make(self, lane: &mut Lane, by: u64) -> Result<(), AlreadyDown> {
        lane.down(by)
    }
}

#[derive(Drop)]
pub(crate) struct Failing;

impl LaneCall for Failing {
    type Answer = Result<Failed, FailRefusal>;

    ghost call = { λ c by. call.Fail by };

    ghost reply = { reply.Failed };

    fn make(self, lane: &mut Lane, by: u64) -> Result<Failed, FailRefusal> {
        lane.fail(by)
    }
}

#[derive(Drop)]
pub(crate) struct Expiring {
    pub(crate) now: u64,
    pub(crate) age: u64,
}

impl LaneCall for Expiring {
    type Answer = Result<Failed, NoneExpired>;

    ghost call = { λ c by. call.FailExpired by c.now c.age };

    ghost reply = { reply.Expired };

    fn make(self, lane: &mut Lane, by: u64) -> Result<Failed, NoneExpired> {
        lane.fail_expired(by, self.now, self.age)
    }
}

#[derive(Drop)]
pub(crate) struct ComingUp;

impl LaneCall for ComingUp {
    type Answer = Result<(), UpRefusal>;

    ghost call = { λ c by. call.Up by };

    ghost reply = { reply.CameUp };

    fn make(self, lane: &mut Lane, by: u64) -> Result<(), UpRefusal> {
        lane.up(by)
    }
}
