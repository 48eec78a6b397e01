//! What a turn of a client's worker asks and tells the loop.
ghost use Rattle.std.specs.Prelude.{◌≡◌, ◌+◌, ◌++◌, ◌∷◌, [], ◌&&◌, ◌||◌, ℕ, Some, None, true, false, not, if◌then◌else◌};
ghost use Rattle.smx_turns.specs.declared.gate.Point.TheVariants.{Collecting};
ghost use Rattle.smx_slots.specs.Schedules.{with_ready};
ghost use Rattle.smx_slots.specs.Hints.{has_hint, with_hint, hinted_by, emptied_by, leave_by};
ghost use Rattle.smx_slots.specs.Rolls.{slot_of};
ghost use Rattle.smx_slots.specs.Ledger.{Book, account_of, may_request_beside, IsSpare};
ghost use Rattle.smx_slots.specs.Bells.{visit, may_bind_at, bound_at, Answers, book_after, party_number, has_told};

use crate::hints::Hints;
use crate::ledger::Ledger;
use crate::parties::party_number;
use crate::roll::Roll;
use crate::schedule::Schedule;
use smx_trace::Trace;
use smx_turns::{Gate, Party, Point, Question};

/// A turn of a client's worker: whose it is, which slot that has, whether it may read, and whether a bind of
/// it may be refused.
#[derive(Clone, Copy, Debug, PartialEq, Eq)]
pub struct ClientTurn {
    pub client: u64,
    pub slot: usize,
    pub may_read: bool,
    pub may_refuse: bool,
}

/// Lets a client's worker go on, and notes who has something to do, and which requests are under way.
/// Parties are numbered: the lanes, then the clients' slots. It asks the ledger whether the client may be
/// bound and may have one more request under way, beside those to which it gave leave since it was last
/// asked before a submit; it refuses one bind in a turn at most, and it lets the worker collect from the
/// lanes of which its client was told since that found them empty.
#[derive(Drop)]
pub struct ClientBell<'a> {
    lanes: usize,
    schedule: &'a mut Schedule,
    roll: &'a Roll,
    ledger: &'a mut Ledger,
    hints: &'a mut Hints,
    turn: ClientTurn,
    // From which lane the worker has leave to collect, and in which of its turns.
    leave: Option<(usize, u64)>,
    account: Option<usize>,
    refused: bool,
    lacked: bool,
    // To how many requests it gave leave since it was last asked before a submit.
    leaves: u64,
    // To how many more it can give leave, as far as it has asked the ledger.
    spare: u64,
    asked: Trace<Question>,
    told: Trace<Party>,
    rang: bool,
    ghost rung: { rang ≡ has_told told },
    ghost sure: { IsSpare spare leaves turn.client ledger.now },
}

impl<'a> ClientBell<'a> {
    pub fn new(
        lanes: usize,
        schedule: &'a mut Schedule,
        roll: &'a Roll,
        ledger: &'a mut Ledger,
        hints: &'a mut Hints,
        turn: ClientTurn,
    ) -> ClientBell<'a>
        ensures turn { (result.turn ≡ turn) × (result.lanes ≡ lanes) }
        ensures hints { (result.hints.now ≡ hints.old) × (result.leave ≡ None) }
        ensures begins { visit result.ledger.now result.account result.refused result.lacked
            result.leaves
            ≡ visit ledger.old None false false 0 }
        ensures parties { (result.schedule.now ≡ schedule.old) × (result.roll.now ≡ roll.now) }
        ensures traces { (result.asked ≡ []) × (result.told ≡ []) }
    {
        ClientBell {
            lanes,
            schedule,
            roll,
            ledger,
            hints,
            turn,
            leave: None,
            account: None,
            refused: false,
            lacked: false,
            leaves: 0,
            spare: 0,
            asked: Trace::new(),
            told: Trace::new(),
            rang: false,
        }
    }

    /// Whether anybody was told.
    pub fn has_rung(&self) -> bool
        ensures { result ≡ has_told self.now.told }
    {
        self.rang
    }

    /// The account by which the client was bound.
    pub fn account(&self) -> Option<usize>
        ensures { result ≡ self.now.account }
    {
        self.account
    }

    /// Whether a bind was refused.
    pub fn has_refused(&self) -> bool
        ensures { result ≡ self.now.refused }
    {
        self.refused
    }

    /// Whether the client might be bound and there was no memory for it: the answer was no then.
    pub fn has_lacked_memory(&self) -> bool
        ensures { result ≡ self.now.lacked }
    {
        self.lacked
    }
}

// Counts what a party was told of in a turn of this client.
fn count(ledger: &mut Ledger, client: u64, party: Party)
    ensures { ledger.new ≡ book_after client party ledger.old }
{
    match party {
        Party::Client { client, .. } => ledger.settled(client),
        Party::Lane(_) => ledger.accepted(client),
        Party::Answer(_) | Party::Slot(_) => {}
    }
}

// A party that is told in a turn of this client is ready. Out of line, as it is a lane nearly always.
#[cold]
#[inline(never)]
fn tell_other(
    lanes: usize,
    schedule: &mut Schedule,
    roll: &Roll,
    hints: &mut Hints,
    ledger: &mut Ledger,
    client: u64,
    party: Party,
)
    ensures ready { schedule.new
        ≡ with_ready (party_number lanes (slot_of roll.now.rows) party) schedule.old }
    ensures hints { hints.new ≡ hinted_by (slot_of roll.now.rows) party hints.old }
    ensures counts { ledger.new ≡ book_after client party ledger.old }
{
    let number = party_number(lanes, roll, hints, party);
    schedule.add(number);
    count(ledger, client, party);
}

// Whether the client is bound by the account now, which is noted, and so is want of memory.
#[cold]
#[inline(never)]
fn bind(
    ledger: &mut Ledger,
    bound: &mut Option<usize>,
    lacked: &mut bool,
    spare: &mut u64,
    client: u64,
    account: usize,
) -> bool
    ensures may { result ≡ true → may_bind_at client account ledger.old ≡ true }
    ensures bound { result ≡ true → ledger.new ≡ bound_at client account ledger.old }
    ensures noted { result ≡ true → (bound.new ≡ Some account) × (lacked.new ≡ lacked.old) }
    ensures same { result ≡ false → (ledger.new ≡ ledger.old) × (bound.new ≡ bound.old) }
    ensures lacked { result ≡ false
        → lacked.new ≡ (lacked.old || may_bind_at client account ledger.old) }
    ensures sure { (leaves : ℕ) → IsSpare spare.new leaves client ledger.new }
{
    *spare = 0;
    match ledger.bind(client, account) {
        Ok(true) => {
            *bound = Some(account);
            true
        }
        Ok(false) => false,
        Err(_) => {
            *lacked = true;
            false
        }
    }
}

// Whether a bind is refused now, which is noted.
fn refuse(refused: &mut bool, may_refuse: bool) -> bool
    ensures may { result ≡ (may_refuse && not refused.old) }
    ensures noted { refused.new ≡ (refused.old || result) }
{
    if !may_refuse || *refused {
        return false;
    }
    *refused = true;
    true
}

// Whether one more request may be under way beside those that have leave. A yes counts as one more.
#[inline(always)]
fn admit(ledger: &Ledger, spare: &mut u64, leaves: &mut u64, client: u64) -> bool
    requires sure { IsSpare spare.old leaves.old client ledger.now }
    ensures sure { IsSpare spare.new leaves.new client ledger.now }
    ensures may { result ≡ may_request_beside leaves.old client
        (account_of client ledger.now.movements) ledger.now }
    ensures noted { leaves.new ≡ (if result then leaves.old + 1 else leaves.old) }
{
    if *spare == 0 {
        *spare = ledger.spare_beside(client, *leaves);
    }
    if *spare == 0 {
        return false;
    }
    *spare -= 1;
    *leaves += 1;
    true
}

// Before a submit the count of leaves begins anew.
fn submit(spare: &mut u64, leaves: &mut u64) -> bool
    ensures always { result ≡ true }
    ensures noted { leaves.new ≡ 0 }
    ensures sure { (client : ℕ) (book : Book) → IsSpare spare.new leaves.new client book }
{
    *spare = 0;
    *leaves = 0;
    true
}

// Of the lane from which the worker had leave to collect there is no hint, where this turn goes on.
fn empty(hints: &mut Hints, leave: Option<(usize, u64)>, slot: usize, turn: u64)
    ensures { hints.new ≡ emptied_by slot turn leave hints.old }
{
    if let Some((lane, then_turn)) = leave {
        if then_turn == turn {
            hints.set(slot, lane, false);
        }
    }
}

// From which lane the worker has leave to collect, where this is the answer at this point.
fn leave_by(turn: u64, point: Point, answer: bool) -> Option<(usize, u64)>
    ensures { result ≡ leave_by turn point answer }
{
    match point {
        Point::Collecting(lane) if answer => Some((lane, turn)),
        _ => None,
    }
}

impl Gate for ClientBell<'_> {
    ghost asked = { λ b. b.asked };

    ghost told = { λ b. b.told };

    #[inline(always)]
    fn at(&mut self, point: Point, turn: u64) -> bool
        ensures asked { self.new.asked ≡ self.old.asked ++ record {
          point = point;
          turn = turn;
          answer = result;
        } ∷ [] }
        ensures told { self.new.told ≡ self.old.told }
        ensures answers { Answers self.old.turn point
            (visit self.old.ledger.now self.old.account self.old.refused self.old.lacked
            self.old.leaves)
            result
            (visit self.new.ledger.now self.new.account self.new.refused self.new.lacked
            self.new.leaves) }

        // A lane is collected from just where there is a hint, which goes once the turn asks again.
        ensures hinted { (lane : ℕ) → point ≡ Collecting lane
            → result ≡ has_hint self.old.turn.slot lane self.new.hints.now }
        ensures hints { self.new.hints.now
            ≡ emptied_by self.old.turn.slot turn self.old.leave self.old.hints.now }
        ensures leave { self.new.leave ≡ leave_by turn point result }
        ensures turn { (self.new.turn ≡ self.old.turn) × (self.new.lanes ≡ self.old.lanes) }
        ensures parties { (self.new.schedule.now ≡ self.old.schedule.now)
            × (self.new.roll.now ≡ self.old.roll.now) }
    {
        let ClientTurn {
            client,
            slot,
            may_read,
            may_refuse,
        } = self.turn;
        empty(self.hints, self.leave, slot, turn);
        let answer = match point {
            Point::Reading => may_read,
            Point::Binding(account) => bind(
                self.ledger,
                &mut self.account,
                &mut self.lacked,
                &mut self.spare,
                client,
                account,
            ),
            Point::Refusing => refuse(&mut self.refused, may_refuse),
            Point::Admitting => admit(self.ledger, &mut self.spare, &mut self.leaves, client),
            Point::Collecting(lane) => self.hints.has(slot, lane),
            Point::Submitting => submit(&mut self.spare, &mut self.leaves),
            Point::Taking => true,
        };
        self.leave = leave_by(turn, point, answer);
        self.asked = self.asked.and(&Question {
            point,
            turn,
            answer,
        });
        answer
    }

    #[inline(always)]
    fn ready(&mut self, party: Party)
        ensures told { self.new.told ≡ self.old.told ++ party ∷ [] }
        ensures asked { self.new.asked ≡ self.old.asked }
        ensures ready { self.new.schedule.now
            ≡ with_ready (party_number self.old.lanes (slot_of self.old.roll.now.rows) party)
            self.old.schedule.now }
        ensures counts { self.new.ledger.now
            ≡ book_after self.old.turn.client party self.old.ledger.now }
        ensures turn { (self.new.turn ≡ self.old.turn) × (self.new.lanes ≡ self.old.lanes) }
        ensures hints { self.new.hints.now
            ≡ hinted_by (slot_of self.old.roll.now.rows) party self.old.hints.now }
        ensures roll { (self.new.roll.now ≡ self.old.roll.now) × (self.new.leave ≡ self.old.leave) }
        ensures answers { (self.new.account ≡ self.old.account)
            × (self.new.refused ≡ self.old.refused) × (self.new.lacked ≡ self.old.lacked)
            × (self.new.leaves ≡ self.old.leaves) }
    {
        let client = self.turn.client;
        self.spare = 0;
        if let Party::Lane(lane) = party {
            self.schedule.add(lane);
            self.ledger.accepted(client);
        } else {
            tell_other(
                self.lanes,
                self.schedule,
                self.roll,
                self.hints,
                self.ledger,
                client,
                party,
            );
        }
        self.told = self.told.and(&party);
        self.rang = true;
    }
}
