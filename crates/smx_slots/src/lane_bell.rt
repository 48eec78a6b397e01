//! What a turn of a lane's worker asks and tells the loop.
ghost use Rattle.std.specs.Prelude.{◌≡◌, ◌++◌, ◌∷◌, [], true};
ghost use Rattle.smx_slots.specs.Schedules.{with_ready};
ghost use Rattle.smx_slots.specs.Hints.{hinted_by};
ghost use Rattle.smx_slots.specs.Rolls.{slot_of};
ghost use Rattle.smx_slots.specs.Bells.{settled_by, party_number, has_told};
ghost use Rattle.smx_slots.specs.Private.Bells.{IsKnown};

use crate::hints::Hints;
use crate::ledger::Ledger;
use crate::parties::tell;
use crate::roll::Roll;
use crate::schedule::Schedule;
use smx_trace::Trace;
use smx_turns::{Gate, Party, Point, Question};

/// Lets a lane's worker go on at each point, and notes who has something to do, on which lanes something
/// waits for a client, and which requests are settled. Parties are numbered: the lanes, then the clients' slots.
#[derive(Drop)]
pub struct LaneBell<'a> {
    lanes: usize,
    schedule: &'a mut Schedule,
    roll: &'a Roll,
    ledger: &'a mut Ledger,
    hints: &'a mut Hints,
    asked: Trace<Question>,
    told: Trace<Party>,
    rang: bool,
    // Which client it told last, and of which lane, where that is ready: most of a list of responses are one
    // client's.
    last: Option<(u64, usize)>,
    ghost rung: { rang ≡ has_told told },
    ghost known: { IsKnown lanes (slot_of roll.now.rows) last schedule.now hints.now },
}

impl<'a> LaneBell<'a> {
    pub fn new(
        lanes: usize,
        schedule: &'a mut Schedule,
        roll: &'a Roll,
        ledger: &'a mut Ledger,
        hints: &'a mut Hints,
    ) -> LaneBell<'a>
        ensures lanes { result.lanes ≡ lanes }
        ensures hints { result.hints.now ≡ hints.old }
        ensures ledger { result.ledger.now ≡ ledger.old }
        ensures parties { (result.schedule.now ≡ schedule.old) × (result.roll.now ≡ roll.now) }
        ensures traces { (result.asked ≡ []) × (result.told ≡ []) }
    {
        LaneBell {
            lanes,
            schedule,
            roll,
            ledger,
            hints,
            asked: Trace::new(),
            told: Trace::new(),
            rang: false,
            last: None,
        }
    }

    /// Whether anybody was told.
    pub fn has_rung(&self) -> bool
        ensures { result ≡ has_told self.now.told }
    {
        self.rang
    }
}

// Counts what a party was told of.
#[inline(always)]
fn count(ledger: &mut Ledger, party: Party)
    ensures { ledger.new ≡ settled_by party ledger.old }
{
    match party {
        Party::Client { client, .. } => ledger.settled(client),
        Party::Lane(_) | Party::Answer(_) | Party::Slot(_) => {}
    }
}

impl Gate for LaneBell<'_> {
    ghost asked = { λ b. b.asked };

    ghost told = { λ b. b.told };

    fn at(&mut self, point: Point, turn: u64) -> bool
        ensures asked { self.new.asked ≡ self.old.asked ++ record {
          point = point;
          turn = turn;
          answer = result;
        } ∷ [] }
        ensures told { self.new.told ≡ self.old.told }
        ensures answer { result ≡ true }
        ensures counts { self.new.ledger.now ≡ self.old.ledger.now }
        ensures hints { self.new.hints.now ≡ self.old.hints.now }
        ensures lanes { self.new.lanes ≡ self.old.lanes }
        ensures parties { (self.new.schedule.now ≡ self.old.schedule.now)
            × (self.new.roll.now ≡ self.old.roll.now) }
    {
        self.asked = self.asked.and(&Question {
            point,
            turn,
            answer: true,
        });
        true
    }

    #[inline(always)]
    fn ready(&mut self, party: Party)
        ensures told { self.new.told ≡ self.old.told ++ party ∷ [] }
        ensures asked { self.new.asked ≡ self.old.asked }
        ensures ready { self.new.schedule.now
            ≡ with_ready (party_number self.old.lanes (slot_of self.old.roll.now.rows) party)
            self.old.schedule.now }
        ensures counts { self.new.ledger.now ≡ settled_by party self.old.ledger.now }
        ensures hints { self.new.hints.now
            ≡ hinted_by (slot_of self.old.roll.now.rows) party self.old.hints.now }
        ensures lanes { self.new.lanes ≡ self.old.lanes }
        ensures roll { self.new.roll.now ≡ self.old.roll.now }
    {
        tell(
            self.lanes,
            self.schedule,
            self.roll,
            self.hints,
            &mut self.last,
            party,
        );
        count(self.ledger, party);
        self.told = self.told.and(&party);
        self.rang = true;
    }
}
