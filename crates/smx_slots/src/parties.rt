//! The numbers of parties.
ghost use Rattle.std.specs.Prelude.{◌≡◌, true};
ghost use Rattle.smx_turns.specs.declared.gate.Party.TheVariants.{Client};
ghost use Rattle.smx_slots.specs.Hints.{hinted_by};
ghost use Rattle.smx_slots.specs.Schedules.{is_ready, with_ready};
ghost use Rattle.smx_slots.specs.Private.Bells.{IsKnown, IsToldAgain};
ghost use Rattle.smx_slots.specs.Rolls.{slot_of};
ghost use Rattle.smx_slots.specs.Bells.{party_number};

use crate::hints::Hints;
use crate::roll::Roll;
use crate::schedule::Schedule;
use smx_turns::Party;

// The number of a party behind so many lanes; that of a client that is gone is above all. What a client is
// told is noted.
#[inline(always)]
pub(crate) fn party_number(lanes: usize, roll: &Roll, hints: &mut Hints, party: Party) -> usize
    ensures number { result ≡ party_number lanes (slot_of roll.now.rows) party }
    ensures hints { hints.new ≡ hinted_by (slot_of roll.now.rows) party hints.old }
{
    match party {
        Party::Lane(lane) | Party::Answer(lane) => lane,
        Party::Slot(slot) => lanes.saturating_add(slot),
        Party::Client { client, lane } => match roll.slot(client) {
            Some(slot) => {
                hints.set(slot, lane, true);
                lanes.saturating_add(slot)
            }
            None => usize::MAX,
        },
    }
}

// A party that is told is ready. Whether it is ready now: a client that is gone isn't.
#[inline(always)]
#[tactic(auto, using(crate::proofs::Repeating::told_again))]
fn tell_anew(
    lanes: usize,
    schedule: &mut Schedule,
    roll: &Roll,
    hints: &mut Hints,
    party: Party,
) -> bool
    ensures ready { schedule.new
        ≡ with_ready (party_number lanes (slot_of roll.now.rows) party) schedule.old }
    ensures hints { hints.new ≡ hinted_by (slot_of roll.now.rows) party hints.old }
    ensures now { result
        ≡ is_ready (party_number lanes (slot_of roll.now.rows) party) schedule.new }
    ensures known { result ≡ true
        → IsToldAgain lanes (slot_of roll.now.rows) party schedule.new hints.new }
{
    let number = party_number(lanes, roll, hints, party);
    schedule.add(number);
    schedule.is_ready(number)
}

// The same of a client. Out of line, as it is the one told last mostly.
#[inline(never)]
fn tell_client(
    lanes: usize,
    schedule: &mut Schedule,
    roll: &Roll,
    hints: &mut Hints,
    client: u64,
    lane: usize,
) -> bool
    ensures ready { schedule.new
        ≡ with_ready (party_number lanes (slot_of roll.now.rows) (Client client lane))
        schedule.old }
    ensures hints { hints.new ≡ hinted_by (slot_of roll.now.rows) (Client client lane) hints.old }
    ensures now { result
        ≡ is_ready (party_number lanes (slot_of roll.now.rows) (Client client lane))
        schedule.new }
    ensures known { result ≡ true
        → IsToldAgain lanes (slot_of roll.now.rows) (Client client lane) schedule.new hints.new }
{
    let party = Party::Client { client, lane };
    tell_anew(lanes, schedule, roll, hints, party)
}

// A party that is told is ready. A client that was told last of the same lane is so already.
#[inline(always)]
pub(crate) fn tell(
    lanes: usize,
    schedule: &mut Schedule,
    roll: &Roll,
    hints: &mut Hints,
    last: &mut Option<(u64, usize)>,
    party: Party,
)
    requires known { IsKnown lanes (slot_of roll.now.rows) last.old schedule.old hints.old }
    ensures ready { schedule.new
        ≡ with_ready (party_number lanes (slot_of roll.now.rows) party) schedule.old }
    ensures hints { hints.new ≡ hinted_by (slot_of roll.now.rows) party hints.old }
    ensures known { IsKnown lanes (slot_of roll.now.rows) last.new schedule.new hints.new }
{
    match party {
        Party::Client { client, lane } => {
            if *last != Some((client, lane)) {
                let is_ready = tell_client(lanes, schedule, roll, hints, client, lane);
                *last = is_ready.then_some((client, lane));
            }
        }
        Party::Slot(_) | Party::Lane(_) | Party::Answer(_) => {
            *last = None;
            tell_anew(lanes, schedule, roll, hints, party);
        }
    }
}
