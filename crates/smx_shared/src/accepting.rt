//! A list of offers that are made in one hold.
ghost use Rattle.std.specs.Prelude.{◌≡◌, ◌≤◌, ◌<◌, ◌^◌, ◌+◌, ◌++◌, [], ◌∷◌, length, vec_len, vec_capacity};
ghost use Rattle.smx_shared.specs.declared.batch.Landing.{Landing};
ghost use Rattle.smx_shared.specs.Landings.{LandsSo, landing_notes, ordinal_after};
ghost use Rattle.smx_shared.specs.Offers.{request_for};
ghost use Rattle.smx_lane.specs.Calls.{GoesOn};
ghost use Rattle.smx_shared.specs.Steps.{AreLanded, MayAccept};

use crate::batch::Landing;
use crate::fault::SubmitFault;
use crate::lane_call::make_room;
use crate::naming::{named, unnamed};
use crate::offer::Offer;
use smx_history::Note;
use smx_lane::Lane;
use smx_lock::CriticalSection;
use smx_ticket_core::MOST;
use std::collections::VecDeque;

// What became of a list of offers, which is empty now, and the client's next ordinal.
#[derive(Drop)]
pub(crate) struct Landings {
    pub(crate) landings: Vec<Landing>,
    pub(crate) next: u64,
    pub(crate) offers: Vec<Offer>,
}

// Offers this to the lane for the client, as its request of that ordinal, and notes what became of it
// behind the others: the ordinal that is next then. Each outcome is written where it stays: one that is
// moved there is copied in overlapping pieces, for which the processor waits.
fn accept_one(
    lane: &mut Lane,
    by: u64,
    client: u64,
    ordinal: u64,
    offer: Offer,
    landings: &mut Vec<Landing>,
) -> u64
    requires may { MayAccept lane.old by client ordinal }
    requires ordinal { 0 < ordinal }
    requires top { ordinal ≤ 2 ^ 62 + 1 }
    requires room { vec_len landings.old < vec_capacity landings.old }
    ensures landed { (l : Landing) × (landings.new.items ≡ landings.old.items ++ l ∷ [])
        × LandsSo by client ordinal offer lane.old l lane.new
        × GoesOn lane.old (landing_notes by (request_for client ordinal offer) l) lane.new
        × (result ≡ ordinal_after ordinal offer l) }
    ensures limits { lane.new.limits ≡ lane.old.limits }
    ensures may { MayAccept lane.new by client result }
    ensures top { (ordinal ≤ result) × (result ≤ 2 ^ 62 + 1) }
    ensures len { vec_len landings.new ≡ vec_len landings.old + 1 }
    ensures capacity { vec_capacity landings.old ≤ vec_capacity landings.new }
{
    if ordinal > MOST {
        landings.push_reserved(Landing {
            landed: Err((offer, SubmitFault::Exhausted)),
            turned: false,
        });
        return ordinal;
    }
    let request = named(client, ordinal, offer);
    let turned = make_room(lane, by);
    match lane.accept(by, request) {
        Ok(()) => {
            landings.push_reserved(Landing {
                landed: Ok(0),
                turned,
            });
            ordinal + 1
        }
        Err((back, _)) => {
            landings.push_reserved(Landing {
                landed: Err((unnamed(back), SubmitFault::AllFull)),
                turned,
            });
            ordinal
        }
    }
}

// Offers each of these to the lane for the client, from that ordinal on.
fn accept_each(
    lane: &mut Lane,
    by: u64,
    client: u64,
    first: u64,
    offers: Vec<Offer>,
    room: Vec<Landing>,
) -> Landings
    requires may { MayAccept lane.old by client first }
    requires first { (0 < first) × (first ≤ 2 ^ 62 + 1) }
    requires room { (room.items ≡ []) × (length offers.items ≤ vec_capacity room) }
    ensures { AreLanded by client first offers.items lane.old result lane.new }
{
    let mut landings = room;
    let mut ordinal = first;
    let mut left = VecDeque::from_vec(offers);
    while let Some(offer) = left.pop_front() {
        ordinal = accept_one(lane, by, client, ordinal, offer, &mut landings);
    }
    Landings {
        landings,
        next: ordinal,
        offers: left.into_vec(),
    }
}

// Submits a client's list.
#[derive(Drop)]
pub(crate) struct AcceptingAll {
    pub(crate) client: u64,
    pub(crate) first: u64,
    pub(crate) offers: Vec<Offer>,
    // Empty, with room for what becomes of each.
    pub(crate) room: Vec<Landing>,
}

impl CriticalSection<Lane, Note> for AcceptingAll {
    ghost use Rattle.std.specs.Prelude.{◌≡◌, ◌≤◌, ◌<◌, ◌^◌, ◌+◌, [], length, vec_capacity};
    ghost use Rattle.smx_shared.specs.Landings.{landings_of};
    ghost use Rattle.smx_shared.specs.Steps.{AreLanded, MayAccept};

    type Answer = Landings;

    ghost may = { λ s by lane. MayAccept lane by s.client s.first
        × (0 < s.first) × (s.first ≤ 2 ^ 62 + 1) × (s.room.items ≡ [])
        × (length s.offers.items ≤ vec_capacity s.room) };

    ghost does = { λ s by old answer new.
        AreLanded by s.client s.first s.offers.items old answer new };

    ghost notes = { λ s by old answer.
        landings_of by s.client s.first s.offers.items answer.landings.items };

    fn run(self, value: &mut Lane, number: u64) -> Landings {
        let AcceptingAll {
            client,
            first,
            offers,
            room,
        } = self;
        accept_each(value, number, client, first, offers, room)
    }
}
