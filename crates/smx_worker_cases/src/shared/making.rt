//! Exchanges that aren't made, and clients that don't enter.
ghost use Rattle.std.specs.Prelude.{◌≡◌};
ghost use Rattle.smx_shared.specs.Views.{locks_of};
ghost use Rattle.smx_shared.specs.Making.{AreStarts};

use super::*;
use crate::hall::ROOMY;
use smx_history::Kind;
use smx_shared::MakeFault;
use std::test::*;

// Why no exchange of so many lanes under these limits, from this ticket, is made.
fn make_fault<R: Wait>(
    rt: &R,
    alloc: Global,
    limits: Limits,
    lanes: usize,
    starts: Starts,
) -> Option<MakeFault>
    requires { AreStarts starts }
{
    match Exchange::new_at(rt, alloc, limits, lanes, starts) {
        Ok(_) => None,
        Err(unmade) => Some(unmade.fault),
    }
}

#[test]
fn lanes_limits_and_tickets_have_ranges(rt: HostRuntime) {
    let wide = Limits {
        window: 1_025,
        ..ROOMY
    };
    let spent = Starts {
        ticket: LAST,
        ..Starts::FIRST
    };
    let first = Starts::FIRST;
    let alloc = rt.alloc();
    let found = [
        make_fault(&rt, alloc, ROOMY, 0, first),
        make_fault(&rt, alloc, ROOMY, 17, first),
        make_fault(&rt, alloc, wide, 17, first),
        make_fault(&rt, alloc, wide, 16, first),
        make_fault(&rt, alloc, ROOMY, 1, spent),
    ];
    let wanted = [
        Some(MakeFault::BadLanes),
        Some(MakeFault::BadLanes),
        Some(MakeFault::BadLanes),
        Some(MakeFault::BadLimits),
        Some(MakeFault::Spent),
    ];
    assert_eq!(rt; found, wanted);
}

// Two clients fill the lanes. Of a lane's 1,000 places 1 is kept for its end, a member takes 1 and a
// request that is queued 3, and an admit wants 4 more: 332 requests on lane 1 leave 1 place, 331 on
// lane 0 leave 4. The next client is refused.
fn filling(rt: &impl Abort, alloc: Global) -> Vec<Step> {
    let mut steps = Vec::new(alloc);
    let entering = [Step::Enters(None), Step::Enters(None)];
    steps
        .extend_from_slice(&entering)
        .expect(rt, "out of memory");
    for own in 1..=663u32 {
        let client = usize::from(own > 512);
        let lane = own as usize % 2;
        let step = Step::Asks(client, Ask::Submit(own, Ok(lane)));
        steps.push(step).expect(rt, "out of memory");
    }
    let refused = Step::Enters(Some(EnterFault::HistoryFull));
    steps.push(refused).expect(rt, "out of memory");
    steps
}

// Whether these are the lane's calls, but for its accepts.
fn has_members(lane: &Lane, members: &[(Kind, u64)]) -> bool {
    let mut rest = members;
    for entry in lane.entries() {
        if entry.kind != Kind::Accept {
            match rest.split_first() {
                Some((member, behind)) if *member == (entry.kind, entry.client) => rest = behind,
                _ => return false,
            }
        }
    }
    rest.is_empty()
}

// Whether the calls of the two lanes are these.
fn have_members(lanes: &[Lane], first: &[(Kind, u64)], second: &[(Kind, u64)]) -> bool {
    match lanes {
        [zero, one] => has_members(zero, first) && has_members(one, second),
        _ => false,
    }
}

// Lane 1 has no room for a client more where lane 0 still has: the third client is admitted on lane
// 0, refused on lane 1, and so retired on lane 0. It turned both lanes over.
#[test]
fn refused_client_leaves_again(rt: HostRuntime) {
    let limits = Limits {
        queue: 400,
        client: 256,
        ..ROOMY
    };
    // Ordinal 2 tries lane 1 first.
    let starts = Starts {
        ordinal: 2,
        ..Starts::FIRST
    };
    let steps = filling(&rt, rt.alloc());
    let lanes = lanes_after(&rt, rt.alloc(), limits, 2, starts, &steps);
    let first = [(Kind::Admit, 3), (Kind::Retire, 3)];
    assert!(rt; have_members(&lanes, &first, &[]));
}

// Whether a client enters under the number and leaves: false where there is no memory for it.
fn comes_and_goes<R: Wait>(rt: &R, at: &Exchange, door: &mut Door, number: u64) -> Option<bool>
    requires { locks_of door.old.fronts ≡ at.now }
    ensures { locks_of door.new.fronts ≡ at.now }
{
    match enter(rt, at, door) {
        Ok(client) => {
            let numbered = client.port.client() == number;
            (client.leave(rt) && numbered).then_some(true)
        }
        Err(EnterFault::NoMemory) => Some(false),
        Err(_) => None,
    }
}

// Two clients that come and go.
const VISITS: [(Kind, u64); 4] = [
    (Kind::Admit, 1),
    (Kind::Retire, 1),
    (Kind::Admit, 2),
    (Kind::Retire, 2),
];

// Whether the lanes' calls are those of the clients that entered. One that didn't was admitted on no
// lane, or on lane 0, which it left again.
fn have_visits(lanes: &[Lane], entered: (Option<bool>, Option<bool>)) -> bool {
    let (first, second) = VISITS.split_at(2);
    let left = match entered {
        (Some(true), Some(true)) => &VISITS[..],
        (Some(true), Some(false)) => first,
        (Some(false), Some(true)) => second,
        _ => return false,
    };
    have_members(lanes, left, left) || have_members(lanes, &VISITS, left)
}

// Want of memory is said by name: refuse-memory refuses each allocation in turn. A client that
// finds none has left again the lanes that it entered, and its number is used up.
#[test]
fn refused_memory(rt: HostRuntime) {
    let (exchange, mut door) = match Exchange::new(&rt, rt.alloc(), ROOMY, 2) {
        Ok((exchange, door, _)) => (exchange, door),
        Err(unmade) => return assert!(rt; unmade.fault == MakeFault::NoMemory),
    };
    let first = comes_and_goes(&rt, &exchange, &mut door, 1);
    let second = comes_and_goes(&rt, &exchange, &mut door, 2);
    let lanes = lanes_of(&rt, exchange, door);
    assert!(rt; have_visits(&lanes, (first, second)));
}
