//! The proxy's tables.

use smx_routes::{RouteFault, Routes};
use smx_slots::{
    AccountLimits, ClientBell, ClientEnds, ClientTurn, Guide, Hints, LaneBell, Ledger, Roll,
    Schedule, Slots, ends_of,
};
use smx_turns::{Directory, Gate, Party, Place, Point};
use std::sync::Wait;
use std::test::Fail;

// Whoever is told of more than once is ready once, in its class, and again after it was begun.
#[test]
fn each_is_ready_once(rt: HostRuntime) -> Result<(), Fail> {
    let mut schedule = Schedule::new(rt.alloc(), 3)?;
    schedule.place(2, true);
    for party in [2usize, 0, 2, 3, 1] {
        schedule.add(party);
    }
    assert_eq!(rt; schedule.firsts(), 1);
    assert_eq!(rt; schedule.begin_first(), Some(2));
    assert_eq!(rt; schedule.begin_first(), None);
    assert_eq!(rt; schedule.begin_unbound(), Some(0));
    schedule.add(0);
    assert_eq!(rt; schedule.begin_unbound(), Some(1));
    assert_eq!(rt; schedule.begin_unbound(), Some(0));
    assert!(rt; schedule.is_empty());
    Ok(())
}

// Who is stalled waits for its own reason: party 1 for its socket, party 2 for a return box.
#[test]
fn a_stalled_party_waits(rt: HostRuntime) -> Result<(), Fail> {
    let mut schedule = Schedule::new(rt.alloc(), 3)?;
    schedule.stall(1);
    schedule.crowd(2);
    schedule.add(1);
    schedule.add(2);
    schedule.resume(2);
    assert!(rt; schedule.is_empty());
    assert_eq!(rt; schedule.uncrowd(), Some(2));
    assert_eq!(rt; schedule.begin_unbound(), Some(2));
    assert_eq!(rt; schedule.uncrowd(), None);
    schedule.resume(1);
    assert_eq!(rt; schedule.begin_unbound(), Some(1));
    Ok(())
}

// A roll for three clients.
#[test]
fn a_client_has_its_slot(rt: HostRuntime) -> Result<(), Fail> {
    let mut roll = Roll::new(rt.alloc(), 3)?;
    assert!(rt; roll.add(3, 1));
    assert!(rt; roll.add(9, 0));
    assert!(rt; roll.add(5, 2));
    assert!(rt; !roll.add(5, 3));
    assert!(rt; !roll.add(7, 3));
    assert_eq!(rt; roll.slot(5), Some(2));
    roll.remove(5);
    assert_eq!(rt; roll.slot(5), None);
    assert_eq!(rt; roll.slot(9), Some(0));
    Ok(())
}

// Two accounts: of the first one client may be bound, with two requests under way.
const TWO: [AccountLimits; 2] = [
    AccountLimits {
        binds: Some(1),
        requests: Some(2),
    },
    AccountLimits {
        binds: None,
        requests: None,
    },
];

// With three lanes slot 0 is party 3. Who is gone is told nothing. A lane's turn asks nobody, and a request
// that it settles is counted.
#[test]
fn a_bell_names_parties(rt: HostRuntime) -> Result<(), Fail> {
    let mut schedule = Schedule::new(rt.alloc(), 8)?;
    let mut roll = Roll::new(rt.alloc(), 4)?;
    let mut ledger = Ledger::new(rt.alloc(), TWO.as_slice())?;
    let mut hints = Hints::new(rt.alloc(), 4, 3)?;
    assert!(rt; ledger.bind(7, 0)?);
    ledger.accepted(7);
    roll.add(7, 2);
    let mut bell = LaneBell::new(3, &mut schedule, &roll, &mut ledger, &mut hints);
    assert!(rt; bell.at(Point::Reading, 1));
    assert!(rt; bell.at(Point::Taking, 1));
    assert!(rt; !bell.has_rung());
    bell.ready(Party::Lane(1));
    bell.ready(Party::Client { client: 7, lane: 0 });
    bell.ready(Party::Slot(0));
    bell.ready(Party::Client { client: 8, lane: 0 });
    bell.ready(Party::Answer(2));
    assert!(rt; bell.has_rung());
    for party in [1usize, 5, 3, 2] {
        assert_eq!(rt; schedule.begin_unbound(), Some(party));
    }
    assert!(rt; schedule.is_empty());
    assert_eq!(rt; ledger.under_way(), 0);
    assert_eq!(rt;
        [hints.has(2, 0), hints.has(2, 1), hints.has(0, 0)],
        [true, false, false]
    );
    Ok(())
}

// The client of slot 2 is told of something on lane 1. A turn that collects there and goes on found it empty;
// one that ended there has leave again.
#[test]
fn a_bell_hints_at_lanes(rt: HostRuntime) -> Result<(), Fail> {
    let mut schedule = Schedule::new(rt.alloc(), 8)?;
    let mut roll = Roll::new(rt.alloc(), 4)?;
    let mut ledger = Ledger::new(rt.alloc(), TWO.as_slice())?;
    let mut hints = Hints::new(rt.alloc(), 4, 3)?;
    roll.add(7, 2);
    LaneBell::new(3, &mut schedule, &roll, &mut ledger, &mut hints).ready(Party::Client {
        client: 7,
        lane: 1,
    });
    let turn = ClientTurn {
        client: 7,
        slot: 2,
        may_read: true,
        may_refuse: true,
    };
    let mut bell = ClientBell::new(3, &mut schedule, &roll, &mut ledger, &mut hints, turn);
    let mut ask = [false; 9];
    for turn in 0..3usize {
        for lane in 0..3usize {
            if turn == 0 && lane == 2 {
                continue;
            }
            ask[3 * turn + lane] = bell.at(Point::Collecting(lane), turn as u64);
        }
    }
    assert_eq!(rt;
        ask,
        [false, true, false, false, true, false, false, false, false]
    );
    assert!(rt; !hints.has(2, 1));
    hints.set(4, 0, true);
    hints.set(0, 3, true);
    assert!(rt; !hints.has(4, 0) && !hints.has(0, 3));
    Ok(())
}

// The first account is full with one client, which may have two requests: the third waits until one is
// settled. An answer to a message is no request.
#[test]
fn a_bell_asks_the_ledger(rt: HostRuntime) -> Result<(), Fail> {
    let mut schedule = Schedule::new(rt.alloc(), 8)?;
    let roll = Roll::new(rt.alloc(), 4)?;
    let mut ledger = Ledger::new(rt.alloc(), TWO.as_slice())?;
    let mut hints = Hints::new(rt.alloc(), 4, 3)?;
    let turn = ClientTurn {
        client: 7,
        slot: 2,
        may_read: false,
        may_refuse: true,
    };
    let mut bell = ClientBell::new(3, &mut schedule, &roll, &mut ledger, &mut hints, turn);
    assert!(rt; !bell.at(Point::Reading, 1));
    assert!(rt; bell.at(Point::Refusing, 1));
    assert!(rt; !bell.at(Point::Refusing, 2));
    assert!(rt; !bell.at(Point::Binding(2), 2));
    assert_eq!(rt; bell.account(), None);
    assert!(rt; bell.at(Point::Binding(0), 2));
    assert_eq!(rt; bell.account(), Some(0));
    for _ in 0..2 {
        assert!(rt; bell.at(Point::Admitting, 2));
        assert!(rt; bell.at(Point::Submitting, 2));
        bell.ready(Party::Lane(0));
        bell.ready(Party::Answer(0));
    }
    assert!(rt; !bell.at(Point::Admitting, 2));
    bell.ready(Party::Client { client: 7, lane: 0 });
    assert!(rt; bell.at(Point::Admitting, 2));
    assert!(rt; bell.has_refused());
    assert_eq!(rt; ledger.of_client(7), 1);
    assert!(rt; !ledger.bind(8, 0)?);
    Ok(())
}

// Who is gone leaves its place to another, but not that of its requests under way.
#[test]
fn a_ledger_counts(rt: HostRuntime) -> Result<(), Fail> {
    let mut ledger = Ledger::new(rt.alloc(), TWO.as_slice())?;
    assert!(rt; ledger.bind(1, 0)?);
    assert!(rt; !ledger.bind(2, 0)?);
    assert!(rt; !ledger.bind(1, 1)?);
    assert!(rt; ledger.bind(2, 1)?);
    for client in [1u64, 2, 1, 9] {
        ledger.accepted(client);
    }
    ledger.leave(1);
    assert!(rt; !ledger.admits(1));
    assert!(rt; ledger.bind(3, 0)?);
    assert!(rt; !ledger.admits(3));
    ledger.settled(1);
    assert!(rt; ledger.admits(3));
    let counts = [
        ledger.of_account(0),
        ledger.of_account(1),
        ledger.of_account(2),
    ];
    assert_eq!(rt; counts, [1, 1, 0]);
    let bound = [ledger.bound_by(0), ledger.bound_by(1), ledger.bound_by(2)];
    assert_eq!(rt; bound, [1, 1, 0]);
    ledger.settled(1);
    ledger.settled(1);
    assert_eq!(rt; [ledger.of_account(0), ledger.under_way()], [0, 1]);
    ledger.drain();
    assert!(rt; ledger.is_draining());
    assert!(rt; !ledger.admits(2));
    assert!(rt; !ledger.bind(4, 1)?);
    ledger.settled(2);
    assert_eq!(rt; ledger.under_way(), 0);
    Ok(())
}

// Numbers that leave the same rest by 1,024 have one row: those of whom another one has it are kept apart.
#[test]
fn clients_share_a_row(rt: HostRuntime) -> Result<(), Fail> {
    let mut ledger = Ledger::new(rt.alloc(), TWO.as_slice())?;
    for client in [1u64, 1_025, 2_049] {
        assert!(rt; ledger.bind(client, 1)?);
    }
    for client in [1u64, 1_025, 1_025, 2_049] {
        ledger.accepted(client);
    }
    ledger.leave(1);
    ledger.leave(1_025);
    ledger.settled(1);
    assert!(rt; ledger.bind(3_073, 1)?);
    ledger.accepted(3_073);
    ledger.settled(1_025);
    let counts = [
        ledger.of_client(1),
        ledger.of_client(1_025),
        ledger.of_client(2_049),
        ledger.of_client(3_073),
    ];
    assert_eq!(rt; counts, [0, 1, 1, 1]);
    assert_eq!(rt; [ledger.bound_by(1), ledger.under_way()], [2, 3]);
    Ok(())
}

// A bind that is refused for want of memory alone is noted, and binds nobody. Only a client of whom another
// one has the row takes memory.
#[test]
fn a_bind_without_memory_is_noted(rt: HostRuntime) -> Result<(), Fail> {
    let mut schedule = Schedule::new(rt.alloc(), 8)?;
    let roll = Roll::new(rt.alloc(), 4)?;
    let mut ledger = Ledger::new(rt.alloc(), TWO.as_slice())?;
    let mut hints = Hints::new(rt.alloc(), 4, 3)?;
    assert!(rt; ledger.bind(1, 1)?);
    let turn = ClientTurn {
        client: 1_025,
        slot: 0,
        may_read: true,
        may_refuse: true,
    };
    let mut bell = ClientBell::new(3, &mut schedule, &roll, &mut ledger, &mut hints, turn);
    let is_bound = bell.at(Point::Binding(1), 1);
    assert_eq!(rt; bell.has_lacked_memory(), !is_bound);
    assert_eq!(rt; bell.account().is_some(), is_bound);
    assert_eq!(rt; ledger.bound_by(1), 1 + u64::from(is_bound));
    Ok(())
}

// The first account becomes the second, with one request at most; the second is gone, and its client keeps
// what it had. The new first one takes nobody.
#[test]
fn accounts_move(rt: HostRuntime) -> Result<(), Fail> {
    let mut ledger = Ledger::new(rt.alloc(), TWO.as_slice())?;
    assert!(rt; ledger.bind(1, 0)?);
    assert!(rt; ledger.bind(2, 1)?);
    for client in [1u64, 2, 2] {
        ledger.accepted(client);
    }
    let limits = [
        AccountLimits {
            binds: Some(0),
            requests: None,
        },
        AccountLimits {
            binds: Some(2),
            requests: Some(1),
        },
    ];
    let moves: [Option<usize>; 2] = [Some(1), None];
    ledger.renew(moves.as_slice(), limits.as_slice())?;
    let counts = [
        ledger.of_account(0),
        ledger.of_account(1),
        ledger.under_way(),
    ];
    assert_eq!(rt; counts, [0, 1, 3]);
    assert!(rt; !ledger.bind(3, 0)?);
    assert!(rt; !ledger.admits(1));
    assert!(rt; ledger.admits(2));
    assert!(rt; ledger.bind(3, 1)?);
    assert!(rt; !ledger.bind(4, 1)?);
    ledger.settled(1);
    assert!(rt; ledger.admits(3));
    Ok(())
}

// Adds a prefix of client 1, a longer one of client 2, and one of client 9, who has no slot.
fn add_all<R: Wait>(rt: &R, guide: &mut Guide) -> Result<(), RouteFault> {
    guide.add(rt, b"49", 1)?;
    guide.add(rt, b"491", 2)?;
    guide.add(rt, b"5", 9)
}

fn found<R: Wait>(rt: &R, guide: &mut Guide) -> [Option<Place>; 3] {
    [
        guide.find(rt, b"4915"),
        guide.find(rt, b"4815"),
        guide.find(rt, b"55"),
    ]
}

// The longest prefix decides; a client that has no slot gets nothing.
#[test]
fn a_guide_finds_slots(rt: HostRuntime) -> Result<(), Fail> {
    let mut routes = Routes::new(rt.alloc());
    let mut roll = Roll::new(rt.alloc(), 4)?;
    roll.add(1, 3);
    roll.add(2, 0);
    let mut guide = Guide::new(&mut routes, &roll);
    add_all(&rt, &mut guide)?;
    let second = Some(Place { client: 2, slot: 0 });
    let wanted = [second, None, None];
    assert_eq!(rt; found(&rt, &mut guide), wanted);
    guide.remove(&rt, 2);
    let first = Some(Place { client: 1, slot: 3 });
    assert_eq!(rt; found(&rt, &mut guide), [first, None, None]);
    Ok(())
}

// The first slot and the second, how many senders the first has, and the slot that is given once the
// first came back. None where there are others than two.
fn picked(slots: &mut Slots) -> Option<[usize; 4]> {
    let (first, ends) = slots.pick()?;
    let senders = ends.senders.len();
    let second = number_of(slots.pick())?;
    if slots.pick().is_some() {
        return None;
    }
    slots.give_back(first, ends);
    let again = number_of(slots.pick())?;
    Some([first, second, senders, again])
}

fn number_of(picked: Option<(usize, ClientEnds)>) -> Option<usize> {
    let (slot, _) = picked?;
    Some(slot)
}

// A slot is given once, and again when it came back.
#[test]
fn slots_come_back(rt: HostRuntime) -> Result<(), Fail> {
    let (ends, lanes) = ends_of(&rt, rt.alloc(), 2, 3, 4)?;
    assert_eq!(rt; lanes.len(), 3);
    let mut slots = Slots::new(rt.alloc(), ends)?;
    assert_eq!(rt; picked(&mut slots), Some([0, 1, 3, 0]));
    Ok(())
}
