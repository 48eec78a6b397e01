//! Two ports and a tap in threads of their own, beside a loopback centre that answers each request
//! twice, or once as a stranger: every request comes back to its port once, and the lane's history is
//! legal, also where the tap turns the lane over after each 100 takes, and where tap and ports only try
//! for the lane: then each answer is that another has it, or the true one.
ghost use Rattle.std.specs.Prelude.{◌≡◌};

use super::*;
use crate::hall::last_line;
use smx_centre::{Centre, Mode};
use smx_legal::is_legal_shifts;
use std::rt::Clock;
use std::sync::atomic::{AtomicBool, Ordering};
use std::test::*;
use std::thread;
use std::thread::{Threads, join};
use std::time::Duration;

const LIMITS: Limits = Limits {
    queue: 400,
    window: 16,
    client: 256,
    history: 10_000,
};

// How many requests a client submits, with its own numbers 1 and on.
const REQUESTS: u32 = 200;

// How often a client looks for the other's first accept, a millisecond apart at the least, and how
// often for a response.
const LOOKS: u32 = 10_000;

const COLLECTS: u32 = 100_000_000;

const TAKES: u32 = 100_000_000;

// After how many takes the lane is turned over.
const SHIFT: u32 = 100;

// What the centre and the tap do.
#[derive(Clone, Copy)]
struct Course {
    mode: Mode,
    // Whether the tap turns the lane over after each 100 takes.
    turns: bool,
    // Whether tap and ports only try for the lane.
    tries: bool,
}

// Notes a response, which has to be of a request of the client's that had none before.
fn note(rt: &impl Abort, came: &mut [bool], own: u32) {
    let place = came.get_mut(own.wrapping_sub(1) as usize);
    let place = place.expect(rt, "a response is not the client's");
    assert!(rt; !*place, "a response came before");
    *place = true;
}

impl Client<'_> {
    // Submits, collects and leaves. The one flag tells of its first accept, the other of the other
    // client's.
    fn goes_through<R: Wait + Clock + Abort>(
        self,
        rt: &R,
        alloc: Global,
        tries: bool,
        mine: &AtomicBool,
        other: &AtomicBool,
    ) {
        let mut client = self;
        client.submit_all(rt, alloc, mine, other);
        client.collect_all(rt, tries);
        assert!(rt; client.leave(rt));
    }

    fn submit_all<R: Wait + Clock + Abort>(
        &mut self,
        rt: &R,
        alloc: Global,
        mine: &AtomicBool,
        other: &AtomicBool,
    ) {
        for own in 1..=REQUESTS {
            assert!(rt; self.submit(rt, own, Body::empty(alloc)) == Ok(0));
            if own == 1 {
                meet(rt, mine, other);
            }
        }
    }

    // Each response comes once, with a number of the client's own. It waits for each.
    fn collect_all<R: Wait + Abort>(&mut self, rt: &R, tries: bool) {
        let mut came = [false; 200];
        let mut count = 0u32;
        for _ in 0..COLLECTS {
            if count >= REQUESTS {
                return;
            }
            match self.next(rt, tries) {
                Some(own) => {
                    note(rt, &mut came, own);
                    count = count.saturating_add(1);
                }
                None => thread::yield_now(),
            }
        }
        panic!(rt; "no response comes")
    }

    // The number of the next response, where one waits and, of a client that only tries, the lane is
    // free.
    fn next<R: Wait>(&mut self, rt: &R, tries: bool) -> Option<u32> {
        let found = if tries {
            self.try_collect().ok()
        } else {
            self.collect(rt, 0).ok()
        };
        let response = found??;
        Some(response.number)
    }
}

// Tells the other client of this one's first accept, and waits for the other's: one thread alone can't
// pass.
fn meet<R: Clock + Abort>(rt: &R, mine: &AtomicBool, other: &AtomicBool) {
    mine.store(true, Ordering::SeqCst);
    for _ in 0..LOOKS {
        if other.load(Ordering::SeqCst) {
            return;
        }
        thread::sleep(rt, Duration::from_millis(1));
    }
    panic!(rt; "the other client's first request is not accepted")
}

// How many answers the tap queued, how many answered no request, and the lists that it got when it
// turned its lane over, in order.
#[derive(Drop)]
struct Served {
    queued: u32,
    unknown: u32,
    lists: Vec<Vec<Entry>>,
}

impl Line<'_> {
    // Takes until both clients' requests were answered, and brings each answer of the centre.
    fn serve<R: Wait + Abort>(self, rt: &R, alloc: Global, course: Course) -> Served {
        let mut line = self;
        let mut centre = Centre::new(alloc, course.mode);
        let mut served = Served {
            queued: 0,
            unknown: 0,
            lists: Vec::new(alloc),
        };
        let mut taken = 0u32;
        for _ in 0..TAKES {
            if served.queued >= 2 * REQUESTS {
                break;
            }
            let Some(sent) = line.next(rt, course.tries) else {
                thread::yield_now();
                continue;
            };
            taken = taken.saturating_add(1);
            if course.turns && taken % SHIFT == 0 {
                line.list(rt, &mut served.lists);
            }
            line.send(rt, &mut centre, sent, &mut served);
        }
        served
    }

    fn next<R: Wait>(&mut self, rt: &R, tries: bool) -> Option<Sent> {
        if tries {
            return self.tap.try_take(self.at, 0).ok();
        }
        self.tap.take(self.at, rt, 0).ok()
    }

    // Keeps what the lane hands out as it is turned over.
    fn list<R: Wait + Abort>(&mut self, rt: &R, lists: &mut Vec<Vec<Entry>>) {
        let handed = self.tap.turn_over(self.at, rt, 1);
        let handed = handed.expect(rt, "the lane is not turned over");
        let list = handed.expect(rt, "the lane hands out no list");
        lists.push(list).expect(rt, "out of memory");
    }

    // Sends the request to the centre, and brings each answer.
    fn send<R: Wait + Abort>(
        &mut self,
        rt: &R,
        centre: &mut Centre,
        sent: Sent,
        served: &mut Served,
    ) {
        let request = sent.request;
        let upstream = Pdu {
            command: request.command,
            status: 0,
            number: sent.upstream,
            body: request.body,
        };
        for answer in centre.on_pdu(&upstream).expect(rt, "out of memory") {
            count(rt, self.bring(rt, answer), served);
        }
    }
}

fn count(rt: &impl Abort, brought: Brought, served: &mut Served) {
    match brought {
        Brought::To(_) => served.queued = served.queued.saturating_add(1),
        Brought::Unknown(_) => served.unknown = served.unknown.saturating_add(1),
        Brought::Late => panic!(rt; "an answer came late"),
        Brought::Spent => panic!(rt; "the lane is spent"),
    }
}

fn entries_of(lists: &[Vec<Entry>]) -> usize {
    let mut entries: usize = 0;
    for list in lists {
        entries = entries.saturating_add(list.len());
    }
    entries
}

// The tap has the counts that it should have, and its lists and the lane's entries are a legal history.
fn check(rt: &impl Abort, served: &mut Served, lane: &Lane, handed: usize) {
    let alloc = *served.lists.allocator();
    let last = Vec::from_slice(alloc, lane.entries()).expect(rt, "out of memory");
    let stored = entries_of(&served.lists).saturating_add(last.len());
    let found = [
        served.queued as usize,
        served.unknown as usize,
        served.lists.len(),
        stored,
    ];
    let both = 2 * REQUESTS as usize;
    assert!(rt; found == [both, both, handed, 1_604]);
    served.lists.push(last).expect(rt, "out of memory");
    assert!(rt;
        is_legal_shifts(&served.lists, lane.limits()),
        "the history is not legal"
    );
}

// Two clients and the tap of the only lane, with a centre behind it, each in a thread of its own.
fn run_course<R: Threads + Wait + Clock + Abort + Sync>(rt: &R, alloc: Global, course: Course) {
    let Hall {
        exchange,
        mut door,
        taps,
    } = Hall::new(rt, alloc, LIMITS, 1, Starts::FIRST);
    let line = last_line(rt, &exchange, taps);
    let first = enter(rt, &exchange, &mut door).expect(rt, "no client");
    let second = enter(rt, &exchange, &mut door).expect(rt, "no client");
    let (one, two) = (AtomicBool::new(false), AtomicBool::new(false));
    let tries = course.tries;
    let (mut served, ()) = join(
        rt,
        || line.serve(rt, alloc, course),
        || {
            join(
                rt,
                || first.goes_through(rt, alloc, tries, &one, &two),
                || second.goes_through(rt, alloc, tries, &two, &one),
            );
        },
    );
    let lanes = lanes_of(rt, exchange, door);
    let lane = lanes.last().expect(rt, "there is one lane");
    check(rt, &mut served, lane, if course.turns { 4 } else { 0 });
}

#[test]
fn threads_beside_a_centre_that_answers_twice(rt: HostRuntime) {
    let course = Course {
        mode: Mode::Twice,
        turns: false,
        tries: false,
    };
    run_course(&rt, rt.alloc(), course);
}

#[test]
fn threads_beside_a_centre_that_answers_a_stranger(rt: HostRuntime) {
    let course = Course {
        mode: Mode::Stranger,
        turns: false,
        tries: false,
    };
    run_course(&rt, rt.alloc(), course);
}

#[test]
fn threads_of_a_lane_that_is_turned_over(rt: HostRuntime) {
    let course = Course {
        mode: Mode::Twice,
        turns: true,
        tries: false,
    };
    run_course(&rt, rt.alloc(), course);
}

#[test]
fn threads_that_only_try_for_the_lane(rt: HostRuntime) {
    let course = Course {
        mode: Mode::Twice,
        turns: false,
        tries: true,
    };
    run_course(&rt, rt.alloc(), course);
}
