//! A lane beside a slow model that reads the whole history at each call: ten thousand calls by chance, each
//! reply compared, and the last history, which is legal until it is spoiled.

mod chance;
mod model;
mod past;
mod spoiling;

use crate::lanes::said::said;
use crate::lanes::trials::chance::{Asked, Chance, call_of};
use crate::lanes::trials::model::Model;
use crate::lanes::trials::spoiling::{SPOILINGS, Spoiling};
use crate::rows::check;
use smx_lane::{Entry, Lane, Limits, Refusal, Reply, run};
use smx_legal::is_legal;
use std::alloc::Global;
use std::process::Abort;
use std::test::*;

const CALLS: u32 = 10_000;

const LIMITS: Limits = Limits {
    queue: 6,
    window: 4,
    client: 3,
    history: 1_000,
};

fn new_lane(rt: &impl Abort, alloc: Global) -> Lane {
    Lane::new(alloc, LIMITS).expect(rt, "no lane")
}

// Asserts that the lane's reply to a call is that of the model, which stores the call too.
fn compare(rt: &impl Abort, lane: &Lane, model: &mut Model, asked: Asked, reply: &Reply) {
    // Of a request that fails the lane's newest entry has the number upstream.
    let chosen = match lane.last_entry() {
        Some(entry) => entry.number,
        None => 0,
    };
    let (found, (wanted, stored)) = (said(reply), model.judge(asked, chosen));
    let calls = model.entries.len();
    check(rt, found == wanted, found.0, calls);
    if let Some(entry) = stored {
        model.note(rt, entry, asked.now);
    }
    let are_same = lane.entries() == model.entries.as_slice();
    check(rt, are_same, "the entries differ", calls);
}

// Whether another history begins behind the call with this reply, as behind one in eight of the
// requests for which this one has no room.
fn ends(chance: &mut Chance, reply: &Reply) -> bool {
    match reply {
        Reply::Accepted(Err((_, Refusal::HistoryFull))) => chance.below(8) == 0,
        Reply::Expired(Ok(_)) => {
            chance.has_expired = true;
            false
        }
        _ => false,
    }
}

// Makes a call, and tells whether another history begins behind it.
fn step(
    rt: &impl Abort,
    alloc: Global,
    chance: &mut Chance,
    lane: &mut Lane,
    model: &mut Model,
) -> bool {
    let asked = chance.asked(&model.entries);
    let reply = run(lane, call_of(rt, alloc, asked));
    compare(rt, lane, model, asked, &reply);
    ends(chance, &reply)
}

// Makes calls until another history begins, or all are made.
fn play(rt: &impl Abort, alloc: Global, chance: &mut Chance, lane: &mut Lane, model: &mut Model) {
    for _ in chance.calls..CALLS {
        if step(rt, alloc, chance, lane, model) {
            break;
        }
    }
}

// A history, which is legal.
fn history(rt: &impl Abort, alloc: Global, chance: &mut Chance) -> Vec<Entry> {
    let mut lane = new_lane(rt, alloc);
    let mut model = Model::new(alloc);
    play(rt, alloc, chance, &mut lane, &mut model);
    let is_legal = is_legal(lane.entries(), LIMITS);
    check(rt, is_legal, "legal history", 0);
    model.entries
}

// Makes the calls, and gives the history that they end with.
fn played(rt: &impl Abort, alloc: Global) -> Vec<Entry> {
    let mut chance = Chance::new();
    let mut entries = Vec::new(alloc);
    for _ in 0..CALLS {
        if chance.calls < CALLS {
            entries = history(rt, alloc, &mut chance);
        }
    }
    assert!(rt; chance.has_expired, "no request was too old");
    entries
}

// Whether there is an entry to spoil so, and the entries are illegal then.
fn finds(rt: &impl Abort, alloc: Global, entries: &[Entry], spoiling: Spoiling) -> bool {
    let mut spoiled = Vec::from_slice(alloc, entries).expect(rt, "out of memory");
    spoiling.spoils(rt, &mut spoiled) & !is_legal(&spoiled, LIMITS)
}

#[test]
fn lanes_agree_with_a_slow_model(rt: HostRuntime) {
    let entries = played(&rt, rt.alloc());
    for at in 0..SPOILINGS.len() {
        let is_found = finds(&rt, rt.alloc(), &entries, SPOILINGS[at]);
        check(&rt, is_found, "spoiling", at);
    }
}
