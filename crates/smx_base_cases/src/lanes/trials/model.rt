//! The slow model: a list of entries, read anew at each call.

use super::LIMITS;
use super::chance::Asked;
use super::past::{
    Whose, accept_of, answered, borne, count, find, greatest, is_present, is_settled, is_up,
    next_number, oldest_answer, open, present_and_waiting, queued,
};
use crate::lanes::said::{Said, mark, word, word_of};
use smx_lane::{Entry, Kind};
use std::alloc::Global;
use std::process::Abort;

/// What a lane stores after its calls, and when its takes were, and nothing else.
#[derive(Drop)]
pub(crate) struct Model {
    pub(crate) entries: Vec<Entry>,
    // Of each entry the moment of the last take up to it.
    moments: Vec<u64>,
}

/// What the reply to a call has to say, and what is stored of it.
pub(crate) type Judged = (Said, Option<Entry>);

fn refused(why: &'static str) -> Judged {
    (word(why), None)
}

fn done(what: &'static str, entry: Entry) -> Judged {
    (word(what), Some(entry))
}

// What tells a client that its request with the command failed: the response with ESME_RSUBMITFAIL of
// submit_sm and data_sm, generic_nack with ESME_RSYSERR of query_sm.
fn failure(request: u32) -> (u32, u32) {
    match request {
        0x0000_0004 => (0x8000_0004, 0x45),
        0x0000_0103 => (0x8000_0103, 0x45),
        _ => (0x8000_0000, 0x08),
    }
}

// Whether one more accept or admit fits.
fn has_room(entries: &[Entry]) -> bool {
    let used = entries
        .len()
        .saturating_add(queued(entries).saturating_mul(3))
        .saturating_add(open(entries).saturating_mul(2))
        .saturating_add(present_and_waiting(entries))
        .saturating_add(usize::from(is_up(entries)));
    used.saturating_add(4) <= LIMITS.history as usize
}

fn admit(entries: &[Entry], entry: Entry) -> Judged {
    if entry.client <= greatest(entries) {
        refused("known")
    } else if !has_room(entries) {
        refused("history full")
    } else {
        done("admitted", entry)
    }
}

fn accept(entries: &[Entry], entry: Entry) -> Judged {
    let own = Whose::Client(entry.client);
    let collected = count(entries, Kind::Collect, own);
    let pending = count(entries, Kind::Accept, own).saturating_sub(collected);
    let why = if !is_present(entries, entry.client) {
        "not admitted"
    } else if pending >= LIMITS.client as usize {
        "client full"
    } else if queued(entries) >= LIMITS.queue as usize {
        "queue full"
    } else if !has_room(entries) {
        "history full"
    } else if !is_up(entries) {
        "is down"
    } else {
        return done("accepted", entry);
    };
    (word_of(why, mark(entry.ordinal)), None)
}

fn take(entries: &[Entry], entry: Entry) -> Judged {
    let taken = count(entries, Kind::Take, Whose::All);
    let Some(next) = find(entries, &[Kind::Accept], Whose::All, taken).nth else {
        return refused("queue empty");
    };
    if open(entries) >= LIMITS.window as usize {
        return refused("window full");
    }
    if !is_up(entries) {
        return refused("is down");
    }
    let number = next_number(entries);
    if borne(entries, number).is_some() {
        return refused("no free number");
    }
    let (client, ordinal) = (next.client, next.ordinal);
    let (own, command) = (u64::from(next.number), u64::from(next.command));
    let numbers = [
        u64::from(number),
        client,
        ordinal,
        own,
        command,
        mark(ordinal),
    ];
    let stored = Entry {
        client,
        ordinal,
        number,
        ..entry
    };
    (("taken", numbers), Some(stored))
}

fn answer(entries: &[Entry], entry: Entry) -> Judged {
    let number = u64::from(entry.number);
    match answered(entries, entry.number, entry.command) {
        None => (("unknown", [number, mark(0), 0, 0, 0, 0]), None),
        Some(accept) if is_present(entries, accept.client) => {
            (word_of("queued", accept.client), Some(entry))
        }
        Some(_) => {
            let kind = Kind::Late;
            done("late", Entry { kind, ..entry })
        }
    }
}

fn collect(entries: &[Entry], entry: Entry) -> Judged {
    let Some(oldest) = oldest_answer(entries, entry.client) else {
        return refused("nothing");
    };
    let ordinal = oldest.ordinal;
    let Some(accept) = accept_of(entries, entry.client, ordinal) else {
        return refused("no accept");
    };
    let (command, status, mark) = if oldest.kind == Kind::Fail {
        let (command, status) = failure(accept.command);
        (command, status, 0)
    } else {
        (oldest.command, 0, mark(ordinal))
    };
    let (own, command) = (u64::from(accept.number), u64::from(command));
    let numbers = [own, command, u64::from(status), mark, 0, 0];
    (("collected", numbers), Some(Entry { ordinal, ..entry }))
}

// The request with the number fails.
fn fail(entries: &[Entry], entry: Entry, number: u32) -> Judged {
    let Some(accept) = borne(entries, number) else {
        return refused("no such request");
    };
    let (client, ordinal) = (accept.client, accept.ordinal);
    let stored = Entry {
        client,
        ordinal,
        number,
        command: failure(accept.command).0,
        ..entry
    };
    if is_present(entries, client) {
        (word_of("failed", client), Some(stored))
    } else {
        done("late", stored)
    }
}

fn come_up(entries: &[Entry], entry: Entry) -> Judged {
    if is_up(entries) {
        refused("is up")
    } else if open(entries) > 0 {
        refused("window not empty")
    } else if !has_room(entries) {
        refused("history full")
    } else {
        done("up", entry)
    }
}

// Stores the entry where there is what it is about.
fn store(is_there: bool, what: &'static str, entry: Entry, why: &'static str) -> Judged {
    if is_there {
        done(what, entry)
    } else {
        refused(why)
    }
}

impl Model {
    pub(crate) fn new(alloc: Global) -> Model {
        Model {
            entries: Vec::new(alloc),
            moments: Vec::new(alloc),
        }
    }

    // The moment of the last take.
    fn latest(&self) -> u64 {
        self.moments.last().copied().unwrap_or(0)
    }

    /// Stores what happened. A take's moment is that of the last take where that is greater.
    pub(crate) fn note(&mut self, rt: &impl Abort, entry: Entry, now: u64) {
        let latest = self.latest();
        let moment = if entry.kind == Kind::Take {
            now.max(latest)
        } else {
            latest
        };
        self.moments.push(moment).expect(rt, "out of memory");
        self.entries.push(entry).expect(rt, "out of memory");
    }

    // Whether a request that was taken at least so long ago is neither answered nor failed, the one with
    // the number where one is named.
    fn is_expired(&self, now: u64, age: u64, number: Option<u32>) -> bool {
        let now = u128::from(now.max(self.latest()));
        for at in 0..self.entries.len() {
            let take = self.entries[at];
            let moment = self.moments.get(at).copied().unwrap_or(0);
            let is_old = u128::from(moment) + u128::from(age) <= now;
            let is_it = take.kind == Kind::Take && number.unwrap_or(take.number) == take.number;
            if is_old && is_it && !is_settled(&self.entries, &take) {
                return true;
            }
        }
        false
    }

    fn fail(&self, asked: Asked, chosen: u32) -> Judged {
        let entries = self.entries.as_slice();
        match asked.age {
            None if is_up(entries) => refused("is up"),
            None if open(entries) == 0 => refused("window empty"),
            None => fail(entries, asked.entry, chosen),
            Some(age) if !self.is_expired(asked.now, age, None) => refused("none so old"),
            Some(age) if !self.is_expired(asked.now, age, Some(chosen)) => refused("not so old"),
            Some(_) => fail(entries, asked.entry, chosen),
        }
    }

    /// What comes of a call. The number is that of the request that fails, where one does: which one is
    /// the lane's choice.
    pub(crate) fn judge(&self, asked: Asked, chosen: u32) -> Judged {
        let (entries, entry) = (self.entries.as_slice(), asked.entry);
        match entry.kind {
            Kind::Admit => admit(entries, entry),
            Kind::Accept => accept(entries, entry),
            Kind::Take => take(entries, entry),
            Kind::Answer | Kind::Late => answer(entries, entry),
            Kind::Collect => collect(entries, entry),
            Kind::Retire => {
                let is_there = is_present(entries, entry.client);
                store(is_there, "retired", entry, "not admitted")
            }
            Kind::Down => store(is_up(entries), "down", entry, "is down"),
            Kind::Fail => self.fail(asked, chosen),
            Kind::Up => come_up(entries, entry),
        }
    }
}
