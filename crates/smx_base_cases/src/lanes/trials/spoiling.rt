//! Changes of one entry that make a legal list illegal.

use smx_lane::{Entry, Kind};
use std::process::Abort;

/// One change of a list of entries.
#[derive(Clone, Copy)]
pub(crate) enum Spoiling {
    /// The first entry of the kind stands twice.
    Repeated(Kind),
    /// The first entry of the second kind that comes of one of the first kind before it changes places
    /// with that.
    Swapped(Kind, Kind),
    /// The last entry of the second kind changes places with the last one of the first kind before it.
    Exchanged(Kind, Kind),
    /// The first entry of the kind is another caller's.
    By(Kind),
    /// It is another client's.
    Client(Kind),
    /// It has another ordinal.
    Ordinal(Kind),
    /// It has no number.
    Number(Kind),
    /// It has the command of deliver_sm_resp, which answers no forwarded request.
    Command(Kind),
    /// The first answer is a late one, though its client has not retired.
    Late,
    /// A client hands in a request after it has retired.
    AfterRetire,
    /// The first failure has the other command of those that answer its request: generic_nack in
    /// place of a response, else the response to query_sm.
    OtherFailure,
    /// The request that failed first is answered after that.
    FailedAnswered,
    /// The request that was answered first fails after that.
    AnsweredFails,
    /// The request that was taken last bears the number of the one that was answered first.
    OneNumber,
}

pub(crate) const SPOILINGS: [Spoiling; 35] = [
    Spoiling::Repeated(Kind::Admit),
    Spoiling::Repeated(Kind::Accept),
    Spoiling::Repeated(Kind::Take),
    Spoiling::Repeated(Kind::Answer),
    Spoiling::Repeated(Kind::Collect),
    Spoiling::Repeated(Kind::Retire),
    Spoiling::Repeated(Kind::Fail),
    Spoiling::Repeated(Kind::Down),
    Spoiling::Repeated(Kind::Up),
    Spoiling::Swapped(Kind::Admit, Kind::Accept),
    Spoiling::Swapped(Kind::Accept, Kind::Take),
    Spoiling::Swapped(Kind::Take, Kind::Answer),
    Spoiling::Swapped(Kind::Answer, Kind::Collect),
    Spoiling::Swapped(Kind::Take, Kind::Fail),
    Spoiling::Exchanged(Kind::Accept, Kind::Down),
    Spoiling::Exchanged(Kind::Take, Kind::Down),
    Spoiling::Exchanged(Kind::Fail, Kind::Up),
    Spoiling::By(Kind::Accept),
    Spoiling::By(Kind::Collect),
    Spoiling::By(Kind::Retire),
    Spoiling::Client(Kind::Take),
    Spoiling::Client(Kind::Down),
    Spoiling::Ordinal(Kind::Collect),
    Spoiling::Ordinal(Kind::Up),
    Spoiling::Number(Kind::Take),
    Spoiling::Number(Kind::Answer),
    Spoiling::Number(Kind::Fail),
    Spoiling::Command(Kind::Answer),
    Spoiling::Command(Kind::Fail),
    Spoiling::Late,
    Spoiling::AfterRetire,
    Spoiling::OtherFailure,
    Spoiling::FailedAnswered,
    Spoiling::AnsweredFails,
    Spoiling::OneNumber,
];

// Of the commands that answer the request, the one that does not tell of its failure.
fn other_failure(command: u32) -> u32 {
    if command == 0x8000_0000 {
        0x8000_0003
    } else {
        0x8000_0000
    }
}

impl Spoiling {
    // The kind of the entry that is changed, or that the change comes after.
    fn kind(self) -> Kind {
        match self {
            Spoiling::Repeated(kind)
            | Spoiling::Swapped(_, kind)
            | Spoiling::Exchanged(_, kind)
            | Spoiling::By(kind)
            | Spoiling::Client(kind)
            | Spoiling::Ordinal(kind)
            | Spoiling::Number(kind)
            | Spoiling::Command(kind) => kind,
            Spoiling::Late | Spoiling::AnsweredFails | Spoiling::OneNumber => Kind::Answer,
            Spoiling::AfterRetire => Kind::Retire,
            Spoiling::OtherFailure | Spoiling::FailedAnswered => Kind::Fail,
        }
    }

    // The entry that stands in place of the one that is changed.
    fn changed(self, entry: Entry) -> Entry {
        let mut changed = entry;
        match self {
            Spoiling::By(_) => changed.by ^= 1,
            Spoiling::Client(_) => changed.client ^= 0x1_0000_0000,
            Spoiling::Ordinal(_) => changed.ordinal ^= 0x1_0000_0000,
            Spoiling::Number(_) => changed.number = 0,
            Spoiling::Command(_) => changed.command = 0x8000_0005,
            Spoiling::Late => changed.kind = Kind::Late,
            Spoiling::OtherFailure => changed.command = other_failure(entry.command),
            _ => {}
        }
        changed
    }

    // The entry that the change adds behind it.
    fn added(self, entry: Entry) -> Option<Entry> {
        match self {
            Spoiling::Repeated(_) => Some(entry),
            Spoiling::AfterRetire => Some(Entry {
                kind: Kind::Accept,
                ordinal: 0x1_0000_0000,
                number: 1,
                command: 0x0000_0004,
                ..entry
            }),
            Spoiling::FailedAnswered => Some(Entry {
                kind: Kind::Answer,
                ..entry
            }),
            Spoiling::AnsweredFails => Some(Entry {
                kind: Kind::Fail,
                ..entry
            }),
            _ => None,
        }
    }

    /// Spoils the entries so, and tells whether there is an entry to spoil.
    pub(crate) fn spoils(self, rt: &impl Abort, entries: &mut Vec<Entry>) -> bool {
        let Some(at) = first_of(entries, self.kind()) else {
            return false;
        };
        match self {
            Spoiling::Swapped(before, kind) => swap(entries, before, kind),
            Spoiling::Exchanged(before, kind) => exchange(entries, before, kind),
            Spoiling::OneNumber => renumber(entries, at),
            _ => self.alters(rt, entries, at),
        }
    }

    // Changes the entry at the index, or adds one behind it.
    fn alters(self, rt: &impl Abort, entries: &mut Vec<Entry>, at: usize) -> bool {
        if at >= entries.len() {
            return false;
        }
        let entry = entries[at];
        entries[at] = self.changed(entry);
        if let Some(added) = self.added(entry) {
            entries.insert(at + 1, added).expect(rt, "out of memory");
        }
        true
    }
}

// Where the first entry of the kind stands.
fn first_of(entries: &[Entry], kind: Kind) -> Option<usize> {
    for at in 0..entries.len() {
        if entries[at].kind == kind {
            return Some(at);
        }
    }
    None
}

// Where the last entry of the kind stands among the first of the list.
fn last_of(entries: &[Entry], kind: Kind, end: usize) -> Option<usize> {
    let mut last = None;
    for at in 0..end.min(entries.len()) {
        if entries[at].kind == kind {
            last = Some(at);
        }
    }
    last
}

// Where the entry of the kind stands that has the same client and, but for an admit, the same ordinal.
fn origin_of(entries: &[Entry], before: Kind, entry: Entry) -> Option<usize> {
    for at in 0..entries.len() {
        let other = &entries[at];
        let same = before == Kind::Admit || other.ordinal == entry.ordinal;
        if other.kind == before && other.client == entry.client && same {
            return Some(at);
        }
    }
    None
}

// The first entry of the second kind that has one of the first kind so, in the place of that.
fn swap(entries: &mut [Entry], before: Kind, kind: Kind) -> bool {
    for at in 0..entries.len() {
        let entry = entries[at];
        if entry.kind == kind {
            if let Some(from) = origin_of(entries, before, entry) {
                return replace(entries, from, at);
            }
        }
    }
    false
}

// The last entry of the second kind in the place of the last one of the first kind before it.
fn exchange(entries: &mut [Entry], before: Kind, kind: Kind) -> bool {
    let Some(at) = last_of(entries, kind, entries.len()) else {
        return false;
    };
    match last_of(entries, before, at) {
        Some(from) => replace(entries, from, at),
        None => false,
    }
}

// The two entries in each other's place.
fn replace(entries: &mut [Entry], from: usize, at: usize) -> bool {
    let within = from < entries.len() && at < entries.len();
    if within {
        entries.swap(from, at);
    }
    within
}

// The number of the answer at the index in place of the one that the last request to be taken bears,
// where that was taken after the answer. So nothing is wrong but that two takes give one number.
fn renumber(entries: &mut [Entry], at: usize) -> bool {
    let Some(last) = last_of(entries, Kind::Take, entries.len()) else {
        return false;
    };
    if last < at || last >= entries.len() {
        return false;
    }
    let (number, take) = (entries[at].number, entries[last]);
    for entry in entries {
        let bears = matches!(
            entry.kind,
            Kind::Take | Kind::Answer | Kind::Late | Kind::Fail
        );
        if bears && entry.client == take.client && entry.ordinal == take.ordinal {
            entry.number = number;
        }
    }
    true
}
