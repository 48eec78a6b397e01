//! What a list of entries tells, read anew for each question.

use smx_lane::{Entry, Kind};

const GENERIC_NACK: u32 = 0x8000_0000;

// What ends a request that was taken.
const ENDS: [Kind; 3] = [Kind::Answer, Kind::Late, Kind::Fail];

/// Whose entries are looked for.
#[derive(Clone, Copy)]
pub(crate) enum Whose {
    All,
    Client(u64),
    // Of the client's request with the ordinal.
    Request(u64, u64),
}

/// What was looked for: how many entries, the last of them, and the one after so many others.
#[derive(Clone, Copy)]
pub(crate) struct Found {
    pub(crate) count: usize,
    pub(crate) last: Option<Entry>,
    pub(crate) nth: Option<Entry>,
}

fn is_of(entry: &Entry, whose: Whose) -> bool {
    match whose {
        Whose::All => true,
        Whose::Client(client) => entry.client == client,
        Whose::Request(client, ordinal) => entry.client == client && entry.ordinal == ordinal,
    }
}

/// Looks for the entries of these kinds.
pub(crate) fn find(entries: &[Entry], kinds: &[Kind], whose: Whose, others: usize) -> Found {
    let mut found = Found {
        count: 0,
        last: None,
        nth: None,
    };
    for entry in entries {
        if is_of(entry, whose) && kinds.contains(&entry.kind) {
            found.last = Some(*entry);
            if found.count == others {
                found.nth = found.last;
            }
            found.count = found.count.saturating_add(1);
        }
    }
    found
}

/// How many entries are of the kind.
pub(crate) fn count(entries: &[Entry], kind: Kind, whose: Whose) -> usize {
    find(entries, &[kind], whose, 0).count
}

/// Whether an answer to the entry's request came, in time or late, or it failed.
pub(crate) fn is_settled(entries: &[Entry], entry: &Entry) -> bool {
    let request = Whose::Request(entry.client, entry.ordinal);
    find(entries, &ENDS, request, 0).count > 0
}

/// How many takes have no answer and did not fail.
pub(crate) fn open(entries: &[Entry]) -> usize {
    let ended = find(entries, &ENDS, Whose::All, 0).count;
    count(entries, Kind::Take, Whose::All).saturating_sub(ended)
}

/// How many requests wait to be taken.
pub(crate) fn queued(entries: &[Entry]) -> usize {
    let taken = count(entries, Kind::Take, Whose::All);
    count(entries, Kind::Accept, Whose::All).saturating_sub(taken)
}

/// The greatest number of a client that was admitted.
pub(crate) fn greatest(entries: &[Entry]) -> u64 {
    match find(entries, &[Kind::Admit], Whose::All, 0).last {
        Some(entry) => entry.client,
        None => 0,
    }
}

/// Whether the client was admitted and has not retired.
pub(crate) fn is_present(entries: &[Entry], client: u64) -> bool {
    let client = Whose::Client(client);
    count(entries, Kind::Admit, client) == 1 && count(entries, Kind::Retire, client) == 0
}

/// The ordinal of the client's last accept.
pub(crate) fn last_ordinal(entries: &[Entry], client: u64) -> u64 {
    match find(entries, &[Kind::Accept], Whose::Client(client), 0).last {
        Some(entry) => entry.ordinal,
        None => 0,
    }
}

/// Whether there is a link upstream: the last word on it, and there is one at first.
pub(crate) fn is_up(entries: &[Entry]) -> bool {
    match find(entries, &[Kind::Down, Kind::Up], Whose::All, 0).last {
        Some(entry) => entry.kind == Kind::Up,
        None => true,
    }
}

/// How many clients are present, and how many responses wait for them: those that came, and those
/// that tell of failures.
pub(crate) fn present_and_waiting(entries: &[Entry]) -> usize {
    let mut all = 0usize;
    for entry in entries {
        if entry.kind == Kind::Admit && is_present(entries, entry.client) {
            let client = Whose::Client(entry.client);
            let came = find(entries, &[Kind::Answer, Kind::Fail], client, 0).count;
            let waiting = came.saturating_sub(count(entries, Kind::Collect, client));
            all = all.saturating_add(waiting).saturating_add(1);
        }
    }
    all
}

// The place of the window that a number names.
fn place_in(number: u32) -> u32 {
    number.saturating_sub(1) % 1_024
}

// The place that the next take has: of those that are free the one that became so last, and at first
// the lowest. So it is that of the last end whose place was not taken since, or else of those that no
// take had yet.
fn next_place(entries: &[Entry]) -> u32 {
    let mut taken = 0u32;
    for behind in 0..entries.len() {
        let entry = &entries[entries.len() - 1 - behind];
        if entry.kind == Kind::Take {
            taken = taken.saturating_add(1);
        } else if ENDS.contains(&entry.kind) {
            if taken == 0 {
                return place_in(entry.number);
            }
            taken = taken.saturating_sub(1);
        }
    }
    taken
}

/// The number that the next take gives: its place is in the generation that counts how often it was
/// given before.
pub(crate) fn next_number(entries: &[Entry]) -> u32 {
    let place = next_place(entries);
    let mut given = 0u32;
    for entry in entries {
        if entry.kind == Kind::Take && place_in(entry.number) == place {
            given = given.saturating_add(1);
        }
    }
    given
        .saturating_mul(1_024)
        .saturating_add(place)
        .saturating_add(1)
}

/// The number of a take that so many others came after; 0 where there is none.
pub(crate) fn number_before(entries: &[Entry], others: usize) -> u32 {
    let takes = count(entries, Kind::Take, Whose::All);
    if takes <= others {
        return 0;
    }
    match find(entries, &[Kind::Take], Whose::All, takes - others - 1).nth {
        Some(take) => take.number,
        None => 0,
    }
}

/// The accept of the client's request: what the client called it, and its command.
pub(crate) fn accept_of(entries: &[Entry], client: u64, ordinal: u64) -> Option<Entry> {
    find(entries, &[Kind::Accept], Whose::Request(client, ordinal), 0).nth
}

/// The accept of the request that a response with the number and the command answers.
pub(crate) fn answered(entries: &[Entry], number: u32, command: u32) -> Option<Entry> {
    for take in entries {
        if take.kind == Kind::Take && take.number == number && !is_settled(entries, take) {
            let accept = accept_of(entries, take.client, take.ordinal)?;
            let fits = command == accept.command | GENERIC_NACK || command == GENERIC_NACK;
            return fits.then_some(accept);
        }
    }
    None
}

/// The accept of the request in the window that bears the number.
pub(crate) fn borne(entries: &[Entry], number: u32) -> Option<Entry> {
    answered(entries, number, GENERIC_NACK)
}

/// The client's oldest answer or failure that it has not collected.
pub(crate) fn oldest_answer(entries: &[Entry], client: u64) -> Option<Entry> {
    if !is_present(entries, client) {
        return None;
    }
    let collected = count(entries, Kind::Collect, Whose::Client(client));
    let kinds = [Kind::Answer, Kind::Fail];
    find(entries, &kinds, Whose::Client(client), collected).nth
}
