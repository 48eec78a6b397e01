//! Whether a finished history is legal.
ghost use Rattle.std.specs.Prelude.{◌≡◌, ◌≤◌, ◌+◌, ◌-◌, ◌*◌, ◌<◌, ◌^◌, ◌↔◌, [], ◌∷◌, ◌++◌, IsTrue, Some, None, MatchOption, map, length, if◌then◌else◌};
ghost use Rattle.smx_history.specs.Entries.{is_retired, answers_of, collects_of};
ghost use Rattle.smx_history.specs.Shifts.{marks_in};
ghost use Rattle.smx_history.specs.Legal.{IsFifo, IsLegal, KeepsRules};
ghost use Rattle.smx_history.proofs.Fitting.{Fits};
ghost use Rattle.smx_legal.specs.Checks.{Counted, Follows, entries_before, entries_in, lists_of, is_bare, is_served, is_next, is_recent, is_response, is_oldest, admit_fits, accept_fits, take_fits, settle_fits, answer_fits, late_fits, collect_fits, retire_fits, fail_fits, is_failure, link_fits, up_fits, down_fits};

use crate::part::Part;
use crate::past::Past;
use crate::totals::Totals;
use smx_history::{Entry, Kind, Limits, failure_command};
use smx_pdu::{is_forwarded, is_response_to};

fn is_bare(entry: Entry) -> bool
    ensures { result ≡ is_bare entry }
{
    entry.number == 0 && entry.command == 0
}

fn is_retired(past: Past<'_>, client: u64) -> bool
    ensures { result ≡ is_retired client (entries_before past.entry) }
{
    past.any(Part::Retire { client })
}

fn is_served(past: Past<'_>, entry: Entry) -> bool
    ensures { result ≡ is_served (entries_before past.entry) entry }
{
    past.any(Part::AdmitBy {
        by: entry.by,
        client: entry.client,
    }) && !is_retired(past, entry.client)
}

fn admit_fits(totals: Totals, entry: Entry) -> bool
    ensures { result ≡ admit_fits totals entry }
{
    entry.ordinal == 0 && is_bare(entry) && totals.greatest < entry.client
}

fn accept_fits(queue: u32, client: u32, totals: Totals, past: Past<'_>, entry: Entry) -> bool
    ensures { result ≡ accept_fits queue client totals (entries_before past.entry) entry }
{
    is_forwarded(entry.command)
        && is_served(past, entry)
        && totals.up
        && 0 < entry.ordinal
        && !past.any(Part::AcceptFrom {
            client: entry.client,
            ordinal: entry.ordinal,
        })
        && totals.queued < queue as u128
        && past.count(Part::AcceptsOf {
            client: entry.client,
        }) < past.count(Part::CollectsOf {
            client: entry.client,
        }) + client as u128
}

// Whether the request of that name is the next to be taken.
fn is_next(totals: Totals, past: Past<'_>, entry: Entry) -> bool
    ensures { result ≡ is_next totals (entries_before past.entry) entry }
{
    match past.nth(Part::Accepts, totals.taken) {
        Some(next) => next.client == entry.client && next.ordinal == entry.ordinal,
        None => false,
    }
}

// Whether one of the last 999,999 takes bears the number: two takes that bear the same number
// (sequence_number, SMPP 3.4, section 5.1.4) are at least 1,000,000 takes apart.
fn is_recent(totals: Totals, past: Past<'_>, number: u32) -> bool
    requires { Counted (entries_before past) totals }
    ensures { result ≡ is_recent number (entries_before past.entry) }
{
    past.bears_after(number, totals.taken.saturating_sub(999_999))
}

fn take_fits(limits: Limits, totals: Totals, past: Past<'_>, entry: Entry) -> bool
    requires { Counted (entries_before past) totals }
    ensures { result ≡ take_fits limits totals (entries_before past.entry) entry }
{
    let Entry {
        client,
        ordinal,
        number,
        ..
    } = entry;
    totals.up
        && entry.command == 0
        && 0 < number
        && number <= 0x7FFF_FFFC
        && is_next(totals, past, entry)
        && !past.any(Part::Take { client, ordinal })
        && past.count(Part::SettlingsAs { number }) == past.count(Part::TakesAs { number })
        && !is_recent(totals, past, number)
        && totals.unanswered < limits.window as u128
}

// Whether the entry's command is that of a response to the request of that name.
fn is_response(past: Past<'_>, entry: Entry) -> bool
    ensures { result ≡ is_response (entries_before past.entry) entry }
{
    let accept = past.nth(
        Part::Accept {
            client: entry.client,
            ordinal: entry.ordinal,
        },
        0,
    );
    match accept {
        Some(accept) => is_response_to(accept.command, entry.command),
        None => false,
    }
}

fn settle_fits(past: Past<'_>, entry: Entry) -> bool
    ensures { result ≡ settle_fits (entries_before past.entry) entry }
{
    let Entry {
        client,
        ordinal,
        number,
        ..
    } = entry;
    past.any(Part::TakeAs {
        client,
        ordinal,
        number,
    }) && !past.any(Part::Settling { client, ordinal })
        && is_response(past, entry)
}

fn answer_fits(past: Past<'_>, entry: Entry) -> bool
    ensures { result ≡ answer_fits (entries_before past.entry) entry }
{
    settle_fits(past, entry) && !is_retired(past, entry.client)
}

fn late_fits(past: Past<'_>, entry: Entry) -> bool
    ensures { result ≡ late_fits (entries_before past.entry) entry }
{
    settle_fits(past, entry) && is_retired(past, entry.client)
}

// Whether the entry's command is that of the failure of the request of that name.
fn is_failure(past: Past<'_>, entry: Entry) -> bool
    ensures { result ≡ is_failure (entries_before past.entry) entry }
{
    let accept = past.nth(
        Part::Accept {
            client: entry.client,
            ordinal: entry.ordinal,
        },
        0,
    );
    match accept {
        Some(accept) => entry.command == failure_command(accept.command),
        None => false,
    }
}

fn fail_fits(past: Past<'_>, entry: Entry) -> bool
    ensures { result ≡ fail_fits (entries_before past.entry) entry }
{
    settle_fits(past, entry) && is_failure(past, entry)
}

fn link_fits(entry: Entry) -> bool
    ensures { result ≡ link_fits entry }
{
    entry.client == 0 && entry.ordinal == 0 && is_bare(entry)
}

fn up_fits(totals: Totals, entry: Entry) -> bool
    ensures { result ≡ up_fits totals entry }
{
    link_fits(entry) && !totals.up && totals.unanswered == 0
}

fn down_fits(totals: Totals, entry: Entry) -> bool
    ensures { result ≡ down_fits totals entry }
{
    link_fits(entry) && totals.up
}

// Whether the client's next response is that to the request of that ordinal.
fn is_oldest(past: Past<'_>, entry: Entry) -> bool
    ensures { result ≡ is_oldest (entries_before past.entry) entry }
{
    let client = entry.client;
    let collected = past.count(Part::CollectsOf { client });
    match past.nth(Part::AnswersOf { client }, collected) {
        Some(answer) => answer.ordinal == entry.ordinal,
        None => false,
    }
}

fn collect_fits(past: Past<'_>, entry: Entry) -> bool
    ensures { result ≡ collect_fits (entries_before past.entry) entry }
{
    is_bare(entry) && is_served(past, entry) && is_oldest(past, entry)
}

fn retire_fits(past: Past<'_>, entry: Entry) -> bool
    ensures { result ≡ retire_fits (entries_before past.entry) entry }
{
    entry.ordinal == 0 && is_bare(entry) && is_served(past, entry)
}

// Whether the entry may follow, but for the size.
fn fits(limits: Limits, totals: Totals, past: Past<'_>, entry: Entry) -> bool
    requires rules { KeepsRules limits (entries_before past) }
    requires counted { Counted (entries_before past) totals }
    ensures { IsTrue result ↔ Fits limits (entries_before past.entry) entry }
{
    match entry.kind {
        Kind::Admit => admit_fits(totals, entry),
        Kind::Accept => accept_fits(limits.queue, limits.client, totals, past, entry),
        Kind::Take => take_fits(limits, totals, past, entry),
        Kind::Answer => answer_fits(past, entry),
        Kind::Late => late_fits(past, entry),
        Kind::Collect => collect_fits(past, entry),
        Kind::Retire => retire_fits(past, entry),
        Kind::Fail => fail_fits(past, entry),
        Kind::Down => down_fits(totals, entry),
        Kind::Up => up_fits(totals, entry),
    }
}

// How many responses wait for the client.
fn waiting_of(past: Past<'_>, client: u64) -> u128
    requires { IsFifo (entries_before past) }
    ensures { result ≡ length (answers_of client (entries_before past.entry)) - length
        (collects_of client (entries_before past.entry)) }
{
    past.count(Part::AnswersOf { client }) - past.count(Part::CollectsOf { client })
}

// The totals with one entry more.
fn after(limits: Limits, totals: Totals, past: Past<'_>, entry: Entry) -> Totals
    requires rules { KeepsRules limits (entries_before past) }
    requires counted { Counted (entries_before past) totals }
    requires fits { Fits limits (entries_before past) entry }
    requires few { totals.queued + totals.unanswered + totals.waiting + totals.present < 2 ^ 32 }
    requires taken { totals.taken + 1 < 2 ^ 128 }
    ensures counted { Counted (entries_before past.entry ++ entry ∷ []) result }
    ensures taken { result.taken ≤ totals.taken + 1 }
    ensures near { (result.queued ≤ totals.queued + 1) × (result.unanswered ≤ totals.unanswered + 1)
        × (result.waiting ≤ totals.waiting + 1) × (result.present ≤ totals.present + 1) }
{
    match entry.kind {
        Kind::Admit => Totals {
            greatest: entry.client,
            present: totals.present + 1,
            ..totals
        },
        Kind::Accept => Totals {
            queued: totals.queued + 1,
            ..totals
        },
        Kind::Take => Totals {
            taken: totals.taken + 1,
            queued: totals.queued - 1,
            unanswered: totals.unanswered + 1,
            ..totals
        },
        Kind::Answer => Totals {
            unanswered: totals.unanswered - 1,
            waiting: totals.waiting + 1,
            ..totals
        },
        Kind::Late => Totals {
            unanswered: totals.unanswered - 1,
            ..totals
        },
        Kind::Collect => Totals {
            waiting: totals.waiting - 1,
            ..totals
        },
        Kind::Retire => Totals {
            waiting: totals.waiting - waiting_of(past, entry.client),
            present: totals.present - 1,
            ..totals
        },
        Kind::Fail => {
            let told = !is_retired(past, entry.client);
            Totals {
                unanswered: totals.unanswered - 1,
                waiting: totals.waiting + u128::from(told),
                ..totals
            }
        }
        Kind::Down => Totals {
            up: false,
            ..totals
        },
        Kind::Up => Totals { up: true, ..totals },
    }
}

// The size with so many entries stored and these totals.
fn size(stored: usize, totals: Totals) -> u128
    requires { totals.queued + totals.unanswered + totals.waiting + totals.present < 2 ^ 33 }
    ensures { result ≡ stored + 3 * totals.queued + 2 * totals.unanswered + totals.waiting
        + totals.present
        + (if totals.up then 1 else 0) }
{
    stored as u128
        + 3 * totals.queued
        + 2 * totals.unanswered
        + totals.waiting
        + totals.present
        + u128::from(totals.up)
}

// The greatest size.
fn history_of(limits: Limits) -> u32
    ensures { result ≡ limits.history }
{
    limits.history
}

// The totals with the list of one shift more, where it may follow those of the earlier shifts.
fn after_shift(
    limits: Limits,
    totals: Totals,
    earlier: &[Vec<Entry>],
    entries: &[Entry],
) -> Option<Totals>
    requires legal { IsLegal limits (marks_in (lists_of earlier.now)) }
    requires counted { Counted (entries_in earlier.now) totals }
    requires taken { totals.taken ≤ length earlier.now * (2 ^ 64 - 1) }
    requires few { length earlier.now < 2 ^ 64 - 1 }
    ensures legal { MatchOption result
        (¬ (IsLegal limits (marks_in (lists_of earlier.now) ++ None ∷ map Some entries.now)))
        (λ t. Follows limits earlier.now entries.now t) }
{
    let history = history_of(limits);
    let mut totals = totals;
    for at in 0..entries.len() {
        let past = Past {
            earlier,
            since: &entries[..at],
        };
        let entry = entries[at];
        if !fits(limits, totals, past, entry) {
            return None;
        }
        totals = after(limits, totals, past, entry);
        if size(at + 1, totals) > history as u128 {
            return None;
        }
    }
    Some(totals)
}

/// Whether the lists, each what one shift handed out, and the last what is stored since then, are
/// those of a legal history under the limits: one of a lane with these limits that began with no
/// entry. The rules are asked of the lists joined, the size of each by itself. It takes no memory,
/// and its time grows with the square of the number of entries.
pub fn is_legal_shifts(lists: &[Vec<Entry>], limits: Limits) -> bool
    ensures { IsTrue result ↔ IsLegal limits (marks_in (map (λ es. es.items) lists.now)) }
{
    if limits.history == 0 {
        return false;
    }
    let mut totals = Totals::none();
    for at in 0..lists.len() {
        match after_shift(limits, totals, &lists[..at], lists[at].as_slice()) {
            Some(next) => totals = next,
            None => return false,
        }
    }
    true
}

/// Whether the entries are those of a legal history under the limits that has no shift: that of a
/// lane with these limits that began with no entry and was not turned over. It takes no memory, and
/// its time grows with the square of the number of entries.
pub fn is_legal(entries: &[Entry], limits: Limits) -> bool
    ensures { IsTrue result ↔ IsLegal limits (map Some entries.now) }
{
    if limits.history == 0 {
        return false;
    }
    match after_shift(limits, Totals::none(), &[], entries) {
        Some(_) => true,
        None => false,
    }
}
