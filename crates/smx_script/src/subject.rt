//! What a line speaks of, or why it can't be read.

use crate::reading::entry_of;
use crate::reason::{Reason, Wrong};
use crate::words::{number, parts_of};
use std::alloc::Global;

/// What a line that can be read speaks of.
#[derive(Clone, Copy, Debug, PartialEq, Eq)]
pub enum Subject {
    /// Neither a client nor a lane that there is, nor a setting.
    Nothing,
    Setting,
    /// A client that there has to be.
    Client(u64),
    /// A client that has to get messages.
    Receiver(u64),
    /// A lane that there has to be.
    Lane(u64),
}

/// The commands as they are written.
const FORMS: [&str; 16] = [
    "limits Q W C H",
    "lanes L",
    "box N",
    "account ID PASSWORD",
    "client KIND",
    "route C PREFIX",
    "in C HEX",
    "take LANE",
    "back LANE HEX",
    "collect C",
    "history LANE",
    "turn LANE",
    "lose LANE",
    "bind LANE",
    "moment N",
    "expire LANE AGE",
];

// The form of the command with this name.
fn form_of(word: &[u8]) -> Option<&'static str> {
    for form in FORMS {
        let octets = form.as_bytes();
        if octets.starts_with(word) && octets.get(word.len()) == Some(&b' ') {
            return Some(form);
        }
    }
    None
}

// How many fields a form has.
fn fields_of(form: &str) -> usize {
    let mut count = 1usize;
    for octet in form.as_bytes() {
        if *octet == b' ' {
            count = count.saturating_add(1);
        }
    }
    count
}

// What is wrong with the octets of a line, whatever its fields are.
fn octets_wrong(line: &[u8]) -> Option<Wrong> {
    if line.contains(&b'\r') {
        return Some(Wrong::CarriageReturn);
    }
    if line.iter().any(|octet| *octet < b' ' || *octet > b'~') {
        return Some(Wrong::Octet);
    }
    None
}

// What is wrong with hexadecimal digits.
fn digits_wrong(digits: &[u8]) -> Option<Reason> {
    if digits.iter().any(|octet| !octet.is_ascii_hexdigit()) {
        return Some(Reason::Plain(Wrong::Digit));
    }
    if digits.len() % 2 == 1 {
        return Some(Reason::Plain(Wrong::Odd));
    }
    None
}

// What is wrong with a number that may be any.
fn number_wrong(field: &'static str, word: &[u8]) -> Option<Reason> {
    match number(word) {
        None => Some(Reason::Number(field)),
        Some(_) => None,
    }
}

// What is wrong with a number that has to be in a range.
fn range_wrong(field: &'static str, least: u32, most: u32, word: &[u8]) -> Option<Reason> {
    match number(word) {
        None => Some(Reason::Number(field)),
        Some(found) if found < u64::from(least) => {
            Some(Reason::Low(field, found, u64::from(least)))
        }
        Some(found) if found > u64::from(most) => Some(Reason::High(field, found, most)),
        Some(_) => None,
    }
}

fn long_wrong(field: &'static str, most: usize, word: &[u8]) -> Option<Reason> {
    if word.len() > most {
        return Some(Reason::Long(field, most));
    }
    None
}

// The subject, unless something is wrong.
fn unless(wrong: Option<Reason>, subject: Subject) -> Result<Subject, Reason> {
    match wrong {
        Some(reason) => Err(reason),
        None => Ok(subject),
    }
}

// The first of two that is wrong.
fn either(first: Option<Reason>, second: Option<Reason>) -> Option<Reason> {
    if first.is_some() { first } else { second }
}

fn pair_subject(word: &[u8], what: &[u8]) -> Result<Subject, Reason> {
    if word == "client".as_bytes() {
        return match entry_of(what) {
            Some(_) => Ok(Subject::Nothing),
            None => Err(Reason::Plain(Wrong::Kind)),
        };
    }
    if word == "lanes".as_bytes() {
        return unless(range_wrong("lanes", 1, 16, what), Subject::Setting);
    }
    if word == "box".as_bytes() {
        return unless(range_wrong("box", 1, 256, what), Subject::Setting);
    }
    if word == "moment".as_bytes() {
        return unless(number_wrong("moment", what), Subject::Nothing);
    }
    let client = word == "collect".as_bytes();
    match number(what) {
        Some(client_number) if client => Ok(Subject::Client(client_number)),
        Some(lane) => Ok(Subject::Lane(lane)),
        None if client => Err(Reason::Number("client")),
        None => Err(Reason::Number("lane")),
    }
}

fn triple_subject(word: &[u8], what: &[u8], other: &[u8]) -> Result<Subject, Reason> {
    if word == "account".as_bytes() {
        let wrong = either(long_wrong("ID", 15, what), long_wrong("PASSWORD", 8, other));
        return unless(wrong, Subject::Setting);
    }
    if word == "back".as_bytes() {
        return match number(what) {
            Some(lane) => unless(digits_wrong(other), Subject::Lane(lane)),
            None => Err(Reason::Number("lane")),
        };
    }
    if word == "expire".as_bytes() {
        return match number(what) {
            Some(lane) => unless(number_wrong("age", other), Subject::Lane(lane)),
            None => Err(Reason::Number("lane")),
        };
    }
    let Some(client) = number(what) else {
        return Err(Reason::Number("client"));
    };
    if word == "in".as_bytes() {
        unless(digits_wrong(other), Subject::Client(client))
    } else {
        unless(long_wrong("PREFIX", 20, other), Subject::Receiver(client))
    }
}

fn limits_subject(
    queue: &[u8],
    window: &[u8],
    client: &[u8],
    history: &[u8],
) -> Result<Subject, Reason> {
    let first = either(
        range_wrong("limits Q", 1, 65_535, queue),
        range_wrong("limits W", 1, 1_024, window),
    );
    let second = either(
        range_wrong("limits C", 1, 256, client),
        range_wrong("limits H", 1_000, 1_000_000, history),
    );
    unless(either(first, second), Subject::Setting)
}

// What fields that none is empty of speak of.
fn subject_in(fields: &[&[u8]]) -> Result<Subject, Reason> {
    let Some(word) = fields.first() else {
        return Err(Reason::Plain(Wrong::Command));
    };
    let Some(form) = form_of(word) else {
        return Err(Reason::Plain(Wrong::Command));
    };
    if fields.len() != fields_of(form) {
        return Err(Reason::Form(form));
    }
    match fields {
        [word, what] => pair_subject(word, what),
        [word, what, other] => triple_subject(word, what, other),
        [_, queue, window, client, history] => limits_subject(queue, window, client, history),
        _ => Err(Reason::Form(form)),
    }
}

/// What a line speaks of, or why [`read_command`](crate::read_command) has no command of it. Of its
/// answers no clause says anything: they are for a person.
pub fn subject_of(alloc: Global, line: &[u8]) -> Result<Subject, Reason> {
    if line.is_empty() || line[0] == b'#' {
        return Ok(Subject::Nothing);
    }
    if let Some(wrong) = octets_wrong(line) {
        return Err(Reason::Plain(wrong));
    }
    let Ok(fields) = parts_of(alloc, line, b' ') else {
        return Err(Reason::Plain(Wrong::Unsaid));
    };
    if fields.iter().any(|field| field.is_empty()) {
        return Err(Reason::Plain(Wrong::Space));
    }
    subject_in(fields.as_slice())
}
