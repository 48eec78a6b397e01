//! What is wrong at a key and what would be right, in words for a person. A value isn't shown, since it may
//! be a password at a wrong key.

use crate::account::MAX_PREFIXES;
use crate::choice::Choice;
use crate::command::Command;
use crate::flag::Flag;
use crate::listing::on_prefixes;
use crate::near::near;
use crate::number::{Number, NumberRule};
use crate::table::find;
use crate::text::{Text, TextRule};
use std::alloc::{AllocError, Global};
use toml::{Table, Value};

// A value as it may stand at a key.
fn sample(key: Text) -> &'static str {
    match key {
        Text::Listen | Text::Address => "\"host:port\"",
        Text::SystemId => "\"name\"",
        Text::Password => "\"secret\"",
        Text::SystemType => "\"SMPP\"",
        Text::AddressRange => "\"^49\"",
        Text::Prefix => "[\"49\"]",
    }
}

// What is wrong with a port.
fn port_wrong(port: &str) -> &'static str {
    if port.is_empty() {
        "has no port"
    } else if port.bytes().all(|octet| octet.is_ascii_digit()) {
        "has a port above 65535"
    } else {
        "has a port that is no number"
    }
}

// What is wrong with a text that is no address.
fn address_wrong(text: &str) -> &'static str {
    if text.bytes().any(|octet| octet.is_ascii_whitespace()) {
        return "has a blank";
    }
    if text.contains("://") {
        return "has a scheme before ://";
    }
    let (host, port) = match text.rsplit_once(":") {
        Some(parts) => parts,
        None => (text, ""),
    };
    if host.is_empty() {
        return "has no host";
    }
    if host.contains(":") && !host.starts_with("[") {
        return "has an IPv6 address without brackets, or more than one port";
    }
    if port.parse::<u16>().is_err() || port.starts_with("+") {
        return port_wrong(port);
    }
    "has a host with an octet that none may have"
}

// What is wrong with a value that isn't the text that may stand at a key.
fn text_wrong(alloc: Global, key: Text, value: &Value) -> Result<String, AllocError> {
    let Some(text) = value.as_str() else {
        return String::from_str(alloc, "is no text");
    };
    let length = text.len();
    let rule = key.rule();
    if length < rule.fewest || rule.longest < length {
        return format!(in alloc; "has {length} octets");
    }
    if rule.must_be_address {
        return String::from_str(alloc, address_wrong(text));
    }
    String::from_str(alloc, "has an octet 0")
}

// Words on the text at a key, unless it is as it may be.
fn on_text(alloc: Global, key: Text, value: Option<&Value>) -> Result<Option<String>, AllocError> {
    let what = match value {
        Some(value) if key.of(value).is_some() => return Ok(None),
        Some(value) => text_wrong(alloc, key, value)?,
        None => match key {
            Text::SystemType | Text::AddressRange => return Ok(None),
            _ => String::from_str(alloc, "is missing")?,
        },
    };
    let TextRule {
        key: name,
        fewest,
        longest,
        may_have_zero,
        ..
    } = key.rule();
    let sample = sample(key);
    let zeros = if may_have_zero {
        ""
    } else {
        ", none of them 0"
    };
    let words = format!(in alloc;
        "{name} {what}: write {name} = {sample}, of {fewest} to {longest} octets{zeros}"
    )?;
    Ok(Some(words))
}

/// Words on what stands at a key with texts, unless it is as it may be.
pub(crate) fn on_field(
    alloc: Global,
    key: Text,
    field: Option<&Value>,
) -> Result<Option<String>, AllocError> {
    match (key, field) {
        (Text::Prefix, Some(prefixes)) => on_prefixes(alloc, prefixes, MAX_PREFIXES),
        (Text::Prefix, None) => Ok(None),
        _ => on_text(alloc, key, field),
    }
}

/// Words on the number at a key, unless it is as it may be.
pub(crate) fn on_number(
    alloc: Global,
    key: Number,
    table: &Table,
) -> Result<Option<String>, AllocError> {
    let NumberRule {
        key: name,
        least,
        most,
        default,
        ..
    } = key.rule();
    let Some(value) = find(table, name) else {
        return Ok(None);
    };
    let what = match key.of(value) {
        Some(_) => return Ok(None),
        None => {
            if value.is_integer() {
                "is out of its range"
            } else {
                "is no whole number"
            }
        }
    };
    let words = match default {
        Some(default) => format!(in alloc;
            "{name} {what}: write {name} = {default}, or another number from {least} to {most}"
        )?,
        None => format!(in alloc;
            "{name} {what}: write a number from {least} to {most}, or leave {name} out"
        )?,
    };
    Ok(Some(words))
}

/// Words on what stands at a key that is true or false, unless it is as it may be.
pub(crate) fn on_flag(
    alloc: Global,
    key: Flag,
    table: &Table,
) -> Result<Option<String>, AllocError> {
    if key.at(table).is_some() {
        return Ok(None);
    }
    let rule = key.rule();
    let (name, default) = (rule.key, rule.default);
    let words = format!(in alloc;
        "{name} is neither true nor false: write {name} = {default}, or {name} = {}",
        !default
    )?;
    Ok(Some(words))
}

/// Words in a row, each quoted: `"text", "json" or "journal"`.
pub(crate) fn quoted(alloc: Global, words: &[&'static str]) -> Result<String, AllocError> {
    let mut all = String::new(alloc);
    let mut left = words.len();
    for word in words {
        all.push_str("\"")?;
        all.push_str(word)?;
        all.push_str("\"")?;
        left = left.saturating_sub(1);
        all.push_str(match left {
            0 => "",
            1 => " or ",
            _ => ", ",
        })?;
    }
    Ok(all)
}

// What to write in place of a word that isn't among these.
fn hint(alloc: Global, word: &str, words: &[&'static str]) -> Result<String, AllocError> {
    if let Some(nearest) = near(alloc, word, words)? {
        return format!(in alloc; "did you mean \"{nearest}\"?");
    }
    let all = quoted(alloc, words)?;
    format!(in alloc; "write {all}")
}

// Words on an item of the commands, unless it is as it may be.
fn on_command(
    alloc: Global,
    words: &[&'static str],
    index: usize,
    value: &Value,
) -> Result<Option<String>, AllocError> {
    if Command::of(value).is_some() {
        return Ok(None);
    }
    let sentence = match value.as_str() {
        Some(word) => {
            let hint = hint(alloc, word, words)?;
            format!(in alloc; "commands: item {index} is no request: {hint}")?
        }
        None => format!(in alloc; "commands: item {index} is no text: write \"submit_sm\"")?,
    };
    Ok(Some(sentence))
}

// Words on a list of commands, unless it is as it may be.
fn on_commands(
    alloc: Global,
    words: &[&'static str],
    value: &Value,
) -> Result<Option<String>, AllocError> {
    let Some(list) = value.as_array() else {
        let words = "commands is no list: write commands = [\"submit_sm\"]";
        return Ok(Some(String::from_str(alloc, words)?));
    };
    for (index, value) in list.as_slice().iter().enumerate() {
        let sentence = on_command(alloc, words, index, value)?;
        if sentence.is_some() {
            return Ok(sentence);
        }
    }
    Ok(None)
}

/// Words on what stands at a key with words, unless it is as it may be.
pub(crate) fn on_choice(
    alloc: Global,
    key: Choice,
    value: Option<&Value>,
) -> Result<Option<String>, AllocError> {
    let Some(value) = value else {
        return Ok(None);
    };
    let words = key.words(alloc)?;
    if let Choice::Commands = key {
        return on_commands(alloc, &words, value);
    }
    let name = key.rule().key;
    let sentence = match value.as_str() {
        Some(text) => {
            if words.iter().any(|word| text == *word) {
                return Ok(None);
            }
            let hint = hint(alloc, text, &words)?;
            format!(in alloc; "{name} is none of its words: {hint}")?
        }
        None => {
            let all = quoted(alloc, &words)?;
            format!(in alloc; "{name} is no text: write {all}")?
        }
    };
    Ok(Some(sentence))
}
