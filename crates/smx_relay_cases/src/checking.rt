//! Configurations, and what is said of them.
//!
//! A case is a configuration, an empty line and changes, a line each: `replace TEXT with TEXT`, or a
//! line that takes the place of the one that begins with the same word, or, behind a `-`, a word whose
//! line is left out.

use smx_config::{
    Account, Commands, Config, Upstream, bodies_held, check, counsel, faults, key_table,
    may_take_all, read, unread,
};
use std::alloc::{AllocError, Global};
use std::io;
use std::io::{ErrorKind, Write};

/// The most octets of a change that are printed again.
const SHOWN: usize = 60;

// The word that a line begins with.
fn key(line: &str) -> &str {
    match line.split_once(" ") {
        Some((word, _)) => word,
        None => line,
    }
}

// The configuration with one line changed.
fn with_line(alloc: Global, base: &str, change: &str) -> Result<String, AllocError> {
    let left_out = change.strip_prefix("-");
    let mut text = String::new(alloc);
    for line in base.lines() {
        if left_out == Some(key(line)) {
            continue;
        }
        let is_changed = left_out.is_none() && key(line) == key(change);
        text.push_str(if is_changed { change } else { line })?;
        text.push('\n')?;
    }
    Ok(text)
}

// The texts of a replacement.
fn replacement(change: &str) -> Option<(&str, &str)> {
    change.strip_prefix("replace ")?.split_once(" with ")
}

fn changed(alloc: Global, base: &str, change: &str) -> Result<String, AllocError> {
    match replacement(change) {
        Some((from, to)) => base.replace(alloc, from, to),
        None => with_line(alloc, base, change),
    }
}

// The configuration and its changes.
fn parts(text: &str) -> (&str, &str) {
    text.split_once("\n\n").unwrap_or((text, ""))
}

// Begins the line of a change.
fn tell_change(change: &str, out: &mut Vec<u8>) -> io::Result<()> {
    let shown = change.get(..SHOWN).unwrap_or(change);
    write!(out, "{shown}: ")
}

// The line that the check writes.
fn tell_check(alloc: Global, text: &str, out: &mut Vec<u8>) -> io::Result<bool> {
    check(alloc, text, out).map_err(|_| io::Error::from(ErrorKind::OutOfMemory))
}

/// The lines that the check writes.
pub fn tell_changes(alloc: Global, text: &str, out: &mut Vec<u8>) -> io::Result<()> {
    let (base, changes) = parts(text);
    for change in changes.lines() {
        tell_change(change, out)?;
        tell_check(alloc, &changed(alloc, base, change)?, out)?;
    }
    Ok(())
}

// The words for a person on each fault of a text.
fn tell_words(alloc: Global, text: &str, out: &mut Vec<u8>) -> io::Result<()> {
    for words in faults(alloc, text)?.iter() {
        writeln!(out, "{words}")?;
    }
    Ok(())
}

/// The lines that the check writes, whether it says that all is fine, and the words for a person.
pub fn tell_advice(alloc: Global, text: &str, out: &mut Vec<u8>) -> io::Result<()> {
    let (base, changes) = parts(text);
    for change in changes.lines() {
        let text = changed(alloc, base, change)?;
        tell_change(change, out)?;
        let is_fine = tell_check(alloc, &text, out)?;
        writeln!(out, "fine: {is_fine}")?;
        tell_words(alloc, &text, out)?;
    }
    Ok(())
}

/// What may be meant otherwise, and how much the bodies may come to.
pub fn tell_counsel(alloc: Global, text: &str, out: &mut Vec<u8>) -> io::Result<()> {
    let (base, changes) = parts(text);
    for change in changes.lines() {
        tell_change(change, out)?;
        match read(alloc, &changed(alloc, base, change)?) {
            Ok(config) => {
                writeln!(out, "{} octets", bodies_held(&config))?;
                for advice in counsel(alloc, &config)?.iter() {
                    writeln!(out, "{advice}")?;
                }
            }
            Err(fault) => writeln!(out, "{fault}")?,
        }
    }
    Ok(())
}

/// The words on keys that nobody reads.
pub fn tell_keys(alloc: Global, text: &str, out: &mut Vec<u8>) -> io::Result<()> {
    let (base, changes) = parts(text);
    for change in changes.lines() {
        let all = unread(alloc, &changed(alloc, base, change)?)?;
        tell_change(change, out)?;
        writeln!(out, "{} unread", all.len())?;
        for words in all.iter() {
            writeln!(out, "{words}")?;
        }
    }
    Ok(())
}

/// The table of keys.
pub fn tell_table(alloc: Global, out: &mut Vec<u8>) -> io::Result<()> {
    out.write_all(key_table(alloc)?.as_str().as_bytes())
}

fn tell_numbers(config: &Config, out: &mut Vec<u8>) -> io::Result<()> {
    let limits = config.limits;
    writeln!(out, "listen {}", config.listen)?;
    writeln!(out, "clients {} box {}", config.clients, config.places)?;
    writeln!(out, "proxy_protocol {}", config.proxy_protocol)?;
    writeln!(out, "log {:?} level {:?}", config.log, config.log_level)?;
    writeln!(out, "queue {} window {}", limits.queue, limits.window)?;
    writeln!(out, "client {} history {}", limits.client, limits.history)
}

fn tell_upstream(upstream: &Upstream, out: &mut Vec<u8>) -> io::Result<()> {
    write!(out, "upstream {} {}", upstream.address, upstream.system_id)?;
    let (kind, version) = (upstream.bind, upstream.interface_version);
    write!(out, " {kind:?} version {version}")?;
    let (system_type, range) = (&upstream.system_type, &upstream.address_range);
    writeln!(out, " type \"{system_type}\" range \"{range}\"")
}

// The requests that may be sent.
fn tell_commands(commands: Commands, out: &mut Vec<u8>) -> io::Result<()> {
    let all = [
        ("submit_sm", commands.submit_sm),
        ("submit_multi", commands.submit_multi),
        ("data_sm", commands.data_sm),
        ("query_sm", commands.query_sm),
        ("cancel_sm", commands.cancel_sm),
        ("replace_sm", commands.replace_sm),
    ];
    for (name, may_be_sent) in all {
        if may_be_sent {
            write!(out, " {name}")?;
        }
    }
    Ok(())
}

fn tell_account(account: &Account, out: &mut Vec<u8>) -> io::Result<()> {
    write!(out, "account {}", account.system_id)?;
    for prefix in account.prefixes.iter() {
        write!(out, " {prefix}")?;
    }
    if let Some(binds) = account.binds {
        write!(out, " binds {binds}")?;
    }
    if let Some(requests) = account.requests {
        write!(out, " requests {requests}")?;
    }
    write!(out, " bodies {:?} of", account.bodies)?;
    tell_commands(account.commands, out)?;
    writeln!(out)
}

/// The timers that are read of a configuration.
pub fn tell_timers(alloc: Global, text: &str, out: &mut Vec<u8>) -> io::Result<()> {
    match read(alloc, text) {
        Ok(config) => writeln!(out, "{:?}", config.timers),
        Err(fault) => writeln!(out, "{fault}"),
    }
}

/// The values that are read of a configuration, but for passwords and timers.
pub fn tell_values(alloc: Global, text: &str, out: &mut Vec<u8>) -> io::Result<()> {
    let config = match read(alloc, text) {
        Ok(config) => config,
        Err(fault) => return writeln!(out, "{fault}"),
    };
    tell_numbers(&config, out)?;
    for upstream in config.upstream.iter() {
        tell_upstream(upstream, out)?;
    }
    for account in config.account.iter() {
        tell_account(account, out)?;
    }
    if may_take_all(&config) {
        writeln!(out, "one account may take all")?;
    }
    Ok(())
}
