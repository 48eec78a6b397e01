//! Tells what the relay, configurations and sessions make of the cases of standard input: scripts and
//! what they print, texts and what is said of them, PDUs and the cells of the sessions' tables.
//!
//! A line `section KIND` begins a section, and a line `case NAME` a case of it, whose text ends before
//! the next such line. What stands before the first section is for a reader. Each of these lines is
//! printed again, and behind that of a case what came of it.
#![tactic(auto)]

mod checking;
mod failing;
mod files;
mod ranges;
mod scripts;
mod sessions;

use std::alloc::Global;
use std::io;
use std::io::Write;

/// The octets of the output for which memory is taken first, so that no run lacks it for what it prints.
const ROOM: usize = 131_072;

// What came of a case.
fn tell_case(alloc: Global, kind: &str, text: &str, out: &mut Vec<u8>) -> io::Result<()> {
    match kind {
        "relay" => scripts::tell_run(alloc, text, out),
        "relay, cut at each octet" => scripts::tell_cuts(alloc, text, out),
        "relay, readers that fail" => failing::tell_readers(alloc, text, out),
        "relay, writers that fail" => failing::tell_run_writers(alloc, text, out),
        "relay, its last line" => scripts::tell_last(alloc, text, out),
        "lines of a script" => scripts::tell_lines(alloc, text, out),
        "whole texts" => files::tell_texts(alloc, text, out),
        "configurations, their lines" => checking::tell_changes(alloc, text, out),
        "configurations, advice" => checking::tell_advice(alloc, text, out),
        "configurations, keys that nobody reads" => checking::tell_keys(alloc, text, out),
        "configurations, the table of keys" => checking::tell_table(alloc, out),
        "configurations, the range of each number" => ranges::tell_ranges(alloc, out),
        "configurations, timers" => checking::tell_timers(alloc, text, out),
        "configurations, values" => checking::tell_values(alloc, text, out),
        "configurations, what may be meant otherwise" => checking::tell_counsel(alloc, text, out),
        "configurations, files" => files::tell_files(alloc, text, out),
        "configurations, writers that fail" => failing::tell_check_writers(alloc, text, out),
        "sessions" => sessions::tell_cells(alloc, text, out),
        _ => writeln!(out, "there is no such section"),
    }
}

fn tell_section(alloc: Global, section: &str, out: &mut Vec<u8>) -> io::Result<()> {
    let mut pieces = section.split("\ncase ");
    let kind = pieces.next().unwrap_or("");
    writeln!(out, "section {kind}")?;
    for case in pieces {
        let (name, text) = case.split_once("\n").unwrap_or((case, ""));
        writeln!(out, "case {name}")?;
        tell_case(alloc, kind, text, out)?;
    }
    Ok(())
}

fn tell(alloc: Global, cases: &str, out: &mut Vec<u8>) -> io::Result<()> {
    for section in cases.split("\nsection ").skip(1) {
        tell_section(alloc, section, out)?;
    }
    Ok(())
}

fn main(rt: HostRuntime) -> io::Result<()> {
    let cases = io::read_to_string(rt.alloc(), rt.reader())?;
    let mut out = Vec::with_capacity(rt.alloc(), ROOM)?;
    let told = tell(rt.alloc(), &cases, &mut out);
    io::writer(&rt).write_all(&out)?;
    told
}
