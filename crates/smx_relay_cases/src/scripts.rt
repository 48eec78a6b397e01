//! Scripts, and what they print.

use smx_relay::{RunEnd, run};
use smx_script::{Action, Command, lines_of, read_command, subject_of};
use std::alloc::{AllocError, Global};
use std::io;
use std::io::Write;

/// The octets of the longest PDU that is cut.
const LONGEST: usize = 34;

/// The octets of an output for which memory is taken first.
const ROOM: usize = 16_384;

// How often a line stands there, and the line: `times COUNT LINE` stands for so many.
fn counted(line: &str) -> Option<(usize, &str)> {
    let (count, line) = line.strip_prefix("times ")?.split_once(" ")?;
    Some((count.parse().ok()?, line))
}

// Adds the line so often, each time with a line feed; without one where a `\` ends it.
fn push_lines(script: &mut String, count: usize, line: &str) -> Result<(), AllocError> {
    let (text, end) = match line.strip_suffix("\\") {
        Some(text) => (text, ""),
        None => (line, "\n"),
    };
    for _ in 0..count {
        script.push_str(text)?;
        script.push_str(end)?;
    }
    Ok(())
}

// The octets that a text doesn't show well, in place of what stands for them.
fn shown_octets(alloc: Global, text: &str) -> Result<String, AllocError> {
    let text = text.replace(alloc, "\\r", "\r")?;
    let text = text.replace(alloc, "\\0", "\0")?;
    let text = text.replace(alloc, "\\x20", " ")?;
    text.replace(alloc, "\\x7f", "\x7f")
}

/// The script of a case.
pub fn script_of(alloc: Global, text: &str) -> Result<String, AllocError> {
    let mut script = String::new(alloc);
    for line in text.lines() {
        let (count, line) = counted(line).unwrap_or((1, line));
        push_lines(&mut script, count, line)?;
    }
    shown_octets(alloc, &script)
}

/// What a run of the script prints, and how it ends where a line isn't run.
pub fn tell_run(alloc: Global, text: &str, out: &mut Vec<u8>) -> io::Result<()> {
    let script = script_of(alloc, text)?;
    let end = run(alloc, &mut script.as_bytes(), out);
    tell_end(end, out)
}

/// How a run of the script ends where a line isn't run, and the last line that it prints.
pub fn tell_last(alloc: Global, text: &str, out: &mut Vec<u8>) -> io::Result<()> {
    let script = script_of(alloc, text)?;
    let mut printed = Vec::with_capacity(alloc, ROOM)?;
    let end = run(alloc, &mut script.as_bytes(), &mut printed);
    tell_end(end, out)?;
    let last = str::from_utf8(&printed).unwrap_or("").lines().last();
    writeln!(out, "{}", last.unwrap_or("nothing"))
}

// How a run ends where a line isn't run.
fn tell_end(end: RunEnd, out: &mut Vec<u8>) -> io::Result<()> {
    match end {
        RunEnd::Clean => Ok(()),
        end => writeln!(out, "{end}"),
    }
}

// Adds a command and its digits.
fn push_part(script: &mut String, command: &str, digits: &str) -> Result<(), AllocError> {
    script.push_str(command)?;
    script.push_str(" ")?;
    push_lines(script, 1, digits)
}

// Adds the line, in two lines if its octets are more than these.
fn push_cut(script: &mut String, line: &str, octets: usize) -> Result<(), AllocError> {
    let Some((command, digits)) = line.rsplit_once(" ") else {
        return push_lines(script, 1, line);
    };
    match digits.split_at_checked(octets.saturating_mul(2)) {
        Some((front, back)) if !back.is_empty() => {
            push_part(script, command, front)?;
            push_part(script, command, back)
        }
        _ => push_lines(script, 1, line),
    }
}

// The script, each of whose lines with octets is cut behind so many of them.
fn cut_script(alloc: Global, text: &str, octets: usize) -> Result<String, AllocError> {
    let mut script = String::new(alloc);
    for line in text.lines() {
        if line.starts_with("in ") || line.starts_with("back ") {
            push_cut(&mut script, line, octets)?;
        } else {
            push_lines(&mut script, 1, line)?;
        }
    }
    Ok(script)
}

/// What runs of the script print whose octets are cut behind the first, the second, .. of them, where
/// that is another text than before.
pub fn tell_cuts(alloc: Global, text: &str, out: &mut Vec<u8>) -> io::Result<()> {
    let mut last = Vec::new(alloc);
    for octets in 1..=LONGEST {
        let script = cut_script(alloc, text, octets)?;
        let mut reader = script.as_bytes();
        let mut printed = Vec::with_capacity(alloc, ROOM)?;
        let end = run(alloc, &mut reader, &mut printed);
        if printed != last || end != RunEnd::Clean {
            writeln!(out, "cut behind {octets}: {end}")?;
            out.extend_from_slice(&printed)?;
        }
        last = printed;
    }
    Ok(())
}

// Whether the line says something to a run, and whether it is known what it speaks of.
fn tell_line(alloc: Global, line: &[u8], out: &mut Vec<u8>) -> io::Result<()> {
    let command = read_command(alloc, line)?;
    let text = str::from_utf8(line).unwrap_or("no text");
    let word = match (command.is_some(), subject_of(alloc, line).is_ok()) {
        (true, true) => "good",
        (false, false) => "bad",
        _ => "at odds",
    };
    write!(out, "{text:?}: {word}")?;
    tell_octets(command.as_ref(), out)?;
    writeln!(out)
}

// The octets of a command that has some of a client.
fn tell_octets(command: Option<&Command>, out: &mut Vec<u8>) -> io::Result<()> {
    match command {
        Some(Command::Run(Action::In { client, octets })) => {
            write!(out, ", client {client}, octets {:?}", octets.as_slice())
        }
        _ => Ok(()),
    }
}

/// What the lines of the script say to any run.
pub fn tell_lines(alloc: Global, text: &str, out: &mut Vec<u8>) -> io::Result<()> {
    let script = script_of(alloc, text)?;
    let lines = lines_of(alloc, script.as_bytes())?;
    for line in lines.iter() {
        tell_line(alloc, line, out)?;
    }
    Ok(())
}
