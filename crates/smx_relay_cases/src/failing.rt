//! Readers and writers that fail.
ghost use Rattle.std.specs.Prelude.{Some};

use crate::scripts::script_of;
use smx_config::check;
use smx_relay::{RunEnd, run};
use std::alloc::{AllocError, Global};
use std::io;
use std::io::{ErrorKind, Read, Write};

/// The octets of an output for which memory is taken first.
const ROOM: usize = 4_096;

// A reader that gives one octet at a time, and fails after so many reads.
#[derive(Drop)]
struct Broken<'a> {
    octets: &'a [u8],
    reads: usize,
}

impl Read for Broken<'_> {
    fn read(&mut self, buf: &mut [u8]) -> io::Result<usize> {
        if self.reads == 0 {
            return Err(io::Error::from(ErrorKind::Other));
        }
        self.reads -= 1;
        if buf.is_empty() {
            return Ok(0);
        }
        match self.octets {
            [] => Ok(0),
            [first, rest @ ..] => {
                buf[0] = *first;
                self.octets = rest;
                Ok(1)
            }
        }
    }
}

// A writer that takes some octets at a time, and fails or takes nothing after so many writes.
#[derive(Drop)]
struct Weary {
    held: Vec<u8>,
    writes: usize,
    takes: usize,
    fails: bool,
}

impl Write for Weary {
    ghost contents = { λ w. Some w.held.items };

    fn write(&mut self, buf: &[u8]) -> io::Result<usize> {
        if self.writes == 0 {
            if self.fails {
                return Err(io::Error::from(ErrorKind::Other));
            }
            return Ok(0);
        }
        self.writes -= 1;
        let count = buf.len().min(self.takes);
        self.held.extend_from_slice(&buf[..count])?;
        Ok(count)
    }

    fn flush(&mut self) -> io::Result<()> {
        Ok(())
    }
}

// What writes: the run of a script, or the check of a configuration.
#[derive(Clone, Copy)]
enum Work<'a> {
    Run(&'a str),
    Check(&'a str),
}

// How the work ends over the writer.
fn work_over<W: Write>(alloc: Global, work: Work<'_>, writer: &mut W) -> RunEnd {
    match work {
        Work::Run(script) => {
            let mut reader = script.as_bytes();
            run(alloc, &mut reader, writer)
        }
        Work::Check(text) => match check(alloc, text, writer) {
            Ok(_) => RunEnd::Clean,
            Err(_) => RunEnd::WriteFault,
        },
    }
}

/// What runs of the script print over readers that fail at once, after one read, after two, .., and
/// how they end, where that is another end than before.
pub fn tell_readers(alloc: Global, text: &str, out: &mut Vec<u8>) -> io::Result<()> {
    let script = script_of(alloc, text)?;
    let mut last = None;
    for reads in 0..=script.len().saturating_add(1) {
        let octets = script.as_bytes();
        let end = run(alloc, &mut Broken { octets, reads }, out);
        if last != Some(end) {
            writeln!(out, "{reads} reads: {end}")?;
        }
        last = Some(end);
    }
    Ok(())
}

// What is left of a work by a writer that grew weary.
#[derive(Clone, Copy)]
struct Left {
    end: RunEnd,
    is_front: bool,
    octets: usize,
}

// What is left of a work whose whole output this is.
fn left_by(alloc: Global, work: Work<'_>, whole: &[u8], mut writer: Weary) -> Left {
    let end = work_over(alloc, work, &mut writer);
    let held = writer.held.as_slice();
    Left {
        end,
        is_front: whole.starts_with(held),
        octets: held.len(),
    }
}

// A writer that takes so many octets at a time, and fails or takes nothing after so many writes.
fn weary_of(
    alloc: Global,
    room: usize,
    writes: usize,
    takes: usize,
    fails: bool,
) -> Result<Weary, AllocError> {
    let held = Vec::with_capacity(alloc, room)?;
    Ok(Weary {
        held,
        writes,
        takes,
        fails,
    })
}

fn tell_left(writes: usize, left: Left, out: &mut Vec<u8>) -> io::Result<()> {
    let Left {
        end,
        is_front,
        octets,
    } = left;
    let front = if is_front { "a front" } else { "no front" };
    writeln!(out, "{writes} writes: {end}; {front}, octets {octets}")
}

// What is left after no write, after one, after two, .. up to the whole output, where that isn't what
// was left before and one octet more. A writer takes so many octets at a time.
fn tell_weary(
    alloc: Global,
    work: Work<'_>,
    whole: &[u8],
    takes: usize,
    fails: bool,
    out: &mut Vec<u8>,
) -> io::Result<()> {
    let mut last = None;
    for writes in 0..=whole.len() {
        let writer = weary_of(alloc, whole.len(), writes, takes, fails)?;
        let left = left_by(alloc, work, whole, writer);
        let found = (left.end, left.is_front, left.octets.wrapping_sub(writes));
        if last != Some(found) {
            tell_left(writes, left, out)?;
        }
        if left.end == RunEnd::Clean {
            return Ok(());
        }
        last = Some(found);
    }
    Ok(())
}

// The whole output, and what is left of it by writers that take one octet or a whole text at a time,
// and then fail or take nothing.
fn tell_writers(alloc: Global, work: Work<'_>, out: &mut Vec<u8>) -> io::Result<()> {
    let mut whole = Vec::with_capacity(alloc, ROOM)?;
    let end = work_over(alloc, work, &mut whole);
    out.extend_from_slice(&whole)?;
    if end != RunEnd::Clean {
        return writeln!(out, "{end}");
    }
    for takes in [1, 1_000] {
        for fails in [true, false] {
            let then = if fails { "fails" } else { "takes nothing" };
            writeln!(out, "takes {takes}, then {then}")?;
            tell_weary(alloc, work, &whole, takes, fails, out)?;
        }
    }
    Ok(())
}

/// What runs of the script leave over writers that fail.
pub fn tell_run_writers(alloc: Global, text: &str, out: &mut Vec<u8>) -> io::Result<()> {
    let script = script_of(alloc, text)?;
    tell_writers(alloc, Work::Run(&script), out)
}

/// What checks of the configuration leave over writers that fail.
pub fn tell_check_writers(alloc: Global, text: &str, out: &mut Vec<u8>) -> io::Result<()> {
    tell_writers(alloc, Work::Check(text), out)
}
