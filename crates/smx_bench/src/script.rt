//! Scripts of the relay, of a kind of lines each: one as long as scripts may be, or as its clients may reserve,
//! and one of half its rounds. The longer may take at most 2.3 times as long.

mod kinds;
mod writing;

use crate::figures::{Hundredths, nanos_since, no_memory, push, stopped};
use kinds::{KINDS, Kind};
use smx_relay::{RunEnd, new_state, run_on};
use std::alloc::Global;
use std::io;
use std::io::Write;
use std::rt::Clock;
use std::time::Instant;
use writing::script_of;

/// The most octets of a script.
const MOST: usize = 1_048_576;

/// The rounds of the script by which the octets of a round are told.
const SHORT: u64 = 1_000;

/// How often a count is taken a little lower until the script is short enough.
const TRIES: u64 = 64;

/// How often each script is run, in turn with the other. The least time is shown.
const REPEATS: u64 = 9;

const LANES: [u64; 2] = [1, 16];

/// The octets of a block that comes from the heap and isn't asked of the system alone.
const BLOCK: usize = 65_536;

/// As many blocks as a run may reserve: 1 GB.
const BLOCKS: u64 = 16_384;

// A writer that only counts.
#[derive(Drop)]
struct Counted {
    octets: u64,
}

impl Write for Counted {
    fn write(&mut self, buf: &[u8]) -> io::Result<usize> {
        self.octets = self.octets.saturating_add(buf.len() as u64);
        Ok(buf.len())
    }

    fn flush(&mut self) -> io::Result<()> {
        Ok(())
    }
}

// Lets the heap hold more memory than any run needs, and gives the block above all of it, which keeps the heap from
// giving that back to the system. Else a run would pay for its pages or not by what ran before it, the longer one
// more often than the shorter.
fn hold_memory(alloc: Global) -> io::Result<Option<Vec<u8>>> {
    let mut blocks = Vec::new(alloc);
    for _ in 0..BLOCKS {
        push(&mut blocks, vec![in alloc; 1; BLOCK]?)?;
    }
    Ok(blocks.pop())
}

/// Prints a row for each kind whose name begins so, over 1 lane and over 16.
pub(crate) fn run<R: Print + Clock + AllocGlobal>(rt: &R, begins: &str) -> io::Result<()> {
    let _above = hold_memory(rt.alloc())?;
    println!(rt; "lanes, rounds, ms, rounds, ms, times the first; octets printed by both; lines")?;
    for kind in &KINDS {
        if kind.name.starts_with(begins) {
            for lanes in LANES {
                print_row(rt, rt.alloc(), *kind, lanes)?;
            }
        }
    }
    Ok(())
}

fn print_row<R: Print + Clock>(rt: &R, alloc: Global, kind: Kind, lanes: u64) -> io::Result<()> {
    let count = half_of_most(alloc, kind, lanes)?;
    let twice = count.saturating_mul(2);
    let mut short = Timed::new(script_of(alloc, kind, lanes, count)?);
    let mut long = Timed::new(script_of(alloc, kind, lanes, twice)?);
    for _ in 0..REPEATS {
        short.run(rt, alloc)?;
        long.run(rt, alloc)?;
    }
    println!(rt;
        "{lanes:2} {count:7} {:8} {twice:7} {:8} {:5}; {:9} {:9}; {}",
        Hundredths::quotient(short.least, 1_000_000),
        Hundredths::quotient(long.least, 1_000_000),
        Hundredths::quotient(long.least, short.least),
        short.printed,
        long.printed,
        kind.name
    )
}

// Half the most rounds, or a little less; by halves where a run of all of them would reserve too much.
fn half_of_most(alloc: Global, kind: Kind, lanes: u64) -> io::Result<u64> {
    let octets = script_of(alloc, kind, lanes, SHORT)?.len() as u64;
    let mut count = (MOST as u64 / 2)
        .saturating_mul(SHORT)
        .checked_div(octets)
        .unwrap_or(1);
    for _ in 0..TRIES {
        if script_of(alloc, kind, lanes, count.saturating_mul(2))?.len() <= MOST {
            break;
        }
        count = count.saturating_sub(count / TRIES + 1);
    }
    for _ in 0..TRIES {
        if is_within(
            alloc,
            &script_of(alloc, kind, lanes, count.saturating_mul(2))?,
        ) {
            break;
        }
        count /= 2;
    }
    Ok(count)
}

// Whether what a run of the script reserves is no more than it may.
fn is_within(alloc: Global, script: &[u8]) -> bool {
    let mut writer = Counted { octets: 0 };
    let mut reader = script;
    !matches!(
        smx_relay::run(alloc, &mut reader, &mut writer),
        RunEnd::TooLarge(_)
    )
}

// A script, the least nanoseconds of its runs so far, and the octets that one prints.
#[derive(Drop)]
struct Timed {
    script: Vec<u8>,
    least: u64,
    printed: u64,
}

impl Timed {
    fn new(script: Vec<u8>) -> Timed {
        Timed {
            script,
            least: u64::MAX,
            printed: 0,
        }
    }

    fn run<R: Clock>(&mut self, rt: &R, alloc: Global) -> io::Result<()> {
        let (nanos, octets) = nanos_of_run(rt, alloc, &self.script)?;
        self.least = self.least.min(nanos);
        self.printed = octets;
        Ok(())
    }
}

// The nanoseconds of a run, each of whose lines is good, and the octets that it prints. What the run reserved is
// freed behind that time, since `smx relay` leaves it to the system.
fn nanos_of_run<R: Clock>(rt: &R, alloc: Global, script: &[u8]) -> io::Result<(u64, u64)> {
    let mut writer = Counted { octets: 0 };
    let mut reader = script;
    let start = Instant::now(rt)?;
    let Ok(mut state) = new_state(alloc) else {
        return Err(no_memory());
    };
    match run_on(alloc, &mut state, &mut reader, &mut writer) {
        RunEnd::Clean => Ok((nanos_since(rt, start)?, writer.octets)),
        end => Err(stopped(end)),
    }
}
