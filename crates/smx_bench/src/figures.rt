//! Figures with two places after the point, times in nanoseconds, and work that threads share.
ghost use Rattle.std.specs.Prelude.{◌≡◌, ◌*◌, ◌/◌, ◌<◌};

use std::alloc::AllocError;
use std::fmt::InlineText;
use std::rt::Clock;
use std::sync::Wait;
use std::thread::Threads;
use std::time::Instant;
use std::{fmt, io, thread};

/// Why measurements stop.
pub const REFUSED: &str = "a call was refused";

pub const NOT_MADE: &str = "a part couldn't be made";

/// The error of a measurement that stops because of this.
pub fn stopped<E: fmt::Display + Drop>(why: E) -> io::Error {
    io::Error::other(InlineText::<80>::of(why).as_str())
}

/// The same where memory was refused.
pub fn no_memory() -> io::Error {
    stopped(AllocError)
}

/// Puts an item behind the others.
pub fn push<T: Drop>(items: &mut Vec<T>, item: T) -> io::Result<()> {
    match items.push(item) {
        Ok(()) => Ok(()),
        Err(_) => Err(no_memory()),
    }
}

/// A count of hundredths, printed with two places after the point.
#[derive(Clone, Copy)]
pub struct Hundredths {
    pub count: u128,
}

impl Hundredths {
    /// `whole` by `parts`, rounded down; 0 where `parts` is.
    pub fn quotient(whole: u64, parts: u64) -> Hundredths
        ensures { 0 < parts → result.count ≡ whole * 100 / parts }
    {
        Hundredths {
            count: (whole as u128 * 100)
                .checked_div(parts as u128)
                .unwrap_or(0),
        }
    }
}

impl fmt::Display for Hundredths {
    fn fmt<W: fmt::Write>(&self, f: &mut fmt::Formatter<W>) -> fmt::Result {
        write!(f, "{}.{:02}", self.count / 100, self.count % 100)
    }
}

/// Nanoseconds since `start`, at most `u64::MAX`.
pub fn nanos_since<R: Clock>(rt: &R, start: Instant) -> io::Result<u64> {
    let took = start.elapsed(rt)?;
    Ok(u64::try_from(took.as_nanos()).unwrap_or(u64::MAX))
}

/// What one thread does.
pub trait Work {
    /// Does it, and counts what it did.
    fn run<R: Wait>(self, rt: &R) -> u64;
}

/// The nanoseconds that the works take, and the sum of their counts. Each has a thread of its own,
/// where there are several; the start and the end of the threads are in the time.
pub fn nanos_of_works<W: Work + Send + Drop, R: Threads + Wait + Sync + Clock>(
    rt: &R,
    works: Vec<W>,
) -> io::Result<(u64, u64)> {
    let start = Instant::now(rt)?;
    match thread::map_vec(rt, works, &|work: W| work.run(rt)) {
        Ok(counts) => with_sum(nanos_since(rt, start), &counts),
        Err(_) => Err(no_memory()),
    }
}

/// The nanoseconds that the works take, whose counts are to be so many in all.
pub fn nanos_of_all<W: Work + Send + Drop, R: Threads + Wait + Sync + Clock>(
    rt: &R,
    works: Vec<W>,
    wanted: u64,
    what: &str,
) -> io::Result<u64> {
    match nanos_of_works(rt, works)? {
        (nanos, count) if count == wanted => Ok(nanos),
        (_, count) => Err(stopped(format_args!("{count} {what}"))),
    }
}

// The nanoseconds beside the sum of the counts.
fn with_sum(nanos: io::Result<u64>, counts: &[u64]) -> io::Result<(u64, u64)> {
    let mut sum = 0u64;
    for count in counts {
        sum = sum.saturating_add(*count);
    }
    Ok((nanos?, sum))
}
