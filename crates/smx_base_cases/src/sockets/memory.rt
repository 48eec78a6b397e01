//! A connection over memory.
ghost use Rattle.std.specs.Prelude.{◌≡◌, ◌≤◌, [], length, false};
ghost use Rattle.smx_socket.specs.Outcomes.{IsMovedWithin};

use smx_socket::{Outcome, Transport};
use smx_trace::Trace;
use std::cmp::Ord;

/// What the system is to do: it gives these octets, and its reads and writes are answered so, one
/// after another; of an answer `Moved` it moves so many octets at most. After the last answer there
/// is nothing now.
#[derive(Clone, Copy)]
pub(crate) struct System<'a> {
    pub(crate) gives: &'a [u8],
    pub(crate) reads: &'a [Outcome],
    pub(crate) writes: &'a [Outcome],
}

/// A system's end of a connection, in memory.
#[derive(Drop)]
pub(crate) struct Memory<'a> {
    system: System<'a>,
    // How many octets were given, and how many reads and writes were answered.
    gone: usize,
    read: usize,
    written: usize,
    // What was taken.
    shown: Vec<u8>,
    is_shut: bool,
    given: Trace<u8>,
    taken: Trace<u8>,
    reads: Trace<Outcome>,
    writes: Trace<Outcome>,
}

impl<'a> Memory<'a> {
    /// A connection without a past. What is taken is kept behind what the list has.
    pub(crate) fn new(list: Vec<u8>, system: System<'a>) -> Memory<'a>
        ensures octets { (result.given ≡ []) × (result.taken ≡ []) }
        ensures answers { (result.reads ≡ []) × (result.writes ≡ []) }
        ensures is_shut { result.is_shut ≡ false }
    {
        Memory {
            system,
            gone: 0,
            read: 0,
            written: 0,
            shown: list,
            is_shut: false,
            given: Trace::new(),
            taken: Trace::new(),
            reads: Trace::new(),
            writes: Trace::new(),
        }
    }

    /// The octets that were taken.
    pub(crate) fn shown(&self) -> &[u8] {
        self.shown.as_slice()
    }

    /// How many reads were asked for.
    pub(crate) fn asked(&self) -> usize {
        self.read
    }

    /// Whether the writing side was shut down.
    pub(crate) fn was_shut(&self) -> bool {
        self.is_shut
    }
}

// The answer at the index.
fn answer(answers: &[Outcome], at: usize) -> Outcome {
    answers.get(at).copied().unwrap_or(Outcome::NotNow)
}

// Gives octets, so many at most, and answers how many.
fn give(octets: &[u8], most: usize, buffer: &mut [u8]) -> usize
    ensures { result ≤ length buffer.new }
{
    let count = octets.len().min(most).min(buffer.len());
    buffer[..count].copy_from_slice(&octets[..count]);
    count
}

// Keeps octets, so many at most. Where there is no memory for them the connection fails.
fn keep(shown: &mut Vec<u8>, octets: &[u8], most: usize) -> Outcome
    ensures { IsMovedWithin result (length octets.now) }
{
    let count = octets.len().min(most);
    match shown.extend_from_slice(&octets[..count]) {
        Ok(()) => Outcome::Moved(count),
        Err(_) => Outcome::Failed,
    }
}

impl Transport for Memory<'_> {
    ghost given = { λ m. m.given };

    ghost taken = { λ m. m.taken };

    ghost reads = { λ m. m.reads };

    ghost writes = { λ m. m.writes };

    ghost is_shut = { λ m. m.is_shut };

    fn read(&mut self, buffer: &mut [u8]) -> Outcome {
        let mut outcome = answer(self.system.reads, self.read);
        self.read = self.read.saturating_add(1);
        if let Outcome::Moved(most) = outcome {
            let left = self.system.gives.get(self.gone..).unwrap_or(&[]);
            let count = give(left, most, buffer);
            self.gone = self.gone.saturating_add(count);
            self.given.extend(&buffer[..count]);
            outcome = Outcome::Moved(count);
        }
        self.reads = self.reads.and(&outcome);
        outcome
    }

    fn write(&mut self, octets: &[u8]) -> Outcome {
        let mut outcome = answer(self.system.writes, self.written);
        self.written = self.written.saturating_add(1);
        if let Outcome::Moved(most) = outcome {
            outcome = keep(&mut self.shown, octets, most);
        }
        if let Outcome::Moved(count) = outcome {
            self.taken.extend(&octets[..count]);
        }
        self.writes = self.writes.and(&outcome);
        outcome
    }

    fn shut_write(&mut self) {
        self.is_shut = true;
    }
}
