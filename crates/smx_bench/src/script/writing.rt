//! A script of a kind of lines.

use crate::script::kinds::Kind;
use std::alloc::Global;
use std::io;
use std::io::Write;

/// A prime above the rounds of each script.
const PRIME: u64 = 1_000_003;

/// The number upstream of the next request in a place of a lane is so much above the one before.
const STEP: u64 = 1_024;

// Where a script stands: in this round, from 0 on, of so many, over so many lanes.
#[derive(Clone, Copy)]
struct Round {
    at: u64,
    count: u64,
    lanes: u64,
}

impl Round {
    // The number of a round, which goes from the middle to both ends.
    fn from_the_middle(self) -> u64 {
        let half = self.at / 2;
        let middle = self.count / 2;
        if self.at % 2 == 0 {
            middle.saturating_add(half).saturating_add(1)
        } else {
            middle.saturating_sub(half)
        }
    }

    // The number of a round, each once, and far from the one before.
    fn mixed(self) -> u64 {
        let far = self.at.saturating_mul(PRIME);
        far.checked_rem(self.count).unwrap_or(0).saturating_add(1)
    }

    fn lane(self) -> u64 {
        self.at.checked_rem(self.lanes).unwrap_or(0)
    }

    // The number upstream.
    fn upstream(self) -> u64 {
        let earlier = self.at.checked_div(self.lanes).unwrap_or(0);
        earlier.saturating_mul(STEP).saturating_add(1)
    }
}

// Adds what a letter stands for; a letter that stands for nothing is left out.
fn push_letter(script: &mut Vec<u8>, letter: &str, round: Round) -> io::Result<()> {
    let number = round.at.saturating_add(1);
    match letter {
        "i" => write!(script, "{number}"),
        "n" => write!(script, "{number:08x}"),
        "d" => write!(script, "{}", round.count.saturating_sub(round.at)),
        "m" => write!(script, "{}", round.from_the_middle()),
        "r" => write!(script, "{}", round.mixed()),
        "s" => write!(script, "{}", round.mixed().saturating_add(1)),
        "l" => write!(script, "{}", round.lane()),
        "u" => write!(script, "{:08x}", round.upstream()),
        _ => Ok(()),
    }
}

// Adds the text, with what stands for its letters.
fn push_text(script: &mut Vec<u8>, text: &str, round: Round) -> io::Result<()> {
    let mut pieces = text.split("@");
    script.extend_from_slice(pieces.next().unwrap_or("").as_bytes())?;
    for piece in pieces {
        let (letter, rest) = piece.split_at_checked(1).unwrap_or((piece, ""));
        push_letter(script, letter, round)?;
        script.extend_from_slice(rest.as_bytes())?;
    }
    Ok(())
}

/// The script of a kind, of so many rounds over so many lanes.
pub fn script_of(alloc: Global, kind: Kind, lanes: u64, count: u64) -> io::Result<Vec<u8>> {
    let mut script = Vec::new(alloc);
    writeln!(script, "lanes {lanes}")?;
    script.extend_from_slice(kind.first.as_bytes())?;
    for text in [kind.before, kind.round] {
        for at in 0..count {
            push_text(&mut script, text, Round { at, count, lanes })?;
        }
    }
    Ok(script)
}
