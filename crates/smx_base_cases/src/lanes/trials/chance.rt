//! Calls drawn by chance.

use super::past::{answered, greatest, last_ordinal, number_before};
use crate::lanes::said::octet;
use rand_core::utils::NextWord;
use rand_pcg::Pcg32;
use smx_lane::{Call, Entry, Kind, Request};
use smx_pdu::{Body, Pdu, is_forwarded};
use std::alloc::Global;
use std::process::Abort;

/// A call: its kind, its caller and as much of the entry that it leaves as is known before. The moment
/// is that of a take or of a request that fails since it is too old, and only such a one has an age.
#[derive(Clone, Copy)]
pub(crate) struct Asked {
    pub(crate) entry: Entry,
    pub(crate) now: u64,
    pub(crate) age: Option<u64>,
    // Of a response.
    status: u32,
}

/// Where the calls come from.
#[derive(Drop)]
pub(crate) struct Chance {
    words: Pcg32,
    // The latest moment so far.
    clock: u64,
    /// How many calls it gave.
    pub(crate) calls: u32,
    /// Whether one of them gave up a request that was too old.
    pub(crate) has_expired: bool,
}

// A call of the kind with nothing else in its entry.
fn plain(kind: Kind, by: u64, client: u64) -> Asked {
    let entry = Entry {
        kind,
        by,
        client,
        ordinal: 0,
        number: 0,
        command: 0,
    };
    Asked {
        entry,
        now: 0,
        age: None,
        status: 0,
    }
}

impl Chance {
    pub(crate) fn new() -> Chance {
        Chance {
            words: Pcg32::new(42, 54),
            clock: 0,
            calls: 0,
            has_expired: false,
        }
    }

    /// A number below `end`.
    pub(crate) fn below(&mut self, end: u32) -> u32 {
        self.words.next_word().checked_rem(end).unwrap_or(0)
    }

    // The moment of a call: now and then one that is later, and sometimes one that has passed.
    fn now(&mut self) -> u64 {
        if self.below(4) == 0 {
            let later = u64::from(self.below(100));
            self.clock = self.clock.saturating_add(later);
        }
        let behind = match self.below(8) {
            0 => u64::from(self.below(200)),
            _ => 0,
        };
        self.clock.saturating_sub(behind)
    }

    // An age: mostly one that some requests reach, else the least or the greatest.
    fn age(&mut self) -> u64 {
        match self.below(16) {
            0 => 0,
            1 => u64::MAX,
            _ => u64::from(self.below(1_000)),
        }
    }

    // The number of a response: mostly one of those that were given last, else one of the same place
    // that is not given yet, or was before, or any small one.
    fn number(&mut self, past: &[Entry]) -> u32 {
        let others = self.below(4) as usize;
        let number = number_before(past, others);
        match self.below(16) {
            0 => number.saturating_add(1_024),
            1 => number.saturating_sub(1_024),
            2 => self.below(6),
            _ => number,
        }
    }

    fn admit(&mut self, past: &[Entry]) -> Asked {
        let client = greatest(past).saturating_add(u64::from(self.below(3)));
        plain(Kind::Admit, client % 3, client)
    }

    fn accept(&mut self, past: &[Entry], client: u64) -> Asked {
        let mut asked = plain(Kind::Accept, client % 3, client);
        let skipped = u64::from(self.below(2));
        let last = last_ordinal(past, client);
        asked.entry.ordinal = last.saturating_add(1).saturating_add(skipped);
        asked.entry.number = self.below(100);
        asked.entry.command = match self.below(3) {
            0 => 0x0000_0004,
            1 => 0x0000_0103,
            _ => 0x0000_0003,
        };
        asked
    }

    fn take(&mut self, by: u64) -> Asked {
        let mut asked = plain(Kind::Take, by, 0);
        asked.now = self.now();
        asked
    }

    // A response to the client and with the ordinal that it is for, or to 0 where it answers nothing.
    fn answer(&mut self, past: &[Entry], by: u64) -> Asked {
        let mut asked = plain(Kind::Answer, by, 0);
        let number = self.number(past);
        let command = match self.below(5) {
            0 => 0x8000_0000,
            1 => 0x8000_0003,
            2 => 0x8000_0103,
            _ => 0x8000_0004,
        };
        if let Some(accept) = answered(past, number, command) {
            asked.entry.client = accept.client;
            asked.entry.ordinal = accept.ordinal;
        }
        asked.entry.number = number;
        asked.entry.command = command;
        asked.status = self.below(2);
        asked
    }

    fn fail_expired(&mut self, by: u64) -> Asked {
        let mut asked = plain(Kind::Fail, by, 0);
        asked.now = self.now();
        asked.age = Some(self.age());
        asked
    }

    /// A call after these entries, most often of a client that may be there and of who admitted it.
    pub(crate) fn asked(&mut self, past: &[Entry]) -> Asked {
        self.calls = self.calls.saturating_add(1);
        let back = u64::from(self.below(4));
        let client = greatest(past).saturating_sub(back);
        let by = client % 3;
        match self.below(54) {
            0..=1 => self.admit(past),
            2..=13 => self.accept(past, client),
            14..=22 => self.take(by),
            23..=34 => self.answer(past, by),
            35..=42 => plain(Kind::Collect, by, client),
            43 => plain(Kind::Retire, by, client),
            44 => plain(Kind::Down, by, 0),
            45..=47 => plain(Kind::Fail, by, 0),
            48..=49 => self.fail_expired(by),
            _ => plain(Kind::Up, by, 0),
        }
    }
}

fn body(rt: &impl Abort, alloc: Global, ordinal: u64) -> Body {
    let octets = Vec::from_array(alloc, [octet(ordinal)]).expect(rt, "out of memory");
    Body::short(octets)
}

fn request(rt: &impl Abort, alloc: Global, entry: Entry) -> Request {
    let command = entry.command;
    assert!(rt; is_forwarded(command));
    Request {
        client: entry.client,
        ordinal: entry.ordinal,
        own: entry.number,
        command,
        body: body(rt, alloc, entry.ordinal),
    }
}

fn response(rt: &impl Abort, alloc: Global, asked: Asked) -> Pdu {
    Pdu {
        command: asked.entry.command,
        status: asked.status,
        number: asked.entry.number,
        body: body(rt, alloc, asked.entry.ordinal),
    }
}

/// The call of the lane.
pub(crate) fn call_of(rt: &impl Abort, alloc: Global, asked: Asked) -> Call {
    let (by, client, now) = (asked.entry.by, asked.entry.client, asked.now);
    match asked.entry.kind {
        Kind::Admit => Call::Admit { by, client },
        Kind::Accept => Call::Accept {
            by,
            request: request(rt, alloc, asked.entry),
        },
        Kind::Take => Call::Take { by, now },
        Kind::Answer | Kind::Late => Call::Answer {
            by,
            response: response(rt, alloc, asked),
        },
        Kind::Collect => Call::Collect { by, client },
        Kind::Retire => Call::Retire { by, client },
        Kind::Down => Call::Down { by },
        Kind::Fail => match asked.age {
            Some(age) => Call::FailExpired { by, now, age },
            None => Call::Fail { by },
        },
        Kind::Up => Call::Up { by },
    }
}
