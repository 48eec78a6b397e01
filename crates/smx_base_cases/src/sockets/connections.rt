//! Connections over memory: what is written, read and told.
use self::Row::{
    Asked, Drains, Failures, Flushes, Gives, Reads, Shuts, Took, Wakes, WasShut, Writes,
};
use crate::rows::check;
use crate::sockets::memory::{Memory, System};
use smx_link::{LinkFault, Polled};
use smx_socket::Outcome::{Failed, Moved, NotNow, Retry};
use smx_socket::{Answers, Connection, Drained, Flushed, MOST};
use std::alloc::Global;
use std::process::Abort;
use std::test::*;

// A call of a connection with what comes of it.
#[derive(Clone, Copy)]
enum Row<'a> {
    // A write of these is told this.
    Writes(&'a [u8], Result<usize, LinkFault>),
    // A read of eight octets gives these.
    Gives(&'a [u8]),
    // It gives none, and is told this.
    Reads(Result<Polled, LinkFault>),
    Flushes(Flushed),
    Shuts(Flushed),
    Drains(Drained),
    // The system said that it gives and takes octets.
    Wakes,
    // The system took these so far; whether more wait.
    Took(&'a [u8], bool),
    // So many reads of the system so far.
    Asked(usize),
    WasShut(bool),
    // So many faults were told.
    Failures(u64),
}

// A connection with the answers of its link.
#[derive(Drop)]
struct Linked<'a> {
    connection: Connection<Memory<'a>>,
    answers: Answers,
}

fn reads(linked: &mut Linked, wanted: Result<Polled, LinkFault>, octets: &[u8]) -> bool {
    let mut buffer = [0u8; 8];
    let found = linked
        .connection
        .poll_read(&mut buffer, &mut linked.answers);
    found == wanted && buffer.starts_with(octets)
}

fn holds(linked: &mut Linked, row: Row) -> bool {
    match row {
        Writes(octets, wanted) => linked.connection.write(octets, &mut linked.answers) == wanted,
        Gives(octets) => reads(linked, Ok(Polled::Octets(octets.len())), octets),
        Reads(wanted) => reads(linked, wanted, &[]),
        Flushes(wanted) => linked.connection.flush() == wanted,
        Shuts(wanted) => linked.connection.shut_write() == wanted,
        Drains(wanted) => linked.connection.drain() == wanted,
        Wakes => {
            linked.connection.note_readable();
            linked.connection.note_writable();
            true
        }
        Took(octets, waits) => {
            let shown = linked.connection.transport().shown();
            shown == octets && linked.connection.has_octets() == waits
        }
        Asked(count) => linked.connection.transport().asked() == count,
        Failures(count) => linked.answers.failures() == count,
        WasShut(wanted) => linked.connection.transport().was_shut() == wanted,
    }
}

// A connection over this system, and what comes of its calls.
#[derive(Clone, Copy)]
struct Case<'a> {
    name: &'a str,
    system: System<'a>,
    rows: &'a [Row<'a>],
}

// An empty list with room for all octets of a test.
fn room(rt: &impl Abort, alloc: Global) -> Vec<u8> {
    Vec::with_capacity(alloc, 70_000).expect(rt, "out of memory")
}

fn play(rt: &impl Abort, alloc: Global, case: &Case) {
    let connection = Connection::new(alloc, Memory::new(room(rt, alloc), case.system));
    let mut linked = Linked {
        connection: connection.expect(rt, "out of memory"),
        answers: Answers::new(),
    };
    for at in 0..case.rows.len() {
        let holds = holds(&mut linked, case.rows[at]);
        check(rt, holds, case.name, at);
    }
}

const END: Result<Polled, LinkFault> = Ok(Polled::End);

const NOTHING: Result<Polled, LinkFault> = Ok(Polled::Nothing);

const FAULT: Result<Polled, LinkFault> = Err(LinkFault);

// The system takes nothing, a part, or all at a time.
const PARTS: Case = Case {
    name: "parts",
    system: System {
        gives: &[],
        reads: &[],
        writes: &[NotNow, Moved(2), Retry, Moved(3), NotNow, Moved(100)],
    },
    rows: &[
        Writes(b"abc", Ok(3)),
        Writes(b"defg", Ok(4)),
        Took(b"", true),
        Flushes(Flushed::Part),
        Took(b"", true),
        Wakes,
        Flushes(Flushed::Part),
        Took(b"abcde", true),
        Writes(b"hi", Ok(2)),
        Wakes,
        Flushes(Flushed::All),
        Took(b"abcdefghi", false),
    ],
};

// Eight octets fill a read's buffer, so the system is asked again; fewer have emptied it. An
// interrupted read says nothing of what is there.
const CUT_READS: Case = Case {
    name: "reads",
    system: System {
        gives: b"hello world, again",
        reads: &[Moved(8), Moved(100), NotNow, Retry, Moved(3), Moved(100)],
        writes: &[],
    },
    rows: &[
        Gives(b"hello wo"),
        Gives(b"rld, aga"),
        Reads(NOTHING),
        Asked(3),
        Reads(NOTHING),
        Asked(3),
        Wakes,
        Reads(NOTHING),
        Asked(4),
        Gives(b"in"),
        Reads(NOTHING),
        Asked(5),
        Wakes,
        Reads(END),
        Asked(6),
        Failures(0),
        Drains(Drained::Ended),
        Asked(6),
    ],
};

const FAILED_READ: Case = Case {
    name: "a failed read",
    system: System {
        gives: b"abc",
        reads: &[Failed, Moved(3)],
        writes: &[Moved(3)],
    },
    rows: &[
        Reads(FAULT),
        Reads(FAULT),
        Writes(b"abc", Err(LinkFault)),
        Failures(3),
        Flushes(Flushed::Failed),
        Drains(Drained::Ended),
        Took(b"", false),
        Asked(1),
    ],
};

// What a flush meets is told by the next call.
const FAILED_FLUSH: Case = Case {
    name: "a failed flush",
    system: System {
        gives: b"abc",
        reads: &[Moved(3)],
        writes: &[Moved(2), Failed, Moved(2)],
    },
    rows: &[
        Writes(b"abcd", Ok(4)),
        Flushes(Flushed::Failed),
        Took(b"ab", true),
        Failures(0),
        Reads(FAULT),
        Failures(1),
        Asked(0),
    ],
};

// A system that takes none of some octets has failed.
const NONE_TAKEN: Case = Case {
    name: "none taken",
    system: System {
        gives: &[],
        reads: &[],
        writes: &[Moved(0), Moved(4)],
    },
    rows: &[
        Writes(b"abcd", Ok(4)),
        Flushes(Flushed::Failed),
        Took(b"", true),
        Writes(b"e", Err(LinkFault)),
    ],
};

// The writing side is shut down behind the last octet, and reads go on.
const SHUT: Case = Case {
    name: "shut",
    system: System {
        gives: b"abc",
        reads: &[Moved(100)],
        writes: &[NotNow, Moved(100)],
    },
    rows: &[
        Writes(b"bye", Ok(3)),
        Shuts(Flushed::Part),
        WasShut(false),
        Writes(b"more", Ok(0)),
        Wakes,
        Flushes(Flushed::All),
        Took(b"bye", false),
        WasShut(true),
        Shuts(Flushed::All),
        Gives(b"abc"),
        Failures(0),
    ],
};

const DRAINED: Case = Case {
    name: "drained",
    system: System {
        gives: b"abc",
        reads: &[Retry, Moved(100), Moved(100)],
        writes: &[],
    },
    rows: &[
        Drains(Drained::More),
        Drains(Drained::Nothing),
        Drains(Drained::Nothing),
        Asked(2),
        Wakes,
        Drains(Drained::Ended),
    ],
};

#[test]
fn links_are_told_what_the_system_did(rt: HostRuntime) {
    let alloc = rt.alloc();
    play(&rt, alloc, &PARTS);
    play(&rt, alloc, &CUT_READS);
    play(&rt, alloc, &FAILED_READ);
    play(&rt, alloc, &FAILED_FLUSH);
    play(&rt, alloc, &NONE_TAKEN);
    play(&rt, alloc, &SHUT);
    play(&rt, alloc, &DRAINED);
}

// Octets of which no two parts are alike.
fn many(rt: &impl Abort, alloc: Global) -> Vec<u8> {
    let mut many = Vec::new(alloc);
    for at in 0..70_000u32 {
        many.push((at % 251) as u8).expect(rt, "out of memory");
    }
    many
}

// Where the system takes none there is room for 65,536 octets, and no more are told to be taken.
#[test]
fn room_ends(rt: HostRuntime) {
    let alloc = rt.alloc();
    let many = many(&rt, alloc);
    let first = many.get(..MOST).unwrap_or(&[]);
    let rest = many.get(MOST..).unwrap_or(&[]);
    let rows = [
        Writes(&many, Ok(MOST)),
        Writes(rest, Ok(0)),
        Took(b"", true),
        Wakes,
        Flushes(Flushed::All),
        Took(first, false),
        Writes(rest, Ok(4_464)),
        Flushes(Flushed::All),
        Took(&many, false),
    ];
    let system = System {
        gives: &[],
        reads: &[],
        writes: &[NotNow, Moved(100_000), Moved(100_000)],
    };
    let name = "room ends";
    play(
        &rt,
        alloc,
        &Case {
            name,
            system,
            rows: &rows,
        },
    );
}

// What is short of room is flushed, and the rest goes behind it.
#[test]
fn room_is_made(rt: HostRuntime) {
    let alloc = rt.alloc();
    let many = many(&rt, alloc);
    let rows = [
        Writes(&many, Ok(70_000)),
        Wakes,
        Flushes(Flushed::All),
        Took(&many, false),
    ];
    let system = System {
        gives: &[],
        reads: &[],
        writes: &[Moved(40_000), NotNow, Moved(100_000)],
    };
    let name = "room is made";
    play(
        &rt,
        alloc,
        &Case {
            name,
            system,
            rows: &rows,
        },
    );
}

// The count of octets both ways, and whether one came.
#[test]
fn lines_are_told_of_octets(rt: HostRuntime) {
    let alloc = rt.alloc();
    let system = System {
        gives: b"hello",
        reads: &[Moved(100)],
        writes: &[],
    };
    let connection = Connection::new(alloc, Memory::new(room(&rt, alloc), system));
    let mut connection = connection.expect(&rt, "out of memory");
    let mut answers = Answers::new();
    let mut buffer = [0u8; 8];
    assert!(rt; connection.write(b"abcdefghij", &mut answers) == Ok(10));
    assert!(rt; !connection.has_given());
    assert!(rt; connection.poll_read(&mut buffer, &mut answers) == Ok(Polled::Octets(5)));
    assert!(rt; connection.traffic() == 15);
    assert!(rt; connection.has_given());
}
