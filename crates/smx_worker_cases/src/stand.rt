//! What the workers here are lent, and links whose other end follows a script.
ghost use Rattle.std.specs.Prelude.{◌≡◌};

use smx_memory_link::{MemoryLink, Script};
use smx_pdu::Body;
use smx_routes::RouteFault;
use smx_trace::Trace;
use smx_turns::{Directory, Fault, Gate, Party, Place, Point, Query, Question, RunEnd};
use std::alloc::Global;
use std::cmp::Ord;
use std::process::Abort;
use std::sync::Wait;

/// A gate that says yes but at the point where it is shut, and keeps how often it was asked and
/// told, and of whom last.
#[derive(Drop)]
pub struct OpenGate {
    asked: Trace<Question>,
    told: Trace<Party>,
    pub shut: Option<Point>,
    pub questions: u64,
    pub tidings: u64,
    pub last: Option<Party>,
}

impl Gate for OpenGate {
    ghost asked = { λ g. g.asked };

    ghost told = { λ g. g.told };

    fn at(&mut self, point: Point, turn: u64) -> bool {
        let answer = self.shut != Some(point);
        let question = Question {
            point,
            turn,
            answer,
        };
        self.asked = self.asked.and(&question);
        self.questions = self.questions.saturating_add(1);
        answer
    }

    fn ready(&mut self, party: Party) {
        self.told = self.told.and(&party);
        self.tidings = self.tidings.saturating_add(1);
        self.last = Some(party);
    }
}

/// A directory in which addresses that begin with `4` are client 1's in slot 0, those with `6`
/// client 9's in slot 7. It counts what is entered and removed.
#[derive(Drop)]
pub struct Book {
    queries: Trace<Query>,
    pub added: u64,
    pub removed: u64,
}

fn octets_of(octets: &[u8]) -> Trace<u8>
    ensures { result ≡ octets.now }
{
    let mut trace = Trace::new();
    trace.extend(octets);
    trace
}

impl Directory for Book {
    ghost queries = { λ b. b.queries };

    fn find<R: Wait>(&mut self, _rt: &R, address: &[u8]) -> Option<Place> {
        let found = match address.first() {
            Some(b'4') => Some(Place { client: 1, slot: 0 }),
            Some(b'6') => Some(Place { client: 9, slot: 7 }),
            _ => None,
        };
        self.queries = self.queries.and(&Query::Found(octets_of(address), found));
        found
    }

    fn add<R: Wait>(&mut self, _rt: &R, prefix: &[u8], client: u64) -> Result<(), RouteFault> {
        let query = Query::Added(octets_of(prefix), client, Ok(()));
        self.queries = self.queries.and(&query);
        self.added = self.added.saturating_add(1);
        Ok(())
    }

    fn remove<R: Wait>(&mut self, _rt: &R, client: u64) {
        self.queries = self.queries.and(&Query::Removed(client));
        self.removed = self.removed.saturating_add(1);
    }
}

/// What a turn asks and tells.
#[derive(Drop)]
pub struct World {
    pub gate: OpenGate,
    pub book: Book,
}

impl World {
    pub fn new() -> World {
        World {
            gate: OpenGate {
                asked: Trace::new(),
                told: Trace::new(),
                shut: None,
                questions: 0,
                tidings: 0,
                last: None,
            },
            book: Book {
                queries: Trace::new(),
                added: 0,
                removed: 0,
            },
        }
    }
}

/// Octets that the other end gives in one read, once it took so many.
pub type Piece<'s> = (usize, &'s [u8]);

/// The other end gives these pieces, and takes so many octets a write.
pub fn script(alloc: Global, most: usize, pieces: &[Piece]) -> Script {
    let mut script = Script::new(alloc, most);
    for (after, octets) in pieces {
        script = script.and(*after, octets);
    }
    script
}

/// The same with the first octets of the pieces alone, each in a read of its own.
pub fn octet_by_octet(alloc: Global, most: usize, pieces: &[Piece], count: usize) -> Script {
    let mut script = Script::new(alloc, most);
    let mut left = count;
    for (after, octets) in pieces {
        let (given, _) = octets.split_at(octets.len().min(left));
        for octet in given {
            script = script.and(*after, &[*octet]);
        }
        left = left.saturating_sub(given.len());
    }
    script
}

/// A link to this other end, which has room for all that it is to take.
pub fn link_to(rt: &impl Abort, script: Script) -> MemoryLink<Script> {
    let mut script = script;
    if !script.is_whole() {
        panic!(rt; "out of memory");
    }
    script.make_room(131_072).expect(rt, "out of memory");
    MemoryLink::new(script)
}

/// Whether the other end took just these octets, one part after another.
pub fn took(link: &MemoryLink<Script>, parts: &[&[u8]]) -> bool {
    let mut rest = link.peer().taken();
    for part in parts {
        match rest.strip_prefix(*part) {
            Some(behind) => rest = behind,
            None => return false,
        }
    }
    rest.is_empty()
}

pub fn octets_in(rt: &impl Abort, alloc: Global, octets: &[u8]) -> Vec<u8> {
    Vec::from_slice(alloc, octets).expect(rt, "out of memory")
}

/// A body of these octets, and so many zeros behind them.
pub fn body_of(rt: &impl Abort, alloc: Global, octets: &[u8], zeros: usize) -> Body {
    let mut all = octets_in(rt, alloc, octets);
    let resized = all.resize(octets.len().saturating_add(zeros), 0);
    resized.expect(rt, "out of memory");
    Body::new(all).ok().expect(rt, "the body is short enough")
}

/// Names want of memory, which refuse-memory brings about.
pub fn name_want(rt: &impl Abort, end: RunEnd) {
    if end == RunEnd::Fault(Fault::NoMemory) {
        panic!(rt; "out of memory");
    }
}
