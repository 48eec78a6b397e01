//! A socket, and what the system said of it.
ghost use Rattle.std.specs.Prelude.{◌≡◌, ◌≤◌, ◌+◌, ◌++◌, length, IfOk};
ghost use Rattle.smx_link.specs.Links.{octets_read, octets_written, IsReadWithin, polls_of, fault_count};

use crate::connection::{Answers, Connection, Drained, Flushed};
use crate::keeping::keep_alive;
use crate::marks::Marks;
use crate::tcp::Tcp;
use mio::event::Event;
use mio::net::TcpStream;
use mio::{Interest, Registry, Token};
use smx_link::{LinkFault, Polled};
use std::alloc::Global;
use std::cell::RefCell;
use std::io;

/// A connection that never waits, shared by its link and by whoever waits for the system's events.
/// What is written waits, at most 65,536 octets of it, until it is flushed.
#[derive(Drop)]
pub struct Socket {
    connection: RefCell<Connection<Tcp>>,
}

impl Socket {
    /// Over a connection that doesn't block and that nobody has read or written, whose events come
    /// under this token. The system sees to it that a peer which is gone is noticed, as far as it can.
    /// It takes memory for 65,536 octets; where that is wanted, or the system refuses to watch it, it
    /// is closed.
    pub fn new(
        alloc: Global,
        stream: TcpStream,
        registry: &Registry,
        token: Token,
    ) -> Option<Socket> {
        let mut stream = stream;
        let interest = Interest::READABLE | Interest::WRITABLE;
        if registry.register(&mut stream, token, interest).is_err() {
            return None;
        }
        keep_alive(&stream);
        match Connection::new(alloc, Tcp::new(stream)) {
            Ok(connection) => Some(Socket {
                connection: RefCell::new(connection),
            }),
            Err(_) => None,
        }
    }

    /// What an event said.
    pub fn note(&self, event: &Event) {
        let Ok(mut connection) = self.connection.try_borrow_mut() else {
            return;
        };
        if event.is_read_closed() || event.is_error() {
            connection.note_read_closed();
        }
        if event.is_readable() {
            connection.note_readable();
        }
        if event.is_writable() {
            connection.note_writable();
        }
    }

    fn marks(&self) -> Marks {
        match self.connection.try_borrow() {
            Ok(connection) => connection.marks(),
            Err(_) => Marks::new(),
        }
    }

    /// Whether a read may find something.
    pub fn is_readable(&self) -> bool {
        self.marks().readable
    }

    /// Whether the system takes octets, as far as is known.
    pub fn is_writable(&self) -> bool {
        self.marks().writable
    }

    /// Whether the peer has ended its side.
    pub fn has_ended(&self) -> bool {
        self.marks().ended
    }

    /// Whether the connection failed.
    pub fn has_failed(&self) -> bool {
        self.marks().failed
    }

    /// How many octets its link gave and took, modulo 2^64.
    pub fn traffic(&self) -> u64 {
        match self.connection.try_borrow() {
            Ok(connection) => connection.traffic(),
            Err(_) => 0,
        }
    }

    /// Whether its link gave an octet.
    pub fn has_given(&self) -> bool {
        match self.connection.try_borrow() {
            Ok(connection) => connection.has_given(),
            Err(_) => false,
        }
    }

    /// Why the connection failed, where it did and the system said so.
    pub fn failure(&self) -> Option<io::Error> {
        match self.connection.try_borrow() {
            Ok(connection) => connection.transport().failure(),
            Err(_) => None,
        }
    }

    /// Whether octets wait to be flushed.
    pub fn has_octets(&self) -> bool {
        match self.connection.try_borrow() {
            Ok(connection) => connection.has_octets(),
            Err(_) => false,
        }
    }

    /// How many octets wait to be flushed.
    pub fn waiting(&self) -> usize {
        match self.connection.try_borrow() {
            Ok(connection) => connection.waiting(),
            Err(_) => 0,
        }
    }

    /// Reads where the last event or read left something to read; else it costs no call of the system.
    pub fn poll_read(&self, buffer: &mut [u8], answers: &mut Answers) -> Result<Polled, LinkFault>
        ensures given { answers.new.given ≡ answers.old.given ++ octets_read result buffer.new }
        ensures taken { answers.new.taken ≡ answers.old.taken }
        ensures offered { answers.new.offered ≡ answers.old.offered }
        ensures polls { answers.new.polls
            ≡ answers.old.polls ++ polls_of (length buffer.new) result }
        ensures failures { answers.new.failures ≡ answers.old.failures + fault_count result }
        ensures within { IsReadWithin result (length buffer.new) }
    {
        match self.connection.try_borrow_mut() {
            Ok(mut connection) => connection.poll_read(buffer, answers),
            Err(_) => answers.tell_nothing(buffer),
        }
    }

    /// Takes octets, from the first on, as far as there is room. What is short of room is flushed
    /// first.
    pub fn write(&self, octets: &[u8], answers: &mut Answers) -> Result<usize, LinkFault>
        ensures taken { answers.new.taken
            ≡ answers.old.taken ++ octets_written result octets.now }
        ensures given { answers.new.given ≡ answers.old.given }
        ensures offered { answers.new.offered ≡ answers.old.offered ++ octets.now }
        ensures polls { answers.new.polls ≡ answers.old.polls }
        ensures failures { answers.new.failures ≡ answers.old.failures + fault_count result }
        ensures within { IfOk result (λ n. n ≤ length octets.now) }
    {
        match self.connection.try_borrow_mut() {
            Ok(mut connection) => connection.write(octets, answers),
            Err(_) => answers.tell_none(octets),
        }
    }

    /// Writes what waits, as far as the system takes it. A fault is told by the next read or write
    /// too.
    pub fn flush(&self) -> Flushed {
        match self.connection.try_borrow_mut() {
            Ok(mut connection) => connection.flush(),
            Err(_) => Flushed::Part,
        }
    }

    /// Takes nothing more to be written, and shuts the writing side down once all that waits is
    /// written: now, or in the flush that writes the last of it. It may be called again.
    pub fn shut_write(&self) -> Flushed {
        match self.connection.try_borrow_mut() {
            Ok(mut connection) => connection.shut_write(),
            Err(_) => Flushed::Part,
        }
    }

    /// Reads once, and drops what came: at most 16,384 octets. A connection that is closed while
    /// octets lie unread is reset, and the peer may lose what was written to it.
    pub fn drain(&self) -> Drained {
        match self.connection.try_borrow_mut() {
            Ok(mut connection) => connection.drain(),
            Err(_) => Drained::Nothing,
        }
    }
}
