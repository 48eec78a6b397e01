//! What stands between a link and the system.
ghost use Rattle.std.specs.Prelude.{◌≡◌, ◌<◌, ◌≤◌, ◌+◌, ◌++◌, ◌⊎◌, ◌↔◌, [], take, length, true, false, Ok, IfOk, IsOk, IsTrue, IsFalse};
ghost use Rattle.smx_link.specs.Links.{octets_read, octets_written, IsReadWithin, polls_of, fault_count};
ghost use Rattle.smx_socket.specs.Connections.{Holds};

mod reading;
mod writing;

use crate::marks::Marks;
use crate::outgoing::Outgoing;
use crate::traffic::Traffic;
use crate::transport::Transport;
pub use reading::Drained;
use smx_link::{LinkFault, Polled};
use smx_trace::Trace;
use std::alloc::{AllocError, Global};
use std::marker::Model;
pub use writing::Flushed;

/// What the calls of one link over a connection were answered, in order. Only [`Connection`]'s calls
/// say that octets were given or taken.
#[derive(Drop)]
pub struct Answers {
    given: Trace<u8>,
    taken: Trace<u8>,
    offered: Trace<u8>,
    polls: Trace<Result<Polled, LinkFault>>,
    failures: u64,
}

impl Answers {
    /// None yet.
    pub fn new() -> Answers
        ensures octets { (result.given ≡ []) × (result.taken ≡ []) × (result.offered ≡ []) }
        ensures polls { result.polls ≡ [] }
        ensures failures { result.failures ≡ 0 }
    {
        Answers {
            given: Trace::new(),
            taken: Trace::new(),
            offered: Trace::new(),
            polls: Trace::new(),
            failures: 0,
        }
    }

    /// How many calls failed.
    pub fn failures(&self) -> u64
        ensures { result ≡ self.now.failures }
    {
        self.failures
    }

    // Counts a fault. False where the count can't rise, and the fault is told no more.
    fn count_fault(&mut self) -> bool
        ensures risen { result ≡ true → self.new
            ≡ record self.old { failures = self.old.failures + 1 } }
        ensures last { result ≡ false → self.new ≡ self.old }
        ensures counts { self.old.failures < u64.MAX → result ≡ true }
    {
        if self.failures == u64::MAX {
            return false;
        }
        self.failures += 1;
        true
    }

    // A read found this. What the link is told of it: where no fault can be counted any more, the
    // end in place of one.
    fn tell_read(
        &mut self,
        found: Result<Polled, LinkFault>,
        buffer: &[u8],
    ) -> Result<Polled, LinkFault>
        requires { IsReadWithin found (length buffer.now) }
        ensures given { self.new.given ≡ self.old.given ++ octets_read result buffer.now }
        ensures taken { self.new.taken ≡ self.old.taken }
        ensures offered { self.new.offered ≡ self.old.offered }
        ensures polls { self.new.polls ≡ self.old.polls ++ polls_of (length buffer.now) result }
        ensures failures { self.new.failures ≡ self.old.failures + fault_count result }
        ensures found { self.old.failures < u64.MAX → result ≡ found }
        ensures ok { IfOk found (λ p. result ≡ found) }
        ensures octets { octets_read result buffer.now ≡ octets_read found buffer.now }
        ensures within { IsReadWithin result (length buffer.now) }
    {
        let mut answer = found;
        if answer.is_err() && !self.count_fault() {
            answer = Ok(Polled::End);
        }
        if let Ok(Polled::Octets(count)) = answer {
            self.given.extend(&buffer[..count]);
        }
        if !buffer.is_empty() {
            self.polls = self.polls.and(&answer);
        }
        answer
    }

    // A write of these octets came so far. What the link is told of it.
    fn tell_write(
        &mut self,
        found: Result<usize, LinkFault>,
        octets: &[u8],
    ) -> Result<usize, LinkFault>
        requires { IfOk found (λ n. n ≤ length octets.now) }
        ensures taken { self.new.taken ≡ self.old.taken ++ octets_written result octets.now }
        ensures given { self.new.given ≡ self.old.given }
        ensures offered { self.new.offered ≡ self.old.offered ++ octets.now }
        ensures polls { self.new.polls ≡ self.old.polls }
        ensures failures { self.new.failures ≡ self.old.failures + fault_count result }
        ensures found { self.old.failures < u64.MAX → result ≡ found }
        ensures ok { IsOk found → result ≡ found }
        ensures octets { octets_written result octets.now ≡ octets_written found octets.now }
        ensures within { IfOk result (λ n. n ≤ length octets.now) }
    {
        self.offered.extend(octets);
        match found {
            Ok(count) => {
                self.taken.extend(&octets[..count]);
                Ok(count)
            }
            Err(fault) => {
                if self.count_fault() {
                    return Err(fault);
                }
                Ok(0)
            }
        }
    }

    /// A read that asked nobody has found nothing.
    pub fn tell_nothing(&mut self, buffer: &[u8]) -> Result<Polled, LinkFault>
        ensures nothing { result ≡ Ok Polled.Nothing }
        ensures given { self.new.given ≡ self.old.given ++ octets_read result buffer.now }
        ensures taken { self.new.taken ≡ self.old.taken }
        ensures offered { self.new.offered ≡ self.old.offered }
        ensures polls { self.new.polls ≡ self.old.polls ++ polls_of (length buffer.now) result }
        ensures failures { self.new.failures ≡ self.old.failures + fault_count result }
        ensures within { IsReadWithin result (length buffer.now) }
    {
        self.tell_read(Ok(Polled::Nothing), buffer)
    }

    /// A write that asked nobody has taken nothing.
    pub fn tell_none(&mut self, octets: &[u8]) -> Result<usize, LinkFault>
        ensures none { result ≡ Ok 0 }
        ensures taken { self.new.taken ≡ self.old.taken ++ octets_written result octets.now }
        ensures given { self.new.given ≡ self.old.given }
        ensures offered { self.new.offered ≡ self.old.offered ++ octets.now }
        ensures polls { self.new.polls ≡ self.old.polls }
        ensures failures { self.new.failures ≡ self.old.failures + fault_count result }
        ensures within { IfOk result (λ n. n ≤ length octets.now) }
    {
        self.tell_write(Ok(0), octets)
    }
}

/// Octets both ways over a transport. What is accepted to be written waits, at most 65,536 octets of
/// it, until it is flushed. Contracts see the transport, all that was accepted, what of it waits, and
/// what is known of the connection.
#[derive(Drop)]
pub struct Connection<T: Transport + Drop> {
    transport: T,
    waiting: Outgoing,
    accepted: Trace<u8>,
    marks: Marks,
    traffic: Traffic,
}

impl<T: Transport + Drop> Model for Connection<T> {
    ghost use Rattle.smx_socket.specs.Connections.{Connecting, Holds};

    ghost Value = { Connecting T };

    ghost view = { λ c. record {
      transport = c.transport;
      accepted = c.accepted;
      unsent = c.waiting;
      marks = c.marks;
    } };

    ghost invariant = { λ c. Holds T.taken T.reads T.writes T.is_shut (record {
      transport = c.transport;
      accepted = c.accepted;
      unsent = c.waiting;
      marks = c.marks;
    }) };
}

impl<T: Transport + Drop> Connection<T> {
    /// Over a transport without a past. It takes memory for 65,536 octets.
    pub fn new(alloc: Global, transport: T) -> Result<Connection<T>, AllocError>
        requires taken { T.taken transport ≡ [] }
        requires reads { T.reads transport ≡ [] }
        requires writes { T.writes transport ≡ [] }
        requires is_shut { T.is_shut transport ≡ false }
        ensures transport { IfOk result (λ c. c.transport ≡ transport) }
        ensures none { IfOk result (λ c. (c.accepted ≡ []) × (c.unsent ≡ [])) }
        ensures open { IfOk result
            (λ c. (c.marks.readable ≡ true) × (c.marks.writable ≡ true) × (c.marks.closing ≡ false)) }
        ensures read_open { IfOk result (λ c. c.marks.read_closed ≡ false) }
    {
        Ok(Connection {
            transport,
            waiting: Outgoing::new(alloc)?,
            accepted: Trace::new(),
            marks: Marks::new(),
            traffic: Traffic::new(),
        })
    }

    /// The transport.
    pub fn transport(&self) -> &T
        ensures { result.now ≡ self.now.transport }
    {
        &self.transport
    }

    /// What is known of the connection.
    pub fn marks(&self) -> Marks
        ensures { result ≡ self.now.marks }
    {
        self.marks
    }

    /// Whether octets wait to be flushed.
    pub fn has_octets(&self) -> bool
        ensures { IsFalse result ↔ (self.now.unsent ≡ []) }
    {
        !self.waiting.is_empty()
    }

    /// How many octets wait to be flushed.
    pub fn waiting(&self) -> usize
        ensures { result ≡ length self.now.unsent }
    {
        self.waiting.waiting().len()
    }

    /// The system said that a read may find something.
    pub fn note_readable(&mut self)
        ensures { self.new ≡ record self.old { marks = record self.old.marks { readable = true } } }
    {
        self.marks.readable = true;
    }

    /// The system said that every read from now on answers at once.
    pub fn note_read_closed(&mut self)
        ensures { self.new ≡ record self.old {
          marks = record self.old.marks { readable = true; read_closed = true };
        } }
    {
        self.marks.readable = true;
        self.marks.read_closed = true;
    }

    /// The system said that it takes octets.
    pub fn note_writable(&mut self)
        ensures { self.new ≡ record self.old { marks = record self.old.marks { writable = true } } }
    {
        self.marks.writable = true;
    }

    /// How many octets its links gave and took, modulo 2^64.
    pub fn traffic(&self) -> u64 {
        self.traffic.total()
    }

    /// Whether its links gave an octet.
    pub fn has_given(&self) -> bool {
        self.traffic.came > 0
    }

    /// What a connection keeps at every call.
    pub fn law(&self)
        ensures { Holds T.taken T.reads T.writes T.is_shut self.now }
    {
        let _ = &self.marks;
    }
}
