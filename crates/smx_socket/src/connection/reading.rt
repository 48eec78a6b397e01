//! Reads of a connection.
ghost use Rattle.std.specs.Prelude.{◌≡◌, ◌++◌, ◌+◌, ◌∷◌, ◌⊎◌, ◌↔◌, [], length, true, false, IsTrue, IsFalse};
ghost use Rattle.smx_link.specs.Links.{octets_read, IsReadWithin, polls_of, fault_count};
ghost use Rattle.smx_socket.specs.Outcomes.{asks, octets_moved, IsMovedWithin, IsPolled, marks_read};
ghost use Rattle.smx_socket.specs.Connections.{TellsRead, TellsNothing, drains, Asks};

use crate::connection::{Answers, Connection};
use crate::transport::{Outcome, Transport};
use smx_link::{LinkFault, Polled};

/// What was there to be dropped.
#[derive(Clone, Copy, Debug, PartialEq, Eq)]
pub enum Drained {
    /// More may be there.
    More,
    /// Nothing now: an event tells of more.
    Nothing,
    /// The peer sends nothing more, or the connection failed.
    Ended,
}

/// The most octets that are dropped at once.
const DROPPED: usize = 16_384;

// What the outcome of a read is to a link.
fn polled(outcome: Outcome) -> Result<Polled, LinkFault>
    ensures { IsPolled outcome result }
{
    match outcome {
        Outcome::Moved(0) => Ok(Polled::End),
        Outcome::Moved(count) => Ok(Polled::Octets(count)),
        Outcome::NotNow | Outcome::Retry => Ok(Polled::Nothing),
        Outcome::Failed => Err(LinkFault),
    }
}

impl<T: Transport + Drop> Connection<T> {
    // Reads from the system.
    fn read_now(&mut self, buffer: &mut [u8]) -> Outcome
        ensures reads { T.reads self.new.transport ≡ T.reads self.old.transport ++ result ∷ [] }
        ensures given { T.given self.new.transport
            ≡ T.given self.old.transport ++ octets_moved result buffer.new }
        ensures taken { T.taken self.new.transport ≡ T.taken self.old.transport }
        ensures marks { self.new.marks ≡ marks_read result (length buffer.new) self.old.marks }
        ensures same { self.new ≡ record self.old {
          transport = self.new.transport;
          marks = self.new.marks;
        } }
        ensures within { IsMovedWithin result (length buffer.new) }
    {
        let outcome = self.transport.read(buffer);
        self.marks = self.marks.after_read(outcome, buffer.len());
        outcome
    }

    // Reads where the last event or read left something to read; else it costs no call of the system.
    fn poll(&mut self, buffer: &mut [u8]) -> Result<Polled, LinkFault>
        ensures given { T.given self.new.transport
            ≡ T.given self.old.transport ++ octets_read result buffer.new }
        ensures taken { T.taken self.new.transport ≡ T.taken self.old.transport }
        ensures asks { IsTrue (asks self.old.marks (length buffer.new))
            → TellsRead (T.reads self.old.transport) (T.reads self.new.transport)
            (length buffer.new) 0 self.old.marks self.new.marks result }
        ensures nothing { IsFalse (asks self.old.marks (length buffer.new))
            → TellsNothing (T.reads self.old.transport) (T.reads self.new.transport)
            0 self.old.marks self.new.marks result }
        ensures same { self.new ≡ record self.old {
          transport = self.new.transport;
          marks = self.new.marks;
        } }
        ensures within { IsReadWithin result (length buffer.new) }
    {
        if self.marks.failed {
            return Err(LinkFault);
        }
        if !self.marks.readable || buffer.is_empty() {
            return Ok(Polled::Nothing);
        }
        let outcome = self.read_now(buffer);
        if let Outcome::Moved(count) = outcome {
            self.traffic.add_came(count);
        }
        polled(outcome)
    }

    /// Reads where the last event or read left something to read; else it costs no call of the
    /// system. What the link is told is what the system answered.
    pub fn poll_read(
        &mut self,
        buffer: &mut [u8],
        answers: &mut Answers,
    ) -> Result<Polled, LinkFault>
        ensures got { T.given self.new.transport
            ≡ T.given self.old.transport ++ octets_read result buffer.new }
        ensures asks { IsTrue (asks self.old.marks (length buffer.new))
            → TellsRead (T.reads self.old.transport) (T.reads self.new.transport)
            (length buffer.new) answers.old.failures self.old.marks self.new.marks result }
        ensures nothing { IsFalse (asks self.old.marks (length buffer.new))
            → TellsNothing (T.reads self.old.transport) (T.reads self.new.transport)
            answers.old.failures self.old.marks self.new.marks result }
        ensures unwritten { T.taken self.new.transport ≡ T.taken self.old.transport }
        ensures same { self.new ≡ record self.old {
          transport = self.new.transport;
          marks = self.new.marks;
        } }
        ensures given { answers.new.given ≡ answers.old.given ++ octets_read result buffer.new }
        ensures taken { answers.new.taken ≡ answers.old.taken }
        ensures offered { answers.new.offered ≡ answers.old.offered }
        ensures polls { answers.new.polls
            ≡ answers.old.polls ++ polls_of (length buffer.new) result }
        ensures failures { answers.new.failures ≡ answers.old.failures + fault_count result }
        ensures within { IsReadWithin result (length buffer.new) }
    {
        let found = self.poll(buffer);
        answers.tell_read(found, buffer)
    }

    /// Reads once, and drops what came: at most 16,384 octets. A connection that is closed while
    /// octets lie unread is reset, and the peer may lose what was written to it.
    pub fn drain(&mut self) -> Drained
        ensures ended { (result ≡ Drained.Ended)
            ↔ (IsTrue self.new.marks.ended ⊎ IsTrue self.new.marks.failed) }
        ensures nothing { result ≡ Drained.Nothing → IsFalse self.new.marks.readable }
        ensures asks { IsTrue (drains self.old.marks)
            → Asks (T.reads self.old.transport) (T.reads self.new.transport)
            16384 self.old.marks self.new.marks }
        ensures asks_nobody { IsFalse (drains self.old.marks)
            → T.reads self.new.transport ≡ T.reads self.old.transport }
        ensures unchanged { IsFalse (drains self.old.marks) → self.new.marks ≡ self.old.marks }
        ensures taken { T.taken self.new.transport ≡ T.taken self.old.transport }
        ensures same { self.new ≡ record self.old {
          transport = self.new.transport;
          marks = self.new.marks;
        } }
    {
        if !self.marks.failed && !self.marks.ended && self.marks.readable {
            let mut buffer = [0u8; DROPPED];
            self.read_now(&mut buffer);
        }
        if self.marks.failed || self.marks.ended {
            Drained::Ended
        } else if self.marks.readable {
            Drained::More
        } else {
            Drained::Nothing
        }
    }
}
