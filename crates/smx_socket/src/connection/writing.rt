//! Writes of a connection.
ghost use Rattle.std.specs.Prelude.{◌≡◌, ◌<◌, ◌≤◌, ◌++◌, ◌+◌, ◌∷◌, ◌⊎◌, ◌↔◌, ◌||◌, [], take, length, true, false, Ok, IfOk, IsOk, IsErr, IsTrue, IsFalse};
ghost use Rattle.smx_link.specs.Links.{octets_written, fault_count};
ghost use Rattle.smx_socket.specs.Connections.{HasToWait};

use crate::connection::{Answers, Connection};
use crate::transport::{Outcome, Transport};
use smx_link::LinkFault;

/// What a flush left.
#[derive(Clone, Copy, Debug, PartialEq, Eq)]
pub enum Flushed {
    /// No octet waits.
    All,
    /// Octets wait until the socket is writable again.
    Part,
    /// The connection failed: nothing is read or written any more.
    Failed,
}

impl<T: Transport + Drop> Connection<T> {
    fn accept(&mut self, octets: &[u8]) -> usize
        requires { self.old.marks.closing ≡ false }
        ensures within { result ≤ length octets.now }
        ensures accepted { self.new.accepted ≡ self.old.accepted ++ take result octets.now }
        ensures unsent { self.new.unsent ≡ self.old.unsent ++ take result octets.now }
        ensures full { (result ≡ length octets.now) ⊎ (32768 < length self.new.unsent) }
        ensures same { self.new ≡ record self.old {
          accepted = self.new.accepted;
          unsent = self.new.unsent;
        } }
    {
        let count = self.waiting.accept(octets);
        self.accepted.extend(&octets[..count]);
        self.traffic.add_went(count);
        count
    }

    // Accepts octets, from the first on, as far as there is room, and once more after a flush.
    fn accept_more(&mut self, octets: &[u8]) -> Result<usize, LinkFault>
        ensures within { IfOk result (λ n. n ≤ length octets.now) }
        ensures accepted { self.new.accepted
            ≡ self.old.accepted ++ octets_written result octets.now }
        ensures ok { IsFalse (self.old.marks.failed || self.old.marks.closing) → IsOk result }
        ensures full { IsFalse (self.old.marks.failed || self.old.marks.closing)
            → IfOk result (λ n. (n ≡ length octets.now) ⊎ (32768 < length self.new.unsent)) }
        ensures failed { IsTrue self.old.marks.failed → IsErr result }
        ensures closing { IsFalse self.old.marks.failed → IsTrue self.old.marks.closing
            → result ≡ Ok 0 }
        ensures given { T.given self.new.transport ≡ T.given self.old.transport }
        ensures reads { T.reads self.new.transport ≡ T.reads self.old.transport }
        ensures marks { self.new.marks ≡ record self.old.marks {
          writable = self.new.marks.writable;
          failed = self.new.marks.failed;
          write_closed = self.new.marks.write_closed;
        } }
        ensures writable { IsTrue self.new.marks.writable → IsTrue self.old.marks.writable }
        ensures waits { IsTrue self.old.marks.writable → IsFalse self.new.marks.writable
            → HasToWait (T.writes self.old.transport) (T.writes self.new.transport) }
        ensures asks { IsFalse (self.old.marks.failed || self.old.marks.closing)
            → IsTrue self.old.marks.writable
            → IfOk result (λ n. (n ≡ length octets.now) ⊎ (length (T.writes self.old.transport)
            < length (T.writes self.new.transport))) }
    {
        if self.marks.failed {
            return Err(LinkFault);
        }
        if self.marks.closing {
            return Ok(0);
        }
        let count = self.accept(octets);
        if count == octets.len() {
            return Ok(count);
        }
        self.flush();
        let more = self.accept(&octets[count..]);
        Ok(count + more)
    }

    /// Accepts octets, from the first on, as far as there is room. What is short of room is flushed
    /// first.
    pub fn write(&mut self, octets: &[u8], answers: &mut Answers) -> Result<usize, LinkFault>
        ensures accepted { self.new.accepted
            ≡ self.old.accepted ++ octets_written result octets.now }
        ensures ok { IsFalse (self.old.marks.failed || self.old.marks.closing) → IsOk result }
        ensures full { IsFalse (self.old.marks.failed || self.old.marks.closing)
            → IfOk result (λ n. (n ≡ length octets.now) ⊎ (32768 < length self.new.unsent)) }
        ensures failed { IsTrue self.old.marks.failed → answers.old.failures < u64.MAX
            → IsErr result }
        ensures closing { IsFalse self.old.marks.failed → IsTrue self.old.marks.closing
            → result ≡ Ok 0 }
        ensures marks { self.new.marks ≡ record self.old.marks {
          writable = self.new.marks.writable;
          failed = self.new.marks.failed;
          write_closed = self.new.marks.write_closed;
        } }
        ensures writable { IsTrue self.new.marks.writable → IsTrue self.old.marks.writable }
        ensures waits { IsTrue self.old.marks.writable → IsFalse self.new.marks.writable
            → HasToWait (T.writes self.old.transport) (T.writes self.new.transport) }
        ensures asks { IsFalse (self.old.marks.failed || self.old.marks.closing)
            → IsTrue self.old.marks.writable
            → IfOk result (λ n. (n ≡ length octets.now) ⊎ (length (T.writes self.old.transport)
            < length (T.writes self.new.transport))) }
        ensures unread { T.given self.new.transport ≡ T.given self.old.transport }
        ensures reads { T.reads self.new.transport ≡ T.reads self.old.transport }
        ensures taken { answers.new.taken
            ≡ answers.old.taken ++ octets_written result octets.now }
        ensures given { answers.new.given ≡ answers.old.given }
        ensures offered { answers.new.offered ≡ answers.old.offered ++ octets.now }
        ensures polls { answers.new.polls ≡ answers.old.polls }
        ensures failures { answers.new.failures ≡ answers.old.failures + fault_count result }
        ensures within { IfOk result (λ n. n ≤ length octets.now) }
    {
        let found = self.accept_more(octets);
        answers.tell_write(found, octets)
    }

    // Hands the system what waits, once.
    fn write_now(&mut self)
        ensures accepted { self.new.accepted ≡ self.old.accepted }
        ensures given { T.given self.new.transport ≡ T.given self.old.transport }
        ensures reads { T.reads self.new.transport ≡ T.reads self.old.transport }
        ensures writes { length (T.writes self.new.transport)
            ≡ length (T.writes self.old.transport) + 1 }
        ensures marks { self.new.marks ≡ record self.old.marks {
          writable = self.new.marks.writable;
          failed = self.new.marks.failed;
        } }
        ensures writable { IsTrue self.new.marks.writable → IsTrue self.old.marks.writable }
        ensures waits { IsTrue self.old.marks.writable → IsFalse self.new.marks.writable
            → HasToWait (T.writes self.old.transport) (T.writes self.new.transport) }
    {
        let outcome = self.transport.write(self.waiting.waiting());
        if let Outcome::Moved(count) = outcome {
            self.waiting.let_go(count);
        }
        self.marks = self.marks.after_write(outcome);
    }

    // Shuts the writing side down, once, where that was asked for.
    fn close_write(&mut self)
        requires { self.old.unsent ≡ [] }
        ensures shut { T.is_shut self.new.transport ≡ self.old.marks.closing }
        ensures given { T.given self.new.transport ≡ T.given self.old.transport }
        ensures reads { T.reads self.new.transport ≡ T.reads self.old.transport }
        ensures writes { T.writes self.new.transport ≡ T.writes self.old.transport }
        ensures same { self.new ≡ record self.old {
          transport = self.new.transport;
          marks = record self.old.marks { write_closed = self.new.marks.write_closed };
        } }
    {
        if self.marks.closing && !self.marks.write_closed {
            self.transport.shut_write();
            self.marks.write_closed = true;
        }
    }

    /// Writes what waits, as far as the system takes it, and shuts the writing side down behind it
    /// where that was asked for.
    pub fn flush(&mut self) -> Flushed
        ensures accepted { self.new.accepted ≡ self.old.accepted }
        ensures all { result ≡ Flushed.All → self.new.unsent ≡ [] }
        ensures shut { result ≡ Flushed.All
            → T.is_shut self.new.transport ≡ self.new.marks.closing }
        ensures failed { (result ≡ Flushed.Failed) ↔ IsTrue self.new.marks.failed }
        ensures part { result ≡ Flushed.Part → IsFalse self.new.marks.writable
            ⊎ (length (T.writes self.old.transport) + u64.MAX
            ≤ length (T.writes self.new.transport)) }
        ensures given { T.given self.new.transport ≡ T.given self.old.transport }
        ensures reads { T.reads self.new.transport ≡ T.reads self.old.transport }
        ensures marks { self.new.marks ≡ record self.old.marks {
          writable = self.new.marks.writable;
          failed = self.new.marks.failed;
          write_closed = self.new.marks.write_closed;
        } }
        ensures writable { IsTrue self.new.marks.writable → IsTrue self.old.marks.writable }
        ensures waits { IsTrue self.old.marks.writable → IsFalse self.new.marks.writable
            → HasToWait (T.writes self.old.transport) (T.writes self.new.transport) }
        ensures asks { IsFalse self.old.marks.failed → IsTrue self.old.marks.writable
            → (self.old.unsent ≡ []) ⊎ (length (T.writes self.old.transport)
            < length (T.writes self.new.transport)) }
    {
        for _ in 0..u64::MAX {
            if self.marks.failed {
                return Flushed::Failed;
            }
            if self.waiting.is_empty() {
                self.close_write();
                return Flushed::All;
            }
            if !self.marks.writable {
                return Flushed::Part;
            }
            self.write_now();
        }
        if self.marks.failed {
            Flushed::Failed
        } else {
            Flushed::Part
        }
    }

    /// Accepts nothing more to be written, and shuts the writing side down once all that waits is
    /// written: now, or in the flush that writes the last of it. It may be called again.
    pub fn shut_write(&mut self) -> Flushed
        ensures closing { IsTrue self.new.marks.closing }
        ensures accepted { self.new.accepted ≡ self.old.accepted }
        ensures all { result ≡ Flushed.All → T.is_shut self.new.transport ≡ true }
        ensures failed { (result ≡ Flushed.Failed) ↔ IsTrue self.new.marks.failed }
        ensures part { result ≡ Flushed.Part → IsFalse self.new.marks.writable
            ⊎ (length (T.writes self.old.transport) + u64.MAX
            ≤ length (T.writes self.new.transport)) }
        ensures given { T.given self.new.transport ≡ T.given self.old.transport }
        ensures reads { T.reads self.new.transport ≡ T.reads self.old.transport }
        ensures marks { self.new.marks ≡ record self.old.marks {
          closing = true;
          writable = self.new.marks.writable;
          failed = self.new.marks.failed;
          write_closed = self.new.marks.write_closed;
        } }
        ensures writable { IsTrue self.new.marks.writable → IsTrue self.old.marks.writable }
        ensures waits { IsTrue self.old.marks.writable → IsFalse self.new.marks.writable
            → HasToWait (T.writes self.old.transport) (T.writes self.new.transport) }
    {
        self.marks.closing = true;
        self.flush()
    }
}
