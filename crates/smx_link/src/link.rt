//! A peer's octets, read and written without waiting.
ghost use Rattle.std.specs.Prelude.{◌≡◌, ℕ, ◌+◌, ◌≤◌, ◌++◌, List, length, IfOk, Result};
ghost use Rattle.smx_link.specs.declared.link.Polled.{Polled};
ghost use Rattle.smx_link.specs.declared.link.LinkFault.{LinkFault};
ghost use Rattle.smx_link.specs.Links.{octets_read, octets_written, IsReadWithin, polls_of, fault_count};

/// What a read found.
#[derive(Clone, Copy, Debug, PartialEq, Eq)]
pub enum Polled {
    /// So many octets, at the front of the buffer.
    Octets(usize),
    /// Nothing now.
    Nothing,
    /// The link has ended: no octet comes any more.
    End,
}

/// The link failed.
#[derive(Clone, Copy, Debug, PartialEq, Eq)]
pub struct LinkFault;

/// A peer's octets, read and written without waiting. A call that fails gave and took nothing.
pub trait Link {
    /// The octets that it gave, in order.
    ghost given: { Self → List ℕ };

    /// The octets that it took, in order.
    ghost taken: { Self → List ℕ };

    /// The octets that it was offered, those of one write after those of the write before.
    ghost offered: { Self → List ℕ };

    /// The answers of the reads that asked for at least one octet, in order.
    ghost polls: { Self → List (Result Polled LinkFault) };

    /// How many calls failed.
    ghost failures: { Self → ℕ };

    /// Reads at most as many octets as the buffer has.
    fn poll_read(&mut self, buffer: &mut [u8]) -> Result<Polled, LinkFault>
        ensures given { given self.new ≡ given self.old ++ octets_read result buffer.new }
        ensures taken { taken self.new ≡ taken self.old }
        ensures offered { offered self.new ≡ offered self.old }
        ensures polls { polls self.new ≡ polls self.old ++ polls_of (length buffer.new) result }
        ensures failures { failures self.new ≡ failures self.old + fault_count result }
        ensures within { IsReadWithin result (length buffer.new) };

    /// Takes some of the octets, from the first on. 0 of them: nothing now.
    fn write(&mut self, octets: &[u8]) -> Result<usize, LinkFault>
        ensures taken { taken self.new ≡ taken self.old ++ octets_written result octets.now }
        ensures given { given self.new ≡ given self.old }
        ensures offered { offered self.new ≡ offered self.old ++ octets.now }
        ensures polls { polls self.new ≡ polls self.old }
        ensures failures { failures self.new ≡ failures self.old + fault_count result }
        ensures within { IfOk result (λ n. n ≤ length octets.now) };

    /// How many calls failed. A link that stands at `u64::MAX` answers no fault any more: it reads
    /// as [`Polled::End`] and takes nothing.
    fn faults(&self) -> u64
        ensures { result ≡ failures self.now };
}
