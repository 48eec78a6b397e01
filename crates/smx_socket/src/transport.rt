//! What the system does with a connection's octets.
ghost use Rattle.std.specs.Prelude.{◌≡◌, ◌++◌, [], ◌∷◌, List, ℕ, Bool, true, length};
ghost use Rattle.smx_socket.specs.declared.transport.Outcome.{Outcome};
ghost use Rattle.smx_socket.specs.Outcomes.{octets_moved, IsMovedWithin};

/// What a call of the system answered.
#[derive(Clone, Copy, Debug, PartialEq, Eq)]
pub enum Outcome {
    /// So many octets, from the first on. None: a read has found the peer's end.
    Moved(usize),
    /// It would have to wait.
    NotNow,
    /// It was interrupted before it moved an octet.
    Retry,
    /// The connection failed.
    Failed,
}

/// Octets both ways, as the system moves them: each call is one of the system's, and waits for
/// nothing.
pub trait Transport {
    /// The octets that its reads gave, in order.
    ghost given: { Self → List ℕ };

    /// The octets that its writes took, in order.
    ghost taken: { Self → List ℕ };

    /// What its reads answered, in order.
    ghost reads: { Self → List Outcome };

    /// What its writes answered, in order.
    ghost writes: { Self → List Outcome };

    /// Whether its writing side was shut down.
    ghost is_shut: { Self → Bool };

    /// Reads at most as many octets as the buffer has, which is one at least.
    fn read(&mut self, buffer: &mut [u8]) -> Outcome
        ensures given { given self.new ≡ given self.old ++ octets_moved result buffer.new }
        ensures reads { reads self.new ≡ reads self.old ++ result ∷ [] }
        ensures taken { taken self.new ≡ taken self.old }
        ensures writes { writes self.new ≡ writes self.old }
        ensures is_shut { is_shut self.new ≡ is_shut self.old }
        ensures within { IsMovedWithin result (length buffer.new) };

    /// Takes some of the octets, of which there is one at least, from the first on.
    fn write(&mut self, octets: &[u8]) -> Outcome
        ensures taken { taken self.new ≡ taken self.old ++ octets_moved result octets.now }
        ensures writes { writes self.new ≡ writes self.old ++ result ∷ [] }
        ensures given { given self.new ≡ given self.old }
        ensures reads { reads self.new ≡ reads self.old }
        ensures is_shut { is_shut self.new ≡ is_shut self.old }
        ensures within { IsMovedWithin result (length octets.now) };

    /// Shuts the writing side down: the peer finds its end behind what was taken.
    fn shut_write(&mut self)
        ensures is_shut { is_shut self.new ≡ true }
        ensures given { given self.new ≡ given self.old }
        ensures taken { taken self.new ≡ taken self.old }
        ensures reads { reads self.new ≡ reads self.old }
        ensures writes { writes self.new ≡ writes self.old };
}
