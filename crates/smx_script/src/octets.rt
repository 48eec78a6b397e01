//! Octets that a line carries.

use std::fmt;
use std::marker::Model;

/// Octets that a line carries. Contracts see them as their list. Printed for debugging they are
/// their length alone, as a bind's have a password.
#[derive(Drop)]
pub struct Octets {
    octets: Vec<u8>,
}

impl Model for Octets {
    ghost use Rattle.std.specs.Prelude.{ℕ, List};

    ghost Value = { List ℕ };

    ghost view = { λ o. o.octets.items };
}

impl fmt::Debug for Octets {
    fn fmt<W: fmt::Write>(&self, f: &mut fmt::Formatter<W>) -> fmt::Result {
        write!(f, "Octets({} octets)", self.octets.len())
    }
}

impl Octets {
    ghost use Rattle.std.specs.Prelude.{◌≡◌};

    pub(crate) fn new(octets: Vec<u8>) -> Octets
        ensures { result ≡ octets.items }
    {
        Octets { octets }
    }

    /// The octets, in their order.
    pub fn as_slice(&self) -> &[u8]
        ensures { result.now ≡ self.now }
    {
        self.octets.as_slice()
    }
}
