//! Who may bind.
ghost use Rattle.std.specs.Prelude.{◌≡◌};
ghost use Rattle.std.specs.Str.{bytes_eq};

use crate::rules::Rules;
use std::fmt;
use std::marker::Model;

/// A client that may bind, by what its bind says, and what it may send then. Contracts see it as its
/// two texts and its rules. Printed for debugging it has none of them, so that no password is seen.
#[derive(Drop)]
pub struct Account {
    /// Without its ending 0.
    pub system_id: Vec<u8>,
    /// Without its ending 0.
    pub password: Vec<u8>,
    pub rules: Rules,
}

impl Model for Account {
    ghost use Rattle.smx_session.specs.Login.{Login};

    ghost Value = { Login };

    ghost view = { λ a. record { system_id = a.system_id.items; password = a.password.items; rules = a.rules } };
}

impl fmt::Debug for Account {
    fn fmt<W: fmt::Write>(&self, f: &mut fmt::Formatter<W>) -> fmt::Result {
        f.write_str("Account")
    }
}

// Whether both have the same octets. Where both have as many it goes over all of them, wherever
// they differ.
fn same_octets(one: &[u8], other: &[u8]) -> bool
    ensures { result ≡ bytes_eq one.now other.now }
{
    if one.len() != other.len() {
        return false;
    }
    let mut differences = 0;
    for (own, said) in one.iter().zip(other) {
        differences |= own ^ said;
    }
    differences == 0
}

impl Account {
    /// Whether this is the account's password. Where both have as many octets all of them are gone
    /// over, wherever they differ.
    pub fn has_password(&self, password: &[u8]) -> bool
        ensures { result ≡ bytes_eq self.now.password password.now }
    {
        same_octets(&self.password, password)
    }
}
