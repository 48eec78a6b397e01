//! The prefixes of destinations, and the clients that have them.
ghost use Rattle.std.specs.Prelude.{◌≡◌, ◌≤◌, ◌==◌, [], ◌∷◌, length, filter, not, IsPermutation, OnOk, OnErr, MatchResult, false};
ghost use Rattle.smx_routes.specs.Routing.{route, has_route, IsRouted, IsNew, IsRouteFault};

use crate::by_client::ByClient;
use crate::by_prefix::ByPrefix;
use crate::fault::RouteFault;
use std::alloc::{AllocError, Global};
use std::marker::Model;

// The greatest length of a prefix in octets.
const LONGEST: usize = 64;

/// Prefixes of addresses, each with the client that takes what goes to such addresses. Contracts see a list of
/// these pairs.
#[derive(Drop)]
pub struct Routes {
    // Each pair stands in both tables: an address is looked up by prefixes, and a client leaves with its own.
    by_prefix: ByPrefix,
    by_client: ByClient,
}

impl Model for Routes {
    ghost use Rattle.std.specs.Prelude.{List};
    ghost use Rattle.smx_routes.specs.Routing.{Route};
    ghost use Rattle.smx_routes.specs.Private.Tables.{routes_of, AreTied};

    ghost Value = { List Route };

    ghost view = { routes_of };

    ghost invariant = { AreTied };
}

impl Routes {
    /// No prefix. Those to come take memory from `alloc`.
    pub fn new(alloc: Global) -> Routes
        ensures { result ≡ [] }
    {
        Routes {
            by_prefix: ByPrefix::new(alloc),
            by_client: ByClient::new(alloc),
        }
    }

    // Adds a pair to both tables.
    fn put(&mut self, prefix: &[u8], client: u64) -> Result<(), AllocError>
        requires short { length prefix.now ≤ 64 }
        requires new { has_route self.old (route prefix.now client) ≡ false }
        ensures ok { OnOk result (IsPermutation (route prefix.now client ∷ self.old) self.new) }
        ensures err { OnErr result (self.new ≡ self.old) }
    {
        self.by_prefix.insert(prefix, client)?;
        if let Err(refused) = self.by_client.insert(prefix, client) {
            self.by_prefix.remove(prefix, client);
            return Err(refused);
        }
        Ok(())
    }

    /// Adds a prefix of a client, 0 to 64 octets of any values. Other clients may have the same prefix.
    pub fn insert(&mut self, prefix: &[u8], client: u64) -> Result<(), RouteFault>
        ensures reply { MatchResult result
            (λ _. IsNew self.old (route prefix.now client))
            (IsRouteFault self.old (route prefix.now client)) }
        ensures ok { OnOk result (IsPermutation (route prefix.now client ∷ self.old) self.new) }
        ensures err { OnErr result (self.new ≡ self.old) }
    {
        if prefix.len() > LONGEST {
            return Err(RouteFault::TooLong);
        }
        if self.by_prefix.has(prefix, client) {
            return Err(RouteFault::Known);
        }
        match self.put(prefix, client) {
            Ok(()) => Ok(()),
            Err(AllocError) => Err(RouteFault::NoMemory),
        }
    }

    /// Removes each prefix of the client. It goes over this client's prefixes alone, and looks each of them up. It
    /// takes no memory.
    pub fn remove(&mut self, client: u64)
        ensures { self.new ≡ filter (λ r. not (r.client == client)) self.old }
    {
        let prefixes = self.by_client.take(client);
        for prefix in &prefixes {
            self.by_prefix.remove(prefix.as_slice(), client);
        }
    }

    /// The client that has the longest prefix of the address, and of several that have it the one with the least
    /// number. For each length from the address's, at most 64, down to that of the prefix found, it looks one prefix
    /// up. It takes no memory.
    pub fn route(&self, address: &[u8]) -> Option<u64>
        ensures { IsRouted self.now address.now result }
    {
        let longest = address.len().min(LONGEST);
        for len in (0..longest + 1).rev() {
            if let Some(client) = self.by_prefix.least(&address[..len]) {
                return Some(client);
            }
        }
        None
    }
}
