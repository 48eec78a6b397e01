//! Which prefixes a client has, by the client.
ghost use Rattle.std.specs.Prelude.{◌≡◌, ◌==◌, [], ◌∷◌, map, filter, not, IsPermutation, OnOk, OnErr};
ghost use Rattle.smx_routes.specs.Routing.{route};

use std::alloc::{AllocError, Global};
use std::collections::BTreeMap;
use std::marker::Model;

// Contracts see the list of the pairs.
#[derive(Drop)]
pub(crate) struct ByClient {
    alloc: Global,
    prefixes: BTreeMap<u64, Vec<Vec<u8>>>,
}

impl Model for ByClient {
    ghost use Rattle.std.specs.Prelude.{List};
    ghost use Rattle.smx_routes.specs.Routing.{Route};
    ghost use Rattle.smx_routes.specs.Private.Owned.{owned_of};

    ghost Value = { List Route };

    ghost view = { owned_of };
}

impl ByClient {
    // No prefix.
    pub(crate) fn new(alloc: Global) -> ByClient
        ensures { result ≡ [] }
    {
        ByClient {
            alloc,
            prefixes: BTreeMap::new(alloc),
        }
    }

    // The client has the prefix from now on, once more if it had it.
    pub(crate) fn insert(&mut self, prefix: &[u8], client: u64) -> Result<(), AllocError>
        ensures ok { OnOk result (IsPermutation (route prefix.now client ∷ self.old) self.new) }
        ensures err { OnErr result (self.new ≡ self.old) }
    {
        let prefix = prefix.to_vec(self.alloc)?;
        if let Some(prefixes) = self.prefixes.get_mut(&client) {
            prefixes.push(prefix)?;
            return Ok(());
        }
        let mut prefixes = Vec::new(self.alloc);
        prefixes.push(prefix)?;
        self.prefixes.insert(client, prefixes)?;
        Ok(())
    }

    // Takes the client's prefixes out. It takes no memory.
    pub(crate) fn take(&mut self, client: u64) -> Vec<Vec<u8>>
        ensures taken { map (λ p. route p.items client) result.items
            ≡ filter (λ r. r.client == client) self.old }
        ensures left { self.new ≡ filter (λ r. not (r.client == client)) self.old }
    {
        match self.prefixes.remove(&client) {
            Some(prefixes) => prefixes,
            None => Vec::new(self.alloc),
        }
    }
}
