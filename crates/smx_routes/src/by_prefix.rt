//! Which clients have a prefix, by the prefix.
ghost use Rattle.std.specs.Prelude.{◌≡◌, true, false, OnOk, OnErr};
ghost use Rattle.smx_routes.specs.Private.Holders.{has_holder, HasNoHolder, HasSame, IsLeast, SetsHolder};

use std::alloc::{AllocError, Global};
use std::collections::{BTreeSet, HashMap};

#[derive(Drop)]
pub(crate) struct ByPrefix {
    alloc: Global,
    // A prefix that no client has is not among the keys. A look-up costs the same however many there are.
    clients: HashMap<Vec<u8>, BTreeSet<u64>>,
}

impl ByPrefix {
    // No client has a prefix.
    pub(crate) fn new(alloc: Global) -> ByPrefix
        ensures { HasNoHolder result }
    {
        ByPrefix {
            alloc,
            clients: HashMap::new(alloc),
        }
    }

    // Whether the client has the prefix.
    pub(crate) fn has(&self, prefix: &[u8], client: u64) -> bool
        ensures { result ≡ has_holder self.now prefix.now client }
    {
        match self.clients.get(prefix) {
            Some(clients) => clients.contains(&client),
            None => false,
        }
    }

    // The least client that has exactly this prefix.
    pub(crate) fn least(&self, prefix: &[u8]) -> Option<u64>
        ensures { IsLeast (has_holder self.now prefix.now) result }
    {
        self.clients.get(prefix)?.first().copied()
    }

    // The client has the prefix from now on.
    pub(crate) fn insert(&mut self, prefix: &[u8], client: u64) -> Result<(), AllocError>
        ensures ok { OnOk result (SetsHolder true self.old prefix.now client self.new) }
        ensures err { OnErr result (HasSame self.old self.new) }
    {
        if let Some(clients) = self.clients.get_mut(prefix) {
            clients.insert(client)?;
            return Ok(());
        }
        let mut clients = BTreeSet::new(self.alloc);
        clients.insert(client)?;
        let prefix = prefix.to_vec(self.alloc)?;
        self.clients.insert(prefix, clients)?;
        Ok(())
    }

    // The client has the prefix no more. It takes no memory.
    pub(crate) fn remove(&mut self, prefix: &[u8], client: u64)
        ensures { SetsHolder false self.old prefix.now client self.new }
    {
        let Some(clients) = self.clients.get_mut(prefix) else {
            return;
        };
        clients.remove(&client);
        if clients.is_empty() {
            self.clients.remove(prefix);
        }
    }
}
