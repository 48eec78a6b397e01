//! Which client a message of the centre goes to.
ghost use Rattle.std.specs.Prelude.{◌≡◌, ◌++◌, ◌∷◌, [], List};
ghost use Rattle.smx_turns.specs.declared.directory.Query.{Query};
ghost use Rattle.smx_turns.specs.declared.directory.Query.TheVariants as query;

use smx_routes::RouteFault;
use smx_trace::Trace;
use std::sync::Wait;

/// A client and the slot that it has.
#[derive(Clone, Copy, Debug, PartialEq, Eq)]
pub struct Place {
    pub client: u64,
    pub slot: usize,
}

/// What a directory was asked, and its answer: for contracts alone.
#[derive(Drop)]
pub enum Query {
    /// Whose address this is.
    Found(Trace<u8>, Option<Place>),
    /// That the client has this prefix.
    Added(Trace<u8>, u64, Result<(), RouteFault>),
    /// That the client is gone.
    Removed(u64),
}

/// Which client a message goes to, by the prefixes of their addresses.
pub trait Directory {
    /// What it was asked, and its answers, in order.
    ghost queries: { Self → List Query };

    /// The client whose prefix this address has, and its slot.
    fn find<R: Wait>(&mut self, rt: &R, address: &[u8]) -> Option<Place>
        ensures { queries self.new ≡ queries self.old ++ query.Found address.now result ∷ [] };

    /// Enters a prefix of a client.
    fn add<R: Wait>(&mut self, rt: &R, prefix: &[u8], client: u64) -> Result<(), RouteFault>
        ensures { queries self.new
            ≡ queries self.old ++ query.Added prefix.now client result ∷ [] };

    /// Takes all prefixes of a client out.
    fn remove<R: Wait>(&mut self, rt: &R, client: u64)
        ensures { queries self.new ≡ queries self.old ++ query.Removed client ∷ [] };
}
