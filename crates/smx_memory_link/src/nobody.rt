//! A directory in which nobody stands.
use smx_routes::RouteFault;
use smx_trace::Trace;
use smx_turns::{Directory, Place, Query};
use std::sync::Wait;

/// A directory that knows no prefix: the clients here are sent no message.
#[derive(Drop)]
pub struct Nobody {
    queries: Trace<Query>,
}

impl Nobody {
    /// Nobody was asked for yet.
    pub fn new() -> Nobody {
        Nobody {
            queries: Trace::new(),
        }
    }
}

impl Directory for Nobody {
    ghost queries = { λ d. d.queries };

    fn find<R: Wait>(&mut self, _rt: &R, address: &[u8]) -> Option<Place> {
        let mut octets = Trace::new();
        octets.extend(address);
        self.queries = self.queries.and(&Query::Found(octets, None));
        None
    }

    fn add<R: Wait>(&mut self, _rt: &R, prefix: &[u8], client: u64) -> Result<(), RouteFault> {
        let mut octets = Trace::new();
        octets.extend(prefix);
        self.queries = self.queries.and(&Query::Added(octets, client, Ok(())));
        Ok(())
    }

    fn remove<R: Wait>(&mut self, _rt: &R, client: u64) {
        self.queries = self.queries.and(&Query::Removed(client));
    }
}
