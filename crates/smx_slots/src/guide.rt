//! Where messages of the centre go.
ghost use Rattle.std.specs.Prelude.{◌≡◌};

use crate::roll::Roll;
use smx_routes::{RouteFault, Routes};
use smx_trace::Trace;
use smx_turns::{Directory, Place, Query};
use std::sync::Wait;

/// The directory of the proxy: the routes, and which client has which slot.
#[derive(Drop)]
pub struct Guide<'a> {
    routes: &'a mut Routes,
    roll: &'a Roll,
    queries: Trace<Query>,
}

impl<'a> Guide<'a> {
    pub fn new(routes: &'a mut Routes, roll: &'a Roll) -> Guide<'a> {
        Guide {
            routes,
            roll,
            queries: Trace::new(),
        }
    }

    fn place(&self, address: &[u8]) -> Option<Place> {
        let client = self.routes.route(address)?;
        let slot = self.roll.slot(client)?;
        Some(Place { client, slot })
    }
}

// What was asked, for contracts alone.
fn text_of(octets: &[u8]) -> Trace<u8>
    ensures { result ≡ octets.now }
{
    let mut text = Trace::new();
    text.extend(octets);
    text
}

impl Directory for Guide<'_> {
    ghost queries = { λ g. g.queries };

    fn find<R: Wait>(&mut self, _rt: &R, address: &[u8]) -> Option<Place> {
        let found = self.place(address);
        let query = Query::Found(text_of(address), found);
        self.queries = self.queries.and(&query);
        found
    }

    fn add<R: Wait>(&mut self, _rt: &R, prefix: &[u8], client: u64) -> Result<(), RouteFault> {
        let added = self.routes.insert(prefix, client);
        let query = Query::Added(text_of(prefix), client, added);
        self.queries = self.queries.and(&query);
        added
    }

    fn remove<R: Wait>(&mut self, _rt: &R, client: u64) {
        self.routes.remove(client);
        self.queries = self.queries.and(&Query::Removed(client));
    }
}
