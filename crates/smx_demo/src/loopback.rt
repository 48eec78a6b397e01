//! The addresses of a configuration, moved to this machine.
ghost use Rattle.std.specs.Prelude.{◌≡◌, vec_len, IfOk};

use crate::centres::{ANY_PORT, Centres};
use crate::showing::NotShown;
use smx_config::{BindKind, Config, Upstream, is_address};
use std::alloc::Global;

/// The most octets of an address.
const MOST: usize = 255;

// The same upstream elsewhere, bound as a transceiver, which the demo's centres take. None where the address
// can't be a configuration's.
fn upstream_at(upstream: Upstream, address: String) -> Option<Upstream> {
    let length = address.len();
    if length == 0 || length > MOST || !is_address(address.as_str()) {
        return None;
    }
    Some(Upstream {
        address,
        bind: BindKind::Transceiver,
        ..upstream
    })
}

// Each upstream where the centre with its index listens.
fn upstreams_at(
    alloc: Global,
    upstreams: Vec<Upstream>,
    centres: &Centres,
) -> Result<Vec<Upstream>, NotShown>
    ensures count { IfOk result (λ all. vec_len all ≡ vec_len upstreams) }
{
    let count = upstreams.len();
    let mut all = Vec::new(alloc);
    for upstream in upstreams {
        let Some(address) = centres.address(alloc, all.len()) else {
            return Err(NotShown::NoCentre);
        };
        let Some(upstream) = upstream_at(upstream, address) else {
            return Err(NotShown::NoCentre);
        };
        let Ok(()) = all.push(upstream) else {
            return Err(NotShown::NoMemory);
        };
    }
    if all.len() == count {
        Ok(all)
    } else {
        Err(NotShown::NoCentre)
    }
}

/// The same configuration, but that its clients connect at a free port of 127.0.0.1, with no header of
/// the PROXY protocol, and that the centres are its upstreams.
pub(crate) fn moved(alloc: Global, config: Config, centres: &Centres) -> Result<Config, NotShown> {
    let listen = String::from_str(alloc, ANY_PORT)?;
    let upstream = upstreams_at(alloc, config.upstream, centres)?;
    Ok(Config {
        listen,
        proxy_protocol: false,
        upstream,
        ..config
    })
}
