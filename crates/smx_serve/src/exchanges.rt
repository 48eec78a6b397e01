//! The lanes' exchanges: what clients' requests pass, and what receivers have of their own.
ghost use Rattle.std.specs.Prelude.{◌≡◌, slice_get, Some, All};
ghost use Rattle.std.specs.Arc.{arc_value};

use crate::seats::{Drawer, Gateway};
use smx_config::{BindKind, Config, Upstream};
use smx_history::Limits;
use smx_notice::Ended;
use smx_shared::{Exchange, Tap};
use std::alloc::{AllocError, Global};
use std::sync::{Arc, Wait};

/// The limits of a lane that takes no requests: the least that a lane may have.
const RECEIVING: Limits = Limits {
    queue: 1,
    window: 1,
    client: 1,
    history: 1_000,
};

// Each tap beside its exchange.
fn drawers_of(
    alloc: Global,
    at: &Arc<Exchange>,
    taps: Vec<Tap>,
    history: usize,
) -> Result<Vec<Drawer>, AllocError>
    requires { All (λ t. slice_get (arc_value at.now) t.lane ≡ Some t.front.lock) taps.items }
{
    let mut drawers = Vec::new(alloc);
    for tap in taps {
        drawers.push(Drawer {
            at: Arc::try_clone(at)?,
            tap,
            history,
        })?;
    }
    Ok(drawers)
}

// So many lanes under these limits: their door, and each tap beside the exchange.
fn opened<R: Wait>(
    rt: &R,
    alloc: Global,
    limits: Limits,
    lanes: usize,
) -> Result<(Gateway, Vec<Drawer>), Ended> {
    let Ok((exchange, door, taps)) = Exchange::new(rt, alloc, limits, lanes) else {
        return Err(Ended::NoMemory);
    };
    let Ok(at) = Arc::new(alloc, exchange) else {
        return Err(Ended::NoMemory);
    };
    let drawers = drawers_of(alloc, &at, taps, limits.history as usize)?;
    Ok((Gateway { at, door }, drawers))
}

fn is_receiver(upstream: &Upstream) -> bool {
    upstream.bind == BindKind::Receiver
}

// In place of the tap of each receiver that of an exchange which no client enters: its lane in the
// clients' exchange stays down, so that it takes no requests.
fn with_receivers<R: Wait>(
    rt: &R,
    alloc: Global,
    upstreams: &[Upstream],
    drawers: Vec<Drawer>,
    others: Vec<Drawer>,
) -> Result<Vec<Drawer>, AllocError> {
    let mut all = Vec::new(alloc);
    for (upstream, (mut drawer, other)) in upstreams.iter().zip(drawers.into_iter().zip(others)) {
        if is_receiver(upstream) {
            drawer.lower(rt);
            all.push(other)?;
        } else {
            all.push(drawer)?;
        }
    }
    Ok(all)
}

/// The clients' door, and for each upstream its lane's tap.
pub(crate) fn gateway_of<R: Wait>(
    rt: &R,
    alloc: Global,
    config: &Config,
) -> Result<(Gateway, Vec<Drawer>), Ended> {
    let upstreams = config.upstream.as_slice();
    let (gateway, drawers) = opened(rt, alloc, config.limits, upstreams.len())?;
    if !upstreams.iter().any(is_receiver) {
        return Ok((gateway, drawers));
    }
    let (_, others) = opened(rt, alloc, RECEIVING, upstreams.len())?;
    let drawers = with_receivers(rt, alloc, upstreams, drawers, others)?;
    Ok((gateway, drawers))
}
