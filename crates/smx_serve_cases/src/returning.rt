//! A centre that is gone for a while.

use crate::stage::{Running, binding, bound, config_for};
use std::net::{TcpListener, TcpStream};
use std::process::Abort;
use std::test::Fail;

// After so many milliseconds the proxy gives up a bind.
const SILENCE: u64 = 1_000;

// Connections that the proxy makes one after another: the centre closes the first two, and never
// answers the bind on the last two.
fn rebound(rt: &impl Abort, centre: &TcpListener) -> Result<(TcpStream, TcpStream), Fail> {
    drop(binding(rt, centre)?);
    drop(bound(rt, centre)?);
    let silent = binding(rt, centre)?;
    let last = binding(rt, centre)?;
    Ok((silent, last))
}

// The centre closes the connection before and after it answered the bind, and never answers one. Each
// time the proxy connects and binds again.
#[test]
fn centre_comes_back(rt: HostRuntime) -> Result<(), Fail> {
    let centre = TcpListener::bind(&rt, "127.0.0.1:0")?;
    let config = config_for(rt.alloc(), &centre, SILENCE)?;
    let proxy = Running::of(rt, config)?;
    let _links = rebound(&rt, &centre)?;
    proxy.remote.stop();
    proxy.is_over(&rt);
    Ok(())
}
