//! The demonstration.
use crate::centres::Centres;
use crate::loopback::moved;
use crate::visitors::answered;
use smx_config::{Account, Config};
use smx_serve::{Remote, Server};
use std::alloc::{AllocError, Global};
use std::net::{Net, TcpListener, TcpStream};
use std::rt::Clock;
use std::sync::Wait;
use std::sync::atomic::{AtomicBool, Ordering};
use std::thread::{Threads, join, map_vec, sleep};
use std::time::Duration;
use thiserror::Error;

/// How long the clients wait for the proxy, in milliseconds.
const PATIENCE: u32 = 10_000;

/// Why there was nothing to see.
#[derive(Clone, Copy, Debug, PartialEq, Eq, Error)]
pub enum NotShown {
    /// No centre could listen at 127.0.0.1.
    #[error("a centre can't listen at 127.0.0.1")]
    NoCentre,
    /// The proxy did not start.
    #[error("the proxy can't start")]
    NoProxy,
    /// Memory was refused.
    #[error("out of memory")]
    NoMemory,
}

impl From<AllocError> for NotShown {
    fn from(_: AllocError) -> NotShown {
        NotShown::NoMemory
    }
}

// The numbers from 0 on, so many.
fn indices(alloc: Global, count: usize) -> Result<Vec<usize>, AllocError> {
    let mut all = Vec::with_capacity(alloc, count)?;
    for index in 0..count {
        all.push(index)?;
    }
    Ok(all)
}

/// A configuration, none of whose addresses is opened, and a centre for each of its upstreams, which
/// listens at a free port of 127.0.0.1.
#[derive(Drop)]
pub struct Demo {
    alloc: Global,
    centres: Centres,
    config: Config,
}

impl Demo {
    /// The centres listen; nothing else is done yet.
    pub fn new<R>(rt: &R, alloc: Global, config: Config) -> Result<Demo, NotShown>
    where
        R: Net<Listener = TcpListener, Stream = TcpStream>,
    {
        let Ok(centres) = Centres::listen(rt, alloc, config.upstream.len()) else {
            return Err(NotShown::NoCentre);
        };
        let config = moved(alloc, config, &centres)?;
        Ok(Demo {
            alloc,
            centres,
            config,
        })
    }

    /// The accounts, in the order in which they are counted.
    pub fn accounts(&self) -> &[Account] {
        &self.config.account
    }

    /// Runs the centres, this proxy at a free port of 127.0.0.1, and for each account a client that
    /// sends ten messages, all in this process and in threads of their own. It answers how many
    /// messages of each account were answered with status 0, in the order of the accounts.
    pub fn run<R>(&self, rt: &R, server: Server) -> Result<Vec<u32>, NotShown>
    where
        R: Clock + Wait + Net<Listener = TcpListener, Stream = TcpStream> + Threads + Sync,
    {
        let alloc = self.alloc;
        let upstreams = indices(alloc, self.config.upstream.len())?;
        let Some(remote) = server.remote() else {
            return Err(NotShown::NoProxy);
        };
        let over = AtomicBool::new(false);
        let (_, (counts, _)) = join(
            rt,
            || {
                map_vec(
                    rt,
                    upstreams,
                    &|index: usize| { self.centres.serve(rt, alloc, index, &over) },
                )
            },
            || {
                join(
                    rt,
                    || visit_all(rt, alloc, &self.config, &remote, &over),
                    || server.serve(rt, alloc, &self.config),
                )
            },
        );
        counts
    }
}

// Lets the clients go once the proxy listens, and then ends all.
fn visit_all<R>(
    rt: &R,
    alloc: Global,
    config: &Config,
    remote: &Remote,
    over: &AtomicBool,
) -> Result<Vec<u32>, NotShown>
where
    R: Clock + Net<Listener = TcpListener, Stream = TcpStream> + Threads + Sync,
{
    let counts = count_all(rt, alloc, config, remote);
    remote.stop();
    over.store(true, Ordering::SeqCst);
    counts
}

fn count_all<R>(
    rt: &R,
    alloc: Global,
    config: &Config,
    remote: &Remote,
) -> Result<Vec<u32>, NotShown>
where
    R: Clock + Net<Listener = TcpListener, Stream = TcpStream> + Threads + Sync,
{
    for _ in 0..PATIENCE {
        if remote.is_listening() {
            break;
        }
        sleep(rt, Duration::from_millis(1));
    }
    if !remote.is_listening() {
        return Err(NotShown::NoProxy);
    }
    let jobs = indices(alloc, config.account.len())?;
    let address = format!(in alloc; "127.0.0.1:{}", remote.port())?;
    let counts = map_vec(
        rt,
        jobs,
        &|index: usize| match config.account.get(index) {
            Some(account) => answered(rt, alloc, address.as_str(), account),
            None => 0,
        },
    )?;
    Ok(counts)
}
