//! The worker towards the centre beside the exchange that its tap came from.
ghost use Rattle.std.specs.Prelude.{◌≡◌, None, slice_get, Some, IfOk, false};
ghost use Rattle.smx_session.specs.declared.upstream_state.UpstreamState.{UpstreamState};

use crate::figures::{NOT_MADE, stopped};
use crate::seats::Drawer;
use crate::worker::hall::Worker;
use smx_centre::{Centre, Mode};
use smx_memory_link::{CentrePeer, FlagGate, MemoryLink, Nobody};
use smx_session::{UpstreamBind, UpstreamSession};
use smx_shared::Exchange;
use smx_slots::LaneEnds;
use smx_turns::RunEnd;
use smx_upstream::{Parts, UpstreamWorker, run_upstream};
use std::alloc::{AllocError, Global};
use std::io;
use std::sync::Wait;

/// The worker over a link to a loopback centre.
#[derive(Drop)]
pub(crate) struct Carrier<'a> {
    at: &'a Exchange,
    worker: UpstreamWorker<MemoryLink<CentrePeer>>,
    // A turn of it failed: it is turned no more.
    over: bool,
    ghost fits: { slice_get at.now worker.stand.tap.lane ≡ Some worker.stand.tap.front.lock },
    ghost goes_on: { over ≡ false → worker.held ≡ None },
}

/// A session that isn't bound yet.
pub(crate) fn session(alloc: Global) -> Result<UpstreamSession, AllocError>
    ensures { IfOk result (λ s. s.state ≡ UpstreamState.Binding) }
{
    let system_id = Vec::from_slice(alloc, b"proxy")?;
    let password = Vec::from_slice(alloc, b"pw")?;
    let bind = UpstreamBind::transceiver(alloc, system_id, password);
    Ok(UpstreamSession::new(alloc, bind, 30_000, 0))
}

impl<'a> Carrier<'a> {
    /// A worker before a loopback centre. The lane's history may have so many entries.
    pub(crate) fn new(
        alloc: Global,
        drawer: Drawer<'a>,
        session: UpstreamSession,
        ends: LaneEnds,
        history: usize,
    ) -> io::Result<Carrier<'a>>
        requires { session.state ≡ UpstreamState.Binding }
    {
        let Drawer { at, tap, .. } = drawer;
        let LaneEnds {
            answers,
            senders,
            owed,
        } = ends;
        let centre = CentrePeer::new(alloc, Centre::new(alloc, Mode::Plain));
        let parts = Parts {
            link: MemoryLink::new(centre),
            tap,
            session,
            answers,
            senders,
            owed,
        };
        match UpstreamWorker::new(alloc, parts, history, 60_000) {
            Ok(worker) => Ok(Carrier {
                at,
                worker,
                over: false,
            }),
            Err(_) => Err(stopped(NOT_MADE)),
        }
    }
}

impl Worker for Carrier<'_> {
    fn run<R: Wait>(
        &mut self,
        rt: &R,
        gate: &mut FlagGate,
        nobody: &mut Nobody,
        turns: u64,
    ) -> RunEnd {
        if self.over {
            return RunEnd::Left;
        }
        let end = run_upstream(&mut self.worker, self.at, rt, gate, nobody, || 0, turns);
        if let RunEnd::Fault(_) = end {
            self.over = true;
        }
        end
    }
}
