//! A client's worker beside the exchange that its port came from.
ghost use Rattle.std.specs.Prelude.{◌≡◌, ◌≢◌, None, false};
ghost use Rattle.smx_shared.specs.Views.{locks_of};
ghost use Rattle.smx_client.specs.declared.stage.Stage.TheVariants as stage;

use crate::figures::{NOT_MADE, stopped};
use crate::seats::Seat;
use crate::worker::flood::Flood;
use crate::worker::hall::Worker;
use smx_client::{ClientWorker, Desk, run_client};
use smx_memory_link::{FlagGate, MemoryLink, Nobody};
use smx_shared::Exchange;
use smx_slots::ClientEnds;
use smx_turns::RunEnd;
use std::alloc::Global;
use std::io;
use std::sync::Wait;

/// A client's worker.
#[derive(Drop)]
pub(crate) struct Member<'a> {
    at: &'a Exchange,
    worker: ClientWorker<'a, MemoryLink<Flood<'a>>>,
    // A turn of it failed: it is turned no more.
    over: bool,
    ghost fits: { locks_of worker.port.fronts ≡ at.now },
    ghost goes_on: { over ≡ false → worker.stage ≢ stage.Closed → worker.wire.failed ≡ None },
}

impl<'a> Member<'a> {
    /// A worker before this client.
    pub(crate) fn new(
        alloc: Global,
        seat: Seat<'a>,
        desk: &'a Desk,
        ends: ClientEnds,
        flood: Flood<'a>,
    ) -> io::Result<Member<'a>> {
        if ends.senders.len() != seat.port.lanes() {
            return Err(stopped(NOT_MADE));
        }
        let Seat { at, port, .. } = seat;
        let ClientEnds { inbox, senders } = ends;
        let link = MemoryLink::new(flood);
        match ClientWorker::new(alloc, port, desk, inbox, senders, 4, link, 0, 0, 0) {
            Ok(worker) => Ok(Member {
                at,
                worker,
                over: false,
            }),
            Err(_) => Err(stopped(NOT_MADE)),
        }
    }
}

impl Worker for Member<'_> {
    fn run<R: Wait>(
        &mut self,
        rt: &R,
        gate: &mut FlagGate,
        nobody: &mut Nobody,
        turns: u64,
    ) -> RunEnd {
        if self.over {
            return RunEnd::Left;
        }
        let end = run_client(&mut self.worker, self.at, rt, gate, nobody, 0, turns);
        if let RunEnd::Fault(_) = end {
            self.over = true;
        }
        end
    }
}
