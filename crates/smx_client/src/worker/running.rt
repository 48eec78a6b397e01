//! Turns of a client's worker, one after another.
ghost use Rattle.std.specs.Prelude.{◌≡◌, ◌≢◌, ◌+◌, ◌-◌, ◌^◌, ◌++◌, ◌∷◌, [], ℕ, List, min, Ok, None, OnOk, Result, true};
ghost use Rattle.smx_frame.specs.Stream.{HasNone};
ghost use Rattle.smx_shared.specs.Views.{locks_of};
ghost use Rattle.smx_turns.specs.Rounds.{EndsSo};
ghost use Rattle.smx_turns.specs.Runs.{Runs, RunsOn};
ghost use Rattle.smx_turns.specs.Scenes.{faults};
ghost use Rattle.smx_turns.specs.Steps.{asks, polls, events, are_quiet};
ghost use Rattle.smx_turns.specs.Wires.{has_ended};
ghost use Rattle.smx_turns.specs.Worth.{tells};
ghost use Rattle.smx_turns.specs.declared.end.Fault.{Fault};
ghost use Rattle.smx_turns.specs.declared.end.TurnEnd.{TurnEnd};
ghost use Rattle.smx_client.specs.Courses.{course, TurnsSo};
ghost use Rattle.smx_client.specs.Events.{is_quiet_event, worth};
ghost use Rattle.smx_client.specs.Parts.{Does};
ghost use Rattle.smx_client.specs.Scenes.{scene_of, before, Moves};
ghost use Rattle.smx_client.specs.Serving.{parts_of};
ghost use Rattle.smx_client.specs.Table.{Before, Phase, phase_of, Opening, Closing, when_written, IsAt, EndsIn, IsTurn, Stands};
ghost use Rattle.smx_client.specs.Turns.{Leads, Changes};

use super::ClientWorker;
use crate::event::{Event, Progress};
use crate::stage::Stage;
use smx_link::Link;
use smx_session::ClientState;
use smx_shared::Exchange;
use smx_turns::{Directory, Fault, Gate, Log, RunEnd, TurnEnd, last_end};
use std::sync::Wait;

// The number of the turn after so many. The count stays at its greatest.
fn after(turns: u64) -> u64
    ensures { result ≡ min (turns + 1) (2 ^ 64 - 1) }
{
    if turns < u64::MAX {
        return turns + 1;
    }
    turns
}

// How a turn ends that comes so far; whether nothing came of it.
fn end_of(progress: Progress, quiet: bool) -> TurnEnd
    requires { (progress ≢ Progress.Closed) × (progress ≢ Progress.Gone) }
    ensures phase { (p : Phase) → IsAt progress p → EndsIn result quiet p }
    ensures goes_on { result ≢ TurnEnd.Done }
{
    match progress {
        Progress::Stopped => TurnEnd::Idle,
        Progress::Settled if quiet => TurnEnd::Idle,
        _ => TurnEnd::Worked,
    }
}

impl<'d, L: Link + Drop> ClientWorker<'d, L> {
    // Offers what waits, where nothing more is decided in any turn.
    fn last_part(&mut self, log: &mut Log<Event>) -> Result<TurnEnd, Fault>
        requires stage { self.old.stage ≡ Stage.Closed }
        ensures moves { Moves L.offered L.polls L.failures self.old log.old self.new log.new }
        ensures phase { (t : Before) → phase_of t log.old ≡ Closing
            → IsTurn result (are_quiet is_quiet_event log.new) (phase_of t log.new)
            × OnOk result (Stands (phase_of t log.new) self.new.wire.unsent self.new.wire.rest
            self.new.held self.new.parked self.new.settled self.new.stage) }
        ensures same { self.new ≡ record self.old {
          wire = record self.old.wire { link = self.new.wire.link; unsent = self.new.wire.unsent };
        } }
    {
        match self.offer_part(log) {
            Err(fault) => Err(fault),
            Ok(left) => Ok(last_end(left)),
        }
    }

    // The turn after what waited was written.
    fn rest_part<R: Wait, G: Gate, D: Directory>(
        &mut self,
        at: &Exchange,
        rt: &R,
        gate: &mut G,
        directory: &mut D,
        turn: u64,
        now: u64,
        log: &mut Log<Event>,
    ) -> Result<TurnEnd, Fault>
        requires locks { locks_of self.old.origin.port.value.fronts ≡ at.now }
        requires goes_on { self.old.wire.failed ≡ None }
        requires going { self.old.stage ≢ Stage.Closed }
        ensures leads { Leads turn
            (scene_of L.offered L.polls L.failures (G.asked gate.old) (G.told gate.old) (D.queries
            directory.old) self.old)
            log.old
            (scene_of L.offered L.polls L.failures (G.asked gate.new) (G.told gate.new) (D.queries
            directory.new) self.new)
            log.new }
        ensures phase { (t : Before) → t ≡ before now self.old
            → phase_of t log.old ≡ when_written t self.old.stage
            → IsTurn result (are_quiet is_quiet_event log.new) (phase_of t log.new)
            × OnOk result (Stands (phase_of t log.new) self.new.wire.unsent self.new.wire.rest
            self.new.held self.new.parked self.new.settled self.new.stage) }
        ensures goes_on { OnOk result
            (self.new.stage ≢ Stage.Closed → self.new.wire.failed ≡ None) }
        ensures done { result ≡ Ok TurnEnd.Done → self.new.stage ≡ Stage.Closed }
        ensures same { self.new ≡ record self.new {
          desk = self.old.desk;
          message_time = self.old.message_time;
          turns = self.old.turns;
          steps = self.old.steps;
          ends = self.old.ends;
          origin = self.old.origin;
        } }
    {
        match self.middle_part(at, rt, gate, directory, turn, now, log)? {
            Progress::Closed => {
                self.stage = Stage::Closed;
                self.last_part(log)
            }
            Progress::Gone => {
                self.stage = Stage::Closed;
                Ok(TurnEnd::Done)
            }
            progress => Ok(end_of(progress, log.is_quiet())),
        }
    }

    // A turn, whose steps are written down.
    fn run_turn<R: Wait, G: Gate, D: Directory>(
        &mut self,
        at: &Exchange,
        rt: &R,
        gate: &mut G,
        directory: &mut D,
        turn: u64,
        now: u64,
        log: &mut Log<Event>,
    ) -> Result<TurnEnd, Fault>
        requires locks { locks_of self.old.origin.port.value.fronts ≡ at.now }
        requires goes_on { self.old.stage ≢ Stage.Closed → self.old.wire.failed ≡ None }
        ensures leads { Leads turn
            (scene_of L.offered L.polls L.failures (G.asked gate.old) (G.told gate.old) (D.queries
            directory.old) self.old)
            log.old
            (scene_of L.offered L.polls L.failures (G.asked gate.new) (G.told gate.new) (D.queries
            directory.new) self.new)
            log.new }
        ensures phase { (t : Before) → t ≡ before now self.old → phase_of t log.old ≡ Opening
            → IsTurn result (are_quiet is_quiet_event log.new) (phase_of t log.new)
            × OnOk result (Stands (phase_of t log.new) self.new.wire.unsent self.new.wire.rest
            self.new.held self.new.parked self.new.settled self.new.stage) }
        ensures goes_on { OnOk result
            (self.new.stage ≢ Stage.Closed → self.new.wire.failed ≡ None) }
        ensures done { result ≡ Ok TurnEnd.Done → self.new.stage ≡ Stage.Closed }
        ensures same { self.new ≡ record self.new {
          desk = self.old.desk;
          message_time = self.old.message_time;
          turns = self.old.turns;
          steps = self.old.steps;
          ends = self.old.ends;
          origin = self.old.origin;
        } }
    {
        match self.offer_part(log) {
            Err(fault) => Err(fault),
            Ok(left) => {
                if left {
                    return Ok(TurnEnd::Worked);
                }
                match self.stage {
                    Stage::Closed => Ok(TurnEnd::Done),
                    _ => self.rest_part(at, rt, gate, directory, turn, now, log),
                }
            }
        }
    }

    /// One turn at a moment, in milliseconds, which was taken before the turn. `Worked` where
    /// something was done or octets or an answer wait, `Idle` where the gate said no or there was
    /// nothing to do, `Done` once the client has left or its link has ended and all is written, or
    /// an enquiry was answered by no octet. After a fault only `close` is called. What the turn did can be
    /// read in the worker then, by contracts alone.
    pub fn turn<R: Wait, G: Gate, D: Directory>(
        &mut self,
        at: &Exchange,
        rt: &R,
        gate: &mut G,
        directory: &mut D,
        now: u64,
    ) -> Result<TurnEnd, Fault>
        requires locks { locks_of self.old.port.fronts ≡ at.now }
        requires goes_on { self.old.stage ≢ Stage.Closed → self.old.wire.failed ≡ None }

        // Its steps, and nothing else, lead from what was to what is, in the table's order.
        ensures changes { Changes self.new.turns
            (scene_of L.offered L.polls L.failures (G.asked gate.old) (G.told gate.old) (D.queries
            directory.old) self.old)
            self.new.steps
            (scene_of L.offered L.polls L.failures (G.asked gate.new) (G.told gate.new) (D.queries
            directory.new) self.new) }
        ensures order { IsTurn result (are_quiet is_quiet_event self.new.steps)
            (phase_of (before now self.old) self.new.steps) }
        ensures stands { OnOk result (Stands (phase_of (before now self.old) self.new.steps)
            self.new.wire.unsent self.new.wire.rest self.new.held self.new.parked
            self.new.settled self.new.stage) }

        // It reads only where every whole PDU that came before was decided.
        ensures settled { (polls self.new.steps ≢ [])
            → (self.old.held ≡ None) × HasNone 65536 self.old.wire.rest }

        // Nothing more is decided only once the session has ended, or the link, with nothing left.
        ensures closed { self.new.stage ≡ Stage.Closed → self.new.session.state ≢ ClientState.Ended
            → (self.new.held ≡ None) × HasNone 65536 self.new.wire.rest
            × (has_ended (L.polls self.new.wire.link) ≡ true) }

        // So each of these lists grew by what the steps tell.
        ensures asks { G.asked gate.new ≡ G.asked gate.old ++ asks self.new.turns self.new.steps }
        ensures told { G.told gate.new ≡ G.told gate.old ++ tells worth (events self.new.steps) }
        ensures events { self.new.events ≡ self.old.events ++ events self.new.steps }
        ensures runs { Runs Does (parts_of self.old) (events self.new.steps) (parts_of self.new) }
        ensures reads { L.polls self.new.wire.link
            ≡ L.polls self.old.wire.link ++ polls self.new.steps }
        ensures failures { L.failures self.new.wire.link
            ≡ L.failures self.old.wire.link + faults self.new.steps }
        ensures offered { (more : List ℕ)
            × (L.offered self.new.wire.link
            ≡ L.offered self.old.wire.link ++ self.old.wire.unsent ++ more) }

        ensures count { self.new.turns ≡ min (self.old.turns + 1) (2 ^ 64 - 1) }
        ensures ends { self.new.ends ≡ self.old.ends ++ result ∷ [] }
        ensures done { result ≡ Ok TurnEnd.Done → self.new.stage ≡ Stage.Closed }
        ensures goes_on { OnOk result
            (self.new.stage ≢ Stage.Closed → self.new.wire.failed ≡ None) }
        ensures locks { locks_of self.new.port.fronts ≡ locks_of self.old.port.fronts }
        ensures message_time { self.new.message_time ≡ self.old.message_time }
        ensures origin { self.new.origin ≡ self.old.origin }
    {
        let turn = after(self.turns);
        let mut log = Log::new();
        let end = self.run_turn(at, rt, gate, directory, turn, now, &mut log);
        self.turns = turn;
        self.steps = log.into_steps();
        self.ends = self.ends.and(&end);
        end
    }
}

/// Turns a worker at a moment at most so often, and no more after a turn that wasn't `Worked`.
pub fn run_client<'d, L: Link + Drop, R: Wait, G: Gate, D: Directory>(
    worker: &mut ClientWorker<'d, L>,
    at: &Exchange,
    rt: &R,
    gate: &mut G,
    directory: &mut D,
    now: u64,
    turns: u64,
) -> RunEnd
    requires locks { locks_of worker.old.port.fronts ≡ at.now }
    requires goes_on { worker.old.stage ≢ Stage.Closed → worker.old.wire.failed ≡ None }
    ensures ends { EndsSo turns result worker.old.ends worker.new.ends }
    ensures never_filled { result ≢ RunEnd.Filled }
    ensures ran { RunsOn Does (parts_of worker.old) worker.old.events (parts_of worker.new)
        worker.new.events }

    // It makes turns, and asks nothing else of the gate, the directory and the link.
    ensures turned { (ends : List (Result TurnEnd Fault)) × Runs (TurnsSo L.offered L.polls
        L.failures now) (course (G.asked gate.old) (G.told gate.old) (D.queries directory.old)
        worker.old) ends (course (G.asked gate.new) (G.told gate.new) (D.queries directory.new)
        worker.new) }
    ensures goes_on { ((fault : Fault) → result ≢ RunEnd.Fault fault)
        → worker.new.stage ≢ Stage.Closed → worker.new.wire.failed ≡ None }
    ensures locks { locks_of worker.new.port.fronts ≡ locks_of worker.old.port.fronts }
    ensures origin { worker.new.origin ≡ worker.old.origin }
{
    for _turn in 0..turns {
        match worker.turn(at, rt, gate, directory, now) {
            Ok(TurnEnd::Worked) => {}
            Ok(TurnEnd::Idle) => return RunEnd::Idle,
            Ok(TurnEnd::Done) => return RunEnd::Left,
            Ok(TurnEnd::Filled) => unreachable!(),
            Err(fault) => return RunEnd::Fault(fault),
        }
    }
    RunEnd::Turns
}
