//! A lane's link to the centre: it is lost, and there is one again.
ghost use Rattle.std.specs.Prelude.{◌≡◌, ◌<◌, List, length, IfOk};
ghost use Rattle.smx_history.specs.declared.place.Place.{Place};
ghost use Rattle.smx_lines.specs.Relay.{Relay, going_on};
ghost use Rattle.smx_lines.specs.LaneLinks.{AreTakenOn, LoseTurn, bind_turn, give_up_lane};
ghost use Rattle.smx_lines.specs.LaneLinks.{lower_lane};
ghost use Rattle.smx_lines.specs.States.{StandsFor, IsReached, MayPrint, Prints};

use crate::link::CentreLink;
use crate::on_lane::{CALLER, give_up_on};
use crate::state::State;
use crate::texts::{bound_line, down_line, unbound_line};
use smx_history::UpRefusal;
use std::alloc::{AllocError, Global};

/// The link of a lane is lost, where it is up.
pub(crate) fn lower(state: &mut State, lane: u64)
    requires { lane < length state.old.lanes.items }
    ensures agrees { (s : Relay) → StandsFor state.old s
        → StandsFor state.new (going_on s lane lower_lane) }
    ensures lanes { length state.new.lanes.items ≡ length state.old.lanes.items }
{
    let _was_down = state.lanes[lane as usize].lane.down(CALLER);
}

/// Each request that was taken on a lane that is down fails.
pub(crate) fn give_up(state: &mut State, lane: u64)
    requires there { lane < length state.old.lanes.items }
    requires reached { IsReached state.old }
    ensures { (s : Relay) → StandsFor state.old s → (qs : List Place) × AreTakenOn s lane qs
        × StandsFor state.new (going_on s lane (give_up_lane qs)) }
{
    give_up_on(&mut state.lanes[lane as usize].lane);
}

/// The link of a lane is lost, and what was taken fails. A lane that is down stays as it is. There
/// is no text where there is no such lane.
pub(crate) fn lose(
    alloc: Global,
    state: &mut State,
    lane: u64,
) -> Result<Option<Vec<u8>>, AllocError>
    requires { IsReached state.old }
    ensures { (s : Relay) → StandsFor state.old s → IfOk result (λ text.
        MayPrint (LoseTurn s lane) state.new text) }
{
    let at = lane as usize;
    if at >= state.lanes.len() {
        return Ok(None);
    }
    if !state.lanes[at].lane.is_up() {
        return Ok(Some(down_line(alloc, lane)?));
    }
    lower(state, lane);
    give_up(state, lane);
    Ok(Some(down_line(alloc, lane)?))
}

/// A lane that is down gets a new link, which is bound, where it has room. There is no text where
/// there is no such lane.
pub(crate) fn bind(
    alloc: Global,
    state: &mut State,
    lane: u64,
) -> Result<Option<Vec<u8>>, AllocError>
    ensures { (s : Relay) → StandsFor state.old s → IfOk result (λ text.
        Prints (bind_turn s lane) state.new text) }
{
    let at = lane as usize;
    if at >= state.lanes.len() {
        return Ok(None);
    }
    match state.lanes[at].lane.up(CALLER) {
        Ok(()) => {
            let link = CentreLink::bound(alloc)?;
            state.lanes[at].link = link;
            Ok(Some(bound_line(alloc, lane)?))
        }
        Err(UpRefusal::AlreadyUp) => Ok(Some(bound_line(alloc, lane)?)),
        Err(UpRefusal::WindowNotEmpty) => Ok(Some(unbound_line(alloc, lane)?)),
        Err(UpRefusal::HistoryFull) => Ok(Some(unbound_line(alloc, lane)?)),
    }
}
