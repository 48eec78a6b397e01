//! One line of a script, run on the lanes.
ghost use Rattle.std.specs.Prelude.{◌≡◌, ℕ, List, Option, IfOk};
ghost use Rattle.smx_lines.specs.Relay.{Relay, history_on, known_lane_turn, turn_on};
ghost use Rattle.smx_lines.specs.Turns.{Acts, Does, ExpireTurn, Lines, TakeTurn, moment_turn};
ghost use Rattle.smx_lines.specs.States.{StandsFor, IsReached, MayPrint, Prints};

use crate::centre_turn::receive_back;
use crate::client_turn::receive_in;
use crate::clients::{collect, enter};
use crate::lane_link::{bind, lose};
use crate::messages::route;
use crate::on_lane::{expire_on, history_on, take_on, turn_on};
use crate::settings::{begin, set};
use crate::state::State;
use smx_script::{Action, Command, read_command};
use std::alloc::{AllocError, Global};

// Takes the oldest request of a lane. There is no text where there is no such lane.
fn take(alloc: Global, state: &mut State, lane: u64) -> Result<Option<Vec<u8>>, AllocError>
    ensures { (s : Relay) → StandsFor state.old s → IfOk result (λ text.
        MayPrint (TakeTurn s lane) state.new text) }
{
    let at = lane as usize;
    if at >= state.lanes.len() {
        return Ok(None);
    }
    let text = take_on(alloc, &mut state.lanes[at].lane, lane, state.moment)?;
    Ok(Some(text))
}

// What was taken on a lane so long ago fails. There is no text where there is no such lane.
fn expire(
    alloc: Global,
    state: &mut State,
    lane: u64,
    age: u64,
) -> Result<Option<Vec<u8>>, AllocError>
    requires { IsReached state.old }
    ensures { (s : Relay) → StandsFor state.old s → IfOk result (λ text.
        MayPrint (ExpireTurn s lane age) state.new text) }
{
    let at = lane as usize;
    if at >= state.lanes.len() {
        return Ok(None);
    }
    let text = expire_on(alloc, &mut state.lanes[at].lane, lane, state.moment, age)?;
    Ok(Some(text))
}

// Sets the moment. There is no text where it would fall.
fn set_moment(alloc: Global, state: &mut State, moment: u64) -> Option<Vec<u8>>
    ensures { (s : Relay) → StandsFor state.old s → Prints (moment_turn s moment) state.new result }
{
    if moment < state.moment {
        return None;
    }
    state.moment = moment;
    Some(Vec::new(alloc))
}

// Lists the stored entries of a lane. There is no text where there is no such lane.
fn history(alloc: Global, state: &State, lane: u64) -> Result<Option<Vec<u8>>, AllocError>
    ensures { (s : Relay) → StandsFor state.now s → IfOk result (λ text.
        Prints (known_lane_turn s lane history_on) state.now text) }
{
    let at = lane as usize;
    if at >= state.lanes.len() {
        return Ok(None);
    }
    Ok(Some(history_on(alloc, &state.lanes[at].lane)?))
}

// Lists the stored entries of a lane, which goes on without them. There is no text where there is no
// such lane.
fn turn(alloc: Global, state: &mut State, lane: u64) -> Result<Option<Vec<u8>>, AllocError>
    ensures { (s : Relay) → StandsFor state.old s → IfOk result (λ text.
        Prints (known_lane_turn s lane (turn_on lane)) state.new text) }
{
    let at = lane as usize;
    if at >= state.lanes.len() {
        return Ok(None);
    }
    Ok(Some(turn_on(alloc, &mut state.lanes[at].lane, lane)?))
}

// Runs an action. There is no text at a bad line.
#[tactic(auto, unfolding(crate::specs::Turns::Acts))]
fn run_action(
    alloc: Global,
    state: &mut State,
    action: Action,
) -> Result<Option<Vec<u8>>, AllocError>
    requires { IsReached state.old }
    ensures { (s : Relay) → StandsFor state.old s → IfOk result (λ text.
        MayPrint (Acts s action) state.new text) }
{
    match action {
        Action::Client { kind } => Ok(Some(enter(alloc, state, kind)?)),
        Action::Prefix { client, prefix } => route(alloc, state, client, prefix.as_slice()),
        Action::In { client, octets } => receive_in(alloc, state, client, octets.as_slice()),
        Action::Take { lane } => take(alloc, state, lane),
        Action::Back { lane, octets } => receive_back(alloc, state, lane, octets.as_slice()),
        Action::Collect { client } => collect(alloc, state, client),
        Action::History { lane } => history(alloc, state, lane),
        Action::Turn { lane } => turn(alloc, state, lane),
        Action::Lose { lane } => lose(alloc, state, lane),
        Action::Bind { lane } => bind(alloc, state, lane),
        Action::Moment { moment } => Ok(set_moment(alloc, state, moment)),
        Action::Expire { lane, age } => expire(alloc, state, lane, age),
    }
}

// Runs a command. There is no text at a bad line.
#[tactic(auto, unfolding(crate::specs::Turns::Does))]
fn run_command(
    alloc: Global,
    state: &mut State,
    command: Command,
) -> Result<Option<Vec<u8>>, AllocError>
    requires { IsReached state.old }
    ensures { (s : Relay) → StandsFor state.old s → IfOk result (λ text.
        MayPrint (Does s command) state.new text) }
{
    match command {
        Command::Skip => Ok(Some(Vec::new(alloc))),
        Command::Set(setting) => set(alloc, state, setting),
        Command::Run(action) => {
            begin(alloc, state)?;
            run_action(alloc, state, action)
        }
    }
}

/// Runs a line. There is no text at a bad line.
#[tactic(auto, unfolding(crate::specs::Turns::Lines))]
pub fn run_line(
    alloc: Global,
    state: &mut State,
    line: &[u8],
) -> Result<Option<Vec<u8>>, AllocError>
    requires { IsReached state.old }
    ensures { (s : Relay) → StandsFor state.old s → IfOk result (λ text.
        MayPrint (Lines s line.now) state.new text) }
{
    match read_command(alloc, line)? {
        Some(command) => run_command(alloc, state, command),
        None => Ok(None),
    }
}
