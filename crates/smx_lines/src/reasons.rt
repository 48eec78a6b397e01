//! Why a line is bad, for a person.

use crate::state::State;
use smx_script::{Action, Command, Reason, Subject, Wrong, read_command, subject_of};
use std::alloc::Global;

// Why a prefix isn't added for a client.
fn prefix_reason(state: &State, client: u64) -> Reason {
    match state.clients.get(client) {
        Some(known) if known.link.may_receive() => Reason::Plain(Wrong::Known),
        Some(_) => Reason::Plain(Wrong::Deaf),
        None => Reason::Client(client),
    }
}

// Why a moment isn't set: it lies before that of the state.
fn moment_reason(alloc: Global, state: &State, line: &[u8]) -> Reason {
    match read_command(alloc, line) {
        Ok(Some(Command::Run(Action::Moment { moment }))) => {
            Reason::Low("moment", moment, state.moment)
        }
        _ => Reason::Plain(Wrong::Unsaid),
    }
}

/// Why a line is bad that gave no text in this state. Of the reason no clause says anything.
pub fn reason(alloc: Global, state: &State, line: &[u8]) -> Reason {
    match subject_of(alloc, line) {
        Err(reason) => reason,
        Ok(Subject::Setting) if state.started => Reason::Plain(Wrong::Late),
        Ok(Subject::Setting) => Reason::Plain(Wrong::Accounts),
        Ok(Subject::Client(client)) => Reason::Client(client),
        Ok(Subject::Receiver(client)) => prefix_reason(state, client),
        Ok(Subject::Lane(lane)) => Reason::Lane(lane, state.lanes.len()),
        Ok(Subject::Nothing) => moment_reason(alloc, state, line),
    }
}
