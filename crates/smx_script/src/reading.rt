//! The lines of a script, and the command of a line.
ghost use Rattle.std.specs.Prelude.{◌≡◌, IfOk, map};
ghost use Rattle.smx_script.specs.Script.{account_command, command_of, entry_of, expire_command, lane_command, limits_command, lines_of, number_of, pair_command, prefix_of, route_command, triple_command};

use crate::command::{Action, Command, Setting};
use crate::words::{is_text, number, number_within, octets_in, parts_of, prefix_of};
use smx_history::Limits;
use smx_session::{Account, Kind, Rules};
use std::alloc::{AllocError, Global};

/// How a client enters.
pub(crate) fn entry_of(word: &[u8]) -> Option<Option<Kind>>
    ensures { result ≡ entry_of word.now }
{
    if word == "open".as_bytes() {
        Some(None)
    } else if word == "tx".as_bytes() {
        Some(Some(Kind::Tx))
    } else if word == "rx".as_bytes() {
        Some(Some(Kind::Rx))
    } else if word == "trx".as_bytes() {
        Some(Some(Kind::Trx))
    } else {
        None
    }
}

// A command that names a lane alone.
#[tactic(auto, unfolding(crate::specs::Script::lane_command))]
fn lane_command(word: &[u8], lane: &[u8]) -> Option<Command>
    ensures { result ≡ lane_command word.now (number_of lane.now) }
{
    let lane = number(lane)?;
    let action = if word == "take".as_bytes() {
        Action::Take { lane }
    } else if word == "history".as_bytes() {
        Action::History { lane }
    } else if word == "turn".as_bytes() {
        Action::Turn { lane }
    } else if word == "lose".as_bytes() {
        Action::Lose { lane }
    } else if word == "bind".as_bytes() {
        Action::Bind { lane }
    } else {
        return None;
    };
    Some(Command::Run(action))
}

// A command of two words.
#[tactic(auto, unfolding(crate::specs::Script::pair_command))]
fn pair_command(word: &[u8], what: &[u8]) -> Option<Command>
    ensures { result ≡ pair_command word.now what.now }
{
    if word == "client".as_bytes() {
        let kind = entry_of(what)?;
        return Some(Command::Run(Action::Client { kind }));
    }
    if word == "lanes".as_bytes() {
        let lanes = number_within(1, 16, what)?;
        return Some(Command::Set(Setting::Lanes(lanes as usize)));
    }
    if word == "box".as_bytes() {
        let places = number_within(1, 256, what)?;
        return Some(Command::Set(Setting::Places(places)));
    }
    if word == "collect".as_bytes() {
        let client = number(what)?;
        return Some(Command::Run(Action::Collect { client }));
    }
    if word == "moment".as_bytes() {
        let moment = number(what)?;
        return Some(Command::Run(Action::Moment { moment }));
    }
    lane_command(word, what)
}

// A client that may bind, without rules.
fn account_command(alloc: Global, id: &[u8], password: &[u8]) -> Result<Option<Command>, AllocError>
    ensures { IfOk result (λ command. command ≡ account_command id.now password.now) }
{
    if !is_text(15, id) || !is_text(8, password) {
        return Ok(None);
    }
    let account = Account {
        system_id: Vec::from_slice(alloc, id)?,
        password: Vec::from_slice(alloc, password)?,
        rules: Rules::none(),
    };
    Ok(Some(Command::Set(Setting::Account(account))))
}

// A prefix of a client.
fn route_command(alloc: Global, client: &[u8], word: &[u8]) -> Result<Option<Command>, AllocError>
    ensures { IfOk result (λ command. command
        ≡ route_command (number_of client.now) (prefix_of word.now)) }
{
    let Some(client) = number(client) else {
        return Ok(None);
    };
    let Some(prefix) = prefix_of(alloc, word)? else {
        return Ok(None);
    };
    Ok(Some(Command::Run(Action::Prefix { client, prefix })))
}

// A lane, and an age in milliseconds.
fn expire_command(lane: &[u8], age: &[u8]) -> Option<Command>
    ensures { result ≡ expire_command (number_of lane.now) (number_of age.now) }
{
    let lane = number(lane)?;
    let age = number(age)?;
    Some(Command::Run(Action::Expire { lane, age }))
}

// A command of three words.
#[tactic(auto, unfolding(crate::specs::Script::triple_command))]
fn triple_command(
    alloc: Global,
    word: &[u8],
    what: &[u8],
    other: &[u8],
) -> Result<Option<Command>, AllocError>
    ensures { IfOk result (λ command. command ≡ triple_command word.now what.now other.now) }
{
    if word == "account".as_bytes() {
        return account_command(alloc, what, other);
    }
    if word == "route".as_bytes() {
        return route_command(alloc, what, other);
    }
    if word == "expire".as_bytes() {
        return Ok(expire_command(what, other));
    }
    let Some(place) = number(what) else {
        return Ok(None);
    };
    let Some(octets) = octets_in(alloc, other)? else {
        return Ok(None);
    };
    let action = if word == "in".as_bytes() {
        Action::In {
            client: place,
            octets,
        }
    } else if word == "back".as_bytes() {
        Action::Back {
            lane: place,
            octets,
        }
    } else {
        return Ok(None);
    };
    Ok(Some(Command::Run(action)))
}

// The sizes of lanes.
#[tactic(auto, unfolding(crate::specs::Script::limits_command))]
fn limits_command(
    word: &[u8],
    queue: &[u8],
    window: &[u8],
    client: &[u8],
    history: &[u8],
) -> Option<Command>
    ensures { result ≡ limits_command word.now queue.now window.now client.now history.now }
{
    if word != "limits".as_bytes() {
        return None;
    }
    Some(Command::Set(Setting::Sizes(Limits {
        queue: number_within(1, 65_535, queue)?,
        window: number_within(1, 1_024, window)?,
        client: number_within(1, 256, client)?,
        history: number_within(1_000, 1_000_000, history)?,
    })))
}

/// The lines of a script, which line feeds separate. Their list takes memory, and the lines none.
pub fn lines_of(alloc: Global, script: &[u8]) -> Result<Vec<&[u8]>, AllocError>
    ensures { IfOk result (λ lines. map (λ line. line.now) lines.items ≡ lines_of script.now) }
{
    parts_of(alloc, script, b'\n')
}

/// The command of a line, or none at a bad line. Whether there is such a client or lane is left to the
/// run. The texts and octets that a command carries take memory, and so does the list of the fields.
#[tactic(auto, unfolding(crate::specs::Script::command_of))]
pub fn read_command(alloc: Global, line: &[u8]) -> Result<Option<Command>, AllocError>
    ensures { IfOk result (λ command. command ≡ command_of line.now) }
{
    if line.is_empty() || line[0] == b'#' {
        return Ok(Some(Command::Skip));
    }
    let fields = parts_of(alloc, line, b' ')?;
    match fields.as_slice() {
        [word, what] => Ok(pair_command(word, what)),
        [word, what, other] => triple_command(alloc, word, what, other),
        [word, queue, window, client, history] => {
            Ok(limits_command(word, queue, window, client, history))
        }
        _ => Ok(None),
    }
}
