//! What the two sessions do with PDUs in each of their states: the cells of their tables.
//!
//! Each line of a case names a session and a PDU from there, by its command_id, command_status and
//! sequence_number and, if it has any, the octets of its body, all in hexadecimal. The sessions are
//! `client`, without rules; `ruled`, a client whose account may send all but cancel_sm, with readable
//! bodies; and `centre`, `transmitter` and `receiver`, by the proxy's bind. The line is printed again,
//! and then a cell for each state: the act, and behind `>` the new state where it is another. A PDU
//! that is sent is printed by its three numbers and the length of its body.

use smx_pdu::Pdu;
use smx_session::{
    Account, Act, Bodies, ClientSession, ClientState, Commands, Kind, Rules, UpAct, UpstreamBind,
    UpstreamSession, UpstreamState,
};
use std::alloc::{AllocError, Global};
use std::io;
use std::io::Write;
use std::str::SplitWhitespace;

const CLIENT_STATES: [ClientState; 6] = [
    ClientState::Opened,
    ClientState::BoundTx,
    ClientState::BoundRx,
    ClientState::BoundTrx,
    ClientState::Unbinding,
    ClientState::Ended,
];

const CENTRE_STATES: [UpstreamState; 4] = [
    UpstreamState::Binding,
    UpstreamState::Bound,
    UpstreamState::Unbinding,
    UpstreamState::Ended,
];

fn sent_text(alloc: Global, act: &str, pdu: &Pdu) -> Result<String, AllocError> {
    format!(in alloc;
        "{act}/{:x}/{:x}/{:x}/{}",
        pdu.command,
        pdu.status,
        pdu.number,
        pdu.body.len()
    )
}

fn client_act_text(alloc: Global, act: &Act) -> Result<String, AllocError> {
    match act {
        Act::Answer(answer) => sent_text(alloc, "answer", answer),
        Act::Bind { answer, .. } => sent_text(alloc, "bind", answer),
        Act::Refuse(answer) => sent_text(alloc, "refuse", answer),
        Act::Forward => String::from_str(alloc, "forward"),
        Act::MoAnswer { number } => format!(in alloc; "message/{number:x}"),
        Act::Leave(answer) => sent_text(alloc, "leave", answer),
        Act::Hangup(answer) => sent_text(alloc, "hangup", answer),
        Act::Closed => String::from_str(alloc, "closed"),
        Act::Ignore => String::from_str(alloc, "ignore"),
    }
}

// A client's session in this state.
fn client_in(alloc: Global, state: ClientState) -> ClientSession {
    match state {
        ClientState::Opened => ClientSession::new(alloc, 0, 0),
        ClientState::BoundTx => ClientSession::bound(alloc, Kind::Tx, 0, 0),
        ClientState::BoundRx => ClientSession::bound(alloc, Kind::Rx, 0, 0),
        ClientState::BoundTrx => ClientSession::bound(alloc, Kind::Trx, 0, 0),
        ClientState::Unbinding => {
            let mut session = ClientSession::bound(alloc, Kind::Trx, 0, 0);
            let _ = session.stop();
            session
        }
        ClientState::Ended => {
            let mut session = ClientSession::new(alloc, 0, 0);
            let _ = session.on_fault();
            session
        }
    }
}

// The account of a client with rules, whose texts are empty.
fn ruled_account(alloc: Global) -> Account {
    let mut commands = Commands::all();
    commands.cancel_sm = false;
    Account {
        system_id: Vec::new(alloc),
        password: Vec::new(alloc),
        rules: Rules {
            commands,
            bodies: Bodies::Readable,
        },
    }
}

// Binds a session by the first account, with this command.
fn bind_by(
    alloc: Global,
    session: &mut ClientSession,
    command: u32,
    accounts: &[Account],
) -> Result<(), AllocError> {
    let body = Vec::from_slice(alloc, b"\0\0\0\x34\0\0\0")?;
    if let Ok(bind) = Pdu::new(command, 0, 1, body) {
        let _ = session.on_pdu(&bind, accounts)?;
    }
    Ok(())
}

// The session of a client with rules in this state.
fn ruled_in(
    alloc: Global,
    state: ClientState,
    accounts: &[Account],
) -> Result<ClientSession, AllocError> {
    let mut session = ClientSession::new(alloc, 0, 0);
    match state {
        ClientState::Opened => {}
        ClientState::BoundTx => bind_by(alloc, &mut session, 2, accounts)?,
        ClientState::BoundRx => bind_by(alloc, &mut session, 1, accounts)?,
        ClientState::BoundTrx => bind_by(alloc, &mut session, 9, accounts)?,
        ClientState::Unbinding => {
            bind_by(alloc, &mut session, 9, accounts)?;
            let _ = session.stop();
        }
        ClientState::Ended => {
            bind_by(alloc, &mut session, 9, accounts)?;
            let _ = session.on_fault();
        }
    }
    Ok(session)
}

fn client_act(
    alloc: Global,
    session: &mut ClientSession,
    pdu: &Pdu,
    accounts: &[Account],
) -> Result<String, AllocError> {
    match session.on_pdu(pdu, accounts) {
        Ok(act) => client_act_text(alloc, &act),
        Err(AllocError) => Err(AllocError),
    }
}

// What a session in this state does with a PDU.
fn client_cell(
    alloc: Global,
    session: &mut ClientSession,
    state: ClientState,
    pdu: &Pdu,
    accounts: &[Account],
) -> Result<String, AllocError> {
    let before = session.state();
    let act = client_act(alloc, session, pdu, accounts);
    let after = session.state();
    if after == state && before == state {
        return act;
    }
    format!(in alloc; "{}>{after:?}", act?)
}

fn centre_act_text(alloc: Global, act: &UpAct) -> Result<String, AllocError> {
    match act {
        UpAct::Up => String::from_str(alloc, "up"),
        UpAct::Failed(status) => format!(in alloc; "failed/{status:x}"),
        UpAct::ToLane => String::from_str(alloc, "lane"),
        UpAct::Mo => String::from_str(alloc, "message"),
        UpAct::Answer(answer) => sent_text(alloc, "answer", answer),
        UpAct::Leave(answer) => sent_text(alloc, "leave", answer),
        UpAct::Closed => String::from_str(alloc, "closed"),
        UpAct::Ignore => String::from_str(alloc, "ignore"),
    }
}

// The session with a centre in this state, over a bind of this kind.
fn centre_in(alloc: Global, kind: Kind, state: UpstreamState) -> UpstreamSession {
    let mut bind = UpstreamBind::transceiver(alloc, Vec::new(alloc), Vec::new(alloc));
    bind.kind = kind;
    let mut session = match state {
        UpstreamState::Bound | UpstreamState::Unbinding => {
            UpstreamSession::bound(alloc, bind, 1000, 0)
        }
        UpstreamState::Binding | UpstreamState::Ended => UpstreamSession::new(alloc, bind, 1000, 0),
    };
    if state == UpstreamState::Unbinding {
        let _ = session.stop();
    }
    if state == UpstreamState::Ended {
        let _ = session.on_pdu(&Pdu::header_only(alloc, 6, 0, 1), 0);
    }
    session
}

fn centre_act(
    alloc: Global,
    session: &mut UpstreamSession,
    pdu: &Pdu,
) -> Result<String, AllocError> {
    let act = session.on_pdu(pdu, 0);
    centre_act_text(alloc, &act)
}

fn centre_cell(
    alloc: Global,
    kind: Kind,
    state: UpstreamState,
    pdu: &Pdu,
) -> Result<String, AllocError> {
    let mut session = centre_in(alloc, kind, state);
    let before = session.state();
    let act = centre_act(alloc, &mut session, pdu);
    let after = session.state();
    if after == state && before == state {
        return act;
    }
    format!(in alloc; "{}>{after:?}", act?)
}

// A number in hexadecimal.
fn number_in(word: Option<&str>) -> Option<u32> {
    u32::from_str_radix(word?, 16).ok()
}

// The PDU whose three numbers and body these are.
fn pdu_in(alloc: Global, words: &mut SplitWhitespace<'_>) -> Result<Option<Pdu>, AllocError> {
    let command = number_in(words.next());
    let status = number_in(words.next());
    let number = number_in(words.next());
    let (Some(command), Some(status), Some(number)) = (command, status, number) else {
        return Ok(None);
    };
    match hex::decode(alloc, words.next().unwrap_or("")) {
        Ok(body) => Ok(Pdu::new(command, status, number, body).ok()),
        Err(hex::FromHexError::OutOfMemory) => Err(AllocError),
        Err(_) => Ok(None),
    }
}

fn client_cells(alloc: Global, pdu: &Pdu) -> Result<String, AllocError> {
    let mut text = String::new(alloc);
    for state in CLIENT_STATES {
        let mut session = client_in(alloc, state);
        text.push(' ')?;
        text.push_str(&client_cell(alloc, &mut session, state, pdu, &[])?)?;
    }
    Ok(text)
}

fn ruled_cells(alloc: Global, pdu: &Pdu) -> Result<String, AllocError> {
    let accounts = [ruled_account(alloc)];
    let mut text = String::new(alloc);
    for state in CLIENT_STATES {
        let mut session = ruled_in(alloc, state, &accounts)?;
        text.push(' ')?;
        text.push_str(&client_cell(alloc, &mut session, state, pdu, &accounts)?)?;
    }
    Ok(text)
}

fn centre_cells(alloc: Global, kind: Kind, pdu: &Pdu) -> Result<String, AllocError> {
    let mut text = String::new(alloc);
    for state in CENTRE_STATES {
        text.push(' ')?;
        text.push_str(&centre_cell(alloc, kind, state, pdu)?)?;
    }
    Ok(text)
}

// The cells of a line, each behind a space; none where the line isn't as it should be.
fn cells(alloc: Global, line: &str) -> Result<Option<String>, AllocError> {
    let mut words = line.split_whitespace();
    let session = words.next();
    let Some(pdu) = pdu_in(alloc, &mut words)? else {
        return Ok(None);
    };
    match session {
        Some("client") => client_cells(alloc, &pdu).map(Some),
        Some("ruled") => ruled_cells(alloc, &pdu).map(Some),
        Some("centre") => centre_cells(alloc, Kind::Trx, &pdu).map(Some),
        Some("transmitter") => centre_cells(alloc, Kind::Tx, &pdu).map(Some),
        Some("receiver") => centre_cells(alloc, Kind::Rx, &pdu).map(Some),
        _ => Ok(None),
    }
}

/// The cells of each line.
pub fn tell_cells(alloc: Global, text: &str, out: &mut Vec<u8>) -> io::Result<()> {
    for line in text.lines() {
        match cells(alloc, line)? {
            Some(cells) => writeln!(out, "{line}:{cells}")?,
            None => writeln!(out, "{line}: no session and three numbers in hexadecimal")?,
        }
    }
    Ok(())
}
