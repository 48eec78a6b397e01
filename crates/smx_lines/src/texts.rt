//! The lines that a run prints.
ghost use Rattle.std.specs.Prelude.{◌≡◌, ◌++◌, IfOk, OnOk, string_bytes, codes};
ghost use Rattle.smx_lines.specs.Texts.{bad_line, bound_line, closed_line, down_line, entry_line};
ghost use Rattle.smx_lines.specs.Texts.{failed_line, kept_line, kind_name, pdu_line, text_line};
ghost use Rattle.smx_lines.specs.Texts.{to_client, turned_line, unbound_line, up_lane};
ghost use Rattle.std.specs.Fmt.{decimal};
ghost use Rattle.std.specs.List.{flat_map};

use smx_history::{Entry, Failed, Kind};
use smx_pdu::{Pdu, encode};
use std::alloc::{AllocError, Global};

// Writes a line with a PDU at the end.
fn push_pdu(alloc: Global, out: &mut Vec<u8>, head: &[u8], pdu: &Pdu) -> Result<(), AllocError>
    ensures { OnOk result (out.new.items ≡ out.old.items ++ pdu_line head.now pdu.now) }
{
    let mut octets = Vec::new(alloc);
    encode(pdu, &mut octets)?;
    let digits = hex::encode(alloc, &octets)?;
    out.extend_from_slice(head)?;
    out.extend_from_slice(digits.as_bytes())?;
    out.push(b'\n')?;
    Ok(())
}

/// Writes at the end what a client gets.
pub fn push_to_client(
    alloc: Global,
    out: &mut Vec<u8>,
    client: u64,
    pdu: &Pdu,
) -> Result<(), AllocError>
    ensures { OnOk result (out.new.items ≡ out.old.items ++ pdu_line (to_client client) pdu.now) }
{
    let head = format!(in alloc; "to {client} ")?;
    push_pdu(alloc, out, head.as_bytes(), pdu)
}

/// What a client gets.
pub fn to_line(alloc: Global, client: u64, pdu: &Pdu) -> Result<Vec<u8>, AllocError>
    ensures { IfOk result (λ line. line.items ≡ pdu_line (to_client client) pdu.now) }
{
    let mut line = Vec::new(alloc);
    push_to_client(alloc, &mut line, client, pdu)?;
    Ok(line)
}

/// What goes upstream from a lane.
pub fn up_line(alloc: Global, lane: u64, pdu: &Pdu) -> Result<Vec<u8>, AllocError>
    ensures { IfOk result (λ line. line.items ≡ pdu_line (up_lane lane) pdu.now) }
{
    let mut line = Vec::new(alloc);
    push_up(alloc, &mut line, lane, pdu)?;
    Ok(line)
}

/// Writes at the end what goes upstream from a lane.
pub fn push_up(alloc: Global, out: &mut Vec<u8>, lane: u64, pdu: &Pdu) -> Result<(), AllocError>
    ensures { OnOk result (out.new.items ≡ out.old.items ++ pdu_line (up_lane lane) pdu.now) }
{
    let head = format!(in alloc; "up {lane} ")?;
    push_pdu(alloc, out, head.as_bytes(), pdu)
}

/// What is printed of a bad line.
#[tactic(auto, unfolding(crate::specs::Texts::bad_line))]
pub fn bad_line(alloc: Global, number: u64) -> Result<String, AllocError>
    ensures { IfOk result (λ text. string_bytes text ≡ bad_line number) }
{
    format!(in alloc; "bad line {number}\n")
}

// A line of a word, with its space, and a number.
fn word_line(alloc: Global, word: &str, number: u64) -> Result<Vec<u8>, AllocError>
    ensures { IfOk result (λ line. line.items ≡ text_line (word.now ++ decimal number)) }
{
    Ok(format!(in alloc; "{word}{number}\n")?.into_bytes())
}

/// What is printed of a lane that has nothing to take.
pub fn empty_line(alloc: Global, lane: u64) -> Result<Vec<u8>, AllocError>
    ensures { IfOk result (λ line.
        line.items ≡ text_line (codes "take " ++ (decimal lane ++ codes " empty"))) }
{
    Ok(format!(in alloc; "take {lane} empty\n")?.into_bytes())
}

/// What is printed of a lane whose window is full.
pub fn full_line(alloc: Global, lane: u64) -> Result<Vec<u8>, AllocError>
    ensures { IfOk result (λ line.
        line.items ≡ text_line (codes "take " ++ (decimal lane ++ codes " full"))) }
{
    Ok(format!(in alloc; "take {lane} full\n")?.into_bytes())
}

/// What is printed of a response that waits for a client.
pub fn queued_line(alloc: Global, client: u64) -> Result<Vec<u8>, AllocError>
    ensures { IfOk result (λ line. line.items ≡ text_line (codes "queued " ++ decimal client)) }
{
    word_line(alloc, "queued ", client)
}

/// What is printed of a message that waits for a client.
pub fn message_line(alloc: Global, client: u64) -> Result<Vec<u8>, AllocError>
    ensures { IfOk result (λ line. line.items ≡ text_line (codes "mo " ++ decimal client)) }
{
    word_line(alloc, "mo ", client)
}

/// What is printed of a client that enters.
pub fn client_line(alloc: Global, client: u64) -> Result<Vec<u8>, AllocError>
    ensures { IfOk result (λ line. line.items ≡ text_line (codes "client " ++ decimal client)) }
{
    word_line(alloc, "client ", client)
}

/// What is printed of a request that a lane accepts.
pub fn accepted_line(alloc: Global, client: u64, lane: u64) -> Result<Vec<u8>, AllocError>
    ensures { IfOk result (λ line.
        line.items ≡ text_line (codes "accepted "
        ++ (decimal client ++ (codes " " ++ decimal lane)))) }
{
    Ok(format!(in alloc; "accepted {client} {lane}\n")?.into_bytes())
}

/// What is printed where nothing waits for a client.
pub fn none_line(alloc: Global, client: u64) -> Result<Vec<u8>, AllocError>
    ensures { IfOk result (λ line. line.items ≡ text_line (codes "none " ++ decimal client)) }
{
    word_line(alloc, "none ", client)
}

/// What is printed of a client that was hung up.
pub fn closed_line(alloc: Global, client: u64) -> Result<Vec<u8>, AllocError>
    ensures { IfOk result (λ line. line.items ≡ closed_line client) }
{
    word_line(alloc, "closed ", client)
}

/// What is printed of a lane that is down.
pub fn down_line(alloc: Global, lane: u64) -> Result<Vec<u8>, AllocError>
    ensures { IfOk result (λ line. line.items ≡ down_line lane) }
{
    word_line(alloc, "down ", lane)
}

/// What is printed of a lane that is bound to the centre.
pub fn bound_line(alloc: Global, lane: u64) -> Result<Vec<u8>, AllocError>
    ensures { IfOk result (λ line. line.items ≡ bound_line lane) }
{
    word_line(alloc, "bound ", lane)
}

/// What is printed of a lane that stays down for want of room.
pub fn unbound_line(alloc: Global, lane: u64) -> Result<Vec<u8>, AllocError>
    ensures { IfOk result (λ line. line.items ≡ unbound_line lane) }
{
    word_line(alloc, "full ", lane)
}

/// What is printed of a request that fails on a lane that is up.
pub fn failed_line(alloc: Global, failed: Failed) -> Result<Vec<u8>, AllocError>
    ensures { IfOk result (λ line. line.items ≡ failed_line failed) }
{
    match failed {
        Failed::Queued { client } => word_line(alloc, "failed ", client),
        Failed::Late { .. } => Vec::from_slice(alloc, b"late\n"),
    }
}

/// What is printed of a lane on which nothing fails.
pub fn kept_line(alloc: Global, lane: u64) -> Result<Vec<u8>, AllocError>
    ensures { IfOk result (λ line. line.items ≡ kept_line lane) }
{
    word_line(alloc, "kept ", lane)
}

/// What a client gets last, and that it is hung up.
pub fn hangup_lines(alloc: Global, client: u64, pdu: &Pdu) -> Result<Vec<u8>, AllocError>
    ensures { IfOk result (λ lines.
        lines.items ≡ pdu_line (to_client client) pdu.now ++ closed_line client) }
{
    let mut lines = to_line(alloc, client, pdu)?;
    lines.extend_from_slice(&closed_line(alloc, client)?)?;
    Ok(lines)
}

/// What goes upstream last from a lane, and that it is down.
pub fn farewell_lines(alloc: Global, lane: u64, pdu: &Pdu) -> Result<Vec<u8>, AllocError>
    ensures { IfOk result (λ lines.
        lines.items ≡ pdu_line (up_lane lane) pdu.now ++ down_line lane) }
{
    let mut lines = up_line(alloc, lane, pdu)?;
    lines.extend_from_slice(&down_line(alloc, lane)?)?;
    Ok(lines)
}

// The name of a kind of entry.
fn kind_name(kind: Kind) -> &'static str
    ensures { result.now ≡ kind_name kind }
{
    match kind {
        Kind::Admit => "admit",
        Kind::Accept => "accept",
        Kind::Take => "take",
        Kind::Answer => "answer",
        Kind::Late => "late",
        Kind::Collect => "collect",
        Kind::Retire => "retire",
        Kind::Fail => "fail",
        Kind::Down => "down",
        Kind::Up => "up",
    }
}

// Writes an entry's kind, client, ordinal and number at the end.
fn push_entry(alloc: Global, out: &mut Vec<u8>, entry: &Entry) -> Result<(), AllocError>
    ensures { OnOk result (out.new.items ≡ out.old.items ++ entry_line entry.now) }
{
    let kind = kind_name(entry.kind);
    let line = format!(in alloc;
        "{kind} {} {} {}\n",
        entry.client, entry.ordinal, entry.number
    )?;
    out.extend_from_slice(line.as_bytes())
}

/// The lines of entries.
pub fn entry_lines(alloc: Global, entries: &[Entry]) -> Result<Vec<u8>, AllocError>
    ensures { IfOk result (λ text. text.items ≡ flat_map entry_line entries.now) }
{
    let mut text = Vec::new(alloc);
    for entry in entries {
        push_entry(alloc, &mut text, entry)?;
    }
    Ok(text)
}

/// What is printed behind the entries that a lane goes on without.
pub fn turned_line(alloc: Global, lane: u64, count: u64) -> Result<Vec<u8>, AllocError>
    ensures { IfOk result (λ line. line.items ≡ turned_line lane count) }
{
    Ok(format!(in alloc; "turned {lane} {count}\n")?.into_bytes())
}
