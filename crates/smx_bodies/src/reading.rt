//! Whether a request's body can be read.
ghost use Rattle.std.specs.Prelude.{◌≡◌, ◌↔◌, ◌++◌, ℕ, List, Ok, Err, IfOk, IsOk, IsErrOf};
ghost use Rattle.smx_bodies.specs.Layouts.{parts_of};
ghost use Rattle.smx_bodies.specs.Bodies.{AreParts, IsBody, IsMessageCut};
ghost use Rattle.smx_bodies.specs.Reading.{after_part, after_parts, read_body, Leaves};

use crate::destinations::after_destinations;
use crate::fields::{after_message, after_octet, after_text};
use crate::layout::{Part, has_parameters, parts_of};
use crate::parameters::are_parameters;
use crate::unreadable::Unreadable;

// The octets after one part.
fn after_part(part: Part, octets: &[u8]) -> Result<&[u8], Unreadable>
    ensures { Leaves result (after_part part octets.now) }
{
    match part {
        Part::Text(limit) => after_text(octets, limit),
        Part::Octet => after_octet(octets),
        Part::Destinations => after_destinations(octets),
        Part::ShortMessage => after_message(octets),
    }
}

// The octets after these parts.
fn rest_of<'o>(parts: &[Part], octets: &'o [u8]) -> Result<&'o [u8], Unreadable>
    ensures { Leaves result (after_parts parts.now octets.now) }
{
    let mut rest = octets;
    for part in parts {
        rest = after_part(*part, rest)?;
    }
    Ok(rest)
}

/// The octets after these parts, which begin a body. The fault is that of the first one that can't be
/// read.
pub fn after_parts<'o>(parts: &[Part], octets: &'o [u8]) -> Result<&'o [u8], Unreadable>
    // What is passed over is those parts, and where they stand they are passed over.
    ensures found { IfOk result (λ rest. (first : List ℕ)
        × (AreParts parts.now first × (octets.now ≡ first ++ rest.now))) }
    ensures only { (first rest : List ℕ) → AreParts parts.now first
        → octets.now ≡ first ++ rest → Leaves result (Ok rest) }

    // The fault is that of the short message where that is cut, and of any other part else.
    ensures message { IsErrOf result Unreadable.ShortMessage ↔ IsMessageCut parts.now octets.now }

    // The same, said by the function that reads octets.
    ensures read { Leaves result (after_parts parts.now octets.now) }
{
    rest_of(parts, octets)
}

// Whether a body can be read, or why not.
#[tactic(auto, unfolding(crate::specs::Reading::read_body))]
fn body_of(command: u32, body: &[u8]) -> Result<(), Unreadable>
    ensures { result ≡ read_body command body.now }
{
    let rest = rest_of(parts_of(command), body)?;
    if rest.is_empty() || (has_parameters(command) && are_parameters(rest)) {
        Ok(())
    } else {
        Err(Unreadable::Fields)
    }
}

/// Checks that the body of a submit_sm, submit_multi, data_sm, query_sm, cancel_sm or replace_sm is
/// its mandatory fields, each within its greatest size, and then, but for the last three, optional
/// parameters. Values are not judged, so any number_of_dests will do. Of another command a body is
/// read only where it is empty.
pub fn check_body(command: u32, body: &[u8]) -> Result<(), Unreadable>
    // It is read just where it is the fields of the command and what may follow them.
    ensures body { IsOk result ↔ IsBody command body.now }

    // The fault is that of the short message where that is cut, and of any other part else.
    ensures message { (result ≡ Err Unreadable.ShortMessage)
        ↔ IsMessageCut (parts_of command) body.now }

    // The same, said by the function that reads octets.
    ensures read { result ≡ read_body command body.now }
{
    body_of(command, body)
}
