//! The destinations of submit_multi (SMPP 3.4, sections 4.5.1.1 and 4.5.1.2).
ghost use Rattle.smx_bodies.specs.Reading.{after_destination, after_each, after_destinations, Leaves};

use crate::fields::{after_octet, after_text};
use crate::unreadable::Unreadable;

// The values of dest_flag (section 5.2.25).
const SME_ADDRESS: u8 = 1;

const DISTRIBUTION_LIST: u8 = 2;

// The greatest length of destination_addr and of dl_name, their ending 0 counted.
const NAME: usize = 21;

// The octets after one dest_address: an address with its two numbers, or the name of a list.
#[tactic(auto, unfolding(crate::specs::Reading::after_destination))]
fn after_destination(octets: &[u8]) -> Result<&[u8], Unreadable>
    ensures { Leaves result (after_destination octets.now) }
{
    match octets {
        [SME_ADDRESS, rest @ ..] => after_text(after_octet(after_octet(rest)?)?, NAME),
        [DISTRIBUTION_LIST, rest @ ..] => after_text(rest, NAME),
        _ => Err(Unreadable::Fields),
    }
}

// The octets after so many.
fn after_each(count: u8, octets: &[u8]) -> Result<&[u8], Unreadable>
    ensures { Leaves result (after_each count octets.now) }
{
    let mut rest = octets;
    for _ in 0..count {
        rest = after_destination(rest)?;
    }
    Ok(rest)
}

// The octets after number_of_dests and so many of them.
#[tactic(auto, unfolding(crate::specs::Reading::after_destinations))]
pub(crate) fn after_destinations(octets: &[u8]) -> Result<&[u8], Unreadable>
    ensures { Leaves result (after_destinations octets.now) }
{
    match octets {
        [] => Err(Unreadable::Fields),
        [count, rest @ ..] => after_each(*count, rest),
    }
}
