//! Fields: texts that end with an octet 0, numbers of one octet, and the short message.
ghost use Rattle.std.specs.Prelude.{◌≡◌, ◌==◌, take, position};
ghost use Rattle.smx_bodies.specs.Reading.{after_text, after_octet, after_message, Leaves};

use crate::unreadable::Unreadable;

// The most octets of a short message.
const SHORT_MESSAGE: usize = 254;

// Where a text with this limit ends.
fn end_of_text(octets: &[u8]) -> Option<usize>
    ensures { result ≡ position (λ octet. octet == 0) octets.now }
{
    octets.iter().position(|octet| *octet == 0)
}

// The octets after a text that takes at most `limit` octets with its ending 0.
pub(crate) fn after_text(octets: &[u8], limit: usize) -> Result<&[u8], Unreadable>
    ensures { Leaves result (after_text limit octets.now) }
{
    let within = limit.min(octets.len());
    match end_of_text(&octets[..within]) {
        Some(end) => Ok(&octets[end + 1..]),
        None => Err(Unreadable::Fields),
    }
}

// The octets after a number of one octet.
#[tactic(auto, unfolding(crate::specs::Reading::after_octet))]
pub(crate) fn after_octet(octets: &[u8]) -> Result<&[u8], Unreadable>
    ensures { Leaves result (after_octet octets.now) }
{
    match octets {
        [] => Err(Unreadable::Fields),
        [_, rest @ ..] => Ok(rest),
    }
}

// The octets after a short message, which its length precedes.
#[tactic(auto, unfolding(crate::specs::Reading::after_message))]
pub(crate) fn after_message(octets: &[u8]) -> Result<&[u8], Unreadable>
    ensures { Leaves result (after_message octets.now) }
{
    match octets {
        [] => Err(Unreadable::Fields),
        [length, rest @ ..] => {
            let length = usize::from(*length);
            if length > SHORT_MESSAGE || rest.len() < length {
                return Err(Unreadable::ShortMessage);
            }
            Ok(&rest[length..])
        }
    }
}
