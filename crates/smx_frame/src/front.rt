//! What octets begin with.
ghost use Rattle.std.specs.Prelude.{◌≡◌};
ghost use Rattle.smx_frame.specs.Private.Front.{front_of};

use crate::fault::FrameFault;

/// What octets begin with.
#[derive(Clone, Copy, Debug, PartialEq, Eq)]
pub enum Front {
    /// Less than a PDU.
    Part,
    /// A length that no PDU has.
    Bad(FrameFault),
    /// A PDU's length, and as many octets.
    Whole(usize),
}

// What the octets begin with, where no PDU has more than `max` octets.
#[tactic(auto, unfolding(crate::specs::Private::Front::front_of))]
pub fn front_of(octets: &[u8], max: u32) -> Front
    ensures { result ≡ front_of max octets.now }
{
    let Some(first) = octets.first_chunk::<4>() else {
        return Front::Part;
    };
    let length = u32::from_be_bytes(*first);
    if length < 16 {
        Front::Bad(FrameFault::Below16)
    } else if length > max {
        Front::Bad(FrameFault::AboveMax)
    } else if octets.len() < length as usize {
        Front::Part
    } else {
        Front::Whole(length as usize)
    }
}
