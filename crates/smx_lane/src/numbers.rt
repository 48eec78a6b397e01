//! The numbers that requests bear upstream (sequence_number, SMPP 3.4, section 5.1.4).
ghost use Rattle.std.specs.Prelude.{◌≡◌, ◌<◌, ◌≤◌, ◌+◌, ◌*◌};
ghost use Rattle.smx_history.specs.Numbers.{place_in as place_of_number};
ghost use Rattle.smx_history.proofs.Updates.{following as following_on};

// Numbers name so many places at the most.
const PLACES: u32 = 1_024;

// The generations of a place are 0 up to this one, and then 0 again.
const LAST_GENERATION: u32 = 2_097_150;

// The place of the window that a number names.
pub(crate) fn place_in(number: u32) -> usize
    ensures { result ≡ place_of_number number }
{
    (number.saturating_sub(1) % PLACES) as usize
}

// The number of a place in that generation.
pub(crate) fn number_of(generation: u32, place: u32) -> u32
    requires place { place < 1024 }
    requires generation { generation < 2097151 }
    ensures { result ≡ generation * 1024 + place + 1 }
{
    generation * PLACES + place + 1
}

// The generation that follows on one.
pub(crate) fn following(generation: u32) -> u32
    requires { generation < 2097151 }
    ensures { result ≡ following_on generation }
{
    if generation == LAST_GENERATION {
        0
    } else {
        generation + 1
    }
}
