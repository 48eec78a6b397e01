//! A lane under a ticket lock: what it says of its history.

use crate::lane::Lane;
use smx_history::{Limits, Note};
use smx_kept::Kept;

impl Kept for Lane {
    type Note = Note;

    type Fixed = Limits;

    ghost use Rattle.smx_lane.specs.Kept.{writer, limits_of, suits};

    ghost writer = { writer };

    ghost fixed = { limits_of };

    ghost some_fixed = { record { queue = 0; window = 0; client = 0; history = 0 } };

    ghost agrees = { suits };
}
