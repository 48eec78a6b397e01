//! Notes that a proof alone names.
ghost use Rattle.std.specs.Prelude.{List};

use std::marker::Brand;

/// Some notes.
pub trait Noted<N> {
    ghost notes: { List N };
}

impl<N> Noted<N> for Brand {
    ghost use Rattle.std.specs.Prelude.{[]};

    ghost notes = { [] };
}
