//! What is done in one hold.
ghost use Rattle.std.specs.Prelude.{ℕ, List};

use smx_kept::Told;
use std::snapshot::Snapshot;

/// What is done with a value in one hold of its lock.
pub trait CriticalSection<S, N> {
    type Answer;

    // Of which values the seat with a number may do it.
    ghost may: { Self → ℕ → S → Type 0 };
    // What it answers of the value that it finds, and the value that it leaves.
    ghost does: { Self → ℕ → S → Self.Answer → S → Type 0 };
    // The notes that it leaves of the value that it finds, by its answer.
    ghost notes: { Self → ℕ → S → Self.Answer → List N };

    fn run(self, value: &mut S, number: u64) -> Self::Answer
        requires { may self number value.old }
        ensures { does self number value.old result value.new };
}

// A section that was run, for the notes that it leaves.
#[derive(Drop)]
pub(crate) struct Done<S, C, A> {
    pub(crate) section: Snapshot<C>,
    pub(crate) found: Snapshot<S>,
    pub(crate) answer: Snapshot<A>,
}

impl<S, N, C: CriticalSection<S, N>> Told<N> for Done<S, C, C::Answer> {
    ghost notes = { λ d number. C.notes d.section.value number d.found.value d.answer.value };
}
