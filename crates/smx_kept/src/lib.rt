//! What a value under a lock says of its history.
//!
//! A history is a list of notes, for contracts alone: what the holders of the lock did to the
//! value. `Kept` says which history a value agrees with, and `Told` names the notes of one hold.
//! They stand apart from the lock, so that a value's crate needs no lock to be proved.
#![tactic(auto)]

ghost use Rattle.std.specs.Prelude.{ℕ, List};

/// A value that a lock may keep.
///
/// It is `Drop`, since a lock that is let go lets its value go.
pub trait Kept: Drop {
    /// What one hold did. Give it a `LinkedList` where it has octets: the list is a plain one in
    /// contracts, and no note is ever made.
    type Note;

    /// The part of the value that never changes, as its limits.
    type Fixed;

    // The number of the seat that made a note.
    ghost writer: { Self.Note → ℕ };
    // The part of the value that never changes.
    ghost fixed: { Self → Self.Fixed };
    // Any such part: the lock's proof needs one where no seat is left.
    ghost some_fixed: { Self.Fixed };
    // With which lists of notes the value agrees.
    ghost agrees: { Self → List Self.Note → Type 0 };
}

/// A value that tells which notes the seat with a number made.
pub trait Told<N> {
    ghost notes: { Self → ℕ → List N };
}
