//! The rule of a box's queue, and the steps that keep it: made, told how many places it has, a pass
//! split, a push that fits or finds no place, a pop that gives or finds nothing.

use crate::letter::{Known, Letter};
use crossbeam_queue::RuledArrayQueue;
use crossbeam_queue::protocol::{Lesson, Outcome, Protocol, Split};
use std::alloc::Global;

// The queue holds what the history of its passes leaves.
pub(crate) struct Delivery;

impl<T> Protocol<Letter<T>, Known<T>> for Delivery {
    ghost use Rattle.smx_box.specs.Private.Rule.{IsLeftBy, first_known};

    ghost holds = { IsLeftBy };

    ghost first = { first_known };
}

// A letter that tells how many places there are joins, in a queue that is made and not told yet.
pub(crate) struct Tell;

impl<T> Outcome<Letter<T>, Known<T>> for Tell {
    ghost use Rattle.smx_box.specs.Private.Rule.{Tells};

    ghost then = { Tells };
}

impl<T> Lesson<Letter<T>, Known<T>> for Tell {
    ghost use Rattle.smx_box.specs.Private.Rule.{FindsNone};

    ghost fact = { FindsNone };
}

// It is taken.
pub(crate) struct Told;

impl<T> Outcome<Letter<T>, Known<T>> for Told {
    ghost use Rattle.smx_box.specs.Private.Rule.{WasTold};

    ghost then = { WasTold };
}

impl<T> Lesson<Letter<T>, Known<T>> for Told {
    ghost use Rattle.smx_box.specs.Private.Rule.{FindsOne};

    ghost fact = { FindsOne };
}

// The receiver's pass makes a sender's.
pub(crate) struct Made;

impl<T> Split<Known<T>> for Made {
    ghost use Rattle.smx_box.specs.Private.Rule.{receiver_known, sender_known};

    ghost left = { receiver_known };

    ghost right = { sender_known };
}

// A sender's letter joins.
pub(crate) struct Put;

impl<T> Outcome<Letter<T>, Known<T>> for Put {
    ghost use Rattle.smx_box.specs.Boxes.{Posts};

    ghost then = { Posts };
}

impl<T> Lesson<Letter<T>, Known<T>> for Put {
    ghost use Rattle.smx_box.specs.Boxes.{FindsLetters};

    ghost fact = { FindsLetters };
}

// The receiver takes the oldest letter.
pub(crate) struct Taken;

impl<T> Outcome<Letter<T>, Known<T>> for Taken {
    ghost use Rattle.smx_box.specs.Boxes.{TakesLetter};

    ghost then = { TakesLetter };
}

impl<T> Lesson<Letter<T>, Known<T>> for Taken {
    ghost use Rattle.smx_box.specs.Boxes.{FindsLetters};

    ghost fact = { FindsLetters };
}

pub(crate) type Queue<T> = RuledArrayQueue<Letter<T>, Known<T>, Delivery, Global>;
