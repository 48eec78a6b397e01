//! One pass at a box: each call is one step of its queue.
ghost use Rattle.std.specs.Prelude.{◌≡◌};
ghost use Rattle.std.specs.Arc.{arc_value};
ghost use Rattle.crossbeam_queue.specs.Passes.{IsPassOf, ruled_capacity};
ghost use Rattle.smx_box.specs.Boxes.{OldestServes};
ghost use Rattle.smx_box.specs.Private.Ends.{IsNextLetter, IsTold, pass_front, sending, receiving, CountServes, PostServes};

use crate::letter::{Known, Letter};
use crate::rule::{Put, Queue, Taken};
use crossbeam_queue::Pass;
use std::alloc::Global;
use std::marker::Model;
use std::sync::{Arc, Wait};

// Contracts see an end as its queue, and what its pass knows.
#[derive(Drop)]
pub(crate) struct End<T: Drop> {
    queue: Arc<Queue<T>, Global>,
    pass: Pass<Letter<T>, Known<T>>,
}

impl<T: Drop> Model for End<T> {
    ghost use Rattle.std.specs.Arc.{arc_value};
    ghost use Rattle.crossbeam_queue.specs.Passes.{IsPassOf, ruled_capacity};
    ghost use Rattle.smx_box.specs.Boxes.{PassFront};
    ghost use Rattle.smx_box.specs.Private.Ends.{pass_front, IsTold};

    ghost Value = { PassFront T };

    ghost view = { λ e. pass_front (ruled_capacity (arc_value e.queue)) e.pass };

    ghost invariant = { λ e. IsPassOf (arc_value e.queue) e.pass
        × IsTold (pass_front (ruled_capacity (arc_value e.queue)) e.pass) };
}

impl<T: Drop> End<T> {
    pub(crate) fn new(queue: Arc<Queue<T>, Global>, pass: Pass<Letter<T>, Known<T>>) -> End<T>
        requires pass { IsPassOf (arc_value queue) pass }
        requires told { IsTold (pass_front (ruled_capacity (arc_value queue)) pass) }
        ensures { result ≡ pass_front (ruled_capacity (arc_value queue)) pass }
    {
        End { queue, pass }
    }

    // Puts a letter at the end, or hands it back where every place has one.
    pub(crate) fn post<R: Wait>(&mut self, rt: &R, letter: Letter<T>) -> Result<(), Letter<T>>
        requires { IsNextLetter self.old letter }
        ensures { PostServes (sending letter.sender self.old) self.new letter result }
    {
        self.queue.push_as::<Put, R>(rt, &mut self.pass, letter)
    }

    // Takes the oldest letter.
    pub(crate) fn take<R: Wait>(&mut self, rt: &R) -> Option<Letter<T>>
        requires { self.old.known.number ≡ 0 }
        ensures { OldestServes (receiving self.old) self.new result }
    {
        self.queue.pop_as::<Taken, R>(rt, &mut self.pass)
    }

    // How many letters the box holds, at one step.
    pub(crate) fn count<R: Wait>(&mut self, rt: &R) -> usize
        ensures same { self.new ≡ self.old }
        ensures serves { CountServes self.old result }
    {
        self.queue.len_as::<Put, R>(rt, &mut self.pass)
    }

    // How many letters the box holds at most.
    pub(crate) fn places(&self) -> usize
        ensures { result ≡ self.now.queue.places }
    {
        self.queue.capacity()
    }
}
