//! The end of a box at which items are got.
ghost use Rattle.std.specs.Prelude.{◌≡◌, ◌↔◌, ℕ, [], IsTrue, IfOk, IsOk};
ghost use Rattle.smx_box.specs.Letters.{of, Numbered, AllShut};
ghost use Rattle.smx_box.specs.Boxes.{Hands, GetServes};
ghost use Rattle.smx_box.specs.Private.Ends.{receiving};

use crate::end::End;
use crate::fault::Spent;
use crate::letter::Letter;
use std::marker::Model;
use std::sync::Wait;

/// What a get finds.
#[derive(Debug, PartialEq, Eq, Drop)]
pub enum Got<T> {
    /// The sender's item with this number, from 1.
    Item {
        sender: usize,
        number: u64,
        content: T,
    },
    /// The sender's closing mark.
    Shut {
        sender: usize,
    },
    /// The box was empty.
    Empty,
}

/// Contracts see a receiver as the count of senders, the list of all that it got, and its pass.
#[derive(Drop)]
pub struct Receiver<T: Drop> {
    end: End<T>,
    // How many senders there are.
    senders: usize,
    // How many closing marks it got.
    shut: usize,
}

impl<T: Drop> Model for Receiver<T> {
    ghost use Rattle.smx_box.specs.Boxes.{Receiving};
    ghost use Rattle.smx_box.specs.Private.Ends.{receiving, IsReceiver};

    ghost Value = { Receiving T };

    ghost view = { λ r. receiving r.end };

    ghost invariant = { λ r. IsReceiver r.end r.senders r.shut };
}

impl<T: Drop> Receiver<T> {
    // A receiver that got nothing.
    pub(crate) fn new(end: End<T>, senders: usize) -> Receiver<T>
        requires number { end.known.number ≡ 0 }
        requires mine { end.known.mine ≡ [] }
        requires seen { end.known.seen ≡ [] }
        requires senders { end.known.senders ≡ senders }
        ensures { result ≡ receiving end }
    {
        Receiver {
            end,
            senders,
            shut: 0,
        }
    }

    /// Gets the oldest item or closing mark. It is never refused as spent.
    pub fn get<R: Wait>(&mut self, rt: &R) -> Result<Got<T>, Spent>
        ensures never_spent { IsOk result }
        ensures got { IfOk result (Hands self.old.got self.new.got) }
        ensures numbered { (p : ℕ) → Numbered 0 (of p self.new.got) }
        ensures same { (self.new.senders ≡ self.old.senders)
            × (self.new.front.queue ≡ self.old.front.queue) }

        // One step of the queue served the call.
        ensures served { IfOk result (GetServes self.old self.new.front) }
    {
        let Some(letter) = self.end.take(rt) else {
            return Ok(Got::Empty);
        };
        let Letter {
            sender,
            number,
            content,
        } = letter;
        match content {
            Some(content) => Ok(Got::Item {
                sender,
                number,
                content,
            }),
            None => {
                self.shut += 1;
                Ok(Got::Shut { sender })
            }
        }
    }

    /// Whether every sender's closing mark was got.
    pub fn ended(&self) -> bool
        ensures { IsTrue result ↔ AllShut self.now.senders self.now.got }
    {
        self.shut == self.senders
    }

    /// How many items and closing marks the box holds at most, as [`crate::Boxed::new`] was told.
    pub fn places(&self) -> usize
        ensures { result ≡ self.now.front.queue.places }
    {
        self.end.places()
    }
}
