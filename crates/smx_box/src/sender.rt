//! The end of a box at which items are put.
ghost use Rattle.std.specs.Prelude.{◌≡◌, ◌<◌, ◌+◌, ◌++◌, [], ◌∷◌, true, length, Some, None, IfOk, IfErr, IsSome};
ghost use Rattle.smx_box.specs.Letters.{letter, is_open, Numbered};
ghost use Rattle.smx_box.specs.Boxes.{most_items, PutServes, FullPutServes, LookServes};
ghost use Rattle.smx_box.specs.Private.Ends.{IsFreshPass};

use crate::end::End;
use crate::letter::Letter;
use std::marker::Model;
use std::sync::Wait;

// So many items a sender puts at most: 2^53 - 1. Of 256 senders that makes 2^61 letters at most,
// their marks included, which a queue has numbers for.
const MOST_ITEMS: u64 = 9007199254740991;

/// Why nothing was put: the first of these that stands.
#[derive(Clone, Copy, Debug, PartialEq, Eq, thiserror::Error)]
pub enum PutFault {
    /// Every place of the box has a letter.
    #[error("the box is full")]
    Full,
    /// This sender has put 2^53 - 1 items. It stays so; its closing mark can still be put.
    #[error("the sender has put all its items")]
    Spent,
}

/// Contracts see a sender as its index, the list of all that it put, and its pass.
#[derive(Drop)]
pub struct Sender<T: Drop> {
    end: End<T>,
    sender: usize,
    // How many items it put.
    count: u64,
}

impl<T: Drop> Model for Sender<T> {
    ghost use Rattle.smx_box.specs.Boxes.{Sending};
    ghost use Rattle.smx_box.specs.Private.Ends.{sending, IsSender};

    ghost Value = { Sending T };

    ghost view = { λ s. sending s.sender s.end };

    ghost invariant = { λ s. IsSender s.end s.sender s.count };
}

/// What is left of a sender that put its closing mark: contracts see its pass. It is only let go.
#[derive(Drop)]
pub struct Closed<T: Drop> {
    end: End<T>,
}

impl<T: Drop> Model for Closed<T> {
    ghost use Rattle.smx_box.specs.Boxes.{PassFront};

    ghost Value = { PassFront T };

    ghost view = { λ c. c.end };
}

impl<T: Drop> Sender<T> {
    // A sender that put nothing.
    pub(crate) fn new(end: End<T>, sender: usize) -> Sender<T>
        requires { IsFreshPass end sender }
        ensures sender { result.sender ≡ sender }
        ensures front { result.front ≡ end }
        ensures put { result.put ≡ [] }
    {
        Sender {
            end,
            sender,
            count: 0,
        }
    }

    /// Puts an item, and answers how many items this sender has put with it. A refused item is
    /// handed back.
    pub fn put<R: Wait>(&mut self, rt: &R, content: T) -> Result<u64, (T, PutFault)>
        ensures number { IfOk result (λ n. n ≡ length self.new.put) }
        ensures ok { IfOk result (λ n. self.new.put
            ≡ self.old.put ++ letter self.old.sender n (Some content) ∷ []) }
        ensures err { IfErr result (λ e. (e.0 ≡ content) × (self.new.put ≡ self.old.put)) }
        ensures numbered { Numbered 0 self.new.put × (is_open self.new.put ≡ true) }
        ensures same { (self.new.sender ≡ self.old.sender)
            × (self.new.front.queue ≡ self.old.front.queue) }

        // One step of the queue served the call.
        ensures served { IfOk result (λ n. PutServes self.old self.new.front
            (letter self.old.sender n (Some content))) }
        ensures full { IfErr result (λ e. e.1 ≡ PutFault.Full
            → FullPutServes self.old self.new.front) }

        // Or none did, exactly where the sender has put all its items.
        ensures spent { IfErr result (λ e. e.1 ≡ PutFault.Spent
            → (self.new.front ≡ self.old.front) × (length self.old.put ≡ most_items)) }
        ensures not_spent { IfOk result (λ _. length self.old.put < most_items) }
        ensures tested_first { IfErr result (λ e. e.1 ≡ PutFault.Full
            → length self.old.put < most_items) }
    {
        if self.count >= MOST_ITEMS {
            return Err((content, PutFault::Spent));
        }
        let number = self.count + 1;
        let letter = Letter {
            sender: self.sender,
            number,
            content: Some(content),
        };
        match self.end.post(rt, letter) {
            Ok(()) => {
                self.count = number;
                Ok(number)
            }
            Err(letter) => Err((item(letter), PutFault::Full)),
        }
    }

    /// Whether every place of the box has a letter, at one step.
    pub fn is_full<R: Wait>(&mut self, rt: &R) -> bool
        ensures looked { LookServes self.old result }
        ensures same { self.new ≡ self.old }
    {
        self.end.count(rt) == self.end.places()
    }

    /// Puts the closing mark, which takes one place, and ends the sender. Where the box is full the
    /// sender is handed back. It is never refused as spent.
    pub fn shut<R: Wait>(self, rt: &R) -> Result<Closed<T>, (Sender<T>, PutFault)>
        ensures ok { IfOk result (λ closed. PutServes self closed
            (letter self.sender (length self.put + 1) None)) }
        ensures err { IfErr result (λ e. (e.0 ≡ self) × (e.1 ≡ PutFault.Full)) }
        ensures full { IfErr result (λ e. FullPutServes self e.0.front) }
    {
        let Sender {
            mut end,
            sender,
            count,
        } = self;
        let mark = Letter {
            sender,
            number: count + 1,
            content: None,
        };
        match end.post(rt, mark) {
            Ok(()) => Ok(Closed { end }),
            Err(_) => Err((Sender { end, sender, count }, PutFault::Full)),
        }
    }
}

// The item of a letter that has one.
fn item<T: Drop>(letter: Letter<T>) -> T
    requires { IsSome letter.content }
    ensures { letter.content ≡ Some result }
{
    match letter.content {
        Some(content) => content,
        None => unreachable!(),
    }
}
