//! A client's mailbox.
ghost use Rattle.std.specs.Prelude.{◌≡◌, ◌≤◌, [], ◌∷◌, true, false, Some, None, IfOk, OnOk, IfErr, OnErr, IfSome, IfNone, MatchOption};
ghost use Rattle.smx_routes.specs.declared.mo_window.Waiting.{Waiting};
ghost use Rattle.smx_routes.specs.Window.{IsSize, IsWindowFault, message_for, greatest};
ghost use Rattle.smx_mailbox.specs.Mailbox.{new_mailbox, mailbox_after, is_full, with_message, pdus_sent, after_sent, after_settling, unanswered_messages, empty_mailbox};

use crate::message::{Message, Unanswered};
use circular_buffer::HeapCircularBuffer;
use smx_pdu::Pdu;
use smx_routes::{MoWindow, WindowFault};
use std::alloc::{AllocError, Global};
use std::marker::Model;

/// The messages that wait for a client, and those that it was sent and has not answered, each as many as
/// there are places. Contracts see both lists.
#[derive(Drop)]
pub struct Mailbox {
    alloc: Global,
    // The oldest first.
    waiting: HeapCircularBuffer<Message, Global>,
    window: MoWindow,
}

impl Model for Mailbox {
    ghost use Rattle.smx_mailbox.specs.Mailbox.{Mailbox};
    ghost use Rattle.smx_mailbox.specs.Private.Fields.{mailbox_of, HasMessagePlaces};

    ghost Value = { Mailbox };

    ghost view = { mailbox_of };

    ghost invariant = { HasMessagePlaces };
}

impl Mailbox {
    /// An empty mailbox of 1 to 256 places, all of which it reserves.
    pub fn new(alloc: Global, places: u32) -> Result<Mailbox, WindowFault>
        ensures ok { IfOk result (λ mailbox. IsSize places × (mailbox ≡ new_mailbox places)) }
        ensures err { IfErr result (IsWindowFault places) }
    {
        Mailbox::after(alloc, places, 0)
    }

    /// A mailbox as `new` makes it, whose numbers go on behind `last`, the last one under which the
    /// client was sent a message before.
    pub fn after(alloc: Global, places: u32, last: u32) -> Result<Mailbox, WindowFault>
        requires { last ≤ greatest }
        ensures ok { IfOk result (λ mailbox. IsSize places
            × (mailbox ≡ mailbox_after places last)) }
        ensures err { IfErr result (IsWindowFault places) }
    {
        let window = MoWindow::after(alloc, places, last)?;
        match HeapCircularBuffer::with_capacity(alloc, places as usize) {
            Ok(waiting) => Ok(Mailbox {
                alloc,
                waiting,
                window,
            }),
            Err(AllocError) => Err(WindowFault::NoMemory),
        }
    }

    /// The last number under which the client was sent a message, or 0.
    pub fn last(&self) -> u32
        ensures last { result ≡ self.now.window.last }
        ensures range { result ≤ greatest }
    {
        self.window.last()
    }

    /// Puts a message behind those that wait, or hands it back where one waits at each place. It takes no
    /// memory.
    pub fn put(&mut self, message: Message) -> Result<(), Message>
        ensures room { OnOk result (is_full self.old ≡ false) }
        ensures ok { OnOk result (self.new ≡ with_message message self.old) }
        ensures full { OnErr result (is_full self.old ≡ true) }
        ensures err { IfErr result (λ back. (back ≡ message) × (self.new ≡ self.old)) }
    {
        self.waiting.try_push_back(message)
    }

    // The oldest message that waits, as the client is sent it. None where none waits or the window is full.
    fn send_one(&mut self) -> Option<Pdu>
        ensures sent { MatchOption result
            (pdus_sent self.old.window self.old.waiting ≡ [])
            (λ pdu. pdus_sent self.old.window self.old.waiting ≡ pdu
            ∷ pdus_sent self.new.window self.new.waiting) }
        ensures after { MatchOption result
            (after_sent self.old.window self.old.waiting ≡ self.new)
            (λ _. after_sent self.old.window self.old.waiting
            ≡ after_sent self.new.window self.new.waiting) }
    {
        if self.window.is_full() {
            return None;
        }
        let Message { lane, pdu } = self.waiting.pop_front()?;
        let Ok(number) = self.window.give(lane, pdu.number, pdu.command, 0) else {
            unreachable!()
        };
        Some(Pdu {
            command: pdu.command,
            status: 0,
            number,
            body: pdu.body,
        })
    }

    /// The messages that the client is sent now, the oldest first, as long as its window has a place. Each
    /// bears a number of its own, under which it waits from then on for its answer. Where there is no memory
    /// for the list, nothing is sent.
    pub fn send(&mut self) -> Result<Vec<Pdu>, AllocError>
        ensures ok { IfOk result (λ pdus. pdus.items ≡ pdus_sent self.old.window self.old.waiting) }
        ensures after { OnOk result (self.new ≡ after_sent self.old.window self.old.waiting) }
        ensures err { OnErr result (self.new ≡ self.old) }
    {
        let mut pdus = Vec::with_capacity(self.alloc, self.waiting.len())?;
        while let Some(pdu) = self.send_one() {
            pdus.push_reserved(pdu);
        }
        Ok(pdus)
    }

    /// Takes out the message that a client's response answers: its lane and the centre's number. `number` and
    /// `command` are the response's. None where no message waits under the number, or the command answers another
    /// request.
    pub fn settle(&mut self, number: u32, command: u32) -> Option<(usize, u32)>
        ensures some { IfSome result (λ r. (w : Waiting)
            × (message_for number command self.old.window.waiting ≡ Some w)
            × (r.0 ≡ w.lane)
            × (r.1 ≡ w.number)
            × (self.new ≡ after_settling number self.old)) }
        ensures none { IfNone result ((message_for number command self.old.window.waiting ≡ None)
            × (self.new ≡ self.old)) }
    {
        self.window.settle(number, command)
    }

    // Takes out the first message without an answer, of those that were sent the one with the least number, and
    // else of those that wait the oldest. None where there is none.
    fn take_unanswered(&mut self) -> Option<Unanswered>
        ensures taken { MatchOption result
            (unanswered_messages self.old ≡ [])
            (λ message. unanswered_messages self.old ≡ message ∷ unanswered_messages self.new) }
        ensures left { MatchOption result
            (empty_mailbox self.old ≡ self.new)
            (λ _. empty_mailbox self.old ≡ empty_mailbox self.new) }
    {
        if let Some((lane, number, command)) = self.window.take_first() {
            return Some(Unanswered {
                lane,
                number,
                command,
            });
        }
        let message = self.waiting.pop_front()?;
        Some(Unanswered {
            lane: message.lane,
            number: message.pdu.number,
            command: message.pdu.command,
        })
    }

    /// Empties the mailbox when its client leaves, and gives the messages without an answer: those that the
    /// client was sent, in rising order of their numbers, and then those that wait. Where there is no memory for
    /// the list, nothing is taken.
    pub fn empty(&mut self) -> Result<Vec<Unanswered>, AllocError>
        ensures ok { IfOk result (λ messages. messages.items ≡ unanswered_messages self.old) }
        ensures after { OnOk result (self.new ≡ empty_mailbox self.old) }
        ensures err { OnErr result (self.new ≡ self.old) }
    {
        // Room for a message at each place of the window and of those that wait.
        let mut messages = Vec::with_capacity(self.alloc, 2 * self.waiting.capacity())?;
        while let Some(message) = self.take_unanswered() {
            messages.push_reserved(message);
        }
        Ok(messages)
    }
}
