//! A client's mailbox, which is made at its first message and goes when the client leaves.
ghost use Rattle.std.specs.Prelude.{◌≡◌, true, false, Some, None, IfOk, IfErr, IfSome, IfNone};
ghost use Rattle.std.specs.Prelude.{OnOk};
ghost use Rattle.smx_routes.specs.Window.{message_for};
ghost use Rattle.smx_routes.specs.declared.mo_window.Waiting.{Waiting};
ghost use Rattle.smx_mailbox.specs.Mailbox.{new_mailbox, with_message, is_full, pdus_sent, after_sent};
ghost use Rattle.smx_mailbox.specs.Mailbox.{after_settling, unanswered_messages, empty_mailbox};

use smx_mailbox::{Mailbox, Message, Unanswered};
use smx_pdu::Pdu;
use std::alloc::{AllocError, Global};
use std::marker::Model;

/// A mailbox. It takes its memory at the first message, and lets it go when the client leaves. One
/// that is made anew goes on with the numbers of the one before.
#[derive(Drop)]
pub struct Inbox {
    alloc: Global,
    places: u32,
    // The last number that was given before the mailbox is made, or 0.
    last: u32,
    mailbox: Option<Mailbox>,
}

impl Model for Inbox {
    ghost use Rattle.smx_mailbox.specs.Mailbox.{Mailbox};
    ghost use Rattle.smx_lines.specs.Private.Inboxes.{mailbox_in, KeepsSize};

    ghost Value = { Mailbox };

    ghost view = { mailbox_in };

    ghost invariant = { KeepsSize };
}

impl Inbox {
    /// An empty mailbox of so many places, of which it reserves none.
    pub(crate) fn new(alloc: Global, places: u32) -> Inbox
        ensures { result ≡ new_mailbox places }
    {
        Inbox {
            alloc,
            places,
            last: 0,
            mailbox: None,
        }
    }

    /// Puts a message behind those that wait, or hands it back where one waits at each place.
    pub(crate) fn put(&mut self, message: Message) -> Result<Result<(), Message>, AllocError>
        ensures ok { IfOk result (λ put. OnOk put
            ((is_full self.old ≡ false) × (self.new ≡ with_message message self.old))) }
        ensures full { IfOk result (λ put. IfErr put (λ back.
            (is_full self.old ≡ true) × (back ≡ message) × (self.new ≡ self.old))) }
    {
        if let Some(mailbox) = &mut self.mailbox {
            return Ok(mailbox.put(message));
        }
        let Ok(mut mailbox) = Mailbox::after(self.alloc, self.places, self.last) else {
            return Err(AllocError);
        };
        let put = mailbox.put(message);
        self.mailbox = Some(mailbox);
        Ok(put)
    }

    /// The messages that the client is sent now.
    pub(crate) fn send(&mut self) -> Result<Vec<Pdu>, AllocError>
        ensures ok { IfOk result (λ pdus. pdus.items ≡ pdus_sent self.old.window self.old.waiting) }
        ensures after { OnOk result (self.new ≡ after_sent self.old.window self.old.waiting) }
    {
        let Some(mailbox) = &mut self.mailbox else {
            return Ok(Vec::new(self.alloc));
        };
        mailbox.send()
    }

    /// The lane and the centre's number of the message that a response answers. It waits no longer.
    pub(crate) fn settle(&mut self, number: u32, command: u32) -> Option<(usize, u32)>
        ensures some { IfSome result (λ r. (w : Waiting)
            × (message_for number command self.old.window.waiting ≡ Some w)
            × (r.0 ≡ w.lane)
            × (r.1 ≡ w.number)
            × (self.new ≡ after_settling number self.old)) }
        ensures none { IfNone result
            ((message_for number command self.old.window.waiting ≡ None) × (self.new ≡ self.old)) }
    {
        match &mut self.mailbox {
            Some(mailbox) => mailbox.settle(number, command),
            None => None,
        }
    }

    /// The messages that the client leaves without an answer.
    pub(crate) fn empty(&mut self) -> Result<Vec<Unanswered>, AllocError>
        ensures ok { IfOk result (λ messages. messages.items ≡ unanswered_messages self.old) }
        ensures after { OnOk result (self.new ≡ empty_mailbox self.old) }
    {
        let Some(mailbox) = &mut self.mailbox else {
            return Ok(Vec::new(self.alloc));
        };
        let messages = mailbox.empty()?;
        self.last = mailbox.last();
        self.mailbox = None;
        Ok(messages)
    }
}
