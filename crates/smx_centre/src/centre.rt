//! The centre.
ghost use Rattle.std.specs.Prelude.{◌≡◌, ◌≤◌, ◌<◌};
ghost use Rattle.smx_centre.specs.Answers.{next, last};

use crate::class::{Class, class_of};
use crate::mode::Mode;
use crate::pdus::{add, one, two};
use crate::response::{delivery, forwarded_response, system_id};
use smx_pdu::Pdu;
use smx_pdu::command::RESPONSE;
use smx_pdu::status::ESME_ROK;
use std::alloc::{AllocError, Global};
use std::marker::Model;

/// The greatest message id and sequence_number: after it the counts begin again at 1.
const LAST: u32 = 0x7FFF_FFFF;

/// The sequence_number of the copies that [`Mode::Stranger`] sends.
const STRANGER: u32 = 0x7000_0000;

/// A message centre that answers by its mode. Contracts see it as its mode, the last message id
/// and the last sequence_number that it gave, and the response that waits for the second of two.
#[derive(Drop)]
pub struct Centre {
    alloc: Global,
    mode: Mode,
    messages: u32,
    deliveries: u32,
    held: Option<Pdu>,
}

impl Model for Centre {
    ghost use Rattle.std.specs.Prelude.{◌≤◌};
    ghost use Rattle.smx_centre.specs.Answers.{Centring, last};

    ghost Value = { Centring };

    ghost view = { λ c. record {
      mode = c.mode;
      messages = c.messages;
      deliveries = c.deliveries;
      held = c.held;
    } };

    ghost invariant = { λ c. (c.messages ≤ last) × (c.deliveries ≤ last) };
}

// What comes after a number that was given.
fn next(number: u32) -> u32
    requires { number ≤ last }
    ensures value { result ≡ next number }
    ensures within { result ≤ last }
{
    if number == LAST { 1 } else { number + 1 }
}

impl Centre {
    ghost use Rattle.std.specs.Prelude.{Contains, IfOk, OnOk, OnErr, IsOk, length, ℕ};
    ghost use Rattle.smx_centre.specs.Answers.{class_of, responses_to, centring_after, delivery, responses_sent, response_kept, forwarded_response};

    /// A centre that has given no number. It takes no memory.
    pub fn new(alloc: Global, mode: Mode) -> Centre
        ensures { result ≡ record { mode = mode; messages = 0; deliveries = 0; held = None } }
    {
        Centre {
            alloc,
            mode,
            messages: 0,
            deliveries: 0,
            held: None,
        }
    }

    // What is sent for a response to a forwarded command. Each is made by the same call, so that a
    // copy is one more.
    fn send(&mut self, request: &Pdu, message: Option<u32>) -> Result<Vec<Pdu>, AllocError>
        requires { request.now.command < RESPONSE }
        ensures ok { IfOk result (λ pdus. pdus.items
            ≡ responses_sent self.old.mode self.old.held (forwarded_response message request.now)) }
        ensures held { OnOk result (self.new ≡ record self.old {
          held = response_kept self.old.mode self.old.held (forwarded_response message request.now);
        }) }
        ensures err { OnErr result (self.new ≡ self.old) }
    {
        let alloc = self.alloc;
        match self.mode {
            Mode::Plain => one(alloc, forwarded_response(alloc, request, message)?),
            Mode::Reversed => self.send_reversed(forwarded_response(alloc, request, message)?),
            Mode::Twice => {
                let first = forwarded_response(alloc, request, message)?;
                two(alloc, first, forwarded_response(alloc, request, message)?)
            }
            Mode::Stranger => {
                let first = forwarded_response(alloc, request, message)?;
                let mut stranger = forwarded_response(alloc, request, message)?;
                stranger.number = STRANGER;
                two(alloc, first, stranger)
            }
            Mode::Silent => Ok(Vec::new(alloc)),
        }
    }

    // Holds the first of two responses until the second is there.
    fn send_reversed(&mut self, response: Pdu) -> Result<Vec<Pdu>, AllocError>
        requires { self.old.mode ≡ Mode.Reversed }
        ensures ok { IfOk result (λ pdus. pdus.items
            ≡ responses_sent Mode.Reversed self.old.held response) }
        ensures held { OnOk result (self.new
            ≡ record self.old { held = response_kept Mode.Reversed self.old.held response }) }
        ensures err { OnErr result (self.new ≡ self.old) }
    {
        let mut pdus = Vec::with_capacity(self.alloc, 2)?;
        match self.held.take() {
            None => self.held = Some(response),
            Some(first) => {
                add(&mut pdus, response);
                add(&mut pdus, first);
            }
        }
        Ok(pdus)
    }

    /// Answers one PDU. It takes memory for the answers and their bodies; where that is refused,
    /// the centre is unchanged.
    pub fn on_pdu(&mut self, pdu: &Pdu) -> Result<Vec<Pdu>, AllocError>
        ensures ok { IfOk result (λ pdus. pdus.items
            ≡ responses_to (class_of pdu.now.command) self.old pdu.now) }
        ensures after { OnOk result (self.new
            ≡ centring_after (class_of pdu.now.command) self.old pdu.now) }
        ensures err { OnErr result (self.new ≡ self.old) }
    {
        let alloc = self.alloc;
        match class_of(pdu.command) {
            Class::Bind => one(alloc, pdu.response(ESME_ROK, system_id(alloc)?)),
            Class::Session => one(alloc, pdu.header_response(alloc, ESME_ROK)),
            Class::Message => {
                let message = next(self.messages);
                let pdus = self.send(pdu, Some(message))?;
                self.messages = message;
                Ok(pdus)
            }
            Class::Forwarded => self.send(pdu, None),
            Class::OtherRequest => one(alloc, Pdu::unknown(alloc, pdu.number)),
            Class::Response => Ok(Vec::new(alloc)),
        }
    }

    /// A deliver_sm with the next number, to a destination of at most 20 octets, none of them 0.
    /// It takes memory for the body; where that is refused, the centre is unchanged.
    pub fn deliver(&mut self, destination: &[u8]) -> Result<Pdu, AllocError>
        requires short { length destination.now ≤ 20 }
        requires plain { ¬ Contains destination.now 0 }
        ensures ok { IfOk result (λ p. p ≡ delivery (next self.old.deliveries) destination.now) }
        ensures after { OnOk result (self.new
            ≡ record self.old { deliveries = next self.old.deliveries }) }
        ensures err { OnErr result (self.new ≡ self.old) }
    {
        let number = next(self.deliveries);
        let message = delivery(self.alloc, number, destination)?;
        self.deliveries = number;
        Ok(message)
    }
}
