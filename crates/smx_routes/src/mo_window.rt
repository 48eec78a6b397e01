//! The messages that a client was sent and has not answered.
ghost use Rattle.std.specs.Prelude.{◌≡◌, ◌≢◌, ◌≤◌, ◌+◌, ◌↔◌, [], ◌∷◌, ◌++◌, length, Some, None, IsTrue, IsErr, IfOk, IfErr, IfSome, IfNone, OnSome, OnErr, MatchOption, All};
ghost use Rattle.smx_pdu.specs.Command.{is_response_to};
ghost use Rattle.smx_routes.specs.Window.{IsSize, IsWindowFault, greatest, waits, without, message_for, overdue, HaveDistinctNumbers, IsFirstFree, IsFirst};

use crate::fault::WindowFault;
use smx_pdu::is_response_to;
use std::alloc::{AllocError, Global};
use std::marker::Model;

// The greatest sequence number of a message: that of the standard but one (SMPP 3.4, section
// 5.1.4), which the proxy's own enquire_link bears.
const GREATEST: u32 = 0x7FFF_FFFE;

/// A message that waits for its answer, as contracts see it.
#[derive(Clone, Copy, Debug, PartialEq, Eq)]
pub struct Waiting {
    /// The sequence number under which the client was sent it.
    pub given: u32,
    /// The lane from which it came.
    pub lane: usize,
    /// The centre's sequence number.
    pub number: u32,
    /// The command id of the centre's request.
    pub command: u32,
    /// The moment of its being sent, in milliseconds.
    pub since: u64,
}

/// All places of the window wait for answers.
#[derive(Clone, Copy, Debug, PartialEq, Eq, thiserror::Error)]
#[error("all places of the window wait")]
pub struct Full;

/// The messages that one client was sent and has not answered, each under a number of its own. Contracts see them
/// as a list, the oldest first, with the count of its places and the last number given.
#[derive(Drop)]
pub struct MoWindow {
    places: u32,
    last: u32,
    waiting: Vec<Waiting>,
}

impl Model for MoWindow {
    ghost use Rattle.smx_routes.specs.Window.{Window};
    ghost use Rattle.smx_routes.specs.Private.WindowFields.{window_of, HasPlaces};

    ghost Value = { Window };

    ghost view = { window_of };

    ghost invariant = { HasPlaces };
}

// The first message that was sent at this moment or before.
fn overdue(waiting: &[Waiting], until: u64) -> Option<Waiting>
    ensures { result ≡ overdue until waiting.now }
{
    waiting
        .iter()
        .copied()
        .find(|message| message.since <= until)
}

// The message that a response with the number and the command answers.
fn answered(waiting: &[Waiting], number: u32, command: u32) -> Option<Waiting>
    ensures { result ≡ message_for number command waiting.now }
{
    waiting.iter().copied().find(|message| message.given == number
        && is_response_to(message.command, command))
}

impl MoWindow {
    /// A window of 1 to 1,024 places, all of which it reserves.
    pub fn new(alloc: Global, places: u32) -> Result<MoWindow, WindowFault>
        ensures ok { IfOk result (λ window. IsSize places
            × (window ≡ record { places = places; last = 0; waiting = [] })) }
        ensures err { IfErr result (IsWindowFault places) }
    {
        MoWindow::after(alloc, places, 0)
    }

    /// A window as `new` makes it, whose numbers go on behind `last`, the last one that was given
    /// before.
    pub fn after(alloc: Global, places: u32, last: u32) -> Result<MoWindow, WindowFault>
        requires { last ≤ greatest }
        ensures ok { IfOk result (λ window. IsSize places
            × (window ≡ record { places = places; last = last; waiting = [] })) }
        ensures err { IfErr result (IsWindowFault places) }
    {
        if !(1..=1_024).contains(&places) {
            return Err(WindowFault::BadSize);
        }
        match Vec::with_capacity(alloc, places as usize) {
            Ok(waiting) => Ok(MoWindow {
                places,
                last,
                waiting,
            }),
            Err(AllocError) => Err(WindowFault::NoMemory),
        }
    }

    /// What it keeps: no message bears a number above the greatest.
    pub fn law(&self)
        ensures numbers { All (λ w. w.given ≤ greatest) self.now.waiting }
    {
        let _places = self.places;
    }

    /// How many messages it holds at most: 1 to 1,024.
    pub fn places(&self) -> u32
        ensures places { result ≡ self.now.places }
        ensures size { IsSize result }
    {
        self.places
    }

    /// The last number given, or 0.
    pub fn last(&self) -> u32
        ensures last { result ≡ self.now.last }
        ensures range { result ≤ greatest }
    {
        self.last
    }

    /// Whether all places wait for answers.
    pub fn is_full(&self) -> bool
        ensures { IsTrue result ↔ (length self.now.waiting ≡ self.now.places) }
    {
        self.waiting.len() >= self.places as usize
    }

    // Whether a message waits under the number.
    fn waits(&self, number: u32) -> bool
        ensures { result ≡ waits number self.now.waiting }
    {
        self.waiting.iter().any(|message| message.given == number)
    }

    /// The number that is given next.
    pub fn next(&self) -> u32
        requires { length self.now.waiting ≢ self.now.places }
        ensures next { IsFirstFree self.now result }
    {
        for passed in 0..self.places {
            let number = (self.last + passed) % GREATEST + 1;
            if !self.waits(number) {
                return number;
            }
        }
        unreachable!()
    }

    /// Gives a message of the centre the number under which the client is sent it: the next after the last one given,
    /// from 1 to 0x7FFFFFFE and round, that no message waits under. `number` and `command` are the centre's, `since`
    /// is the moment. It takes no memory.
    pub fn give(&mut self, lane: usize, number: u32, command: u32, since: u64) -> Result<u32, Full>
        ensures full { IsErr result ↔ (length self.old.waiting ≡ self.old.places) }
        ensures next { IfOk result (IsFirstFree self.old) }
        ensures ok { IfOk result (λ given. self.new ≡ record self.old {
          last = given;
          waiting = self.old.waiting
              ++ record {
                given = given;
                lane = lane;
                number = number;
                command = command;
                since = since;
              } ∷ [];
        }) }
        ensures err { OnErr result (self.new ≡ self.old) }
    {
        if self.is_full() {
            return Err(Full);
        }
        let given = self.next();
        self.keep(given, lane, number, command, since);
        Ok(given)
    }

    /// Takes a message in under the number that is given next, as `give` does.
    pub fn keep(&mut self, given: u32, lane: usize, number: u32, command: u32, since: u64)
        requires room { length self.old.waiting ≢ self.old.places }
        requires next { IsFirstFree self.old given }
        ensures { self.new ≡ record self.old {
          last = given;
          waiting = self.old.waiting
              ++ record {
                given = given;
                lane = lane;
                number = number;
                command = command;
                since = since;
              } ∷ [];
        } }
    {
        self.last = given;
        self.waiting.push_reserved(Waiting {
            given,
            lane,
            number,
            command,
            since,
        });
    }

    /// Lets all that waits go. Its numbers go on behind the last one given.
    pub fn clear(&mut self)
        ensures { self.new ≡ record self.old { waiting = [] } }
    {
        self.waiting.clear();
    }

    // Takes out what waits under the number.
    fn remove(&mut self, number: u32)
        ensures { self.new ≡ record self.old { waiting = without number self.old.waiting } }
    {
        self.waiting.retain(|message| message.given != number);
    }

    /// Takes out the message that a client's response answers: its lane and the centre's number. `number` and
    /// `command` are the response's. None where no message waits under the number, or the command answers another
    /// request.
    pub fn settle(&mut self, number: u32, command: u32) -> Option<(usize, u32)>
        ensures settled { IfSome result (λ r. (w : Waiting)
            × (message_for number command self.old.waiting ≡ Some w)
            × (r.0 ≡ w.lane)
            × (r.1 ≡ w.number)
            × (self.new ≡ record self.old { waiting = without number self.old.waiting })) }
        ensures one { OnSome result (length self.new.waiting + 1 ≡ length self.old.waiting) }
        ensures none { IfNone result ((message_for number command self.old.waiting ≡ None)
            × (self.new ≡ self.old)) }
    {
        let message = answered(self.waiting.as_slice(), number, command)?;
        self.remove(number);
        Some((message.lane, message.number))
    }

    // The message with the least number given.
    fn first(&self) -> Option<Waiting>
        ensures first { MatchOption result (self.now.waiting ≡ []) (IsFirst self.now.waiting) }
        ensures apart { HaveDistinctNumbers self.now.waiting }
    {
        self.waiting
            .iter()
            .min_by_key(|message| message.given)
            .copied()
    }

    /// Takes out the message with the least number given: its lane, and the centre's number and command. None where
    /// no message waits.
    pub fn take_first(&mut self) -> Option<(usize, u32, u32)>
        ensures first { IfSome result (λ r. (w : Waiting)
            × IsFirst self.old.waiting w
            × (r.0 ≡ w.lane)
            × (r.1 ≡ w.number)
            × (r.2 ≡ w.command)
            × (self.new ≡ record self.old { waiting = without w.given self.old.waiting })) }
        ensures one { OnSome result (length self.new.waiting + 1 ≡ length self.old.waiting) }
        ensures apart { HaveDistinctNumbers self.old.waiting }
        ensures none { IfNone result ((self.old.waiting ≡ []) × (self.new ≡ self.old)) }
    {
        let message = self.first()?;
        self.remove(message.given);
        Some((message.lane, message.number, message.command))
    }

    /// Takes out the first message that was sent at this moment or before: its lane, and the centre's number and
    /// command. None where none waits for so long.
    pub fn take_overdue(&mut self, until: u64) -> Option<(usize, u32, u32)>
        ensures overdue { IfSome result (λ r. (w : Waiting)
            × (overdue until self.old.waiting ≡ Some w)
            × (r.0 ≡ w.lane)
            × (r.1 ≡ w.number)
            × (r.2 ≡ w.command)
            × (self.new ≡ record self.old { waiting = without w.given self.old.waiting })) }
        ensures one { OnSome result (length self.new.waiting + 1 ≡ length self.old.waiting) }
        ensures none { IfNone result ((overdue until self.old.waiting ≡ None)
            × (self.new ≡ self.old)) }
    {
        let message = overdue(self.waiting.as_slice(), until)?;
        self.remove(message.given);
        Some((message.lane, message.number, message.command))
    }
}
