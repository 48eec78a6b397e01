//! Requests on their way upstream.
ghost use Rattle.std.specs.Prelude.{◌≡◌, List, [], ◌∷◌, ◌++◌, slice_get, IfOk, OnOk, OnErr, MatchResult, Some, None};
ghost use Rattle.std.specs.Option.{option_copied};
ghost use Rattle.smx_history.specs.Contents.{AgreesWith};
ghost use Rattle.smx_history.specs.History.{note};
ghost use Rattle.smx_history.specs.declared.note.Note.{Note};
ghost use Rattle.smx_history.specs.Replies.{accept_refusal, take_refusal, moment_at};
ghost use Rattle.smx_lane.specs.Conditions.{IsNext};
ghost use Rattle.smx_lane.specs.Members.{lane_refusal};
ghost use Rattle.smx_history.specs.declared.note.Event.TheVariants.{Accept};
ghost use Rattle.smx_lane.specs.Taking.{taking};

use super::Lane;
use crate::sent::Sent;
use smx_history::{Entry, Kind, Refusal, Request, TakeRefusal};

impl Lane {
    // The first reason for which no client's request may be accepted, where there is one.
    fn refusal(&self) -> Option<Refusal>
        ensures { result ≡ lane_refusal self.now }
    {
        if self.queue.len() >= self.limits.queue as usize {
            return Some(Refusal::QueueFull);
        }
        if !self.has_room() {
            return Some(Refusal::HistoryFull);
        }
        if !self.up {
            return Some(Refusal::Down);
        }
        None
    }

    /// Accepts a request into the queue, or hands it back.
    #[inline(always)]
    pub fn accept(&mut self, by: u64, request: Request) -> Result<(), (Request, Refusal)>
        requires { IsNext self.old by request.client request.ordinal }
        ensures reply { MatchResult result
            (λ _. accept_refusal self.old request.client ≡ None)
            (λ e. (e.0 ≡ request) × (accept_refusal self.old request.client ≡ Some e.1)) }
        ensures agrees { OnOk result ((h : List Note) → AgreesWith h self.old →
            AgreesWith (h ++ note by (Accept request) ∷ []) self.new) }
        ensures err { OnErr result (self.new ≡ self.old) }
        ensures limits { self.new.limits ≡ self.old.limits }
    {
        let by_lane = self.refusal();
        match self.roster.accept(request.client, request.ordinal, by_lane) {
            Ok(()) => {}
            Err(refusal) => return Err((request, refusal)),
        }
        self.entries.push_reserved(Entry {
            kind: Kind::Accept,
            by,
            client: request.client,
            ordinal: request.ordinal,
            number: request.own,
            command: request.command,
        });
        match self.queue.try_push_back(request) {
            Ok(()) => Ok(()),
            Err(_) => unreachable!(),
        }
    }

    /// The oldest request, where one is queued.
    pub fn next_request(&self) -> Option<&Request>
        ensures { option_copied result ≡ slice_get self.now.queue 0 }
    {
        self.queue.front()
    }

    /// Takes the oldest request. Its number upstream is 1,024 x generation + place + 1: a place below the window's size
    /// that is free, and how often that place was given before, going round after 2,097,150. So a number comes again
    /// after 2,097,151 takes at the least, and the greatest is 2,147,482,624 (SMPP 3.4, section 5.1.4). The moment is in
    /// milliseconds, from any start; one below that of the last take counts as that. It takes no memory.
    #[inline(always)]
    pub fn take(&mut self, by: u64, now: u64) -> Result<Sent, TakeRefusal>
        ensures reply { MatchResult result (λ _. take_refusal self.old ≡ None)
            (λ e. take_refusal self.old ≡ Some e) }
        ensures oldest { IfOk result (λ sent. slice_get self.old.queue 0 ≡ Some sent.request) }
        ensures agrees { IfOk result (λ sent. (h : List Note) → AgreesWith h self.old →
            AgreesWith (h ++ taking self.old by now sent ∷ []) self.new) }
        ensures latest { OnOk result (self.new.latest ≡ moment_at self.old now) }
        ensures err { OnErr result (self.new ≡ self.old) }
        ensures limits { self.new.limits ≡ self.old.limits }
    {
        if self.queue.is_empty() {
            return Err(TakeRefusal::QueueEmpty);
        }
        if self.window.is_full() {
            return Err(TakeRefusal::WindowFull);
        }
        if !self.up {
            return Err(TakeRefusal::Down);
        }
        let request = self.queue.pop_front().unwrap();
        let upstream = self.window.put(&request, now).upstream;
        self.entries.push_reserved(Entry {
            kind: Kind::Take,
            by,
            client: request.client,
            ordinal: request.ordinal,
            number: upstream,
            command: 0,
        });
        Ok(Sent { request, upstream })
    }
}
