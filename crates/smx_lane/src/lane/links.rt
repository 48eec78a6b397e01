//! The link upstream: it is lost, what was taken fails, and there is one again.
ghost use Rattle.std.specs.Prelude.{◌≡◌, List, [], ◌∷◌, ◌++◌, true, false, IfOk, OnOk, OnErr, MatchResult, None, Some};
ghost use Rattle.smx_history.specs.declared.note.Note.{Note};
ghost use Rattle.smx_history.specs.declared.note.Event.TheVariants.{Down, Up};
ghost use Rattle.smx_history.specs.History.{note};
ghost use Rattle.smx_history.specs.Contents.{AgreesWith};
ghost use Rattle.smx_history.specs.Replies.{fail_refusal, up_refusal};
ghost use Rattle.smx_history.specs.Answering.{IsFailed};

use super::Lane;
use smx_history::{AlreadyDown, Entry, FailRefusal, Failed, Kind, UpRefusal};

// The entry of what tells of the link.
fn linking(kind: Kind, by: u64) -> Entry
    ensures { result
        ≡ record { kind = kind; by = by; client = 0; ordinal = 0; number = 0; command = 0 } }
{
    Entry {
        kind,
        by,
        client: 0,
        ordinal: 0,
        number: 0,
        command: 0,
    }
}

impl Lane {
    /// The link upstream is lost: from now on nothing is accepted or taken, until the lane comes up. What is queued
    /// waits, responses that wait may be collected, and what was taken may still be answered, or fails. It takes no
    /// memory.
    pub fn down(&mut self, by: u64) -> Result<(), AlreadyDown>
        ensures reply { MatchResult result (λ _. self.old.up ≡ true) (λ _. self.old.up ≡ false) }
        ensures agrees { OnOk result ((h : List Note) → AgreesWith h self.old →
            AgreesWith (h ++ note by Down ∷ []) self.new) }
        ensures err { OnErr result (self.new ≡ self.old) }
        ensures limits { self.new.limits ≡ self.old.limits }
    {
        if !self.up {
            return Err(AlreadyDown);
        }
        self.up = false;
        self.entries.push_reserved(linking(Kind::Down, by));
        Ok(())
    }

    /// Gives up one request that was taken and not answered. Its client is told by a response that waits for it: that of
    /// submit_sm, submit_multi and data_sm with ESME_RSUBMITFAIL, for the others generic_nack with ESME_RSYSERR (SMPP
    /// 3.4, section 5.1.3), each without a body. Which of them it is, depends on the numbers that they bear. It takes no memory.
    pub fn fail(&mut self, by: u64) -> Result<Failed, FailRefusal>
        ensures reply { MatchResult result (λ _. fail_refusal self.old ≡ None)
            (λ e. fail_refusal self.old ≡ Some e) }
        ensures failed { IfOk result (λ failed. IsFailed self.old by failed self.new) }
        ensures err { OnErr result (self.new ≡ self.old) }
        ensures limits { self.new.limits ≡ self.old.limits }
    {
        if self.up {
            return Err(FailRefusal::Up);
        }
        let Some(place) = self.window.first() else {
            return Err(FailRefusal::WindowEmpty);
        };
        Ok(self.give_up(by, &place))
    }

    /// There is a link upstream again: requests are accepted and taken as before. It takes no memory.
    pub fn up(&mut self, by: u64) -> Result<(), UpRefusal>
        ensures reply { MatchResult result (λ _. up_refusal self.old ≡ None)
            (λ e. up_refusal self.old ≡ Some e) }
        ensures agrees { OnOk result ((h : List Note) → AgreesWith h self.old →
            AgreesWith (h ++ note by Up ∷ []) self.new) }
        ensures err { OnErr result (self.new ≡ self.old) }
        ensures limits { self.new.limits ≡ self.old.limits }
    {
        if self.up {
            return Err(UpRefusal::AlreadyUp);
        }
        if self.window.len() > 0 {
            return Err(UpRefusal::WindowNotEmpty);
        }
        if !self.has_room() {
            return Err(UpRefusal::HistoryFull);
        }
        self.up = true;
        self.entries.push_reserved(linking(Kind::Up, by));
        Ok(())
    }
}
