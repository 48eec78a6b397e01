//! Shifts: the entries are handed out or let go, and the lane goes on without them.
ghost use Rattle.std.specs.Prelude.{◌≡◌, List, [], ◌∷◌, ◌++◌, IfOk, OnErr};
ghost use Rattle.std.specs.Option.{option_map};
ghost use Rattle.smx_history.specs.declared.note.Note.{Note};
ghost use Rattle.smx_history.specs.Contents.{AgreesWith};
ghost use Rattle.smx_history.specs.History.{shift};
ghost use Rattle.smx_history.specs.Replies.{after_shift};
ghost use Rattle.smx_lane.specs.Turning.{IsTurned};

use super::Lane;
use smx_history::Entry;
use std::alloc::AllocError;
use std::mem;

impl Lane {
    /// A shift: hands out the entries stored so far, the oldest first, where there are at least `least` of them, and
    /// goes on with none. Nothing else changes: requests, places, boxes and clients stay, and so does the greatest
    /// client's number. The entries that are stored count anew, so a lane whose history was full has room again.
    ///
    /// It takes the memory of one new list with `history` places, and no more; where that is refused, the lane is as it
    /// was. The entries are handed out as the list that they stand in, without a copy and without a look at them: with
    /// the list handed out its memory is the caller's.
    pub fn turn_over(&mut self, by: u64, least: usize) -> Result<Option<Vec<Entry>>, AllocError>
        ensures turned { IfOk result (λ list. IsTurned self.old by least
            (option_map (λ es. es.items) list) self.new) }
        ensures err { OnErr result (self.new ≡ self.old) }
        ensures limits { self.new.limits ≡ self.old.limits }
    {
        if self.entries.len() < least {
            return Ok(None);
        }
        let fresh = Vec::with_capacity(self.roster.alloc(), self.limits.history as usize)?;
        Ok(Some(mem::replace(&mut self.entries, fresh)))
    }

    /// A shift whose entries nobody is handed: they are let go where they stand. Nothing else
    /// changes. It takes no memory.
    pub fn let_go(&mut self, by: u64)
        ensures entries { self.new ≡ after_shift self.old }
        ensures agrees { (h : List Note) → AgreesWith h self.old
            → AgreesWith (h ++ shift by ∷ []) self.new }
    {
        self.entries.clear();
    }
}
