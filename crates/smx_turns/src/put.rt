//! An item put by one of several senders.
ghost use Rattle.std.specs.Prelude.{◌≡◌, ◌++◌, ◌<◌, ℕ, length, slice_get};
ghost use Rattle.smx_turns.specs.Puts.{AtIndex, LooksAt, PutAnswers, contents_in, put_on};

use smx_box::{PutFault, Sender};
use std::sync::Wait;

/// Puts an item by the sender at this index, and answers how many items that sender has put with
/// it. A refused item is handed back.
pub fn put_at<T: Drop, R: Wait>(
    rt: &R,
    senders: &mut Vec<Sender<T>>,
    index: usize,
    item: T,
) -> Result<u64, (T, PutFault)>
    requires { index < length senders.old.items }
    ensures puts { AtIndex index senders.old.items senders.new.items (PutAnswers item result) }
    ensures contents { (k : ℕ) → contents_in (slice_get senders.new.items k)
        ≡ contents_in (slice_get senders.old.items k) ++ put_on k index item result }
    ensures count { length senders.new.items ≡ length senders.old.items }
{
    senders[index].put(rt, item)
}

/// Whether every place of the box is taken into which the sender at this index puts, at one step.
pub fn is_full_at<T: Drop, R: Wait>(rt: &R, senders: &mut Vec<Sender<T>>, index: usize) -> bool
    requires { index < length senders.old.items }
    ensures looks { LooksAt index senders.old.items result }
    ensures same { senders.new.items ≡ senders.old.items }
{
    senders[index].is_full(rt)
}
