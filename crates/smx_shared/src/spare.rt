//! A list that is kept for the next hold.
ghost use Rattle.std.specs.Prelude.{◌≡◌, ◌≤◌, [], vec_capacity, IfOk, IfSome, IsOk, IsSome, None};

use crate::batch::BATCH;
use std::alloc::{AllocError, Global};

/// Keeps one empty list with a place for each call of a hold, so that its memory is used again. It takes
/// none before it is asked for a list.
#[derive(Drop)]
pub struct SpareList<T: Drop> {
    list: Option<Vec<T>>,
}

impl<T: Drop> SpareList<T> {
    /// None is kept yet.
    pub fn new() -> SpareList<T>
        ensures { result.list ≡ None }
    {
        SpareList { list: None }
    }

    /// An empty list with 16 places: the one that is kept, or else a new one, where there is memory.
    #[inline(always)]
    pub fn list(&mut self, alloc: Global) -> Result<Vec<T>, AllocError>
        ensures list { IfOk result (λ list. (list.items ≡ []) × (16 ≤ vec_capacity list)) }
        ensures kept { IfSome self.old.list (λ kept. 16 ≤ vec_capacity kept → IsOk result) }
        ensures none { self.new.list ≡ None }
    {
        if let Some(mut list) = self.list.take() {
            list.clear();
            if list.capacity() >= BATCH {
                return Ok(list);
            }
        }
        Vec::with_capacity(alloc, BATCH)
    }

    /// Drops what a list holds, and keeps it in place of the one that was kept.
    #[inline(always)]
    pub fn keep(&mut self, list: Vec<T>)
        ensures kept { IsSome self.new.list }
        ensures list { IfSome self.new.list
            (λ kept. (kept.items ≡ []) × (vec_capacity kept ≡ vec_capacity list)) }
    {
        let mut list = list;
        list.clear();
        self.list = Some(list);
    }
}
