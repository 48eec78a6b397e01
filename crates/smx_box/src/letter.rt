//! What lies in a box, and the notes of what was done to it.

use std::collections::LinkedList;

/// What one sender put at once: an item, or its closing mark.
#[derive(Drop)]
pub struct Letter<T> {
    /// Which sender, from 0.
    pub sender: usize,
    /// Its place among the letters of its sender, from 1.
    pub number: u64,
    /// The item, or nothing in a closing mark.
    pub content: Option<T>,
}

/// What was done to a box. No value of it is made.
pub enum Deed<T> {
    Putting(Letter<T>),
    Getting(Letter<T>),
}

/// A note: the pass with this number did this. No value of it is made.
pub struct Note<T> {
    pub by: u64,
    pub deed: Deed<T>,
}

/// What a pass knows between two calls: its number, from 0, the senders that it made, whether it was
/// told how many places the box has and how many these are, a history that has been, and its own notes
/// in that. No value of it is made.
pub struct Known<T> {
    pub number: u64,
    pub senders: u64,
    pub told: bool,
    pub places: u64,
    pub seen: LinkedList<Note<T>>,
    pub mine: LinkedList<Note<T>>,
}
