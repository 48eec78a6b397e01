//! What an event leads to.
use crate::end::End;
use smx_pdu::Pdu;

/// What an event of a worker leads to, and what its caller learns beside.
#[derive(Drop)]
pub struct Outcome<E: Drop, A: Drop> {
    pub event: E,
    /// Nothing came of it.
    pub quiet: bool,
    /// What is to be said over the link.
    pub sent: Option<Pdu>,
    /// How it ended the work, where nothing is decided after it.
    pub ends: Option<End>,
    pub answer: A,
}
