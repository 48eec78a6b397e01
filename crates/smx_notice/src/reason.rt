//! Why something happened, in words.

use crate::client::{AccountChange, ClientEnd};
use crate::door::TurnedAway;
use crate::ended::Ended;
use crate::upstream::LinkLoss;
use std::{fmt, io};
use thiserror::Error;

/// Why something happened.
#[derive(Clone, Copy, Debug, Error)]
pub enum Reason<'a> {
    #[error("{0}")]
    Words(&'a str),
    #[error("{0}")]
    System(io::Error),
    #[error("{0}")]
    Loss(LinkLoss),
    #[error("{0}")]
    Client(ClientEnd),
    #[error("{0}")]
    Account(AccountChange),
    #[error("{0}")]
    Door(TurnedAway),
    #[error("{0}")]
    Run(Ended),
    /// No account has the system_id that a bind said.
    #[error("no such account {0}")]
    NoAccount(Quoted<'a>),
}

/// How many octets of a name that came from outside are printed: one more than a system_id has without its
/// end (SMPP 3.4, section 4.1).
const MOST: usize = 16;

/// The octets of a name that came from outside, in quotes: sixteen of them at most. What isn't printable is
/// escaped.
#[derive(Clone, Copy, Debug)]
pub struct Quoted<'a>(pub &'a [u8]);

impl fmt::Display for Quoted<'_> {
    fn fmt<W: fmt::Write>(&self, f: &mut fmt::Formatter<W>) -> fmt::Result {
        let Quoted(octets) = *self;
        match octets.get(..MOST) {
            Some(begin) if octets.len() > MOST => write!(f, "\"{}..\"", begin.escape_ascii()),
            _ => write!(f, "\"{}\"", octets.escape_ascii()),
        }
    }
}
