//! What each notice knows of itself.

use crate::level::Level;
use crate::reason::Reason;
use smx_pdu::status::Status;
use thiserror::Error;

/// Of whom a notice is.
#[derive(Clone, Copy, Debug, PartialEq, Eq, Error)]
pub enum Party {
    /// A client, by its number.
    #[error("client {0}")]
    Client(u64),
    /// An upstream, by its index in the configuration.
    #[error("upstream {0}")]
    Upstream(usize),
}

/// A number or a word of a notice.
#[derive(Clone, Copy, Debug, PartialEq, Eq)]
pub enum Figure {
    Number(u64),
    Word(&'static str),
}

/// The most figures of a notice.
const MOST: usize = 8;

/// The numbers and words of a notice, each by its name.
#[derive(Clone, Copy, Debug)]
pub struct Figures {
    list: [Option<(&'static str, Figure)>; MOST],
    count: usize,
}

impl Figures {
    pub(crate) fn none() -> Figures {
        Figures {
            list: [None; MOST],
            count: 0,
        }
    }

    fn add(mut self, name: &'static str, figure: Figure) -> Figures {
        let count = self.count;
        if let Some(place) = self.list.get_mut(count) {
            *place = Some((name, figure));
            self.count = count.saturating_add(1);
        }
        self
    }

    pub(crate) fn number(self, name: &'static str, number: u64) -> Figures {
        self.add(name, Figure::Number(number))
    }

    pub(crate) fn size(self, name: &'static str, number: usize) -> Figures {
        self.number(name, number as u64)
    }

    pub(crate) fn word(self, name: &'static str, word: &'static str) -> Figures {
        self.add(name, Figure::Word(word))
    }

    /// Each with its name, and None behind the last.
    pub fn as_slice(&self) -> &[Option<(&'static str, Figure)>] {
        &self.list
    }
}

/// What a notice knows of itself. Nothing here is a password.
#[derive(Clone, Copy, Debug)]
pub struct Facts<'a> {
    pub level: Level,
    /// What happened, by a short name that stays.
    pub event: &'static str,
    /// Of whom it is.
    pub party: Option<Party>,
    /// The system_id of its account.
    pub account: Option<&'a str>,
    pub address: Option<&'a str>,
    /// The status that was given or got.
    pub status: Option<Status>,
    pub reason: Option<Reason<'a>>,
    pub figures: Figures,
}

impl<'a> Facts<'a> {
    pub(crate) fn new(level: Level, event: &'static str) -> Facts<'a> {
        Facts {
            level,
            event,
            party: None,
            account: None,
            address: None,
            status: None,
            reason: None,
            figures: Figures::none(),
        }
    }

    pub(crate) fn at(mut self, address: &'a str) -> Facts<'a> {
        self.address = Some(address);
        self
    }

    pub(crate) fn because(mut self, reason: Reason<'a>) -> Facts<'a> {
        self.reason = Some(reason);
        self
    }

    pub(crate) fn with(mut self, status: u32) -> Facts<'a> {
        self.status = Some(Status(status));
        self
    }

    pub(crate) fn counted(mut self, figures: Figures) -> Facts<'a> {
        self.figures = figures;
        self
    }
}
