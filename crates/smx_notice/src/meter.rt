//! Lines that clients cause: so many of a kind are said a second, and the others are counted.
ghost use Rattle.std.specs.Prelude.{◌≡◌, ◌≢◌, ◌^◌, ◌-◌, nat_lt, min, None, Some, true, false};
ghost use Rattle.smx_notice.specs.Metered.{count, none, one_more, total};

use crate::count::Count;
use crate::facts::Figures;
use std::fmt;

/// The lines that clients cause, of which so many of a kind are said a second and no more.
#[derive(Clone, Copy, Debug, PartialEq, Eq)]
pub enum MeteredKind {
    Connected,
    Bound,
    Gone,
    /// A bind was refused.
    BindRefused,
    /// A connection was closed at once.
    TurnedAway,
    /// No connection could be accepted.
    NotAccepted,
}

/// How many lines there are of each kind.
#[derive(Clone, Copy, Debug, PartialEq, Eq)]
pub struct Tally {
    pub connected: u64,
    pub bound: u64,
    pub gone: u64,
    pub bind_refused: u64,
    pub turned_away: u64,
    pub not_accepted: u64,
}

impl Tally {
    /// No line.
    pub fn none() -> Tally
        ensures none { result ≡ none }
    {
        Tally {
            connected: 0,
            bound: 0,
            gone: 0,
            bind_refused: 0,
            turned_away: 0,
            not_accepted: 0,
        }
    }

    /// How many of this kind.
    pub fn of(&self, kind: MeteredKind) -> u64
        ensures value { result ≡ count self.now kind }
    {
        match kind {
            MeteredKind::Connected => self.connected,
            MeteredKind::Bound => self.bound,
            MeteredKind::Gone => self.gone,
            MeteredKind::BindRefused => self.bind_refused,
            MeteredKind::TurnedAway => self.turned_away,
            MeteredKind::NotAccepted => self.not_accepted,
        }
    }

    /// One more of this kind; none behind 2^64 - 1.
    pub fn add(&mut self, kind: MeteredKind)
        ensures after { self.new ≡ one_more self.old kind }
    {
        match kind {
            MeteredKind::Connected => self.connected = self.connected.saturating_add(1),
            MeteredKind::Bound => self.bound = self.bound.saturating_add(1),
            MeteredKind::Gone => self.gone = self.gone.saturating_add(1),
            MeteredKind::BindRefused => self.bind_refused = self.bind_refused.saturating_add(1),
            MeteredKind::TurnedAway => self.turned_away = self.turned_away.saturating_add(1),
            MeteredKind::NotAccepted => self.not_accepted = self.not_accepted.saturating_add(1),
        }
    }

    /// How many of all kinds.
    pub fn total(&self) -> u64
        ensures value { result ≡ min (total self.now) (2 ^ 64 - 1) }
    {
        self.connected
            .saturating_add(self.bound)
            .saturating_add(self.gone)
            .saturating_add(self.bind_refused)
            .saturating_add(self.turned_away)
            .saturating_add(self.not_accepted)
    }

    // Each number with its name.
    fn named(&self) -> [(&'static str, u64); 6] {
        [
            ("connected", self.connected),
            ("bound", self.bound),
            ("refused", self.bind_refused),
            ("gone", self.gone),
            ("turned away", self.turned_away),
            ("not accepted", self.not_accepted),
        ]
    }

    pub(crate) fn figures(&self) -> Figures {
        Figures::none()
            .number("lines", self.total())
            .number("connected", self.connected)
            .number("bound", self.bound)
            .number("refused", self.bind_refused)
            .number("gone", self.gone)
            .number("turned_away", self.turned_away)
            .number("not_accepted", self.not_accepted)
    }
}

impl fmt::Display for Tally {
    fn fmt<W: fmt::Write>(&self, f: &mut fmt::Formatter<W>) -> fmt::Result {
        let total = Count(self.total(), "line was", "lines were");
        write!(f, "{total} left out")?;
        let mut before = ": ";
        for (name, count) in self.named() {
            if count > 0 {
                write!(f, "{before}{count} {name}")?;
                before = ", ";
            }
        }
        Ok(())
    }
}

/// The most lines of one kind in a second.
const MOST: u64 = 20;

/// Counts the lines of a second: twenty of a kind may be said, and what is left out is handed out once the
/// second is over.
#[derive(Clone, Copy, Debug)]
pub struct Meter {
    pub(crate) second: u64,
    pub(crate) said: Tally,
    pub(crate) left_out: Tally,
}

impl Meter {
    /// Of second 0, in which nothing was said.
    pub fn new() -> Meter
        ensures said { result.said ≡ none }
        ensures left_out { result.left_out ≡ none }
    {
        Meter {
            second: 0,
            said: Tally::none(),
            left_out: Tally::none(),
        }
    }

    /// This second is now. What was left out in another one that was counted, and nothing where that was
    /// none: it is handed out once.
    pub fn settle(&mut self, second: u64) -> Option<Tally>
        ensures same { self.old.second ≡ second → (result ≡ None) × (self.new ≡ self.old) }
        ensures told { self.old.second ≢ second → self.old.left_out ≢ none
            → result ≡ Some self.old.left_out }
        ensures untold { self.old.left_out ≡ none → result ≡ None }
        ensures anew { self.old.second ≢ second
            → self.new ≡ record { second = second; said = none; left_out = none } }
    {
        if second == self.second {
            return None;
        }
        let left_out = self.left_out;
        self.second = second;
        self.said = Tally::none();
        self.left_out = Tally::none();
        if left_out == Tally::none() {
            None
        } else {
            Some(left_out)
        }
    }

    /// Whether one more line of this kind may be said in this second. It is counted, as said or as left out.
    pub fn admits(&mut self, kind: MeteredKind) -> bool
        ensures value { result ≡ nat_lt (count self.old.said kind) 20 }
        ensures said { result ≡ true
            → self.new ≡ record self.old { said = one_more self.old.said kind } }
        ensures left_out { result ≡ false
            → self.new ≡ record self.old { left_out = one_more self.old.left_out kind } }
    {
        let is_said = self.said.of(kind) < MOST;
        if is_said {
            self.said.add(kind);
        } else {
            self.left_out.add(kind);
        }
        is_said
    }
}
