//! What is said of the proxy's run: one line an event. The table *Lines* of docs/OPERATING.md has each.

use crate::client::{ClientName, ClientNews};
use crate::door::DoorNews;
use crate::facts::Facts;
use crate::level::Level;
use crate::meter::MeteredKind;
use crate::reload::ReloadNews;
use crate::run::RunNews;
use crate::standing::Standing;
use crate::upstream::{UpstreamName, UpstreamNews, write_news};
use std::fmt;

/// One line for whoever runs the proxy. No password is in it.
#[derive(Clone, Copy, Debug)]
pub enum Notice<'a> {
    Upstream(UpstreamName<'a>, UpstreamNews<'a>),
    Client(ClientName<'a>, ClientNews<'a>),
    /// Of the address to listen at, and of connections that have no client.
    Door(DoorNews<'a>),
    /// Of the run as a whole.
    Run(RunNews<'a>),
    /// Of a configuration that was read again.
    Reload(ReloadNews<'a>),
    /// How a part of the proxy stands.
    Status(Standing<'a>),
}

impl<'a> Notice<'a> {
    /// What it knows of itself.
    pub fn facts(self) -> Facts<'a> {
        match self {
            Notice::Upstream(name, news) => name.news(news),
            Notice::Client(name, news) => name.news(news),
            Notice::Door(news) => news.facts(),
            Notice::Run(news) => news.facts(),
            Notice::Reload(news) => news.facts(),
            Notice::Status(standing) => standing.facts(),
        }
    }

    /// Whether it is written where lines are from this level on. How the proxy stands was asked for, and
    /// is written in any case.
    pub fn passes(self, least: Level) -> bool {
        match self {
            Notice::Status(_) => true,
            _ => least.lets(self.facts().level),
        }
    }

    /// Of which kind it is, where so many of that are said a second and no more.
    pub fn metered_kind(self) -> Option<MeteredKind> {
        match self {
            Notice::Client(_, ClientNews::Connected) => Some(MeteredKind::Connected),
            Notice::Client(_, ClientNews::Bound(_)) => Some(MeteredKind::Bound),
            Notice::Client(_, ClientNews::Gone(_)) => Some(MeteredKind::Gone),
            Notice::Client(_, ClientNews::BindRefused { .. }) => Some(MeteredKind::BindRefused),
            Notice::Door(DoorNews::TurnedAway(_, _)) => Some(MeteredKind::TurnedAway),
            Notice::Door(DoorNews::NoDescriptor) => Some(MeteredKind::NotAccepted),
            _ => None,
        }
    }
}

impl fmt::Display for Notice<'_> {
    fn fmt<W: fmt::Write>(&self, f: &mut fmt::Formatter<W>) -> fmt::Result {
        match *self {
            Notice::Upstream(name, news) => write_news(f, name, news),
            Notice::Client(name, news) => write!(f, "{name}: {news}"),
            Notice::Door(news) => write!(f, "{news}"),
            Notice::Run(news) => write!(f, "{news}"),
            Notice::Reload(news) => write!(f, "{news}"),
            Notice::Status(standing) => write!(f, "status: {standing}"),
        }
    }
}
