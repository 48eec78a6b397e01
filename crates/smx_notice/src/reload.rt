//! What is said of a configuration that was read again.

use crate::count::Count;
use crate::facts::{Facts, Figures};
use crate::level::Level;
use crate::reason::Reason;
use thiserror::Error;

/// What came of a configuration that was read again.
#[derive(Clone, Copy, Debug, Error)]
pub enum ReloadNews<'a> {
    /// It has so many accounts.
    #[error("the configuration was read again, {}", Count(*.0 as u64, "account", "accounts"))]
    Reloaded(usize),
    /// It is at fault.
    #[error("nothing is changed: {0}")]
    NotReloaded(&'a str),
    /// This key or table is another one in the file than what is served by.
    #[error("another {0} in the file wants a restart")]
    NotTaken(&'a str),
}

impl<'a> ReloadNews<'a> {
    pub(crate) fn facts(self) -> Facts<'a> {
        match self {
            ReloadNews::Reloaded(accounts) => Facts::new(Level::Info, "reloaded").counted(
                Figures::none().size("accounts", accounts),
            ),
            ReloadNews::NotReloaded(reason) => {
                Facts::new(Level::Error, "not_reloaded").because(Reason::Words(reason))
            }
            ReloadNews::NotTaken(key) => {
                Facts::new(Level::Warn, "not_taken").because(Reason::Words(key))
            }
        }
    }
}
