//! Which lines of the log are written.
ghost use Rattle.std.specs.Prelude.{◌≡◌};
ghost use Rattle.toml.specs.View.{table_view};
ghost use Rattle.smx_config.specs.Choices.{level_word, all_levels, meant};
ghost use Rattle.smx_config.specs.Settings.{level_at};

use crate::choice::Choice;
use toml::Table;

/// The least grave of the lines that are written.
#[derive(Clone, Copy, Debug, PartialEq, Eq)]
pub enum LogLevel {
    /// What keeps the proxy from running.
    Error,
    /// Also what somebody should look at.
    Warn,
    /// All lines.
    Info,
}

impl LogLevel {
    /// Each of them, in the order in which they are told of.
    pub(crate) fn all() -> &'static [LogLevel]
        ensures { result.now ≡ all_levels }
    {
        &[LogLevel::Error, LogLevel::Warn, LogLevel::Info]
    }

    /// How a file writes it.
    pub(crate) fn word(self) -> &'static str
        ensures { result.now ≡ level_word self }
    {
        match self {
            LogLevel::Error => "error",
            LogLevel::Warn => "warn",
            LogLevel::Info => "info",
        }
    }

    fn meant(word: &str) -> Option<LogLevel>
        ensures { result ≡ meant level_word all_levels word.now }
    {
        LogLevel::all()
            .iter()
            .copied()
            .find(|one| word == one.word())
    }

    /// Which it is at its key, or the default where the key is absent.
    pub(crate) fn at(table: &Table) -> Option<LogLevel>
        ensures { result ≡ level_at (table_view table.now) }
    {
        match Choice::LogLevel.at(table)? {
            Some(word) => LogLevel::meant(word),
            None => Some(LogLevel::Info),
        }
    }
}
