//! How the lines of the log are written.
ghost use Rattle.std.specs.Prelude.{◌≡◌};
ghost use Rattle.toml.specs.View.{table_view};
ghost use Rattle.smx_config.specs.Choices.{form_word, all_forms, meant};
ghost use Rattle.smx_config.specs.Settings.{form_at};

use crate::choice::Choice;
use toml::Table;

/// How each line of the log is written.
#[derive(Clone, Copy, Debug, PartialEq, Eq)]
pub enum LogForm {
    /// With the time and the level before it, for people.
    Text,
    /// As one object in JSON.
    Json,
    /// With the level before it as systemd's journal takes it, and without a time.
    Journal,
}

impl LogForm {
    /// Each of them, in the order in which they are told of.
    pub(crate) fn all() -> &'static [LogForm]
        ensures { result.now ≡ all_forms }
    {
        &[LogForm::Text, LogForm::Json, LogForm::Journal]
    }

    /// How a file writes it.
    pub(crate) fn word(self) -> &'static str
        ensures { result.now ≡ form_word self }
    {
        match self {
            LogForm::Text => "text",
            LogForm::Json => "json",
            LogForm::Journal => "journal",
        }
    }

    fn meant(word: &str) -> Option<LogForm>
        ensures { result ≡ meant form_word all_forms word.now }
    {
        LogForm::all()
            .iter()
            .copied()
            .find(|one| word == one.word())
    }

    /// Which it is at its key, or the default where the key is absent.
    pub(crate) fn at(table: &Table) -> Option<LogForm>
        ensures { result ≡ form_at (table_view table.now) }
    {
        match Choice::Log.at(table)? {
            Some(word) => LogForm::meant(word),
            None => Some(LogForm::Text),
        }
    }
}
