//! The keys of a configuration whose values are words.
ghost use Rattle.std.specs.Prelude.{◌≡◌, IsTrue, option_map, option_copied};
ghost use Rattle.toml.specs.View.{table_view, view};
ghost use Rattle.smx_config.specs.Keys.{choice_row, all_choices, is_read};
ghost use Rattle.smx_config.specs.Settings.{word_at, word_in};

use crate::bind_kind::BindKind;
use crate::bodies::Bodies;
use crate::command::Command;
use crate::log_form::LogForm;
use crate::log_level::LogLevel;
use crate::section::Section;
use crate::table::find;
use std::alloc::{AllocError, Global};
use toml::{Table, Value};

/// A key with one of a few words, or, of commands, with a list of them.
#[derive(Clone, Copy, Debug, PartialEq, Eq)]
pub(crate) enum Choice {
    Log,
    LogLevel,
    Bind,
    Commands,
    Bodies,
}

/// Where a key with words stands.
#[derive(Clone, Copy, Debug)]
pub(crate) struct ChoiceRule {
    /// The table where the key stands.
    pub(crate) section: Section,
    /// The key as a file writes it.
    pub(crate) key: &'static str,
}

impl Choice {
    /// Every such key, in the order in which they are told of.
    pub(crate) fn all() -> &'static [Choice]
        ensures { result.now ≡ all_choices }
    {
        use Choice::{Bind, Bodies, Commands, Log, LogLevel};
        &[Log, LogLevel, Bind, Commands, Bodies]
    }

    /// The row of the key.
    pub(crate) fn rule(self) -> ChoiceRule
        ensures section { result.section ≡ (choice_row self).section }
        ensures key { result.key.now ≡ (choice_row self).key }
        ensures read { IsTrue (is_read (choice_row self).section (choice_row self).key) }
    {
        use Section::{Account, Top, Upstream};
        let (section, key) = match self {
            Choice::Log => (Top, "log"),
            Choice::LogLevel => (Top, "log_level"),
            Choice::Bind => (Upstream, "bind"),
            Choice::Commands => (Account, "commands"),
            Choice::Bodies => (Account, "bodies"),
        };
        ChoiceRule { section, key }
    }

    /// What it says, in words for a person.
    pub(crate) fn means(self) -> &'static str {
        match self {
            Choice::Log => "how each line of the log is written",
            Choice::LogLevel => "the least grave lines that are written",
            Choice::Bind => "a transmitter gets no messages, a receiver takes no requests",
            Choice::Commands =>
                "the requests that its clients may send; another is answered 0x03 ESME_RINVCMDID",
            Choice::Bodies => {
                "a body that isn't readable is answered 0x01 ESME_RINVMSGLEN or 0x02 ESME_RINVCMDLEN"
            }
        }
    }

    /// The words that may stand at the key.
    pub(crate) fn words(self, alloc: Global) -> Result<Vec<&'static str>, AllocError> {
        let mut words = Vec::new(alloc);
        match self {
            Choice::Log => {
                for one in LogForm::all() {
                    words.push(one.word())?;
                }
            }
            Choice::LogLevel => {
                for one in LogLevel::all() {
                    words.push(one.word())?;
                }
            }
            Choice::Bind => {
                for one in BindKind::all() {
                    words.push(one.word())?;
                }
            }
            Choice::Commands => {
                for one in Command::all() {
                    words.push(one.word())?;
                }
            }
            Choice::Bodies => {
                for one in Bodies::all() {
                    words.push(one.word())?;
                }
            }
        }
        Ok(words)
    }

    /// The word that holds where the key is absent.
    pub(crate) fn default_word(self) -> &'static str {
        match self {
            Choice::Log => LogForm::Text.word(),
            Choice::LogLevel => LogLevel::Info.word(),
            Choice::Bind => BindKind::Transceiver.word(),
            Choice::Commands => "all",
            Choice::Bodies => Bodies::Any.word(),
        }
    }

    /// The text at this key: `Some(None)` where the key is absent, None where it has no text.
    pub(crate) fn at(self, table: &Table) -> Option<Option<&str>>
        ensures { option_map option_copied result ≡ word_at self (table_view table.now) }
    {
        match find(table, self.rule().key) {
            Some(value) => match value.as_str() {
                Some(text) => Some(Some(text)),
                None => None,
            },
            None => Some(None),
        }
    }

    /// The same of a value that is a table.
    pub(crate) fn within(self, value: &Value) -> Option<Option<&str>>
        ensures { option_map option_copied result ≡ word_in self (view value.now) }
    {
        match value.get(self.rule().key) {
            Some(value) => match value.as_str() {
                Some(text) => Some(Some(text)),
                None => None,
            },
            None => Some(None),
        }
    }
}
