//! The tables of a configuration in which keys stand.
ghost use Rattle.std.specs.Prelude.{◌≡◌};
ghost use Rattle.smx_config.specs.Keys.{is_same, is_number_key, is_flag_key, is_text_key, is_choice_key, is_table_key, is_read};

use crate::choice::Choice;
use crate::flag::Flag;
use crate::number::Number;
use crate::text::Text;
use std::alloc::{AllocError, Global};

/// The keys of tables.
const TABLES: [&str; 4] = ["limits", "timers", "upstream", "account"];

/// A table, or, of upstreams and accounts, each table of a list.
#[derive(Clone, Copy, Debug, PartialEq, Eq)]
pub(crate) enum Section {
    /// The whole file.
    Top,
    Limits,
    Timers,
    Upstream,
    Account,
}

impl Section {
    /// Every table, in the order in which they are told of.
    pub(crate) fn all() -> &'static [Section] {
        use Section::{Account, Limits, Timers, Top, Upstream};
        &[Top, Limits, Timers, Upstream, Account]
    }

    pub(crate) fn is(self, other: Section) -> bool
        ensures { result ≡ is_same self other }
    {
        self == other
    }

    fn has_number(self, key: &str) -> bool
        ensures { result ≡ is_number_key self key.now }
    {
        Number::all().iter().any(|number| {
            let rule = number.rule();
            self.is(rule.section) && key == rule.key
        })
    }

    fn has_flag(self, key: &str) -> bool
        ensures { result ≡ is_flag_key self key.now }
    {
        Flag::all().iter().any(|flag| {
            let rule = flag.rule();
            self.is(rule.section) && key == rule.key
        })
    }

    fn has_text(self, key: &str) -> bool
        ensures { result ≡ is_text_key self key.now }
    {
        Text::all()
            .iter()
            .any(|text| text.stands_in(self) && key == text.rule().key)
    }

    fn has_choice(self, key: &str) -> bool
        ensures { result ≡ is_choice_key self key.now }
    {
        Choice::all().iter().any(|choice| {
            let rule = choice.rule();
            self.is(rule.section) && key == rule.key
        })
    }

    fn has_table(self, key: &str) -> bool
        ensures { result ≡ is_table_key self key.now }
    {
        match self {
            Section::Top => {
                key == "limits" || key == "timers" || key == "upstream" || key == "account"
            }
            Section::Limits | Section::Timers | Section::Upstream | Section::Account => false,
        }
    }

    /// Whether the key is read where it stands in this table.
    pub(crate) fn reads(self, key: &str) -> bool
        ensures { result ≡ is_read self key.now }
    {
        self.has_number(key)
            || self.has_flag(key)
            || self.has_text(key)
            || self.has_choice(key)
            || self.has_table(key)
    }

    /// The key of the table, which the whole file has none of.
    pub(crate) fn name(self) -> &'static str {
        match self {
            Section::Top => "",
            Section::Limits => "limits",
            Section::Timers => "timers",
            Section::Upstream => "upstream",
            Section::Account => "account",
        }
    }

    /// Where a key of the table is written, in words for a person.
    pub(crate) fn place(self) -> &'static str {
        match self {
            Section::Top => "before the first table",
            Section::Limits => "in [limits]",
            Section::Timers => "in [timers]",
            Section::Upstream => "in [[upstream]]",
            Section::Account => "in [[account]]",
        }
    }

    /// The keys that are read in this table.
    pub(crate) fn keys(self, alloc: Global) -> Result<Vec<&'static str>, AllocError> {
        let mut keys = Vec::new(alloc);
        for text in Text::all() {
            if text.stands_in(self) {
                keys.push(text.rule().key)?;
            }
        }
        for number in Number::all() {
            let rule = number.rule();
            if self.is(rule.section) {
                keys.push(rule.key)?;
            }
        }
        for flag in Flag::all() {
            let rule = flag.rule();
            if self.is(rule.section) {
                keys.push(rule.key)?;
            }
        }
        for choice in Choice::all() {
            let rule = choice.rule();
            if self.is(rule.section) {
                keys.push(rule.key)?;
            }
        }
        if self.is(Section::Top) {
            keys.extend_from_slice(&TABLES)?;
        }
        Ok(keys)
    }
}
