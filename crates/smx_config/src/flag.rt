//! What is true or false in a configuration.
ghost use Rattle.std.specs.Prelude.{◌≡◌, IsTrue};
ghost use Rattle.toml.specs.View.{table_view};
ghost use Rattle.smx_config.specs.Keys.{flag_row, all_flags, is_read};
ghost use Rattle.smx_config.specs.Settings.{flag_or_default};

use crate::section::Section;
use crate::table::find;
use toml::Table;

/// A key that is true or false.
#[derive(Clone, Copy, Debug, PartialEq, Eq)]
pub(crate) enum Flag {
    ProxyProtocol,
}

/// What holds of a key that is true or false.
#[derive(Clone, Copy, Debug)]
pub(crate) struct FlagRule {
    /// The table where the key stands.
    pub(crate) section: Section,
    /// The key as a file writes it.
    pub(crate) key: &'static str,
    /// Which it is where the key is absent.
    pub(crate) default: bool,
}

impl Flag {
    /// Every such key, in the order in which they are told of.
    pub(crate) fn all() -> &'static [Flag]
        ensures { result.now ≡ all_flags }
    {
        &[Flag::ProxyProtocol]
    }

    /// The row of the key.
    pub(crate) fn rule(self) -> FlagRule
        ensures section { result.section ≡ (flag_row self).section }
        ensures key { result.key.now ≡ (flag_row self).key }
        ensures default { result.default ≡ (flag_row self).default }
        ensures read { IsTrue (is_read (flag_row self).section (flag_row self).key) }
    {
        match self {
            Flag::ProxyProtocol => FlagRule {
                section: Section::Top,
                key: "proxy_protocol",
                default: false,
            },
        }
    }

    /// What is so where it is true, in words for a person.
    pub(crate) fn means(self) -> &'static str {
        match self {
            Flag::ProxyProtocol => {
                "each connection begins with a PROXY header of version 2, which has the client's address"
            }
        }
    }

    /// Which it is at this key, or its default where the key is absent.
    pub(crate) fn at(self, table: &Table) -> Option<bool>
        ensures { result ≡ flag_or_default self (table_view table.now) }
    {
        let rule = self.rule();
        match find(table, rule.key) {
            Some(value) => value.as_bool(),
            None => Some(rule.default),
        }
    }
}
