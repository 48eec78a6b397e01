//! The texts of a configuration.
ghost use Rattle.std.specs.Prelude.{◌≡◌, ◌⊎◌, [], IfSome, IsTrue, option_copied};
ghost use Rattle.std.specs.List.{list_all};
ghost use Rattle.toml.specs.View.{table_view, view};
ghost use Rattle.smx_config.specs.Keys.{text_row, all_texts, stands_in, has_zero, is_text, is_read};
ghost use Rattle.smx_config.specs.Settings.{text_of, text_at, text_in, text_or_empty};

use crate::address::is_address;
use crate::section::Section;
use crate::table::find;
use toml::{Table, Value};

/// A key with a text, or, of prefixes, with a list of texts.
#[derive(Clone, Copy, Debug, PartialEq, Eq)]
pub(crate) enum Text {
    Listen,
    Address,
    SystemId,
    Password,
    SystemType,
    AddressRange,
    Prefix,
}

/// What holds of a key with a text.
#[derive(Clone, Copy, Debug)]
pub(crate) struct TextRule {
    /// The tables where the key stands.
    pub(crate) sections: &'static [Section],
    /// The key as a file writes it.
    pub(crate) key: &'static str,
    /// The fewest octets of such a text.
    pub(crate) fewest: usize,
    /// The most octets of such a text.
    pub(crate) longest: usize,
    /// Whether such a text may have the octet 0.
    pub(crate) may_have_zero: bool,
    /// Whether it must be an address.
    pub(crate) must_be_address: bool,
}

fn row(
    sections: &'static [Section],
    key: &'static str,
    fewest: usize,
    longest: usize,
    may_have_zero: bool,
    must_be_address: bool,
) -> TextRule
    ensures sections { result.sections.now ≡ sections.now }
    ensures key { result.key.now ≡ key.now }
    ensures fewest { result.fewest ≡ fewest }
    ensures longest { result.longest ≡ longest }
    ensures may_have_zero { result.may_have_zero ≡ may_have_zero }
    ensures must_be_address { result.must_be_address ≡ must_be_address }
{
    TextRule {
        sections,
        key,
        fewest,
        longest,
        may_have_zero,
        must_be_address,
    }
}

impl Text {
    /// Every key with texts, in the order in which they are told of.
    pub(crate) fn all() -> &'static [Text]
        ensures { result.now ≡ all_texts }
    {
        use Text::{Address, AddressRange, Listen, Password, Prefix, SystemId, SystemType};
        &[
            Listen,
            Address,
            SystemId,
            Password,
            SystemType,
            AddressRange,
            Prefix,
        ]
    }

    /// The row of the key.
    pub(crate) fn rule(self) -> TextRule
        ensures sections { result.sections.now ≡ (text_row self).sections }
        ensures key { result.key.now ≡ (text_row self).key }
        ensures fewest { result.fewest ≡ (text_row self).fewest }
        ensures longest { result.longest ≡ (text_row self).longest }
        ensures may_have_zero { result.may_have_zero ≡ (text_row self).may_have_zero }
        ensures must_be_address { result.must_be_address ≡ (text_row self).must_be_address }
        ensures read { IsTrue (list_all (λ section. is_read section (text_row self).key)
            (text_row self).sections) }
    {
        use Section::{Account, Top, Upstream};
        match self {
            Text::Listen => row(&[Top], "listen", 1, 255, true, true),
            Text::Address => row(&[Upstream], "address", 1, 255, true, true),
            Text::SystemId => row(&[Upstream, Account], "system_id", 1, 15, false, false),
            Text::Password => row(&[Upstream, Account], "password", 0, 8, false, false),
            Text::SystemType => row(&[Upstream], "system_type", 0, 12, false, false),
            Text::AddressRange => row(&[Upstream], "address_range", 0, 40, false, false),
            Text::Prefix => row(&[Account], "prefixes", 0, 64, true, false),
        }
    }

    /// What the text is in a table, in words for a person.
    pub(crate) fn means(self, section: Section) -> &'static str {
        match (self, section) {
            (Text::Listen, _) => "where clients connect, as `\"127.0.0.1:2775\"`",
            (Text::Address, _) => "where the centre listens, as `\"127.0.0.1:2776\"`",
            (Text::SystemId, Section::Account) => "what the client calls itself",
            (Text::SystemId, _) => "the proxy's own name there (SMPP 3.4, section 5.2.1)",
            (Text::Password, Section::Account) => "",
            (Text::Password, _) => "the proxy's own password there (section 5.2.2)",
            (Text::SystemType, _) => "the kind of client that the proxy is there (section 5.2.3)",
            (Text::AddressRange, _) => "whose messages the bind asks for (section 5.2.7)",
            (Text::Prefix, _) => {
                "the client gets messages whose destination begins with one of these; `\"\"` begins \
                 every address"
            }
        }
    }

    /// Whether the key stands in this table.
    pub(crate) fn stands_in(self, section: Section) -> bool
        ensures { result ≡ stands_in section self }
    {
        self.rule().sections.iter().any(|own| section.is(*own))
    }

    fn allows(self, text: &str) -> bool
        ensures { result ≡ is_text self text.now }
    {
        let rule = self.rule();
        let length = text.len();
        rule.fewest <= length
            && length <= rule.longest
            && (rule.may_have_zero || !has_zero(text.as_bytes()))
            && (!rule.must_be_address || is_address(text))
    }

    /// The text that a value is, where it may stand at this key.
    pub(crate) fn of(self, value: &Value) -> Option<&str>
        ensures value { option_copied result ≡ text_of self (view value.now) }
        ensures kept { IfSome result (λ s. IsTrue (is_text self s.now)) }
    {
        match value.as_str() {
            Some(text) => { if self.allows(text) { Some(text) } else { None } }
            None => None,
        }
    }

    /// The text at this key of a table.
    pub(crate) fn at(self, table: &Table) -> Option<&str>
        ensures value { option_copied result ≡ text_at self (table_view table.now) }
        ensures kept { IfSome result (λ s. IsTrue (is_text self s.now)) }
    {
        match find(table, self.rule().key) {
            Some(value) => self.of(value),
            None => None,
        }
    }

    /// The text at this key of a value that is a table.
    pub(crate) fn within(self, value: &Value) -> Option<&str>
        ensures value { option_copied result ≡ text_in self (view value.now) }
        ensures kept { IfSome result (λ s. IsTrue (is_text self s.now)) }
    {
        match value.get(self.rule().key) {
            Some(value) => self.of(value),
            None => None,
        }
    }

    /// The text at this key of a value that is a table, or the empty one where the key is absent.
    pub(crate) fn within_or_empty(self, value: &Value) -> Option<&str>
        ensures value { option_copied result ≡ text_or_empty self (view value.now) }
        ensures kept { IfSome result (λ s. IsTrue (is_text self s.now) ⊎ (s.now ≡ [])) }
    {
        match value.get(self.rule().key) {
            Some(value) => self.of(value),
            None => Some(""),
        }
    }
}

fn has_zero(octets: &[u8]) -> bool
    ensures { result ≡ has_zero octets.now }
{
    octets.contains(&0)
}
