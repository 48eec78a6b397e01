//! What the proxy binds as.
ghost use Rattle.std.specs.Prelude.{◌≡◌};
ghost use Rattle.toml.specs.View.{view};
ghost use Rattle.smx_config.specs.Choices.{kind_word, all_kinds, meant};
ghost use Rattle.smx_config.specs.Settings.{kind_in};

use crate::choice::Choice;
use toml::Value;

/// What a bind to the centre is for (SMPP 3.4, section 2.2).
#[derive(Clone, Copy, Debug, PartialEq, Eq)]
pub enum BindKind {
    /// Requests and messages.
    Transceiver,
    /// Requests alone.
    Transmitter,
    /// Messages alone.
    Receiver,
}

impl BindKind {
    /// Each of them, in the order in which they are told of.
    pub(crate) fn all() -> &'static [BindKind]
        ensures { result.now ≡ all_kinds }
    {
        &[
            BindKind::Transceiver,
            BindKind::Transmitter,
            BindKind::Receiver,
        ]
    }

    /// How a file writes it.
    pub(crate) fn word(self) -> &'static str
        ensures { result.now ≡ kind_word self }
    {
        match self {
            BindKind::Transceiver => "transceiver",
            BindKind::Transmitter => "transmitter",
            BindKind::Receiver => "receiver",
        }
    }

    fn meant(word: &str) -> Option<BindKind>
        ensures { result ≡ meant kind_word all_kinds word.now }
    {
        BindKind::all()
            .iter()
            .copied()
            .find(|one| word == one.word())
    }

    /// Which it is at its key of a value that is a table, or the default where the key is absent.
    pub(crate) fn within(value: &Value) -> Option<BindKind>
        ensures { result ≡ kind_in (view value.now) }
    {
        match Choice::Bind.within(value)? {
            Some(word) => BindKind::meant(word),
            None => Some(BindKind::Transceiver),
        }
    }
}
