//! The names of requests.
ghost use Rattle.std.specs.Prelude.{◌≡◌};
ghost use Rattle.toml.specs.View.{view};
ghost use Rattle.smx_config.specs.Choices.{command_word, all_command_names, meant};
ghost use Rattle.smx_config.specs.Settings.{command_of};

use toml::Value;

/// A request that a client may send (SMPP 3.4, section 5.1.2.1).
#[derive(Clone, Copy, Debug, PartialEq, Eq)]
pub(crate) enum Command {
    SubmitSm,
    SubmitMulti,
    DataSm,
    QuerySm,
    CancelSm,
    ReplaceSm,
}

impl Command {
    /// Each of them, in the order in which they are told of.
    pub(crate) fn all() -> &'static [Command]
        ensures { result.now ≡ all_command_names }
    {
        use Command::{CancelSm, DataSm, QuerySm, ReplaceSm, SubmitMulti, SubmitSm};
        &[SubmitSm, SubmitMulti, DataSm, QuerySm, CancelSm, ReplaceSm]
    }

    /// How a file writes it.
    pub(crate) fn word(self) -> &'static str
        ensures { result.now ≡ command_word self }
    {
        match self {
            Command::SubmitSm => "submit_sm",
            Command::SubmitMulti => "submit_multi",
            Command::DataSm => "data_sm",
            Command::QuerySm => "query_sm",
            Command::CancelSm => "cancel_sm",
            Command::ReplaceSm => "replace_sm",
        }
    }

    fn meant(word: &str) -> Option<Command>
        ensures { result ≡ meant command_word all_command_names word.now }
    {
        Command::all()
            .iter()
            .copied()
            .find(|one| word == one.word())
    }

    /// The one that a value names.
    pub(crate) fn of(value: &Value) -> Option<Command>
        ensures { result ≡ command_of (view value.now) }
    {
        match value.as_str() {
            Some(word) => Command::meant(word),
            None => None,
        }
    }
}
