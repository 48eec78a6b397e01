//! Which bodies of requests are let through.
ghost use Rattle.std.specs.Prelude.{◌≡◌};
ghost use Rattle.toml.specs.View.{view};
ghost use Rattle.smx_config.specs.Choices.{bodies_word, all_bodies, meant};
ghost use Rattle.smx_config.specs.Settings.{bodies_in};

use crate::choice::Choice;
use toml::Value;

/// Which bodies a request of an account's clients may have.
#[derive(Clone, Copy, Debug, PartialEq, Eq)]
pub enum Bodies {
    /// Any octets: they aren't read.
    Any,
    /// Those whose mandatory fields can be read (SMPP 3.4, sections 4.4 to 4.11).
    Readable,
}

impl Bodies {
    /// Each of them, in the order in which they are told of.
    pub(crate) fn all() -> &'static [Bodies]
        ensures { result.now ≡ all_bodies }
    {
        &[Bodies::Any, Bodies::Readable]
    }

    /// How a file writes it.
    pub(crate) fn word(self) -> &'static str
        ensures { result.now ≡ bodies_word self }
    {
        match self {
            Bodies::Any => "any",
            Bodies::Readable => "readable",
        }
    }

    fn meant(word: &str) -> Option<Bodies>
        ensures { result ≡ meant bodies_word all_bodies word.now }
    {
        Bodies::all().iter().copied().find(|one| word == one.word())
    }

    /// Which it is at its key of a value that is a table, or the default where the key is absent.
    pub(crate) fn within(value: &Value) -> Option<Bodies>
        ensures { result ≡ bodies_in (view value.now) }
    {
        match Choice::Bodies.within(value)? {
            Some(word) => Bodies::meant(word),
            None => Some(Bodies::Any),
        }
    }
}
