//! The requests that the clients of an account may send.
ghost use Rattle.std.specs.Prelude.{◌≡◌};
ghost use Rattle.toml.specs.View.{view, items_view};
ghost use Rattle.smx_config.specs.Choices.{all_commands, no_commands, with_command};
ghost use Rattle.smx_config.specs.Settings.{commands_after, commands_in};

use crate::choice::Choice;
use crate::command::Command;
use toml::Value;

/// The requests that the clients of an account may send, each where it is true.
#[derive(Clone, Copy, Debug, PartialEq, Eq)]
pub struct Commands {
    pub submit_sm: bool,
    pub submit_multi: bool,
    pub data_sm: bool,
    pub query_sm: bool,
    pub cancel_sm: bool,
    pub replace_sm: bool,
}

impl Commands {
    const fn none() -> Commands
        ensures { result ≡ no_commands }
    {
        Commands {
            submit_sm: false,
            submit_multi: false,
            data_sm: false,
            query_sm: false,
            cancel_sm: false,
            replace_sm: false,
        }
    }

    /// All six.
    pub const fn all() -> Commands
        ensures { result ≡ all_commands }
    {
        Commands {
            submit_sm: true,
            submit_multi: true,
            data_sm: true,
            query_sm: true,
            cancel_sm: true,
            replace_sm: true,
        }
    }

    // These and one more.
    fn with(self, command: Command) -> Commands
        ensures { result ≡ with_command self command }
    {
        let mut so = self;
        match command {
            Command::SubmitSm => so.submit_sm = true,
            Command::SubmitMulti => so.submit_multi = true,
            Command::DataSm => so.data_sm = true,
            Command::QuerySm => so.query_sm = true,
            Command::CancelSm => so.cancel_sm = true,
            Command::ReplaceSm => so.replace_sm = true,
        }
        so
    }

    // Those that values name.
    fn named(values: &[Value]) -> Option<Commands>
        ensures { result ≡ commands_after no_commands (items_view values.now) }
    {
        let mut so = Commands::none();
        for value in values {
            let Some(command) = Command::of(value) else {
                return None;
            };
            so = so.with(command);
        }
        Some(so)
    }

    /// Those of a value that is the table of an account: all where the key is absent.
    pub(crate) fn within(value: &Value) -> Option<Commands>
        ensures { result ≡ commands_in (view value.now) }
    {
        match value.get(Choice::Commands.rule().key) {
            Some(value) => match value.as_array() {
                Some(values) => Commands::named(values.as_slice()),
                None => None,
            },
            None => Some(Commands::all()),
        }
    }
}
