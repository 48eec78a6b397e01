//! How grave a line is, and in which form lines are written.
ghost use Rattle.std.specs.Prelude.{◌≡◌, ◌≤◌, nat_le};
ghost use Rattle.smx_notice.specs.Lines.{priority};

use thiserror::Error;

/// How grave a line is.
#[derive(Clone, Copy, Debug, PartialEq, Eq, Error)]
pub enum Level {
    /// Something doesn't work until somebody does something.
    #[error("error")]
    Error,
    /// Something was refused, lost or left out.
    #[error("warn")]
    Warn,
    #[error("info")]
    Info,
}

impl Level {
    /// Its name, as the key `log_level` has it.
    pub fn word(self) -> &'static str {
        match self {
            Level::Error => "error",
            Level::Warn => "warn",
            Level::Info => "info",
        }
    }

    /// Its number among the priorities of syslog(3), as sd-daemon(3) has them before a line.
    pub fn priority(self) -> u8
        ensures value { result ≡ priority self }
    {
        match self {
            Level::Error => 3,
            Level::Warn => 4,
            Level::Info => 6,
        }
    }

    /// Whether a line of this level is written where lines are from `self` on.
    pub fn lets(self, level: Level) -> bool
        ensures graver { result ≡ nat_le (priority level) (priority self) }
    {
        level.priority() <= self.priority()
    }
}

/// How a line is written.
#[derive(Clone, Copy, Debug, PartialEq, Eq)]
pub enum Form {
    /// Time (RFC 3339, UTC, milliseconds), level, words.
    Text,
    /// One object a line.
    Json,
    /// The level's priority as of sd-daemon(3), as `<6>`, and the words.
    Journal,
}
