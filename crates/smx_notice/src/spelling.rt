//! A notice as a line, in each form.
ghost use Rattle.std.specs.Prelude.{string_bytes, IfOk};
ghost use Rattle.smx_notice.specs.Lines.{IsLine};

use crate::level::Form;
use crate::notice::Notice;
use crate::object::Object;
use crate::plain::line_of;
use jiff::Timestamp;
use std::alloc::{AllocError, Global};

// A moment, in milliseconds since 1970-01-01 UTC, as RFC 3339 has it. One behind the year 9999 is 1970.
fn time_of(alloc: Global, millis: u64) -> Result<String, AllocError> {
    let moment = match Timestamp::from_millisecond(i64::try_from(millis).unwrap_or(0)) {
        Ok(moment) => moment,
        Err(_) => Timestamp::UNIX_EPOCH,
    };
    format!(in alloc; "{moment:.3}")
}

// The notice as an object of JSON.
fn object_of(alloc: Global, millis: u64, notice: Notice<'_>) -> Result<String, AllocError> {
    let facts = notice.facts();
    let object = Object {
        time: time_of(alloc, millis)?,
        party: match facts.party {
            Some(party) => Some(format!(in alloc; "{party}")?),
            None => None,
        },
        status: match facts.status {
            Some(status) => Some(format!(in alloc; "{status}")?),
            None => None,
        },
        reason: match facts.reason {
            Some(reason) => Some(format!(in alloc; "{reason}")?),
            None => None,
        },
        text: format!(in alloc; "{notice}")?,
        facts,
    };
    match serde_json::to_string(alloc, &object) {
        Ok(text) => Ok(text),
        Err(_) => Err(AllocError),
    }
}

/// A notice as one line with its end, of this moment in milliseconds since 1970-01-01 UTC, which `Journal`
/// leaves out. What isn't printable ASCII is escaped as in JSON.
pub fn spell(
    alloc: Global,
    form: Form,
    millis: u64,
    notice: Notice<'_>,
) -> Result<String, AllocError>
    ensures one_line { IfOk result (λ line. IsLine (string_bytes line)) }
{
    let level = notice.facts().level;
    let text = match form {
        Form::Text => {
            let time = time_of(alloc, millis)?;
            format!(in alloc; "{time} {level} {notice}")?
        }
        Form::Json => object_of(alloc, millis, notice)?,
        Form::Journal => {
            let priority = level.priority();
            format!(in alloc; "<{priority}>{notice}")?
        }
    };
    line_of(alloc, text.as_str())
}
