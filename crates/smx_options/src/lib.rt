//! The command line: what it asks for, or why it can't be read.
#![tactic(auto)]

mod options;
mod words;

use clap::Error;
pub use options::{Asked, LogForm, Serving, VERSION};
use std::process::ExitCode;
use std::rt::Env;

/// The status where the command line is wrong.
const USAGE: u8 = 2;

// Says what is wrong with the command line, or the help or the version that it asks for.
fn say<R: Print + Eprint>(rt: &R, error: &Error) -> ExitCode {
    let printed = error.print(rt);
    if error.use_stderr() {
        return ExitCode::from(USAGE);
    }
    match printed {
        Ok(()) => ExitCode::SUCCESS,
        Err(_) => ExitCode::FAILURE,
    }
}

/// The words of the command line, the program's name first. Where one isn't UTF-8, or there is no
/// memory, that is said on standard error, and the status is 2.
pub fn words_of<R: Env + Eprint + AllocGlobal>(rt: &R) -> Result<Vec<String>, ExitCode> {
    match words::words_of(rt) {
        Ok(found) => Ok(found),
        Err(_) => {
            words::say_bad(rt);
            Err(ExitCode::from(USAGE))
        }
    }
}

/// What these words ask for. Else what is wrong with them is said on standard error, with status 2, or
/// the help or the version on standard output, with status 0, or 1 where it can't be written.
pub fn asked_of<'a, R: Print + Eprint + AllocGlobal>(
    rt: &R,
    words: &'a [String],
) -> Result<Asked<'a>, ExitCode> {
    match options::read(rt.alloc(), words) {
        Ok(asked) => Ok(asked),
        Err(error) => Err(say(rt, &error)),
    }
}
