//! A script that is run.
use crate::watched::{Because, Watched};
use smx_relay::{RunEnd, new_state, run_on};
use std::alloc::Global;
use std::io::{BufWriter, Read, Write};
use std::process::ExitCode;
use std::rt::Files;
use std::{fs, io, mem};

// Runs a script. What it reserved is left to the system, which takes it back when the program ends.
fn run<S: Read, W: Write>(alloc: Global, reader: &mut S, writer: &mut W) -> RunEnd {
    match new_state(alloc) {
        Ok(mut state) => {
            let end = run_on(alloc, &mut state, reader, writer);
            mem::forget(state);
            end
        }
        Err(_) => RunEnd::NoMemory,
    }
}

// Runs a script from a reader. What it prints is flushed in any case.
fn run_from<R: Print + Eprint + AllocGlobal, S: Read + Drop>(rt: &R, reader: S) -> ExitCode {
    let Ok(mut writer) = BufWriter::new(rt.alloc(), io::writer(rt)) else {
        let _ = eprintln!(rt; "{}", RunEnd::NoMemory);
        return ExitCode::FAILURE;
    };
    let mut reader = Watched::new(reader);
    let end = run(rt.alloc(), &mut reader, &mut writer);
    let flushed = writer.flush();
    let is_said_below = end == RunEnd::WriteFault && flushed.is_err();
    if end != RunEnd::Clean && !is_said_below {
        let error = reader.error();
        let _ = eprintln!(rt; "{}", Because { fault: end, error });
    }
    match flushed {
        Ok(()) if end == RunEnd::Clean => ExitCode::SUCCESS,
        Ok(()) => ExitCode::FAILURE,
        Err(error) => {
            let fault = RunEnd::WriteFault;
            let error = Some(error);
            let _ = eprintln!(rt; "{}", Because { fault, error });
            ExitCode::FAILURE
        }
    }
}

/// Runs the script in the file with this path.
pub(crate) fn run_file<R: Files + Print + Eprint + AllocGlobal>(rt: &R, path: &str) -> ExitCode {
    match fs::open(rt, path) {
        Ok(file) => run_from(rt, file),
        Err(error) => {
            let _ = eprintln!(rt; "{path}: {error}");
            ExitCode::FAILURE
        }
    }
}

/// Runs a script from standard input. Where that is a terminal, whoever sits there is told.
pub(crate) fn run_input<R: Input + Print + Eprint + AllocGlobal>(
    rt: &R,
    is_terminal: bool,
) -> ExitCode {
    if is_terminal {
        let _ = eprintln!(rt; "lines of a script are awaited; Ctrl-D ends them and runs them");
    }
    run_from(rt, rt.reader())
}
