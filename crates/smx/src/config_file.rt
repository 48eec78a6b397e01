//! The check of a configuration's file.
use crate::machine::{Amount, is_open, memory};
use crate::watched::{Because, Watched};
use smx_config::{
    Config, ConfigFault, FileFault, bodies_held, check, counsel, faults, key_table, read,
    read_text, reject, unread,
};
use std::process::ExitCode;
use std::rt::Files;
use std::{fs, io};

// The text of a file. Where there is none, that is said.
fn text_of<R: Files + Eprint + AllocGlobal>(rt: &R, path: &str) -> Result<String, FileFault> {
    let file = match fs::open(rt, path) {
        Ok(file) => file,
        Err(error) => {
            let _ = eprintln!(rt; "{path}: {error}");
            return Err(FileFault::Failed);
        }
    };
    let mut file = Watched::new(file);
    match read_text(rt.alloc(), &mut file) {
        Ok(text) => Ok(text),
        Err(fault) => {
            let error = file.error();
            let _ = eprintln!(rt; "{path}: {}", Because { fault, error });
            Err(fault)
        }
    }
}

// Says on standard error what is wrong with a text, and what would be right. A fault that isn't met again
// was want of memory.
fn tell_faults<R: Eprint + AllocGlobal>(rt: &R, path: &str, text: &str) {
    match faults(rt.alloc(), text) {
        Ok(all) if !all.is_empty() => {
            for words in all.iter() {
                let _ = eprintln!(rt; "{path}: {words}");
            }
        }
        _ => {
            let _ = eprintln!(rt; "{path}: {}", ConfigFault::NoMemory);
        }
    }
}

// Says on standard error that there is no memory to say more.
fn tell_no_memory<R: Eprint>(rt: &R, path: &str) {
    let _ = eprintln!(rt; "{path}: out of memory; not all that is to be said of it is said");
}

// Says on standard error what may be meant otherwise in a configuration; whether anything was said.
fn tell_counsel<R: Files + Eprint + AllocGlobal>(rt: &R, path: &str, config: &Config) -> bool {
    let Ok(all) = counsel(rt.alloc(), config) else {
        tell_no_memory(rt, path);
        return true;
    };
    for advice in all.iter() {
        let _ = eprintln!(rt; "{path}: {advice}");
    }
    let held = bodies_held(config);
    let is_much = memory(rt) < held;
    if is_much {
        let amount = Amount(held);
        let _ = eprintln!(rt;
            "{path}: at these limits the bodies held may come to {amount}; see OPERATING"
        );
    }
    is_much || !all.is_empty()
}

// The same of a file and the text that it has.
fn tell_advice<R: Files + Eprint + AllocGlobal>(rt: &R, path: &str, text: &str) -> bool {
    let is_said = match read(rt.alloc(), text) {
        Ok(config) => tell_counsel(rt, path, &config),
        Err(_) => false,
    };
    let is_open = is_open(rt, path);
    if is_open {
        let _ = eprintln!(rt; "{path}: others than its owner can read its passwords: chmod 600 it");
    }
    is_said || is_open
}

// Says on standard error which keys of a text nobody reads; whether any was said.
fn name_unread<R: Eprint + AllocGlobal>(rt: &R, path: &str, text: &str) -> bool {
    let Ok(all) = unread(rt.alloc(), text) else {
        tell_no_memory(rt, path);
        return true;
    };
    for words in all.iter() {
        let _ = eprintln!(rt; "{path}: {words}");
    }
    !all.is_empty()
}

// Writes the line of the check of a file that gives no text.
fn refuse<R: Print + Eprint>(rt: &R, fault: FileFault) {
    let mut writer = io::writer(rt);
    if let Err(fault) = reject(fault, &mut writer) {
        let _ = eprintln!(rt; "{fault}");
    }
}

/// The configuration in the file with this path. Where it has none, the line of the check goes to
/// standard output.
pub(crate) fn config_of<R: Files + Print + Eprint + AllocGlobal>(
    rt: &R,
    path: &str,
) -> Option<Config> {
    match text_of(rt, path) {
        Ok(text) => match read(rt.alloc(), &text) {
            Ok(config) => Some(config),
            Err(_) => {
                check_text(rt, path, &text);
                None
            }
        },
        Err(fault) => {
            refuse(rt, fault);
            None
        }
    }
}

// Writes the line of the check for a text.
fn check_text<R: Print + Eprint + AllocGlobal>(rt: &R, path: &str, text: &str) -> ExitCode {
    let mut writer = io::writer(rt);
    match check(rt.alloc(), text, &mut writer) {
        Ok(true) => ExitCode::SUCCESS,
        Ok(false) => {
            tell_faults(rt, path, text);
            ExitCode::FAILURE
        }
        Err(fault) => {
            let _ = eprintln!(rt; "{fault}");
            ExitCode::FAILURE
        }
    }
}

// The first fault of a text in words.
fn words_on<R: AllocGlobal>(rt: &R, path: &str, text: &str, fault: ConfigFault) -> Option<String> {
    let alloc = rt.alloc();
    let all = faults(alloc, text).ok()?;
    match all.first() {
        Some(words) => format!(in alloc; "{path}: {words}").ok(),
        None => format!(in alloc; "{path}: {fault}").ok(),
    }
}

/// The configuration in the file with this path as it is now, or what is wrong with that, in words. There
/// are none where there is no memory for them.
pub(crate) fn read_again<R: Files + AllocGlobal>(
    rt: &R,
    path: &str,
) -> Result<Config, Option<String>> {
    let alloc = rt.alloc();
    let file = match fs::open(rt, path) {
        Ok(file) => file,
        Err(error) => return Err(format!(in alloc; "{path}: {error}").ok()),
    };
    let mut file = Watched::new(file);
    let text = match read_text(alloc, &mut file) {
        Ok(text) => text,
        Err(fault) => {
            let error = file.error();
            return Err(format!(in alloc; "{path}: {}", Because { fault, error }).ok());
        }
    };
    match read(alloc, &text) {
        Ok(config) => Ok(config),
        Err(fault) => Err(words_on(rt, path, &text, fault)),
    }
}

/// Checks the file with this path. The line of the check goes to standard output; all that is wrong, what
/// nobody reads and what may be meant otherwise, in words that nothing fixes, to standard error. Where it is
/// strict the status is 1 if anything was said.
pub(crate) fn run<R: Files + Print + Eprint + AllocGlobal>(
    rt: &R,
    path: &str,
    is_strict: bool,
) -> ExitCode {
    match text_of(rt, path) {
        Ok(text) => {
            let status = check_text(rt, path, &text);
            let has_unread = name_unread(rt, path, &text);
            let has_advice = tell_advice(rt, path, &text);
            if is_strict && (has_unread || has_advice) {
                ExitCode::FAILURE
            } else {
                status
            }
        }
        Err(fault) => {
            refuse(rt, fault);
            ExitCode::FAILURE
        }
    }
}

/// Writes the table of the keys that a configuration may have to standard output.
pub(crate) fn tell_keys<R: Print + Eprint + AllocGlobal>(rt: &R) -> ExitCode {
    let Ok(table) = key_table(rt.alloc()) else {
        let _ = eprintln!(rt; "out of memory");
        return ExitCode::FAILURE;
    };
    match print!(rt; "{table}") {
        Ok(()) => ExitCode::SUCCESS,
        Err(error) => {
            let _ = eprintln!(rt; "{error}");
            ExitCode::FAILURE
        }
    }
}
