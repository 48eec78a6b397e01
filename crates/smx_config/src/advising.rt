//! What is wrong with a configuration and what would be right, in words for a person.
ghost use Rattle.std.specs.Prelude.{◌≡◌, List, ℕ, [], ◌++◌, Some, IfOk, IfErr, OnOk, is_ok, true, option_map, slice_get, string_bytes};
ghost use Rattle.smx_config.specs.Settings.{settings_of};
ghost use Rattle.smx_config.specs.Lines.{fault_place};

use crate::fault::ConfigFault;
use crate::findings::{Finding, findings};
use crate::reading::read;
use std::alloc::{AllocError, Global};

// What stands before the words on a part of the configuration.
fn place(alloc: Global, fault: ConfigFault) -> Result<String, AllocError>
    ensures { IfOk result (λ place. string_bytes place ≡ fault_place fault) }
{
    match fault {
        ConfigFault::Limits => String::from_str(alloc, "limits: "),
        ConfigFault::Timers => String::from_str(alloc, "timers: "),
        ConfigFault::Upstream(index) => format!(in alloc; "upstream {index}: "),
        ConfigFault::Account(index) => format!(in alloc; "account {index}: "),
        _ => Ok(String::new(alloc)),
    }
}

// Words on a text that isn't TOML, in one line: where it isn't, and why.
fn on_toml(alloc: Global, error: &toml::de::Error) -> Result<String, AllocError> {
    let lines = format!(in alloc; "{error}")?;
    match lines.as_str().trim_end().split_once("\n") {
        Some((place, why)) => {
            format!(in alloc; "the text is not TOML: {place}: {}", why.escape_debug())
        }
        None => {
            let why = lines.as_str().trim_end();
            format!(in alloc; "the text is not TOML: {}", why.escape_debug())
        }
    }
}

// All that is wrong with a text.
fn found_in(alloc: Global, text: &str) -> Result<Vec<Finding>, AllocError> {
    match toml::table_from_str(alloc, text) {
        Ok(table) => findings(alloc, text, &table),
        Err(error) if error.is_memory() => Err(AllocError),
        Err(error) => {
            let fault = ConfigFault::NotToml;
            let words = on_toml(alloc, &error)?;
            let mut all = Vec::new(alloc);
            all.push(Finding { fault, words })?;
            Ok(all)
        }
    }
}

// A sentence on a fault.
fn sentence(alloc: Global, fault: ConfigFault, words: &str) -> Result<String, AllocError>
    ensures { IfOk result (λ sentence. string_bytes sentence ≡ fault_place fault ++ words.now) }
{
    let mut sentence = place(alloc, fault)?;
    sentence.push_str(words)?;
    Ok(sentence)
}

// The words on this fault, where they can't say more the fault's own, and a sentence on each other finding.
fn parted(
    alloc: Global,
    found: &[Finding],
    fault: ConfigFault,
) -> Result<(String, Vec<String>), AllocError> {
    let mut words = None;
    let mut others = Vec::new(alloc);
    for finding in found {
        if words.is_none() && finding.fault == fault {
            words = Some(String::from_str(alloc, finding.words.as_str())?);
        } else {
            others.push(sentence(alloc, finding.fault, finding.words.as_str())?)?;
        }
    }
    match words {
        Some(words) => Ok((words, others)),
        None => Ok((format!(in alloc; "{fault}")?, others)),
    }
}

// What is wrong with a text of this fault, which is told first.
fn told(alloc: Global, text: &str, fault: ConfigFault) -> Result<Vec<String>, AllocError>
    ensures { IfOk result (λ all. (words : List ℕ) × (option_map string_bytes
        (slice_get all.items 0) ≡ Some (fault_place fault ++ words))) }
{
    let found = found_in(alloc, text)?;
    let (words, mut others) = parted(alloc, &found, fault)?;
    let first = sentence(alloc, fault, words.as_str())?;
    let mut all = Vec::new(alloc);
    all.push(first)?;
    all.append(&mut others)?;
    Ok(all)
}

/// Says of each key of a text that is at fault what its limit is and what would be right, in a sentence
/// each, with the line where it stands: first of the fault that reading it meets, then of the others in
/// the order of the file's keys. There is none where the text is a configuration. Of their words no clause
/// says more than the place with which the first begins.
pub fn faults(alloc: Global, text: &str) -> Result<Vec<String>, AllocError>
    ensures none { IfOk result (λ all. is_ok (settings_of text.now) ≡ true → all.items ≡ []) }
    ensures first { IfOk result (λ all. IfErr (settings_of text.now) (λ fault. (words : List ℕ)
        × (option_map string_bytes (slice_get all.items 0)
        ≡ Some (fault_place fault ++ words)))) }
{
    match read(alloc, text) {
        Ok(_) => Ok(Vec::new(alloc)),
        Err(fault) if fault.is_memory() => Err(AllocError),
        Err(fault) => told(alloc, text, fault),
    }
}
