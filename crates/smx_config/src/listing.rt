//! What is wrong with a list, in words for a person. Items are numbered from 0.

use crate::table::find;
use crate::text::Text;
use std::alloc::{AllocError, Global};
use toml::{Table, Value};

// Words on a list that isn't one of tables, of which there may be so many.
fn on_tables(
    alloc: Global,
    key: &str,
    most: usize,
    values: &[Value],
) -> Result<Option<String>, AllocError> {
    let count = values.len();
    if count == 0 || count > most {
        let words = format!(in alloc; "{key} has {count} tables: write 1 to {most}")?;
        return Ok(Some(words));
    }
    match values.iter().position(|value| !value.is_table()) {
        Some(index) => {
            let words = format!(in alloc;
                "{key} has {count} items, of which item {index} is no table: write [[{key}]]"
            )?;
            Ok(Some(words))
        }
        None => Ok(None),
    }
}

/// Words on the list of tables at a key, unless it is as it may be.
pub(crate) fn on_table_list(
    alloc: Global,
    key: &str,
    most: usize,
    table: &Table,
) -> Result<Option<String>, AllocError> {
    let what = match find(table, key) {
        None => "is missing",
        Some(value) => match value.as_array() {
            Some(values) => return on_tables(alloc, key, most, values.as_slice()),
            None => {
                if value.is_table() {
                    "is one table in single brackets"
                } else {
                    "is no list of tables"
                }
            }
        },
    };
    let words = format!(in alloc; "{key} {what}: write [[{key}]] and its keys below it")?;
    Ok(Some(words))
}

// The first of the values before an index that is this text.
fn first_of(values: &[Value], before: usize, text: &str) -> Option<usize> {
    let mut index = 0;
    for value in values {
        if index >= before {
            return None;
        }
        if value.as_str() == Some(text) {
            return Some(index);
        }
        index = index.saturating_add(1);
    }
    None
}

// Words on an item of the prefixes, unless it is as it may be.
fn on_prefix(
    alloc: Global,
    values: &[Value],
    index: usize,
    value: &Value,
) -> Result<Option<String>, AllocError> {
    let Some(text) = value.as_str() else {
        let words = format!(in alloc; "prefixes: item {index} is no text: write \"49\"")?;
        return Ok(Some(words));
    };
    let length = text.len();
    let longest = Text::Prefix.rule().longest;
    if length > longest {
        let words = format!(in alloc;
            "prefixes: item {index} has {length} octets: write at most {longest}"
        )?;
        return Ok(Some(words));
    }
    match first_of(values, index, text) {
        Some(first) => {
            let words = format!(in alloc;
                "prefixes: item {index} is the same as item {first}: write each once"
            )?;
            Ok(Some(words))
        }
        None => Ok(None),
    }
}

/// Words on a list of prefixes, unless it is as it may be.
pub(crate) fn on_prefixes(
    alloc: Global,
    value: &Value,
    most: usize,
) -> Result<Option<String>, AllocError> {
    let Some(list) = value.as_array() else {
        let words = "prefixes is no list: write prefixes = [\"49\"]";
        return Ok(Some(String::from_str(alloc, words)?));
    };
    let values = list.as_slice();
    let count = values.len();
    if count > most {
        let words = format!(in alloc; "prefixes has {count} items: write at most {most}")?;
        return Ok(Some(words));
    }
    for (index, value) in values.iter().enumerate() {
        let words = on_prefix(alloc, values, index, value)?;
        if words.is_some() {
            return Ok(words);
        }
    }
    Ok(None)
}
