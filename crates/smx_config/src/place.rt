//! Where a key stands in a text.

use crate::section::Section;

// The name of the table that a line begins.
fn heading(line: &str) -> Option<&str> {
    let inner = line.trim_start().strip_prefix("[")?;
    let inner = inner.strip_prefix("[").unwrap_or(inner);
    let (name, _) = inner.split_once("]")?;
    Some(name.trim())
}

// The key that stands in a line.
fn key_of(line: &str) -> Option<&str> {
    let (key, _) = line.split_once("=")?;
    let key = key.trim();
    let bare = match key.strip_prefix("\"") {
        Some(quoted) => quoted.strip_suffix("\""),
        None => None,
    };
    Some(bare.unwrap_or(key))
}

/// The line of a key in the table with this index of its kind, counted from 1, or that of the table where
/// it isn't found there. None where no line begins such a table.
pub(crate) fn line_of(text: &str, section: Section, index: usize, key: &str) -> Option<usize> {
    let mut is_here = section.is(Section::Top);
    let mut found = None;
    let mut left = index;
    let mut number = 0_usize;
    for line in text.lines() {
        number = number.saturating_add(1);
        if let Some(name) = heading(line) {
            if is_here {
                return found;
            }
            if name == section.name() {
                if left == 0 {
                    is_here = true;
                    found = Some(number);
                } else {
                    left -= 1;
                }
            }
        } else if is_here && key_of(line) == Some(key) {
            return Some(number);
        }
    }
    found
}
