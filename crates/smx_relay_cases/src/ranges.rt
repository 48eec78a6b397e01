//! The numbers that a configuration takes.
//!
//! Each key that takes numbers is tried at both ends of the range that the table of keys prints for it, and
//! one beyond, in a configuration of what has to be there.

use smx_config::{ConfigFault, key_table, read};
use std::alloc::{AllocError, Global};
use std::io;
use std::io::{ErrorKind, Write};

/// What has to be there, and a heading for each table that a key may stand in.
const BASE: &str = "listen = \"a:1\"\n[limits]\n[timers]\n\
                    [[upstream]]\naddress = \"b:2\"\nsystem_id = \"c\"\npassword = \"\"\n\
                    [[account]]\nsystem_id = \"d\"\npassword = \"\"\n";

// A number in which commas stand between each three of its digits.
fn number_of(alloc: Global, text: &str) -> Result<Option<i64>, AllocError> {
    Ok(text.replace(alloc, ",", "")?.parse::<i64>().ok())
}

// The least and the greatest number of a range in words.
fn ends(alloc: Global, may_be: &str) -> Result<Option<(i64, i64)>, AllocError> {
    let Some((least, most)) = may_be.split_once(" to ") else {
        return Ok(None);
    };
    match (number_of(alloc, least)?, number_of(alloc, most)?) {
        (Some(least), Some(most)) => Ok(Some((least, most))),
        _ => Ok(None),
    }
}

// The configuration with this number at the key, below the heading or, where that is empty, first.
fn with_number(alloc: Global, heading: &str, key: &str, number: i64) -> Result<String, AllocError> {
    if heading.is_empty() {
        return format!(in alloc; "{key} = {number}\n{BASE}");
    }
    let (before, after) = BASE.split_once(heading).unwrap_or((BASE, ""));
    format!(in alloc; "{before}{heading}\n{key} = {number}{after}")
}

// Which of the numbers at the ends of a range and beside them may stand at the key.
fn tell_range(
    alloc: Global,
    heading: &str,
    key: &str,
    range: (i64, i64),
    out: &mut Vec<u8>,
) -> io::Result<()> {
    let (least, most) = range;
    let below = if heading.is_empty() { "" } else { " " };
    write!(out, "{heading}{below}{key}:")?;
    for number in [least.saturating_sub(1), least, most, most.saturating_add(1)] {
        let text = with_number(alloc, heading, key, number)?;
        match read(alloc, &text) {
            Ok(_) => write!(out, " {number} true")?,
            Err(ConfigFault::NoMemory) => return Err(io::Error::from(ErrorKind::OutOfMemory)),
            Err(_) => write!(out, " {number} false")?,
        }
    }
    writeln!(out)
}

// The heading of a table's rows, which is empty for those before the first, and the rows.
fn parts(piece: &str) -> (&str, &str) {
    piece.split_once("`**").unwrap_or(("", piece))
}

// A line for each key of these rows that takes numbers.
fn tell_rows(alloc: Global, heading: &str, rows: &str, out: &mut Vec<u8>) -> io::Result<()> {
    for row in rows.lines() {
        let mut cells = row.split(" | ");
        let key = cells.next().unwrap_or("").trim_matches(&['|', ' ', '`']);
        if let Some(range) = ends(alloc, cells.nth(1).unwrap_or(""))? {
            tell_range(alloc, heading, key, range, out)?;
        }
    }
    Ok(())
}

/// A line for each key of the table that takes numbers.
pub fn tell_ranges(alloc: Global, out: &mut Vec<u8>) -> io::Result<()> {
    let table = key_table(alloc)?;
    for piece in table.split("| **`") {
        let (heading, rows) = parts(piece);
        tell_rows(alloc, heading, rows, out)?;
    }
    Ok(())
}
