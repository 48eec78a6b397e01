//! What the tests assert of rows of data.

use std::alloc::Global;
use std::fmt::Display;
use std::process::Abort;
use std::test::*;

/// Asserts that the row at the index, of those that are named so, holds.
pub(crate) fn check(rt: &impl Abort, holds: bool, name: &str, at: usize) {
    assert!(rt; holds, "{name}: row {at}");
}

/// Whether the value is printed so.
pub(crate) fn says<T: Display>(rt: &impl Abort, alloc: Global, value: &T, words: &str) -> bool {
    let text = format!(in alloc; "{value}").expect(rt, "out of memory");
    text.as_str() == words
}
