//! Counts with their words.

use std::fmt;

/// So many things, with the word for one of them and the word for several.
#[derive(Clone, Copy, Debug)]
pub(crate) struct Count(
    pub(crate) u64,
    pub(crate) &'static str,
    pub(crate) &'static str,
);

impl fmt::Display for Count {
    fn fmt<W: fmt::Write>(&self, f: &mut fmt::Formatter<W>) -> fmt::Result {
        let Count(count, one, several) = *self;
        write!(f, "{count} {}", if count == 1 { one } else { several })
    }
}

/// So many requests.
pub(crate) fn requests(count: u64) -> Count {
    Count(count, "request", "requests")
}
