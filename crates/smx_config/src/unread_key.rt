//! A key that nobody reads.

use std::fmt;

/// A key that is spelled almost as one that nobody reads.
#[derive(Clone, Copy, Debug)]
pub struct NearKey {
    pub key: &'static str,
    /// Where it is read, in words, where that is another table than the one at hand.
    pub place: Option<&'static str>,
}

impl fmt::Display for NearKey {
    fn fmt<W: fmt::Write>(&self, f: &mut fmt::Formatter<W>) -> fmt::Result {
        match self.place {
            Some(place) => write!(f, "did you mean {} {place}?", self.key),
            None => write!(f, "did you mean {}?", self.key),
        }
    }
}

/// A key that nobody reads. It shows itself in a sentence, without its value, which may be a password, and
/// with what isn't printable of its name as an escape.
#[derive(Debug, Drop)]
pub struct UnreadKey {
    /// The key behind the table where it stands, as `upstream 0: adress`.
    pub name: String,
    /// Where the key is read, in words: at most two places.
    pub places: Vec<&'static str>,
    /// The nearest key of its table, or, where it is read nowhere, of the first other table, where one is near.
    pub nearest: Option<NearKey>,
}

impl fmt::Display for UnreadKey {
    fn fmt<W: fmt::Write>(&self, f: &mut fmt::Formatter<W>) -> fmt::Result {
        write!(f, "{} is not read", self.name.as_str().escape_debug())?;
        let mut word = ": it belongs";
        for place in self.places.iter() {
            write!(f, "{word} {place}")?;
            word = " or";
        }
        match self.nearest {
            Some(nearest) if self.places.is_empty() => write!(f, ": {nearest}"),
            Some(nearest) => write!(f, "; {nearest}"),
            None => Ok(()),
        }
    }
}
