//! Names that are spelled almost alike.

use std::alloc::{AllocError, Global};
use strsim::levenshtein;

/// The first of the names that is nearest to a word, where that is near: no more than one change, and one
/// more for each four octets of the word, makes it of the word.
pub(crate) fn near(
    alloc: Global,
    word: &str,
    names: &[&'static str],
) -> Result<Option<&'static str>, AllocError> {
    let mut best = None;
    let mut least = word.len() / 4 + 2;
    for name in names {
        let distance = levenshtein(alloc, word, name)?;
        if distance < least {
            least = distance;
            best = Some(*name);
        }
    }
    Ok(best)
}
