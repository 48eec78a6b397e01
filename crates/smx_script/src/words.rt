//! The parts of a line, and the numbers and octets that they spell.
ghost use Rattle.std.specs.Prelude.{◌≡◌, ◌==◌, IfOk, map};
ghost use Rattle.std.specs.List.{list_all, slice_split};
ghost use Rattle.smx_script.specs.Script.{is_printable, is_printable_word, number_of, number_within, octets_in, prefix_of};

use crate::octets::Octets;
use std::alloc::{AllocError, Global};

/// The parts of octets round each octet of one value.
pub(crate) fn parts_of(alloc: Global, octets: &[u8], at: u8) -> Result<Vec<&[u8]>, AllocError>
    ensures { IfOk result (λ parts. map (λ part. part.now) parts.items
        ≡ slice_split (λ octet. octet == at) octets.now) }
{
    octets.split(|octet| *octet == at).collect(alloc)
}

/// The number that a word spells in decimal, without a sign and without leading zeros.
#[tactic(auto, unfolding(crate::specs::Script::number_of, crate::specs::Script::read_on))]
pub(crate) fn number(word: &[u8]) -> Option<u64>
    ensures { result ≡ number_of word.now }
{
    if word.is_empty() || (word.len() > 1 && word[0] == b'0') {
        return None;
    }
    let mut value: u64 = 0;
    for octet in word {
        if !octet.is_ascii_digit() {
            return None;
        }
        value = value
            .checked_mul(10)?
            .checked_add(u64::from(*octet - b'0'))?;
    }
    Some(value)
}

/// The number that a word spells, where it is in this range.
#[tactic(auto, unfolding(crate::specs::Script::number_within))]
pub(crate) fn number_within(least: u32, most: u32, word: &[u8]) -> Option<u32>
    ensures { result ≡ number_within least most word.now }
{
    let value = number(word)?;
    if value < least as u64 || value > most as u64 {
        return None;
    }
    Some(value as u32)
}

/// The octets that hexadecimal digits spell, in either case, one at least.
#[tactic(auto, unfolding(crate::specs::Script::octets_in))]
pub(crate) fn octets_in(alloc: Global, digits: &[u8]) -> Result<Option<Octets>, AllocError>
    ensures { IfOk result (λ octets. octets ≡ octets_in digits.now) }
{
    if digits.is_empty() {
        return Ok(None);
    }
    match hex::decode(alloc, digits) {
        Ok(octets) => Ok(Some(Octets::new(octets))),
        Err(hex::FromHexError::OutOfMemory) => Err(AllocError),
        Err(_) => Ok(None),
    }
}

// Whether each octet is printable ASCII.
fn are_printable(word: &[u8]) -> bool
    ensures { result ≡ list_all is_printable word.now }
{
    word.iter().all(|octet| *octet >= b'!' && *octet <= b'~')
}

/// Whether a word is printable ASCII of one octet to so many.
pub(crate) fn is_text(most: usize, word: &[u8]) -> bool
    ensures { result ≡ is_printable_word most word.now }
{
    !word.is_empty() && word.len() <= most && are_printable(word)
}

/// The prefix that a word stands for: one hyphen is the empty one.
pub(crate) fn prefix_of(alloc: Global, word: &[u8]) -> Result<Option<Octets>, AllocError>
    ensures { IfOk result (λ prefix. prefix ≡ prefix_of word.now) }
{
    if !is_text(20, word) {
        return Ok(None);
    }
    if word == "-".as_bytes() {
        return Ok(Some(Octets::new(Vec::new(alloc))));
    }
    Ok(Some(Octets::new(Vec::from_slice(alloc, word)?)))
}
