//! The entries that stand before the one that is looked at.
ghost use Rattle.std.specs.Prelude.{◌≡◌, ◌≤◌, ◌+◌, ◌-◌, ◌*◌, ◌^◌, ◌==◌, true, false, length, filter, drop, slice_get, MatchResult, MatchOption, Some};
ghost use Rattle.std.specs.List.{list_any};
ghost use Rattle.smx_history.specs.Entries.{numbers};
ghost use Rattle.smx_legal.specs.Checks.{is_in, entries_before};

use crate::part::Part;
use smx_history::Entry;

/// The lists that the shifts before this one handed out, and what stands before the entry in its own.
#[derive(Clone, Copy)]
pub struct Past<'a> {
    pub earlier: &'a [Vec<Entry>],
    pub since: &'a [Entry],
}

fn count_in(entries: &[Entry], part: Part) -> usize
    ensures { result ≡ length (filter (is_in part) entries.now) }
{
    entries.iter().filter(|e| part.has(e)).count()
}

// The one that stands after so many others, or how many of these are left to pass over.
fn nth_in(entries: &[Entry], part: Part, n: u128) -> Result<Entry, u128>
    ensures { MatchResult result
        (λ e. slice_get (filter (is_in part) entries.now) n ≡ Some e)
        (λ left. left + length (filter (is_in part) entries.now) ≡ n) }
{
    let mut left = n;
    for entry in entries {
        if part.has(entry) {
            if left == 0 {
                return Ok(*entry);
            }
            left -= 1;
        }
    }
    Err(left)
}

// How many takes are left to pass over, or nothing where one that stands after so many others bears
// the number.
fn pass_over(entries: &[Entry], number: u32, n: u128) -> Option<u128>
    ensures { MatchOption result
        (list_any (λ u. u == number) (drop n (numbers entries.now)) ≡ true)
        (λ left. (list_any (λ u. u == number) (drop n (numbers entries.now)) ≡ false)
        × (left ≡ n - length (numbers entries.now))) }
{
    let mut left = n;
    for entry in entries {
        if Part::Takes.has(entry) {
            if left > 0 {
                left -= 1;
            } else if entry.number == number {
                return None;
            }
        }
    }
    Some(left)
}

impl Past<'_> {
    /// Whether there is one.
    pub fn any(self, part: Part) -> bool
        ensures { result ≡ list_any (is_in part) (entries_before self.entry) }
    {
        let mut all = self.earlier.iter().flatten().chain(self.since);
        all.any(|e| part.has(e))
    }

    /// How many there are.
    pub fn count(self, part: Part) -> u128
        ensures count { result ≡ length (filter (is_in part) (entries_before self.entry)) }
        ensures small { result ≤ 2 ^ 128 - 2 ^ 64 }
    {
        let mut count = count_in(self.since, part) as u128;
        for list in self.earlier {
            count += count_in(list.as_slice(), part) as u128;
        }
        count
    }

    /// The one that stands after so many others.
    pub fn nth(self, part: Part, n: u128) -> Option<Entry>
        ensures { result ≡ slice_get (filter (is_in part) (entries_before self.entry)) n }
    {
        let mut left = n;
        for list in self.earlier {
            match nth_in(list.as_slice(), part, left) {
                Ok(entry) => return Some(entry),
                Err(rest) => left = rest,
            }
        }
        match nth_in(self.since, part, left) {
            Ok(entry) => Some(entry),
            Err(_) => None,
        }
    }

    /// Whether a take that stands after so many others bears the number.
    pub fn bears_after(self, number: u32, n: u128) -> bool
        ensures { result
            ≡ list_any (λ u. u == number) (drop n (numbers (entries_before self.entry))) }
    {
        let mut left = n;
        for list in self.earlier {
            match pass_over(list.as_slice(), number, left) {
                Some(rest) => left = rest,
                None => return true,
            }
        }
        pass_over(self.since, number, left).is_none()
    }
}
