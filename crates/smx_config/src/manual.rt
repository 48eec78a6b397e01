//! The table of keys, in words for a person.

use crate::account::MAX_PREFIXES;
use crate::choice::Choice;
use crate::flag::Flag;
use crate::number::Number;
use crate::reading::{MAX_ACCOUNTS, MAX_UPSTREAMS};
use crate::section::Section;
use crate::text::Text;
use std::alloc::{AllocError, Global};

/// The head of the table.
const HEAD: &str = "| Key | What | May be | Default |\n|---|---|---|---|\n";

// A line of the table. An empty cell is one space.
fn line(alloc: Global, cells: [&str; 4]) -> Result<String, AllocError> {
    let mut line = String::from_str(alloc, "|")?;
    for cell in cells {
        line.push_str(" ")?;
        if !cell.is_empty() {
            line.push_str(cell)?;
            line.push_str(" ")?;
        }
        line.push_str("|")?;
    }
    line.push_str("\n")?;
    Ok(line)
}

// A number with commas between each three of its digits.
fn grouped(alloc: Global, number: u32) -> Result<String, AllocError> {
    let millions = number / 1_000_000;
    let thousands = number / 1_000 % 1_000;
    let ones = number % 1_000;
    if number < 1_000 {
        format!(in alloc; "{number}")
    } else if number < 1_000_000 {
        format!(in alloc; "{thousands},{ones:03}")
    } else {
        format!(in alloc; "{millions},{thousands:03},{ones:03}")
    }
}

fn number_line(alloc: Global, number: Number) -> Result<String, AllocError> {
    let rule = number.rule();
    let key = format!(in alloc; "`{}`", rule.key)?;
    let least = grouped(alloc, rule.least)?;
    let most = grouped(alloc, rule.most)?;
    let may_be = format!(in alloc; "{least} to {most}")?;
    let default = match rule.default {
        Some(default) => format!(in alloc; "{default}")?,
        None => String::from_str(alloc, "no limit")?,
    };
    line(
        alloc,
        [
            key.as_str(),
            number.means(),
            may_be.as_str(),
            default.as_str(),
        ],
    )
}

fn flag_line(alloc: Global, flag: Flag) -> Result<String, AllocError> {
    let rule = flag.rule();
    let key = format!(in alloc; "`{}`", rule.key)?;
    let default = format!(in alloc; "{}", rule.default)?;
    line(
        alloc,
        [key.as_str(), flag.means(), "true, false", default.as_str()],
    )
}

// Words in a row, with commas between them.
fn listed(alloc: Global, words: &[&'static str]) -> Result<String, AllocError> {
    let mut all = String::new(alloc);
    for word in words {
        if !all.as_str().is_empty() {
            all.push_str(", ")?;
        }
        all.push_str(word)?;
    }
    Ok(all)
}

fn choice_line(alloc: Global, choice: Choice) -> Result<String, AllocError> {
    let key = format!(in alloc; "`{}`", choice.rule().key)?;
    let words = listed(alloc, &choice.words(alloc)?)?;
    let may_be = match choice {
        Choice::Commands => format!(in alloc; "a list of {words}")?,
        _ => format!(in alloc; "one of {words}")?,
    };
    line(
        alloc,
        [
            key.as_str(),
            choice.means(),
            may_be.as_str(),
            choice.default_word(),
        ],
    )
}

// What a text may be where it stands in a table.
fn text_may_be(alloc: Global, section: Section, text: Text) -> Result<String, AllocError> {
    let rule = text.rule();
    let (fewest, longest) = (rule.fewest, rule.longest);
    if let Text::Prefix = text {
        return format!(in alloc;
            "at most {MAX_PREFIXES} texts of {fewest} to {longest} octets, no two equal"
        );
    }
    let what = if rule.must_be_address {
        "text `host:port`"
    } else {
        "text"
    };
    let more = match (section, text) {
        (Section::Account, Text::SystemId) => ", none 0, no other account's",
        _ if rule.may_have_zero => "",
        _ => ", none 0",
    };
    format!(in alloc; "{what} of {fewest} to {longest} octets{more}")
}

fn text_line(alloc: Global, section: Section, text: Text) -> Result<String, AllocError> {
    let key = format!(in alloc; "`{}`", text.rule().key)?;
    let may_be = text_may_be(alloc, section, text)?;
    let default = match text {
        Text::Prefix => "none",
        Text::SystemType | Text::AddressRange => "empty",
        _ => "required",
    };
    line(
        alloc,
        [key.as_str(), text.means(section), may_be.as_str(), default],
    )
}

// The line before the keys of a list of tables.
fn list_line(alloc: Global, name: &str, most: usize, what: &str) -> Result<String, AllocError> {
    let means = format!(in alloc; "{what}; 1 to {most} such tables")?;
    line(alloc, [name, means.as_str(), "", "required"])
}

// The line before the keys of a table.
fn section_line(alloc: Global, section: Section) -> Result<String, AllocError> {
    match section {
        Section::Top => Ok(String::new(alloc)),
        Section::Limits => line(alloc, ["**`[limits]`**", "what each lane holds", "", ""]),
        Section::Timers => line(alloc, ["**`[timers]`**", "in milliseconds", "", ""]),
        Section::Upstream => list_line(
            alloc,
            "**`[[upstream]]`**",
            MAX_UPSTREAMS,
            "a bind to the centre, with a lane of its own",
        ),
        Section::Account => list_line(
            alloc,
            "**`[[account]]`**",
            MAX_ACCOUNTS,
            "a client that may bind",
        ),
    }
}

/// The table of all keys, in Markdown: a line each, with what it is, what it may be and its default,
/// below a line for the table of the file in which it stands. Of the words no clause says anything.
pub fn key_table(alloc: Global) -> Result<String, AllocError> {
    let mut table = String::from_str(alloc, HEAD)?;
    for section in Section::all() {
        table.push_str(section_line(alloc, *section)?.as_str())?;
        for text in Text::all() {
            if text.stands_in(*section) {
                table.push_str(text_line(alloc, *section, *text)?.as_str())?;
            }
        }
        for choice in Choice::all() {
            if section.is(choice.rule().section) {
                table.push_str(choice_line(alloc, *choice)?.as_str())?;
            }
        }
        for number in Number::all() {
            if section.is(number.rule().section) {
                table.push_str(number_line(alloc, *number)?.as_str())?;
            }
        }
        for flag in Flag::all() {
            if section.is(flag.rule().section) {
                table.push_str(flag_line(alloc, *flag)?.as_str())?;
            }
        }
    }
    Ok(table)
}
