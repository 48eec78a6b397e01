//! All that is wrong with a table, in the order in which it is read.

use crate::choice::Choice;
use crate::fault::ConfigFault;
use crate::flag::Flag;
use crate::listing::on_table_list;
use crate::number::Number;
use crate::place::line_of;
use crate::reading::{MAX_ACCOUNTS, MAX_UPSTREAMS};
use crate::section::Section;
use crate::table::find;
use crate::text::Text;
use crate::wording::{on_choice, on_field, on_flag, on_number};
use std::alloc::{AllocError, Global};
use toml::{Table, Value};

/// What is wrong at one key.
#[derive(Drop)]
pub(crate) struct Finding {
    /// The fault that it is.
    pub(crate) fault: ConfigFault,
    /// What is wrong and what would be right, with the line where it stands.
    pub(crate) words: String,
}

/// What was found so far in a text.
#[derive(Drop)]
struct Survey<'a> {
    alloc: Global,
    text: &'a str,
    all: Vec<Finding>,
}

/// Where a table stands: its kind, its index among those of its kind, and the fault of what is wrong there.
#[derive(Clone, Copy)]
struct Spot {
    section: Section,
    index: usize,
    fault: ConfigFault,
}

impl Spot {
    const fn at(section: Section, fault: ConfigFault) -> Spot {
        Spot {
            section,
            index: 0,
            fault,
        }
    }
}

impl Survey<'_> {
    // Adds words on a key, if there are any.
    fn add(&mut self, spot: Spot, key: &str, words: Option<String>) -> Result<(), AllocError> {
        let Some(words) = words else {
            return Ok(());
        };
        let words = match line_of(self.text, spot.section, spot.index, key) {
            Some(line) => format!(in self.alloc; "{words} (line {line})")?,
            None => words,
        };
        let fault = spot.fault;
        Ok(self.all.push(Finding { fault, words })?)
    }

    fn texts(&mut self, spot: Spot, table: &Table) -> Result<(), AllocError> {
        for text in Text::all() {
            if text.stands_in(spot.section) {
                let key = text.rule().key;
                let words = on_field(self.alloc, *text, find(table, key))?;
                self.add(spot, key, words)?;
            }
        }
        Ok(())
    }

    fn choices(&mut self, spot: Spot, table: &Table) -> Result<(), AllocError> {
        for choice in Choice::all() {
            let rule = choice.rule();
            if spot.section.is(rule.section) {
                let words = on_choice(self.alloc, *choice, find(table, rule.key))?;
                self.add(spot, rule.key, words)?;
            }
        }
        Ok(())
    }

    fn numbers(&mut self, spot: Spot, table: &Table) -> Result<(), AllocError> {
        for number in Number::all() {
            let rule = number.rule();
            if spot.section.is(rule.section) {
                let words = on_number(self.alloc, *number, table)?;
                self.add(spot, rule.key, words)?;
            }
        }
        Ok(())
    }

    // Of the keys that stand before the first table.
    fn top(&mut self, table: &Table) -> Result<(), AllocError> {
        self.texts(Spot::at(Section::Top, ConfigFault::Listen), table)?;
        self.numbers(Spot::at(Section::Top, ConfigFault::Numbers), table)?;
        for flag in Flag::all() {
            let words = on_flag(self.alloc, *flag, table)?;
            let spot = Spot::at(Section::Top, ConfigFault::ProxyProtocol);
            self.add(spot, flag.rule().key, words)?;
        }
        self.choices(Spot::at(Section::Top, ConfigFault::Log), table)
    }

    // Of a table of numbers.
    fn number_table(&mut self, spot: Spot, table: &Table) -> Result<(), AllocError> {
        let key = spot.section.name();
        let Some(value) = find(table, key) else {
            return Ok(());
        };
        match value.as_table() {
            Some(numbers) => self.numbers(spot, numbers),
            None => {
                let words = format!(in self.alloc;
                    "{key} is no table: write [{key}] and its keys below it"
                )?;
                let top = Spot::at(Section::Top, spot.fault);
                self.add(top, key, Some(words))
            }
        }
    }

    fn timers(&mut self, table: &Table) -> Result<(), AllocError> {
        let spot = Spot::at(Section::Timers, ConfigFault::Timers);
        self.number_table(spot, table)?;
        let Some(value) = find(table, "timers") else {
            return Ok(());
        };
        let enquire = Number::Enquire.rule().key;
        let is_twice = value.get(enquire).is_some()
            && find(table, Number::Silence.rule().key).is_some();
        if is_twice {
            let twice = "enquire stands beside silence, its other name: write one of the two";
            let words = String::from_str(self.alloc, twice)?;
            self.add(spot, enquire, Some(words))?;
        }
        Ok(())
    }

    // Of a list of tables: whether it is one.
    fn list(&mut self, spot: Spot, most: usize, table: &Table) -> Result<(), AllocError> {
        let key = spot.section.name();
        let words = on_table_list(self.alloc, key, most, table)?;
        self.add(spot, key, words)
    }

    // Of the system_id of an account that an earlier one has.
    fn twin(&mut self, spot: Spot, values: &[Value], value: &Value) -> Result<(), AllocError> {
        let key = Text::SystemId.rule().key;
        let Some(name) = value.get(key) else {
            return Ok(());
        };
        let Some(first) = values.iter().position(|other| other.get(key) == Some(name)) else {
            return Ok(());
        };
        if first < spot.index {
            let words = format!(in self.alloc;
                "system_id is that of account {first}: write another one"
            )?;
            self.add(spot, key, Some(words))?;
        }
        Ok(())
    }

    fn upstreams(&mut self, values: &[Value]) -> Result<(), AllocError> {
        for (index, value) in values.iter().enumerate() {
            if let Some(table) = value.as_table() {
                let spot = Spot {
                    section: Section::Upstream,
                    index,
                    fault: ConfigFault::Upstream(index),
                };
                self.texts(spot, table)?;
                self.choices(spot, table)?;
                self.numbers(spot, table)?;
            }
        }
        Ok(())
    }

    fn accounts(&mut self, values: &[Value]) -> Result<(), AllocError> {
        for (index, value) in values.iter().enumerate() {
            if let Some(table) = value.as_table() {
                let spot = Spot {
                    section: Section::Account,
                    index,
                    fault: ConfigFault::Account(index),
                };
                self.texts(spot, table)?;
                self.choices(spot, table)?;
                self.numbers(spot, table)?;
                self.twin(spot, values, value)?;
            }
        }
        Ok(())
    }
}

// The values of the list at a key.
fn values_at<'a>(table: &'a Table, key: &str) -> &'a [Value] {
    match find(table, key) {
        Some(value) => match value.as_array() {
            Some(values) => values.as_slice(),
            None => &[],
        },
        None => &[],
    }
}

/// What is wrong at each key of a text's table.
pub(crate) fn findings(
    alloc: Global,
    text: &str,
    table: &Table,
) -> Result<Vec<Finding>, AllocError> {
    let mut found = Survey {
        alloc,
        text,
        all: Vec::new(alloc),
    };
    found.top(table)?;
    found.number_table(Spot::at(Section::Limits, ConfigFault::Limits), table)?;
    found.timers(table)?;
    let upstreams = Spot::at(Section::Upstream, ConfigFault::Upstreams);
    found.list(upstreams, MAX_UPSTREAMS, table)?;
    found.upstreams(values_at(table, "upstream"))?;
    let accounts = Spot::at(Section::Account, ConfigFault::Accounts);
    found.list(accounts, MAX_ACCOUNTS, table)?;
    found.accounts(values_at(table, "account"))?;
    let Survey { all, .. } = found;
    Ok(all)
}
