//! A notice as an object of JSON.

use crate::facts::{Facts, Figure};
use serde::{Described, Serialize, Serializer};
use smx_pdu::status::Status;
use std::alloc::Global;

/// What a notice has in words, each in its own text.
#[derive(Drop)]
pub(crate) struct Object<'a> {
    pub facts: Facts<'a>,
    pub time: String,
    pub party: Option<String>,
    pub status: Option<String>,
    pub reason: Option<String>,
    pub text: String,
}

impl Described for Object<'_> {}

// Writes a member, where there is one.
fn member<S: Serializer>(out: &mut S, name: &str, value: Option<&str>) -> Result<(), S::Error> {
    match value {
        Some(value) => {
            out.key(name)?;
            out.str(value)
        }
        None => Ok(()),
    }
}

// Writes each figure.
fn figures<S: Serializer>(out: &mut S, facts: &Facts<'_>) -> Result<(), S::Error> {
    for figure in facts.figures.as_slice() {
        if let Some((name, figure)) = *figure {
            out.key(name)?;
            match figure {
                Figure::Number(number) => out.u64(number)?,
                Figure::Word(word) => out.str(word)?,
            }
        }
    }
    Ok(())
}

impl Serialize for Object<'_> {
    fn serialize<S: Serializer>(&self, out: &mut S) -> Result<(), S::Error> {
        let facts = &self.facts;
        out.begin_map(None)?;
        member(out, "time", Some(self.time.as_str()))?;
        member(out, "level", Some(facts.level.word()))?;
        member(out, "event", Some(facts.event))?;
        member(out, "party", self.party.as_deref())?;
        member(out, "account", facts.account)?;
        member(out, "address", facts.address)?;
        member(out, "status", self.status.as_deref())?;
        member(out, "reason", self.reason.as_deref())?;
        figures(out, facts)?;
        member(out, "text", Some(self.text.as_str()))?;
        out.end_map()
    }
}
