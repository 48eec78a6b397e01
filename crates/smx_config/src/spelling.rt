//! Keys that nobody reads, in words for a person.
ghost use Rattle.std.specs.Prelude.{◌≡◌, ◌++◌, [], IfOk, OnOk, string_bytes};
ghost use Rattle.toml.specs.View.{table_view, view, items_view};
ghost use Rattle.smx_config.specs.Unread.{names, unread_in, unread_within, unread_below, unread_among, unread_listed, unread_of, unread_names};

use crate::near::near;
use crate::section::Section;
use crate::table::find;
use crate::unread_key::{NearKey, UnreadKey};
use std::alloc::{AllocError, Global};
use toml::{Table, Value};

// Where else a key is read.
fn elsewhere(alloc: Global, key: &str) -> Result<Vec<&'static str>, AllocError> {
    let mut places = Vec::new(alloc);
    for section in Section::all() {
        if section.reads(key) {
            places.push(section.place())?;
        }
    }
    Ok(places)
}

// The key of the first other table that is near.
fn near_elsewhere(alloc: Global, key: &str) -> Result<Option<NearKey>, AllocError> {
    for section in Section::all() {
        let all = section.keys(alloc)?;
        if let Some(key) = near(alloc, key, &all)? {
            let place = Some(section.place());
            return Ok(Some(NearKey { key, place }));
        }
    }
    Ok(None)
}

// A key that isn't read in its table, behind these words.
fn on_key(alloc: Global, place: &str, key: &str, section: Section) -> Result<UnreadKey, AllocError>
    ensures { IfOk result (λ unread. string_bytes unread.name ≡ place.now ++ key.now) }
{
    let all = section.keys(alloc)?;
    let places = elsewhere(alloc, key)?;
    let nearest = match near(alloc, key, &all)? {
        Some(key) => Some(NearKey { key, place: None }),
        None if places.is_empty() => near_elsewhere(alloc, key)?,
        None => None,
    };
    Ok(UnreadKey {
        name: format!(in alloc; "{place}{key}")?,
        places,
        nearest,
    })
}

// Adds each key of a table that isn't read there.
fn on_table(
    alloc: Global,
    place: &str,
    table: &Table,
    section: Section,
    all: &mut Vec<UnreadKey>,
) -> Result<(), AllocError>
    ensures { OnOk result (names all.new.items
        ≡ names all.old.items ++ unread_in section place.now (table_view table.now)) }
{
    for (key, _) in table.iter() {
        let key = key.as_str();
        if !section.reads(key) {
            let unread = on_key(alloc, place, key, section)?;
            all.push(unread)?;
        }
    }
    Ok(())
}

// The same of a value, where that is a table.
fn on_value(
    alloc: Global,
    place: &str,
    value: &Value,
    section: Section,
    all: &mut Vec<UnreadKey>,
) -> Result<(), AllocError>
    ensures { OnOk result (names all.new.items
        ≡ names all.old.items ++ unread_within section place.now (view value.now)) }
{
    match value.as_table() {
        Some(table) => on_table(alloc, place, table, section, all),
        None => Ok(()),
    }
}

// The same of the table at a key.
fn on_member(
    alloc: Global,
    key: &str,
    table: &Table,
    section: Section,
    all: &mut Vec<UnreadKey>,
) -> Result<(), AllocError>
    ensures { OnOk result (names all.new.items
        ≡ names all.old.items ++ unread_below section key.now (table_view table.now)) }
{
    match find(table, key) {
        Some(value) => {
            let place = format!(in alloc; "{key}: ")?;
            on_value(alloc, place.as_str(), value, section, all)
        }
        None => Ok(()),
    }
}

// The same of each of these values that is a table, the items of the list at a key.
fn on_items(
    alloc: Global,
    key: &str,
    values: &[Value],
    section: Section,
    all: &mut Vec<UnreadKey>,
) -> Result<(), AllocError>
    ensures { OnOk result (names all.new.items
        ≡ names all.old.items ++ unread_among section key.now 0 (items_view values.now)) }
{
    let mut index = 0_usize;
    for value in values {
        let place = format!(in alloc; "{key} {index}: ")?;
        on_value(alloc, place.as_str(), value, section, all)?;
        index = index.saturating_add(1);
    }
    Ok(())
}

// The same of each table of the list at a key.
fn on_list(
    alloc: Global,
    key: &str,
    table: &Table,
    section: Section,
    all: &mut Vec<UnreadKey>,
) -> Result<(), AllocError>
    ensures { OnOk result (names all.new.items
        ≡ names all.old.items ++ unread_listed section key.now (table_view table.now)) }
{
    match find(table, key) {
        Some(value) => match value.as_array() {
            Some(values) => on_items(alloc, key, values.as_slice(), section, all),
            None => Ok(()),
        },
        None => Ok(()),
    }
}

// Each key of a whole configuration that nobody reads.
fn on_whole(alloc: Global, table: &Table) -> Result<Vec<UnreadKey>, AllocError>
    ensures { IfOk result (λ all. names all.items ≡ unread_of (table_view table.now)) }
{
    let mut all = Vec::new(alloc);
    on_table(alloc, "", table, Section::Top, &mut all)?;
    on_member(alloc, "limits", table, Section::Limits, &mut all)?;
    on_member(alloc, "timers", table, Section::Timers, &mut all)?;
    on_list(alloc, "upstream", table, Section::Upstream, &mut all)?;
    on_list(alloc, "account", table, Section::Account, &mut all)?;
    Ok(all)
}

/// Each key of a text that nobody reads, with where it is read, and the known key that is nearest, of which no
/// clause says anything. There is none where the text isn't TOML.
pub fn unread(alloc: Global, text: &str) -> Result<Vec<UnreadKey>, AllocError>
    ensures names { IfOk result (λ all. names all.items ≡ unread_names text.now) }
{
    match toml::table_from_str(alloc, text) {
        Ok(table) => on_whole(alloc, &table),
        Err(error) if error.is_memory() => Err(AllocError),
        Err(_) => Ok(Vec::new(alloc)),
    }
}
