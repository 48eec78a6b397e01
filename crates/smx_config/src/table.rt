//! Tables and lists of tables.
ghost use Rattle.std.specs.Prelude.{◌≡◌, ◌≤◌, ◌&&◌, nat_le, length, option_map, IfSome};
ghost use Rattle.toml.specs.Data.{get_member};
ghost use Rattle.toml.specs.View.{table_view, view, items_view};
ghost use Rattle.smx_config.specs.Settings.{are_tables, tables_at};

use toml::{Table, Value};

/// The value at a key.
pub(crate) fn find<'a>(table: &'a Table, key: &str) -> Option<&'a Value>
    ensures { option_map (λ v. view v.now) result ≡ get_member key.now (table_view table.now) }
{
    table.get(key)
}

fn are_tables(values: &[Value]) -> bool
    ensures { result ≡ are_tables (items_view values.now) }
{
    for value in values {
        if !value.is_table() {
            return false;
        }
    }
    true
}

// Whether values are tables, at least one and at most so many.
fn is_table_list(values: &[Value], most: usize) -> bool
    ensures { result ≡ ((nat_le 1 (length values.now) && nat_le
        (length values.now) most) && are_tables (items_view values.now)) }
{
    1 <= values.len() && values.len() <= most && are_tables(values)
}

/// The tables of the list at a key, at least one and at most so many.
#[tactic(auto, using(crate::proofs::Items::tables_of_view))]
pub(crate) fn tables_at<'a>(table: &'a Table, key: &str, most: usize) -> Option<&'a [Value]>
    ensures value { option_map (λ vs. items_view vs.now) result
        ≡ tables_at key.now most (table_view table.now) }
    ensures kept { IfSome result (λ vs. (1 ≤ length vs.now) × (length vs.now ≤ most)) }
{
    let values = match find(table, key) {
        Some(value) => match value.as_array() {
            Some(values) => values.as_slice(),
            None => return None,
        },
        None => return None,
    };
    if is_table_list(values, most) {
        Some(values)
    } else {
        None
    }
}
