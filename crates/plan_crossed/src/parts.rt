// Parts of a text.
ghost use Rattle.std.specs.Prelude.{◌≡◌, map, option_and_then, option_map};
ghost use Rattle.toml.specs.Data.{as_table, get, get_member};
ghost use Rattle.toml.specs.View.{table_view, view};
ghost use Rattle.plan_patterns.specs.Expanded as spec;
ghost use Rattle.plan_crossed.specs.Said.{entries_at, text_of};

use toml::{Table, Value};

/// The value at a key of an entry.
pub(crate) fn value_at<'t>(entry: &'t Value, key: &str) -> Option<&'t Value>
    ensures { option_map (λ v. view v.now) result ≡ get key.now (view entry.now) }
{
    entry.get(key)
}

/// The text that a value is; an empty one, where it is none.
pub(crate) fn text_of(value: Option<&Value>) -> &str
    ensures { result.now ≡ text_of (option_map (λ v. view v.now) value.entry) }
{
    match value {
        Some(value) => match value.as_str() {
            Some(text) => text,
            None => "",
        },
        None => "",
    }
}

/// The list that a value is; none, where it is none.
pub(crate) fn list_of(value: Option<&Value>) -> &[Value]
    ensures { map view result.now ≡ spec.list_of (option_map (λ v. view v.now) value.entry) }
{
    match value {
        Some(value) => match value.as_array() {
            Some(values) => values.as_slice(),
            None => &[],
        },
        None => &[],
    }
}

/// The table that a value is.
pub(crate) fn table_of(value: Option<&Value>) -> Option<&Table>
    ensures { option_map (λ t. table_view t.now) result ≡ option_and_then as_table (option_map (λ v. view v.now) value.entry) }
{
    match value {
        Some(value) => value.as_table(),
        None => None,
    }
}

// The value at a key of a text.
fn member<'t>(text: &'t Table, key: &str) -> Option<&'t Value>
    ensures { option_map (λ v. view v.now) result ≡ get_member key.now (table_view text.now) }
{
    text.get(key)
}

/// The entries at a key of a text.
pub(crate) fn entries_at<'t>(text: &'t Table, key: &str) -> &'t [Value]
    ensures { map view result.now ≡ entries_at key.now (table_view text.now) }
{
    list_of(member(text, key))
}
