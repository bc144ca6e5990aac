// The members of an entry, with some put in, replaced or left out.
ghost use Rattle.std.specs.Prelude.{◌≡◌, option_map, map, string_bytes, IfOk, OnOk};
ghost use Rattle.toml.specs.Data.{get_member};
ghost use Rattle.toml.specs.View.{table_view, view};
ghost use Rattle.plan_patterns.specs.Expanded.{list_of};
ghost use Rattle.plan_patterns.specs.Parts as spec;

use std::alloc::AllocError;
use toml::{Table, Value};

/// The value at a key.
pub(crate) fn member<'t>(table: &'t Table, key: &str) -> Option<&'t Value>
    ensures { option_map (λ v. view v.now) result ≡ get_member key.now (table_view table.now) }
{
    table.get(key)
}

/// The list that a value is; none, where it is none.
pub(crate) fn list_of(value: Option<&Value>) -> &[Value]
    ensures { map view result.now ≡ list_of (option_map (λ v. view v.now) value.entry) }
{
    match value {
        Some(value) => match value.as_array() {
            Some(values) => values.as_slice(),
            None => &[],
        },
        None => &[],
    }
}

/// A copy of keys with their values.
pub(crate) fn copy(keys: &Table) -> Result<Table, AllocError>
    ensures { IfOk result (λ copy. table_view copy ≡ table_view keys.now) }
{
    let copy = keys.clone()?;
    Ok(copy)
}

/// Puts a value at a key: in place of the key's own, or else as a new one.
pub(crate) fn put(table: &mut Table, key: String, value: Value) -> Result<(), AllocError>
    ensures { OnOk result (table_view table.new ≡ spec.put (string_bytes key) (view value) (table_view table.old)) }
{
    drop(table.insert(key, value)?);
    Ok(())
}

/// Puts another value at a key, if there is one.
pub(crate) fn replace(table: &mut Table, key: &str, value: Value)
    ensures { table_view table.new ≡ spec.replace key.now (view value) (table_view table.old) }
{
    match table.get_mut(key) {
        Some(slot) => *slot = value,
        None => drop(value),
    }
}

/// Takes the value at a key out.
pub(crate) fn take(table: &mut Table, key: &str) -> Option<Value>
    ensures value { option_map view result ≡ get_member key.now (table_view table.old) }
    ensures rest { table_view table.new ≡ spec.without key.now (table_view table.old) }
{
    table.remove(key)
}

// Puts a copy of a value at a key, if there is none.
fn put_new(table: &mut Table, key: &String, value: &Value) -> Result<(), AllocError>
    ensures { OnOk result (table_view table.new ≡ spec.put_new (string_bytes key.now) (view value.now) (table_view table.old)) }
{
    if member(table, key.as_str()).is_some() {
        return Ok(());
    }
    put(table, key.clone()?, value.clone()?)
}

/// Puts copies of others' values at the keys that have none.
pub(crate) fn put_others(table: &mut Table, others: &Table) -> Result<(), AllocError>
    ensures { OnOk result (table_view table.new ≡ spec.and_others (table_view table.old) (table_view others.now)) }
{
    for (key, value) in others.iter() {
        put_new(table, key, value)?;
    }
    Ok(())
}
