// What an entry says, with a number in place of each `{}`.
ghost use Rattle.std.specs.Prelude.{◌≡◌, map, string_bytes, IfOk};
ghost use Rattle.toml.specs.Data.{no_members};
ghost use Rattle.toml.specs.View.{table_view, view};
ghost use Rattle.plan_patterns.specs.Numbered as spec;

use crate::parts::put;
use std::alloc::{AllocError, Global};
use toml::{Table, Value};

// A text with a number in place of each `{}`.
fn numbered_text(alloc: Global, text: &str, number: &str) -> Result<String, AllocError>
    ensures { IfOk result (λ t. string_bytes t ≡ spec.numbered_text number.now text.now) }
{
    let mut whole = String::new(alloc);
    let mut rest = text;
    while let Some((before, after)) = rest.split_once("{}") {
        whole.push_str(before)?;
        whole.push_str(number)?;
        rest = after;
    }
    whole.push_str(rest)?;
    Ok(whole)
}

/// A value with a number in place of each `{}` in its texts and keys.
#[cycle(numbered)]
pub(crate) fn numbered(alloc: Global, value: &Value, number: &str) -> Result<Value, AllocError>
    ensures { IfOk result (λ v. view v ≡ spec.numbered number.now (view value.now)) }
{
    match value {
        Value::String(text) => Ok(Value::String(numbered_text(alloc, text.as_str(), number)?)),
        Value::Integer(n) => Ok(Value::Integer(*n)),
        Value::Float(x) => Ok(Value::Float(*x)),
        Value::Boolean(b) => Ok(Value::Boolean(*b)),
        Value::Datetime(datetime) => Ok(Value::Datetime(*datetime)),
        Value::Array(items) => Ok(Value::Array(numbered_items(alloc, items, number)?)),
        Value::Table(members) => Ok(Value::Table(numbered_members(alloc, members, number)?)),
    }
}

// Items with a number in place of each `{}`.
#[cycle(numbered)]
fn numbered_items(alloc: Global, items: &Vec<Value>, number: &str) -> Result<Vec<Value>, AllocError>
    ensures { IfOk result (λ all. map view all.items ≡ map (λ v. spec.numbered number.now (view v)) items.now.items) }
{
    let mut copies = Vec::new(alloc);
    for item in items {
        copies.push(numbered(alloc, item, number)?)?;
    }
    Ok(copies)
}

// Members with a number in place of each `{}`.
#[cycle(numbered)]
fn numbered_members(alloc: Global, members: &Table, number: &str) -> Result<Table, AllocError>
    ensures { IfOk result (λ m. table_view m ≡ spec.numbered_members number.now (table_view members.now) no_members) }
{
    let mut copies = Table::new(alloc);
    for (key, member) in members.iter() {
        let name = numbered_text(alloc, key.as_str(), number)?;
        put(&mut copies, name, numbered(alloc, member, number)?)?;
    }
    Ok(copies)
}
