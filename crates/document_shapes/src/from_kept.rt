// The values of `serde_json` that the values of texts stand for: of a member that is given again the last value stays.
ghost use Rattle.std.specs.Prelude.{◌≡◌, ◌<◌, ◌==◌, length, slice_index, false, true, IsTrue, ok_or, option_map};
ghost use Rattle.json.specs.Value as kept;
ghost use Rattle.serde_json.specs.Data.{no_members};
ghost use Rattle.serde_json.specs.Read.{number_from, number_of, of_items, of_json, of_members};
ghost use Rattle.serde_json.specs.View.{items_view, members_view, number_view, view};
ghost use Rattle.rail_model.specs.Turns.{AnswersAs};

use crate::ShapeRefused;
use fast_float::Numeral;
use serde_json::{Map, Number, Value};
use std::alloc::Global;

// The number without a sign, where it is in range.
fn unsigned(numeral: &Numeral) -> Option<Number>
    ensures { option_map number_view result ≡ number_from false numeral.now }
{
    match numeral.to_u64() {
        Some(number) => Some(Number::from(number)),
        None => Number::from_f64(numeral.to_float::<f64>(false)),
    }
}

// The number after a minus, where it is in range.
fn negative(numeral: &Numeral) -> Option<Number>
    ensures { option_map number_view result ≡ number_from true numeral.now }
{
    match numeral.to_i64(true) {
        Some(number) if number < 0 => Some(Number::from(number)),
        _ => Number::from_f64(numeral.to_float::<f64>(true)),
    }
}

// Whether a minus comes first.
fn has_minus(bytes: &[u8]) -> bool
    ensures value { result ≡ (slice_index bytes.now 0 == 45) }
    ensures some { IsTrue result → 0 < length bytes.now }
{
    !bytes.is_empty() && bytes[0] == b'-'
}

// The number that a text is, where it is in range.
fn number(text: &str) -> Option<Number>
    ensures { option_map number_view result ≡ number_of text.now }
{
    let bytes = text.as_bytes();
    if has_minus(bytes) {
        negative(&Numeral::scan(&bytes[1..]))
    } else {
        unsigned(&Numeral::scan(bytes))
    }
}

/// The value, or that it has a number that is out of range.
#[cycle(data_of)]
pub(crate) fn data_of(alloc: Global, value: &json::Value) -> Result<Value, ShapeRefused>
    ensures { AnswersAs ShapeRefused.Memory view result (ok_or (of_json (kept.value_view value.now)) ShapeRefused.NotJson) }
{
    match value {
        json::Value::Null => Ok(Value::Null),
        json::Value::Bool(truth) => Ok(Value::Bool(*truth)),
        json::Value::Number(text) => match number(text) {
            Some(number) => Ok(Value::Number(number)),
            None => Err(ShapeRefused::NotJson),
        },
        json::Value::String(text) => Ok(Value::String(String::from_str(alloc, text)?)),
        json::Value::Array(items) => Ok(Value::Array(items_of(alloc, items)?)),
        json::Value::Object(members) => Ok(Value::Object(members_of(alloc, members)?)),
    }
}

#[cycle(data_of)]
fn items_of(alloc: Global, values: &[json::Value]) -> Result<Vec<Value>, ShapeRefused>
    ensures { AnswersAs ShapeRefused.Memory (λ v. items_view v.items) result
        (ok_or (of_items (kept.items_view values.now)) ShapeRefused.NotJson) }
{
    let mut found = Vec::with_capacity(alloc, values.len())?;
    for value in values {
        found.push(data_of(alloc, value)?)?;
    }
    Ok(found)
}

#[cycle(data_of)]
fn members_of(
    alloc: Global,
    members: &[(&str, json::Value)],
) -> Result<Map<String, Value>, ShapeRefused>
    ensures { AnswersAs ShapeRefused.Memory (λ m. members_view m.entries) result
        (ok_or (of_members (kept.members_view members.now) no_members) ShapeRefused.NotJson) }
{
    let mut found = Map::new(alloc);
    for (name, member) in members {
        let key = String::from_str(alloc, name)?;
        drop(found.insert(key, data_of(alloc, member)?)?);
    }
    Ok(found)
}
