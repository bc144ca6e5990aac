// Values of one shape, read of JSON values.
ghost use Rattle.std.specs.Prelude.{◌≡◌, IfOk, Some, None, map, string_bytes, Err};
ghost use Rattle.std.specs.List.{AllZip};
ghost use Rattle.serde_json.specs.Data.{Data};
ghost use Rattle.serde_json.specs.View.{view};
ghost use Rattle.document_shapes.specs.Shape as shape;
ghost use Rattle.document_shapes.specs.Readings.{SomeMisfits, ReadsList, MisfitsList, ReadsPair, MisfitsPair, ReadsAt, MisfitsAt};

use crate::refused::Misfit;
use serde_json::Value;
use std::alloc::Global;

/// What is read of a value of one shape.
pub(crate) trait FromValue: Sized + Drop {
    /// The value reads as this.
    ghost reads: { Data → Self → Type 0 };

    /// The value has another shape.
    ghost misfits: { Data → Type 0 };

    fn from_value(alloc: Global, value: &Value) -> Result<Self, Misfit>
        ensures ok { IfOk result (reads (view value.now)) }
        ensures err { result ≡ Err Misfit.Shape → misfits (view value.now) };
}

impl FromValue for bool {
    ghost reads = { λ d b. shape.truth d ≡ Some b };

    ghost misfits = { λ d. shape.truth d ≡ None };

    fn from_value(_alloc: Global, value: &Value) -> Result<bool, Misfit> {
        value.as_bool().ok_or(Misfit::Shape)
    }
}

impl FromValue for u32 {
    ghost reads = { λ d n. shape.whole d ≡ Some n };

    ghost misfits = { λ d. shape.whole d ≡ None };

    fn from_value(_alloc: Global, value: &Value) -> Result<u32, Misfit> {
        whole(value).ok_or(Misfit::Shape)
    }
}

/// The integer from 0 to 4,294,967,295 that the value is.
pub(crate) fn whole(value: &Value) -> Option<u32>
    ensures { result ≡ shape.whole (view value.now) }
{
    let number = value.as_u64()?;
    if number <= u32::MAX as u64 {
        Some(number as u32)
    } else {
        None
    }
}

impl FromValue for i32 {
    ghost reads = { λ d z. shape.change d ≡ Some z };

    ghost misfits = { λ d. shape.change d ≡ None };

    fn from_value(_alloc: Global, value: &Value) -> Result<i32, Misfit> {
        let number = value.as_i64().ok_or(Misfit::Shape)?;
        if i32::MIN as i64 <= number && number <= i32::MAX as i64 {
            Ok(number as i32)
        } else {
            Err(Misfit::Shape)
        }
    }
}

impl FromValue for String {
    ghost reads = { λ d s. shape.text d ≡ Some (string_bytes s) };

    ghost misfits = { λ d. shape.text d ≡ None };

    fn from_value(alloc: Global, value: &Value) -> Result<String, Misfit> {
        let text = value.as_str().ok_or(Misfit::Shape)?;
        Ok(String::from_str(alloc, text)?)
    }
}

impl<T: FromValue> FromValue for Vec<T> {
    ghost reads = { λ d v. ReadsList T.FromValue.reads d v.items };

    ghost misfits = { λ d. MisfitsList T.FromValue.misfits d };

    fn from_value(alloc: Global, value: &Value) -> Result<Vec<T>, Misfit> {
        match value.as_array() {
            Some(values) => items(alloc, values.as_slice()),
            None => Err(Misfit::Shape),
        }
    }
}

// Each of the values, in order, or the first that isn't read.
fn items<T: FromValue>(alloc: Global, values: &[Value]) -> Result<Vec<T>, Misfit>
    ensures ok { IfOk result (λ v. AllZip T.FromValue.reads (map view values.now) v.items) }
    ensures err { result ≡ Err Misfit.Shape → SomeMisfits T.FromValue.misfits (map view values.now) }
{
    let mut found = Vec::new(alloc);
    for value in values {
        found.push(T::from_value(alloc, value)?)?;
    }
    Ok(found)
}

/// A member of an object.
pub(crate) fn member_called<T: FromValue>(
    alloc: Global,
    value: &Value,
    name: &str,
) -> Result<T, Misfit>
    ensures ok { IfOk result (λ x. ReadsAt T.FromValue.reads name.now (view value.now) x) }
    ensures err { result ≡ Err Misfit.Shape → MisfitsAt T.FromValue.misfits name.now (view value.now) }
{
    match value.get(name) {
        Some(found) => FromValue::from_value(alloc, found),
        None => Err(Misfit::Shape),
    }
}

impl<A: FromValue, B: FromValue> FromValue for (A, B) {
    ghost reads = { λ d p. ReadsPair A.FromValue.reads B.FromValue.reads d p };

    ghost misfits = { λ d. MisfitsPair A.FromValue.misfits B.FromValue.misfits d };

    fn from_value(alloc: Global, value: &Value) -> Result<(A, B), Misfit> {
        let items = value.as_array().ok_or(Misfit::Shape)?;
        let [first, second] = items.as_slice() else {
            return Err(Misfit::Shape);
        };
        let a = A::from_value(alloc, first)?;
        let b = B::from_value(alloc, second)?;
        Ok((a, b))
    }
}
