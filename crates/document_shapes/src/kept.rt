// The value of a text with all that it has, and the members of the document that it is.
ghost use Rattle.std.specs.Prelude.{◌≡◌, ◌⊎◌, IfErr, IfOk, None, Err, Some};
ghost use Rattle.json.specs.Value.{value_view};
ghost use Rattle.rail_model.specs.Turns.{AnswersAs};
ghost use Rattle.document_shapes.specs.Kept.{in_text, kept, members_in};
ghost use Rattle.document_shapes.specs.Seen.{seen_document};

use crate::document::read_members;
use crate::from_kept::data_of;
use crate::token_document::MAX_DEPTH;
use crate::{DocMembers, ShapeRefused};
use json::{Error, Reader, Scratch, Value};
use std::alloc::Global;

// The value that a text is.
fn value_of<'a>(
    alloc: Global,
    text: &'a str,
    scratch: &'a mut Scratch,
) -> Result<Value<'a>, ShapeRefused>
    ensures ok { IfOk result (λ v. in_text text.now ≡ Some (value_view v)) }
    ensures not_json { result ≡ Err ShapeRefused.NotJson → in_text text.now ≡ None }
    ensures errors { IfErr result (λ e. (e ≡ ShapeRefused.Memory) ⊎ (e ≡ ShapeRefused.NotJson)) }
{
    let mut reader = Reader::new(text, scratch)?;
    let value = match Value::read(alloc, &mut reader, MAX_DEPTH) {
        Ok(value) => value,
        Err(Error::OutOfMemory) => return Err(ShapeRefused::Memory),
        Err(_) => return Err(ShapeRefused::NotJson),
    };
    match reader.next() {
        Some(_) => Err(ShapeRefused::NotJson),
        None => Ok(value),
    }
}

/// The value that the bytes are, with the members that are given again.
///
/// # Errors
///
/// Out of memory, or the bytes are no JSON. That a number is out of range is told by [`members_of`].
pub fn read_kept<'a>(
    alloc: Global,
    bytes: &'a [u8],
    scratch: &'a mut Scratch,
) -> Result<Value<'a>, ShapeRefused>
    ensures ok { IfOk result (λ v. kept bytes.now ≡ Some (value_view v)) }
    ensures not_json { result ≡ Err ShapeRefused.NotJson → kept bytes.now ≡ None }
    ensures errors { IfErr result (λ e. (e ≡ ShapeRefused.Memory) ⊎ (e ≡ ShapeRefused.NotJson)) }
{
    match std::str::from_utf8(bytes) {
        Ok(text) => value_of(alloc, text, scratch),
        Err(_) => Err(ShapeRefused::NotJson),
    }
}

/// The members of the document that a value is: those that [`read_document`](crate::read_document) has of its text.
///
/// # Errors
///
/// As `read_document` has them for the text.
pub fn members_of(alloc: Global, value: &Value) -> Result<DocMembers, ShapeRefused>
    ensures { AnswersAs ShapeRefused.Memory seen_document result (members_in (value_view value.now)) }
{
    let value = data_of(alloc, value)?;
    read_members(alloc, &value)
}
