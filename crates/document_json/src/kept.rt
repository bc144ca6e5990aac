// Documents read together with the value of their text, which has the members too that a document passes over.
ghost use Rattle.std.specs.Prelude.{◌≡◌, ◌⊎◌, Err, MatchOption, None, Some};
ghost use Rattle.json.specs.Value.{value_view};
ghost use Rattle.rail_model.specs.Turns.{AnswersAs};
ghost use Rattle.document_shapes.specs.Kept.{kept, members_in};
ghost use Rattle.document_shapes.specs.Seen.{seen_document};
ghost use Rattle.document_json.specs.Kept.{doc_in};
ghost use Rattle.document_json.specs.Reading.{doc_of};
ghost use Rattle.document_json.specs.Tables.{refused_as};

use crate::reading::checked;
use crate::{Doc, DocRefused};
use document_shapes::{DocMembers, ShapeRefused, members_of, read_kept};
use json::{Scratch, Value};
use std::alloc::Global;

/// What one reading of a text gives.
#[derive(Drop)]
pub struct Kept<'a> {
    /// The value of the text with all that it has; none if the text is no JSON, or if there was no memory for it.
    pub value: Option<Value<'a>>,
    /// The document that the text is, or the first thing wrong with it.
    pub document: Result<Doc, DocRefused>,
}

// The members of the document that a value is.
fn members_in(alloc: Global, value: &Value) -> Result<DocMembers, DocRefused>
    ensures { AnswersAs DocRefused.Memory seen_document result (refused_as DocRefused.Shape (members_in (value_view value.now))) }
{
    match members_of(alloc, value) {
        Ok(members) => Ok(members),
        Err(ShapeRefused::Memory) => Err(DocRefused::Memory),
        Err(refused) => Err(DocRefused::Shape(refused)),
    }
}

// The document that a value is.
fn document_in(alloc: Global, value: &Value) -> Result<Doc, DocRefused>
    ensures { AnswersAs DocRefused.Memory (λ d. d) result (doc_in (value_view value.now)) }
{
    checked(alloc, members_in(alloc, value)?)
}

// Why a text that has no value is no document.
fn no_value(refused: ShapeRefused) -> DocRefused
    ensures memory { refused ≡ ShapeRefused.Memory → result ≡ DocRefused.Memory }
    ensures not_json { refused ≡ ShapeRefused.NotJson → result ≡ DocRefused.Shape ShapeRefused.NotJson }
{
    match refused {
        ShapeRefused::Memory => DocRefused::Memory,
        refused => DocRefused::Shape(refused),
    }
}

/// The value of a text, and the document that the text is, read once.
pub fn document_kept<'a>(alloc: Global, bytes: &'a [u8], scratch: &'a mut Scratch) -> Kept<'a>
    ensures document { AnswersAs DocRefused.Memory (λ d. d) result.document (doc_of bytes.now) }
    ensures value { MatchOption result.value ((result.document ≡ Err DocRefused.Memory) ⊎ (kept bytes.now ≡ None))
        (λ v. kept bytes.now ≡ Some (value_view v)) }
{
    match read_kept(alloc, bytes, scratch) {
        Ok(value) => {
            let document = document_in(alloc, &value);
            Kept {
                value: Some(value),
                document,
            }
        }
        Err(refused) => Kept {
            value: None,
            document: Err(no_value(refused)),
        },
    }
}
