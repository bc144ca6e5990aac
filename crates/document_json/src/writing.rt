// Documents written.
ghost use Rattle.std.specs.Prelude.{◌≡◌, IfOk, Ok};
ghost use Rattle.document_shapes.specs.Seen.{seen_document};
ghost use Rattle.document_json.specs.Doc.{Doc as DocValue};
ghost use Rattle.document_json.specs.Keeps.{AreMembersOf};
ghost use Rattle.document_json.specs.Reading.{doc_of};
ghost use Rattle.document_json.specs.Written.{written};

use crate::members::members_in;
use crate::{Doc, version};
use document_shapes::{DocMembers, write_document};
use std::alloc::{AllocError, Global};

/// The text of the document whose members these are, which reads back as that document.
pub(crate) fn write_members(alloc: Global, members: &DocMembers) -> Result<Vec<u8>, AllocError>
    ensures text { IfOk result (λ b. (D : DocValue) → AreMembersOf D (seen_document members.now) → b.items ≡ written D) }
    ensures reads_back { IfOk result (λ b. (D : DocValue) → AreMembersOf D (seen_document members.now) → doc_of b.items ≡ Ok D) }
{
    write_document(alloc, members)
}

/// The text of a document in its own version: compact JSON, members in the byte order of their names, every member
/// present that the version has, and a newline. The only error is that there is no memory.
pub fn write(alloc: Global, doc: &Doc) -> Result<Vec<u8>, AllocError>
    ensures text { IfOk result (λ b. b.items ≡ written doc.now) }
    ensures reads_back { IfOk result (λ b. doc_of b.items ≡ Ok doc.now) }
{
    let members = members_in(alloc, version(doc), doc)?;
    write_members(alloc, &members)
}
