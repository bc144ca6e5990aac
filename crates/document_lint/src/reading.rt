// All facts of bytes that were read as a document, or refused.
ghost use Rattle.std.specs.Prelude.{◌≡◌, Err, Ok};
ghost use Rattle.rail_model.specs.Turns.{AnswersAs};
ghost use Rattle.document_json.specs.Reading.{doc_of};
ghost use Rattle.document_facts.specs.Adding.{Adds, Nothing};
ghost use Rattle.document_lint.specs.Told.{HoldsAfter, HoldsOf, IsOfMembers, IsRight};

use crate::members::{MemberFacts, member_facts};
use document_facts::{Fact, Found, MemberFact, find_in, find_lost};
use document_json::{Doc, DocRefused, Kept, tables_of};
use json::Value;
use std::alloc::Global;

// Adds a fact of members.
fn add_member(found: &mut Found, what: MemberFact)
    ensures { Adds IsOfMembers Nothing found.old found.new }
{
    found.add_if(true, Fact::Member { what });
}

// Adds facts of members.
fn add_members(found: &mut Found, facts: &[MemberFact])
    ensures { Adds IsOfMembers Nothing found.old found.new }
{
    for what in facts {
        add_member(found, *what);
    }
}

// Notes that there was no memory for some facts of members, if this is so.
fn note_short(found: &mut Found, is_short: bool)
    ensures { Adds IsOfMembers Nothing found.old found.new }
{
    if is_short {
        found.note_no_memory();
    }
}

// Adds facts of members, as far as there was memory to find them.
fn add_read(found: &mut Found, facts: &MemberFacts)
    ensures { Adds IsOfMembers Nothing found.old found.new }
{
    add_members(found, &facts.list);
    note_short(found, facts.is_short);
}

// Finds what is to be said of the members of a value, if there is one.
fn find_members(found: &mut Found, alloc: Global, value: &Option<Value>, with_suspects: bool)
    ensures { Adds IsOfMembers Nothing found.old found.new }
{
    match value {
        Some(value) => add_read(found, &member_facts(alloc, value, with_suspects)),
        None => {}
    }
}

// Finds that bytes are refused; or notes that memory ran out as they were read.
fn find_refused(found: &mut Found, bytes: &[u8], refused: &DocRefused)
    requires { AnswersAs DocRefused.Memory (λ d. d) (Err refused.now) (doc_of bytes.now) }
    ensures { Adds (HoldsOf bytes.now) (HoldsOf bytes.now) found.old found.new }
{
    match refused {
        DocRefused::Memory => found.note_no_memory(),
        _ => found.add_if(true, Fact::Refused),
    }
}

// Finds that bytes are refused, and what is to be said of their members; which changes look like shares, if the cause is in a section.
fn find_refusal(
    found: &mut Found,
    alloc: Global,
    bytes: &[u8],
    value: &Option<Value>,
    refused: &DocRefused,
)
    requires { AnswersAs DocRefused.Memory (λ d. d) (Err refused.now) (doc_of bytes.now) }
    ensures { Adds (IsRight (HoldsOf bytes.now)) (HoldsOf bytes.now) found.old found.new }
{
    find_refused(found, bytes, refused);
    find_members(found, alloc, value, is_of_marks(refused));
}

// Whether a document is refused because of its sections.
fn is_of_marks(refused: &DocRefused) -> bool {
    match refused {
        DocRefused::Marks { .. } => true,
        _ => false,
    }
}

// Finds what is so of a document, and what is to be said of its members.
fn find_taken(found: &mut Found, alloc: Global, bytes: &[u8], value: &Option<Value>, doc: &Doc)
    requires { doc_of bytes.now ≡ Ok doc.now }
    ensures { Adds (IsRight (HoldsOf bytes.now)) (HoldsOf bytes.now) found.old found.new }
{
    find_members(found, alloc, value, false);
    find_in(found, doc);
}

/// Finds all that is to be said of bytes that were read so.
pub(crate) fn find_of(found: &mut Found, alloc: Global, bytes: &[u8], read: &Kept)
    requires { AnswersAs DocRefused.Memory (λ d. d) read.now.document (doc_of bytes.now) }
    ensures { Adds (IsRight (HoldsOf bytes.now)) (HoldsOf bytes.now) found.old found.new }
{
    match &read.document {
        Ok(doc) => find_taken(found, alloc, bytes, &read.value, doc),
        Err(refused) => find_refusal(found, alloc, bytes, &read.value, refused),
    }
}

// Notes if memory ran out as bytes were read, which are else no document.
fn note_refused(found: &mut Found, bytes: &[u8], former: &[u8], refused: &DocRefused, old: &Doc)
    requires read { AnswersAs DocRefused.Memory (λ d. d) (Err refused.now) (doc_of bytes.now) }
    requires former { doc_of former.now ≡ Ok old.now }
    ensures { Adds (HoldsAfter bytes.now former.now) (HoldsAfter bytes.now former.now) found.old found.new }
{
    // Read for the clause alone, which is about the former document.
    let _tables = tables_of(old);
    match refused {
        DocRefused::Memory => found.note_no_memory(),
        _ => {}
    }
}

// Finds what a document has lost since a former one.
fn find_gone(found: &mut Found, bytes: &[u8], former: &[u8], doc: &Doc, old: &Doc)
    requires read { doc_of bytes.now ≡ Ok doc.now }
    requires former { doc_of former.now ≡ Ok old.now }
    ensures { Adds (HoldsAfter bytes.now former.now) (HoldsAfter bytes.now former.now) found.old found.new }
{
    find_lost(found, doc, old);
}

// Finds what bytes that were read so have lost since a former document.
fn find_since(
    found: &mut Found,
    bytes: &[u8],
    former: &[u8],
    read: &Result<Doc, DocRefused>,
    old: &Doc,
)
    requires read { AnswersAs DocRefused.Memory (λ d. d) read.now (doc_of bytes.now) }
    requires former { doc_of former.now ≡ Ok old.now }
    ensures { Adds (HoldsAfter bytes.now former.now) (HoldsAfter bytes.now former.now) found.old found.new }
{
    match read {
        Ok(doc) => find_gone(found, bytes, former, doc, old),
        Err(refused) => note_refused(found, bytes, former, refused, old),
    }
}

// Finds that former bytes are refused; or notes that memory ran out as they were read.
fn find_former_refused(found: &mut Found, bytes: &[u8], former: &[u8], refused: &DocRefused)
    requires { AnswersAs DocRefused.Memory (λ d. d) (Err refused.now) (doc_of former.now) }
    ensures { Adds (HoldsAfter bytes.now former.now) (HoldsAfter bytes.now former.now) found.old found.new }
{
    match refused {
        DocRefused::Memory => found.note_no_memory(),
        _ => found.add_if(true, Fact::FormerRefused),
    }
}

/// Finds what is to be said of bytes after former ones, which were read so.
pub(crate) fn find_after(
    found: &mut Found,
    bytes: &[u8],
    former: &[u8],
    read: &Result<Doc, DocRefused>,
    read_former: &Result<Doc, DocRefused>,
)
    requires read { AnswersAs DocRefused.Memory (λ d. d) read.now (doc_of bytes.now) }
    requires former { AnswersAs DocRefused.Memory (λ d. d) read_former.now (doc_of former.now) }
    ensures { Adds (HoldsAfter bytes.now former.now) (HoldsAfter bytes.now former.now) found.old found.new }
{
    match read_former {
        Ok(old) => find_since(found, bytes, former, read, old),
        Err(refused) => find_former_refused(found, bytes, former, refused),
    }
}
