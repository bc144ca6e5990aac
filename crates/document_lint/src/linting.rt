// All remarks on a document.
ghost use Rattle.std.specs.Prelude.{◌≡◌, IfOk, false, Contains};
ghost use Rattle.rail_model.specs.Turns.{AnswersAs};
ghost use Rattle.document_json.specs.Reading.{doc_of};
ghost use Rattle.document_facts.specs.Adding.{Or};
ghost use Rattle.document_lint.specs.Told.{AreAll, AreRemarks, HoldsAfter, HoldsOf, IsSoOf};

use crate::reading::{find_after, find_of};
use crate::remark::Remark;
use crate::remarking::remarks_on;
use document_facts::{Fact, Found};
use document_json::{Doc, DocRefused, Kept, document, document_kept};
use json::Scratch;
use std::alloc::{AllocError, Global};

// The facts of bytes that were read so.
fn facts_of(alloc: Global, bytes: &[u8], read: &Kept) -> Result<Vec<Fact>, AllocError>
    requires { AnswersAs DocRefused.Memory (λ d. d) read.now.document (doc_of bytes.now) }
    ensures { IfOk result (λ facts. AreAll (HoldsOf bytes.now) facts.items) }
{
    let mut found = Found::new(alloc);
    find_of(&mut found, alloc, bytes, read);
    found.into_result()
}

// The remarks on bytes that were read so.
fn remarks_of(
    alloc: Global,
    bytes: &[u8],
    read: &Kept,
    names: &[Vec<String>],
) -> Result<Vec<Remark>, AllocError>
    requires { AnswersAs DocRefused.Memory (λ d. d) read.now.document (doc_of bytes.now) }
    ensures { IfOk result (λ remarks. AreRemarks (HoldsOf bytes.now) remarks.items) }
{
    let facts = facts_of(alloc, bytes, read)?;
    remarks_on(alloc, read, None, names, &facts)
}

// The facts of bytes after former ones, which were read so.
fn facts_after(
    alloc: Global,
    bytes: &[u8],
    read: &Kept,
    former: &[u8],
    read_former: &Result<Doc, DocRefused>,
) -> Result<Vec<Fact>, AllocError>
    requires read { AnswersAs DocRefused.Memory (λ d. d) read.now.document (doc_of bytes.now) }
    requires former { AnswersAs DocRefused.Memory (λ d. d) read_former.now (doc_of former.now) }
    ensures { IfOk result (λ facts. AreAll (Or (HoldsOf bytes.now) (HoldsAfter bytes.now former.now)) facts.items) }
{
    let mut found = Found::new(alloc);
    find_of(&mut found, alloc, bytes, read);
    find_after(&mut found, bytes, former, &read.document, read_former);
    found.into_result()
}

// The remarks on bytes after former ones, which were read so.
fn remarks_since(
    alloc: Global,
    bytes: &[u8],
    read: &Kept,
    names: &[Vec<String>],
    former: &[u8],
    read_former: &Result<Doc, DocRefused>,
) -> Result<Vec<Remark>, AllocError>
    requires read { AnswersAs DocRefused.Memory (λ d. d) read.now.document (doc_of bytes.now) }
    requires former { AnswersAs DocRefused.Memory (λ d. d) read_former.now (doc_of former.now) }
    ensures { IfOk result (λ remarks. AreRemarks (Or (HoldsOf bytes.now) (HoldsAfter bytes.now former.now)) remarks.items) }
{
    let facts = facts_after(alloc, bytes, read, former, read_former)?;
    remarks_on(alloc, read, Some(read_former), names, &facts)
}

// The remarks on bytes that were read so, after former ones.
fn remarks_after(
    alloc: Global,
    bytes: &[u8],
    read: &Kept,
    names: &[Vec<String>],
    former: &[u8],
) -> Result<Vec<Remark>, AllocError>
    requires { AnswersAs DocRefused.Memory (λ d. d) read.now.document (doc_of bytes.now) }
    ensures { IfOk result (λ remarks. AreRemarks (Or (HoldsOf bytes.now) (HoldsAfter bytes.now former.now)) remarks.items) }
{
    let read_former = document(alloc, former);
    remarks_since(alloc, bytes, read, names, former, &read_former)
}

// The remarks on bytes that were read so, after former ones, if there are some.
fn remarks_in(
    alloc: Global,
    bytes: &[u8],
    read: &Kept,
    names: &[Vec<String>],
    former: Option<&[u8]>,
) -> Result<Vec<Remark>, AllocError>
    requires { AnswersAs DocRefused.Memory (λ d. d) read.now.document (doc_of bytes.now) }
    ensures { IfOk result (λ remarks. AreRemarks (IsSoOf former.entry bytes.now) remarks.items) }
{
    match former {
        Some(former) => remarks_after(alloc, bytes, read, names, former),
        None => remarks_of(alloc, bytes, read, names),
    }
}

// The remarks on bytes, after former ones, if there are some.
fn all_remarks(
    alloc: Global,
    bytes: &[u8],
    names: &[Vec<String>],
    former: Option<&[u8]>,
) -> Result<Vec<Remark>, AllocError>
    ensures { IfOk result (λ remarks. AreRemarks (IsSoOf former.entry bytes.now) remarks.items) }
{
    let mut scratch = Scratch::new(alloc);
    let read = document_kept(alloc, bytes, &mut scratch);
    remarks_in(alloc, bytes, &read, names, former)
}

/// What a document says that has no effect or is likely a mistake; and if `ats` refuses it, why. Sections are called by their names, which
/// are given for each table, where they have some. No clause is about the remarks on members of the text: on ignored ones, and on those
/// that may be the cause of a refusal.
pub fn lint(alloc: Global, bytes: &[u8], names: &[Vec<String>]) -> Result<Vec<Remark>, AllocError>
    ensures { IfOk result (λ remarks. AreRemarks (HoldsOf bytes.now) remarks.items) }
{
    all_remarks(alloc, bytes, names, None)
}

/// What [`lint`] says of a document, and then which sections of a former document are gone.
pub fn lint_after(
    alloc: Global,
    bytes: &[u8],
    names: &[Vec<String>],
    former: &[u8],
) -> Result<Vec<Remark>, AllocError>
    ensures { IfOk result (λ remarks. AreRemarks (Or (HoldsOf bytes.now) (HoldsAfter bytes.now former.now)) remarks.items) }
{
    all_remarks(alloc, bytes, names, Some(former))
}
