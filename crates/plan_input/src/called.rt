// What the sections of a document of a plan are called.
ghost use Rattle.std.specs.Prelude.{IfOk};
ghost use Rattle.plan_input.specs.Called.{AreCalled, AreNamesIn, AreOwnNames};

use crate::compiling::line_of;
use crate::naming::section_names;
use crate::numbered::{Further, all_names};
use document_json::{Doc, DocRefused, document};
use std::alloc::{AllocError, Global};

/// The names of the sections of each table of a document.
#[derive(Drop)]
pub(crate) enum NamesFound {
    Names(Vec<Vec<String>>),
    /// Why there are none: lines.
    Wrong(String),
}

// The names of the sections of the own document of the plan that a text is.
fn own_names(alloc: Global, own: &Doc, plan: &[u8]) -> Result<Vec<Vec<String>>, AllocError>
    ensures { IfOk result (λ names. AreOwnNames plan.now own.now names.items) }
{
    let planned = section_names(alloc, plan)?;
    all_names(alloc, Further::Crossing, own, &planned)
}

/// The names of the sections of a document by the plan that a text is, whose own document is given, too.
pub(crate) fn names_by(
    alloc: Global,
    doc: &Doc,
    own: &Doc,
    plan: &[u8],
) -> Result<Vec<Vec<String>>, AllocError>
    ensures { IfOk result (λ names. AreCalled plan.now doc.now own.now names.items) }
{
    let names = own_names(alloc, own, plan)?;
    all_names(alloc, Further::Added, doc, &names)
}

/// The names of the sections of a text, which is the own document of a plan, if it isn't refused.
pub(crate) fn names_in(alloc: Global, text: &[u8], plan: &[u8]) -> Result<NamesFound, AllocError>
    ensures { IfOk result (AreNamesIn plan.now text.now) }
{
    match document(alloc, text) {
        Ok(own) => Ok(NamesFound::Names(own_names(alloc, &own, plan)?)),
        Err(DocRefused::Memory) => Err(AllocError),
        Err(refused) => Ok(NamesFound::Wrong(line_of(alloc, &refused)?)),
    }
}
