// Remarks on documents.
ghost use Rattle.std.specs.Prelude.{◌≡◌, ◌++◌, IfOk, OnOk, flat_map, string_bytes};
ghost use Rattle.document_lint.specs.Told.{AreRemarks, IsSoOf};
ghost use Rattle.planner_run.specs.Answered.{IsLinted};
ghost use Rattle.planner_run.specs.Reporting.{remark_line};

use crate::Answer;
use document_lint::{Remark, lint, lint_after};
use std::alloc::{AllocError, Global};

// The remarks on a document, whose sections have these names, compared with a former one, if there is one.
fn found_in(
    alloc: Global,
    document: &[u8],
    names: &[Vec<String>],
    former: Option<&[u8]>,
) -> Result<Vec<Remark>, AllocError>
    ensures { IfOk result (λ remarks. AreRemarks (IsSoOf former.entry document.now) remarks.items) }
{
    match former {
        Some(former) => lint_after(alloc, document, names, former),
        None => lint(alloc, document, names),
    }
}

/// What a document says without effect or likely by mistake; with a former one, which of its sections are gone.
pub(crate) fn remarks(
    alloc: Global,
    document: &[u8],
    names: &[Vec<String>],
    former: Option<&[u8]>,
) -> Result<Answer, AllocError>
    ensures { IfOk result (IsLinted former.entry document.now) }
{
    let found = found_in(alloc, document, names, former)?;
    if found.is_empty() {
        return Ok(Answer::Text(Vec::new(alloc)));
    }
    Ok(Answer::Remarks(lines_of(alloc, &found)?))
}

// Adds the line of a remark.
fn push_line(out: &mut String, remark: &Remark) -> Result<(), AllocError>
    ensures { OnOk result (string_bytes out.new ≡ string_bytes out.old ++ remark_line remark.now) }
{
    let place = remark.place.as_str();
    let words = remark.words.as_str();
    write!(out, "{place}: {words}\n")
}

// Adds a line for each remark.
fn push_lines(out: &mut String, remarks: &[Remark]) -> Result<(), AllocError>
    ensures { OnOk result (string_bytes out.new ≡ string_bytes out.old ++ flat_map remark_line remarks.now) }
{
    for remark in remarks {
        push_line(out, remark)?;
    }
    Ok(())
}

/// A line for each remark.
pub(crate) fn lines_of(alloc: Global, remarks: &[Remark]) -> Result<String, AllocError>
    ensures { IfOk result (λ lines. string_bytes lines ≡ flat_map remark_line remarks.now) }
{
    let mut lines = String::new(alloc);
    push_lines(&mut lines, remarks)?;
    Ok(lines)
}
