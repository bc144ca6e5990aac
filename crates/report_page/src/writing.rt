// The page.
ghost use Rattle.std.specs.Prelude.{◌≡◌, ◌++◌, IfOk, OnOk, length};
ghost use Rattle.report_page.specs.Page as spec;

use crate::cells::push_digits;
use crate::markup::{Part, markup};
use crate::script::SCRIPT;
use crate::sections::push_sections;
use crate::style::STYLE;
use crate::timetable::push_timetable;
use rail_model::{Layout, Names, Table};
use run_timetable::Run;
use std::alloc::{AllocError, Global};
use svg_text::{push_escaped, push_raw};
use wait_causes::Wait;

/// Whether trains can block one another.
#[derive(Drop)]
pub enum Verdict {
    /// Each table has a certificate, of so many nodes.
    Certified(Vec<u64>),
    /// A state is stuck, of which these lines tell.
    Stuck(String),
    /// Searches gave up, as these lines say.
    Undecided(String),
}

/// What a page shows: its title, the verdict, the tracks as SVG text, a run if there is one with its graph as SVG text and what its trains
/// wait for, the sections of a table by their names, and remarks in lines if there are some. Points and trains have the names of `layout`
/// and `trains`.
#[derive(Clone, Copy)]
pub struct Report<'a> {
    pub title: &'a str,
    pub verdict: &'a Verdict,
    pub tracks: &'a [u8],
    pub run: Option<&'a Run>,
    pub graph: &'a [u8],
    pub waits: &'a [Wait],
    pub layout: &'a Layout,
    pub trains: &'a Names,
    pub table: &'a Table,
    pub sections: &'a [String],
    pub remarks: Option<&'a str>,
}

// Adds what stands before the verdict.
fn push_head(out: &mut Vec<u8>, title: &str, style: &str) -> Result<(), AllocError>
    ensures { OnOk result (out.new.items ≡ out.old.items ++ spec.head_text title.now style.now) }
{
    push_raw(out, markup(Part::Start))?;
    push_escaped(out, title)?;
    push_raw(out, markup(Part::Style))?;
    push_raw(out, style)?;
    push_raw(out, markup(Part::Heading))?;
    push_escaped(out, title)
}

// Adds words behind a fixed part.
fn push_words(out: &mut Vec<u8>, part: Part, words: &str) -> Result<(), AllocError>
    ensures { OnOk result (out.new.items ≡ out.old.items ++ spec.words_text part words.now) }
{
    push_raw(out, markup(part))?;
    push_escaped(out, words)?;
    push_raw(out, markup(Part::AfterWords))
}

// Adds the certificate of a table, which has so many nodes.
#[tactic(auto, unfolding(crate::specs::Page::certificate_text))]
fn push_certificate(
    alloc: Global,
    out: &mut Vec<u8>,
    table: usize,
    nodes: u64,
) -> Result<(), AllocError>
    ensures { OnOk result (out.new.items ≡ out.old.items ++ spec.certificate_text table nodes) }
{
    push_raw(out, "<li>table ")?;
    push_digits(alloc, out, Some(table as u64))?;
    push_raw(out, ": ")?;
    push_digits(alloc, out, Some(nodes))?;
    push_raw(out, " nodes</li>\n")
}

// Adds those of all tables.
fn push_certificates(alloc: Global, out: &mut Vec<u8>, nodes: &[u64]) -> Result<(), AllocError>
    ensures { OnOk result (out.new.items ≡ out.old.items ++ spec.certificates_text nodes.now (length nodes.now)) }
{
    for (table, count) in nodes.iter().enumerate() {
        push_certificate(alloc, out, table, *count)?;
    }
    Ok(())
}

// Adds that each table has a certificate.
fn push_certified(alloc: Global, out: &mut Vec<u8>, nodes: &[u64]) -> Result<(), AllocError>
    ensures { OnOk result (out.new.items ≡ out.old.items ++ spec.certified_text nodes.now) }
{
    push_raw(out, markup(Part::Certified))?;
    push_certificates(alloc, out, nodes)?;
    push_raw(out, markup(Part::AfterCertificates))
}

// Adds the verdict.
fn push_verdict(alloc: Global, out: &mut Vec<u8>, verdict: &Verdict) -> Result<(), AllocError>
    ensures { OnOk result (out.new.items ≡ out.old.items ++ spec.verdict_text verdict.now) }
{
    match verdict {
        Verdict::Certified(nodes) => push_certified(alloc, out, nodes),
        Verdict::Stuck(words) => push_words(out, Part::Stuck, words.as_str()),
        Verdict::Undecided(words) => push_words(out, Part::Undecided, words.as_str()),
    }
}

// Adds a picture behind a fixed part.
fn push_picture(out: &mut Vec<u8>, part: Part, picture: &[u8]) -> Result<(), AllocError>
    ensures { OnOk result (out.new.items ≡ out.old.items ++ spec.picture_text part picture.now) }
{
    push_raw(out, markup(part))?;
    out.extend_from_slice(picture)?;
    push_raw(out, markup(Part::AfterPicture))
}

// Adds the graph and the timetable of a run, if there is one.
fn push_run(alloc: Global, out: &mut Vec<u8>, report: &Report<'_>) -> Result<(), AllocError>
    ensures { OnOk result (out.new.items ≡ out.old.items ++ spec.run_text report.now) }
{
    match report.run {
        Some(run) => {
            push_picture(out, Part::Graph, report.graph)?;
            push_timetable(alloc, out, report, run)
        }
        None => Ok(()),
    }
}

// Adds remarks, if there are some.
fn push_remarks(out: &mut Vec<u8>, remarks: Option<&str>) -> Result<(), AllocError>
    ensures { OnOk result (out.new.items ≡ out.old.items ++ spec.remarks_text remarks.entry) }
{
    match remarks {
        Some(lines) => push_words(out, Part::Remarks, lines),
        None => Ok(()),
    }
}

// Adds the script and the end of the page.
fn push_end(out: &mut Vec<u8>, script: &str) -> Result<(), AllocError>
    ensures { OnOk result (out.new.items ≡ out.old.items ++ spec.end_text script.now) }
{
    push_raw(out, markup(Part::Script))?;
    push_raw(out, script)?;
    push_raw(out, markup(Part::End))
}

// The page with a style and a script.
fn page_with(
    alloc: Global,
    style: &str,
    script: &str,
    report: &Report<'_>,
) -> Result<Vec<u8>, AllocError>
    ensures { IfOk result (λ text. text.items ≡ spec.page_text style.now script.now report.now) }
{
    let mut out = Vec::new(alloc);
    push_head(&mut out, report.title, style)?;
    push_verdict(alloc, &mut out, report.verdict)?;
    push_picture(&mut out, Part::Tracks, report.tracks)?;
    push_run(alloc, &mut out, report)?;
    push_sections(alloc, &mut out, report)?;
    push_remarks(&mut out, report.remarks)?;
    push_end(&mut out, script)?;
    Ok(out)
}

/// The page: one HTML file that needs nothing else. Words are escaped; the pictures stand in it as they are. Of its style and its script the
/// contract says nothing.
pub fn page(alloc: Global, report: &Report<'_>) -> Result<Vec<u8>, AllocError>
    ensures { IfOk result (λ text. spec.IsPage report.now text.items) }
{
    page_with(alloc, STYLE, SCRIPT, report)
}
