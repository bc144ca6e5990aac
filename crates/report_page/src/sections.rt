// The sections of a page.
ghost use Rattle.std.specs.Prelude.{◌≡◌, ◌++◌, ◌<◌, ◌≤◌, suc, IfOk, OnOk, length};
ghost use Rattle.rail_model.specs.Table.{last, trains};
ghost use Rattle.state_sentences.specs.Sections.{section_words};
ghost use Rattle.svg_text.specs.Text.{escape};
ghost use Rattle.report_page.specs.Markup.{cell};
ghost use Rattle.report_page.specs.Sections as spec;

use crate::Report;
use crate::cells::{push_number, push_words};
use crate::markup::{Part, markup};
use rail_model::{last_of, limit_of, point_of, sections_of, share_at, trains_of};
use run_timetable::{point_name, train_name};
use state_sentences::push_section;
use std::alloc::{AllocError, Global};
use svg_text::{push_escaped, push_raw};

// Adds a share in brackets, if it is more than 1.
fn push_share(alloc: Global, out: &mut Vec<u8>, share: i32) -> Result<(), AllocError>
    ensures { OnOk result (out.new.items ≡ out.old.items ++ spec.more_text share) }
{
    if share <= 1 {
        return Ok(());
    }
    let words = format!(in alloc; " ({share})")?;
    push_raw(out, words.as_str())
}

// Adds a point of a train's way, if the train has a share of a section there.
#[tactic(auto, unfolding(crate::specs::Sections::point_text))]
fn push_point(
    alloc: Global,
    out: &mut Vec<u8>,
    report: &Report<'_>,
    section: u32,
    train: u32,
    place: u32,
) -> Result<(), AllocError>
    requires section { section < length report.now.table.now.sections }
    requires train { train < trains report.now.table.now }
    requires place { place ≤ last report.now.table.now train }
    ensures { OnOk result (out.new.items ≡ out.old.items ++ spec.point_text report.now section train place) }
{
    let share = share_at(report.table, train, section, place);
    if share <= 0 {
        return Ok(());
    }
    match point_of(report.table, train, place) {
        Some(point) => {
            push_raw(out, " ")?;
            push_escaped(out, point_name(report.layout, point))?;
            push_share(alloc, out, share)
        }
        None => Ok(()),
    }
}

// Adds the points at the first places of a train's way, up to this number of them, at which it has a share of a section.
fn push_points(
    alloc: Global,
    out: &mut Vec<u8>,
    report: &Report<'_>,
    section: u32,
    train: u32,
    places: u32,
) -> Result<(), AllocError>
    requires section { section < length report.now.table.now.sections }
    requires train { train < trains report.now.table.now }
    requires places { places ≤ suc (last report.now.table.now train) }
    ensures { OnOk result (out.new.items ≡ out.old.items ++ spec.points_text report.now section train places) }
{
    for place in 0..places {
        push_point(alloc, out, report, section, train, place)?;
    }
    Ok(())
}

// The points at which a train has a share of a section.
fn points_of(
    alloc: Global,
    report: &Report<'_>,
    section: u32,
    train: u32,
) -> Result<Vec<u8>, AllocError>
    requires section { section < length report.now.table.now.sections }
    requires train { train < trains report.now.table.now }
    ensures { IfOk result (λ text. text.items ≡ spec.points_text report.now section train (suc (last report.now.table.now train))) }
{
    let mut points = Vec::new(alloc);
    let places = last_of(report.table, train) + 1;
    push_points(alloc, &mut points, report, section, train, places)?;
    Ok(points)
}

// Adds a train and these points, if there are some.
fn push_member(out: &mut Vec<u8>, name: &str, points: &[u8]) -> Result<(), AllocError>
    ensures { OnOk result (out.new.items ≡ out.old.items ++ spec.named_points name.now points.now) }
{
    if points.is_empty() {
        return Ok(());
    }
    push_raw(out, "<div><b>")?;
    push_escaped(out, name)?;
    push_raw(out, "</b>")?;
    out.extend_from_slice(points)?;
    push_raw(out, "</div>")
}

// Adds the trains that have a share of a section, with the points at which they have it.
#[tactic(auto, unfolding(crate::specs::Sections::member_text))]
fn push_members(
    alloc: Global,
    out: &mut Vec<u8>,
    report: &Report<'_>,
    section: u32,
) -> Result<(), AllocError>
    requires { section < length report.now.table.now.sections }
    ensures { OnOk result (out.new.items ≡ out.old.items ++ spec.members_text report.now section (trains report.now.table.now)) }
{
    for train in 0..trains_of(report.table) {
        let points = points_of(alloc, report, section, train)?;
        push_member(out, train_name(report.trains, train), &points)?;
    }
    Ok(())
}

// Adds a cell with what a section is called.
fn push_name(
    alloc: Global,
    out: &mut Vec<u8>,
    names: &[String],
    section: u32,
) -> Result<(), AllocError>
    ensures { OnOk result (out.new.items ≡ out.old.items ++ cell (escape (section_words names.now section))) }
{
    let mut called = String::new(alloc);
    push_section(&mut called, names, section)?;
    push_words(out, called.as_str())
}

// Adds what a section is called, and its limit.
#[tactic(auto, unfolding(crate::specs::Sections::limit_text))]
fn push_limit(
    alloc: Global,
    out: &mut Vec<u8>,
    report: &Report<'_>,
    section: u32,
) -> Result<(), AllocError>
    requires { section < length report.now.table.now.sections }
    ensures { OnOk result (out.new.items ≡ out.old.items ++ spec.limit_text report.now section) }
{
    let limit = limit_of(report.table, section);
    push_name(alloc, out, report.sections, section)?;
    push_number(alloc, out, Some(u64::from(limit)))
}

// Adds a row: what the section is called, its limit, and where which trains have a share of it.
#[tactic(auto, unfolding(crate::specs::Sections::section_text))]
fn push_row(
    alloc: Global,
    out: &mut Vec<u8>,
    report: &Report<'_>,
    section: u32,
) -> Result<(), AllocError>
    requires { section < length report.now.table.now.sections }
    ensures { OnOk result (out.new.items ≡ out.old.items ++ spec.section_text report.now section) }
{
    push_raw(out, "<tr>")?;
    push_limit(alloc, out, report, section)?;
    push_raw(out, "<td>")?;
    push_members(alloc, out, report, section)?;
    push_raw(out, "</td></tr>\n")
}

// Adds the rows of all sections.
fn push_rows(alloc: Global, out: &mut Vec<u8>, report: &Report<'_>) -> Result<(), AllocError>
    ensures { OnOk result (out.new.items ≡ out.old.items ++ spec.rows_text report.now (length report.now.table.now.sections)) }
{
    for section in 0..sections_of(report.table) {
        push_row(alloc, out, report, section)?;
    }
    Ok(())
}

/// Adds the sections, if there are some.
pub(crate) fn push_sections(
    alloc: Global,
    out: &mut Vec<u8>,
    report: &Report<'_>,
) -> Result<(), AllocError>
    ensures { OnOk result (out.new.items ≡ out.old.items ++ spec.sections_text report.now) }
{
    if sections_of(report.table) == 0 {
        return Ok(());
    }
    push_raw(out, markup(Part::Sections))?;
    push_rows(alloc, out, report)?;
    push_raw(out, markup(Part::AfterRows))
}
