// The legend below a picture: entries in columns, each with a mark in a colour, and words.
ghost use Rattle.std.specs.Prelude.{◌≡◌, ◌++◌, ◌∷◌, [], ◌<◌, ◌≤◌, IfOk, OnOk, length, string_bytes};
ghost use Rattle.rail_model.specs.Table.{trains};
ghost use Rattle.state_sentences.specs.Sections.{name_among};
ghost use Rattle.layout_frame.specs.Legend.{AddsLegend, Extends, entry_words, number_before, section_entries};
ghost use Rattle.layout_frame.specs.Spots.{words_of};

use crate::areas::{area_colour, area_stripes};
use crate::frame::{View, shifted, train_name};
use crate::looks::{Look, look_of};
use crate::shapes::{push_label, push_painted, push_shape};
use rail_model::{Table, limit_of, point_of, sections_of};
use state_core::Keeper;
use state_sentences::{Scene, push_section};
use std::alloc::{AllocError, Global};
use svg_text::{Shape, Spot, circle};

// Whether a train has left the layout.
fn has_left(scene: &Scene, train: u32) -> bool
    requires { train < trains scene.now.table.now }
{
    point_of(scene.table, train, scene.place(train)).is_none()
}

// How many entries there are of trains: of red ones that wait, and of those that have left the layout.
fn train_entries(scene: &Scene, looks: &[Look]) -> u64 {
    let mut entries: u64 = 0;
    for train in 0..scene.trains() {
        if look_of(looks, train).waits_for.is_some() || has_left(scene, train) {
            entries = entries.saturating_add(1);
        }
    }
    entries
}

// How many columns a legend has: fewer where sections have names, which are longer than numbers.
fn columns_of(sections: &[String]) -> u64
    ensures { 0 < result }
{
    if sections.is_empty() { 3 } else { 2 }
}

// How far down a row of entries is in a legend that begins so far from the top.
fn row_at(top: u64, row: u64) -> u64
    ensures { top ≤ result }
{
    row.saturating_mul(22).saturating_add(top)
}

/// Where the legend of a scene ends that begins so far from the top.
pub(crate) fn legend_end(scene: &Scene, names: &[String], looks: &[Look], top: u64) -> u64
    ensures { top ≤ result }
{
    let sections = u64::from(sections_of(scene.table));
    let entries = train_entries(scene, looks).saturating_add(sections);
    row_at(top, entries.div_ceil(columns_of(names)))
}

// The spot of the mark of the next entry of a legend, whose entries have two shapes each.
fn next_spot(shapes: &[Shape], view: &View) -> Spot {
    spot_of(view, shapes.len() as u64 / 2)
}

// The spot of the mark of an entry.
fn spot_of(view: &View, entry: u64) -> Spot {
    let columns = columns_of(view.sections);
    Spot {
        x: entry % columns * (765 / columns) + 28,
        y: row_at(view.frame.grid.foot, entry / columns),
    }
}

// Adds an entry to a legend: a mark at a spot, and words.
fn push_entry(
    shapes: &mut Vec<Shape>,
    view: &View,
    at: Spot,
    mark: Shape,
    words: &str,
) -> Result<(), AllocError>
    ensures { OnOk result (words_of shapes.new.items ≡ words_of shapes.old.items ++ mark.words ∷ words.now ∷ []) }
{
    push_shape(shapes, mark)?;
    push_label(shapes, view.alloc, shifted(at, 14, 4), words)
}

// The mark of a train.
fn dot(view: &View, at: Spot, train: u32) -> Result<Shape, AllocError>
    ensures { IfOk result (λ shape. shape.words ≡ []) }
{
    let mut shape = circle(view.alloc, at, 7)?;
    shape.set(view.alloc, "fill", look_of(view.looks, train).colour)?;
    Ok(shape)
}

// The mark of a section: a piece of its area.
fn swatch(view: &View, at: Spot, section: u32) -> Result<Shape, AllocError>
    ensures { IfOk result (λ shape. shape.words ≡ []) }
{
    let left = at.x.saturating_sub(10);
    let y = at.y;
    let way = format!(in view.alloc; "M{left},{y} h20")?;
    let mut shape = Shape::new(view.alloc, "path", "")?;
    shape.set(view.alloc, "d", way.as_str())?;
    shape.set(view.alloc, "stroke", area_colour(section))?;
    Ok(shape)
}

// Adds what a train waits for.
fn write_keeper(words: &mut String, view: &View, keeper: Keeper) -> Result<(), AllocError> {
    match keeper {
        Keeper::Train { train } => words.push_str(train_name(view.scene.names, train)),
        Keeper::Section { section } => push_section(words, view.sections, section),
        Keeper::Connection { other, reached } => {
            let other = train_name(view.scene.names, other);
            write!(words, "{other} to come to place {reached}")
        }
    }
}

// Adds the words of a train's entry: what it waits for, if it is red; or, where those are asked for that are gone, that it
// has left the layout. A train without an entry has no words.
fn write_entry(words: &mut String, view: &View, train: u32, gone: bool) -> Result<(), AllocError>
    requires { train < trains view.now.scene.now.table.now }
{
    let name = view.scene.train(train);
    match look_of(view.looks, train).waits_for {
        Some(keeper) if !gone => {
            write!(words, "{name} waits for ")?;
            write_keeper(words, view, keeper)
        }
        _ if gone && has_left(view.scene, train) => write!(words, "{name} has left the layout"),
        _ => Ok(()),
    }
}

// Adds a train's entry, if it has one.
fn push_train(
    shapes: &mut Vec<Shape>,
    view: &View,
    train: u32,
    gone: bool,
) -> Result<(), AllocError>
    requires { train < trains view.now.scene.now.table.now }
    ensures { OnOk result (Extends (words_of shapes.old.items) (words_of shapes.new.items)) }
{
    let mut words = String::new(view.alloc);
    write_entry(&mut words, view, train, gone)?;
    if words.is_empty() {
        return Ok(());
    }
    let at = next_spot(shapes, view);
    push_entry(shapes, view, at, dot(view, at, train)?, words.as_str())
}

// Adds the red trains that wait, or those that are gone.
fn push_trains(shapes: &mut Vec<Shape>, view: &View, gone: bool) -> Result<(), AllocError>
    ensures { OnOk result (Extends (words_of shapes.old.items) (words_of shapes.new.items)) }
{
    for train in 0..view.scene.trains() {
        push_train(shapes, view, train, gone)?;
    }
    Ok(())
}

// Adds the number of a section that has a name, as it stands in the picture.
fn push_number(words: &mut String, names: &[String], section: u32) -> Result<(), AllocError>
    ensures { OnOk result (string_bytes words.new ≡ string_bytes words.old ++ number_before section (name_among names.now section)) }
{
    match names.get(section as usize) {
        Some(name) if !name.is_empty() => write!(words, "{section}: "),
        _ => Ok(()),
    }
}

// The words of a section's entry: what it is called, and its limit.
fn entry_of(
    alloc: Global,
    names: &[String],
    table: &Table,
    section: u32,
) -> Result<String, AllocError>
    requires { section < length table.now.sections }
    ensures { IfOk result (λ words. string_bytes words ≡ entry_words names.now table.now section) }
{
    let mut words = String::new(alloc);
    push_number(&mut words, names, section)?;
    push_section(&mut words, names, section)?;
    let limit = limit_of(table, section);
    write!(words, ", limit {limit}")?;
    Ok(words)
}

// Adds a section with its limit.
fn push_area(shapes: &mut Vec<Shape>, view: &View, section: u32) -> Result<(), AllocError>
    requires { section < length view.now.scene.now.table.now.sections }
    ensures { OnOk result (words_of shapes.new.items
        ≡ words_of shapes.old.items ++ [] ∷ entry_words view.now.sections.now view.now.scene.now.table.now section ∷ []) }
{
    let words = entry_of(view.alloc, view.sections, view.scene.table, section)?;
    let at = next_spot(shapes, view);
    push_entry(shapes, view, at, swatch(view, at, section)?, words.as_str())
}

// Adds the sections.
fn push_areas(shapes: &mut Vec<Shape>, view: &View) -> Result<(), AllocError>
    ensures { OnOk result (words_of shapes.new.items
        ≡ words_of shapes.old.items ++ section_entries view.now.sections.now view.now.scene.now.table.now) }
{
    for section in 0..sections_of(view.scene.table) {
        push_area(shapes, view, section)?;
    }
    Ok(())
}

// Adds the stripes over the mark of a section, if it has some, in an entry.
fn push_stripes(
    shapes: &mut Vec<Shape>,
    view: &View,
    entry: u64,
    section: u32,
) -> Result<(), AllocError>
    ensures { OnOk result (Extends (words_of shapes.old.items) (words_of shapes.new.items)) }
{
    let pattern = area_stripes(section);
    if pattern.is_empty() {
        return Ok(());
    }
    let mark = swatch(view, spot_of(view, entry), section)?;
    push_painted(shapes, view.alloc, mark, "stroke-dasharray", pattern)
}

// Adds the stripes over the marks of the sections, of which the first is in this entry.
fn push_patterns(shapes: &mut Vec<Shape>, view: &View, first: u64) -> Result<(), AllocError>
    ensures { OnOk result (Extends (words_of shapes.old.items) (words_of shapes.new.items)) }
{
    let sections = sections_of(view.scene.table);
    for section in 0..sections {
        let entry = first.saturating_add(u64::from(section));
        push_stripes(shapes, view, entry, section)?;
    }
    Ok(())
}

// Adds the trains that have left the layout, and the stripes over the marks of the sections, of which the first is in this
// entry.
fn push_rest(shapes: &mut Vec<Shape>, view: &View, first: u64) -> Result<(), AllocError>
    ensures { OnOk result (Extends (words_of shapes.old.items) (words_of shapes.new.items)) }
{
    push_trains(shapes, view, true)?;
    push_patterns(shapes, view, first)
}

/// Adds the entries of a legend: the red trains that wait, the sections, and the trains that have left the layout.
pub fn push_legend(shapes: &mut Vec<Shape>, view: &View) -> Result<(), AllocError>
    ensures { OnOk result (AddsLegend view.now.sections.now view.now.scene.now.table.now (words_of shapes.old.items) (words_of shapes.new.items)) }
{
    push_trains(shapes, view, false)?;
    let first = shapes.len() as u64 / 2;
    push_areas(shapes, view)?;
    push_rest(shapes, view, first)
}
