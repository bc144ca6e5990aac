// Pictures of runs.
ghost use Rattle.std.specs.Prelude.{◌≡◌, ◌<◌, ◌≤◌, [], IfOk, OnOk, vec_len};
ghost use Rattle.std.specs.List.{AllZip};
ghost use Rattle.std.specs.List.Sorted.{IsStrictlyIncreasing};
ghost use Rattle.train_graph.specs.Graph.{IsGraph};
ghost use Rattle.train_graph.specs.Layers.{IsLayer, Shows, layers};
ghost use Rattle.train_graph.specs.Marks.{span_of};
ghost use Rattle.train_graph.specs.Rows.{HasRows, IsOnce};
ghost use Rattle.train_graph.specs.Subject.{subject_of};

use crate::blocks::push_wished_blocks;
use crate::colours::style_of;
use crate::grid::{push_paper, push_points, push_tables, push_ticks};
use crate::labels::{Labels, text_width};
use crate::layers::{LAYERS, Layer, class_of, title_of};
use crate::legend::{WIDTH, legend_end, push_legend};
use crate::levels::{push_first_names, push_last_names, push_levels};
use crate::marks::push_marks;
use crate::order::rows_of;
use crate::scale::MARGIN;
use crate::sheet::Sheet;
use crate::spacing::row_depths;
use crate::{Axes, Wish};
use rail_model::{Layout, Names};
use run_timetable::{Run, point_name, train_name};
use std::alloc::{AllocError, Global};
use svg_text::{Group, Picture, Shape};

/// The picture of a run: ticks to the right, points down, and a line for each move. The chosen train, or the one with the
/// most places, goes down until it turns, and the points of the other trains lie where theirs meet it or branch off. Lines say what
/// they are of when the pointer rests on them.
pub fn train_graph(
    alloc: Global,
    layout: &Layout,
    names: &Names,
    run: &Run,
    wish: Wish<'_>,
) -> Result<Picture, AllocError>
    ensures { IfOk result (IsGraph layout.now names.now run.now wish.entry.waits.now wish.entry.blocks) }
{
    let axes = axes_of(alloc, layout, names, run, wish.chosen)?;
    let sheet = Sheet {
        layout,
        names,
        run,
        waits: wish.waits,
        blocks: wish.blocks,
        axes: &axes,
    };
    drawn(alloc, &sheet)
}

// The picture of a sheet, with a title and with the colours of its trains.
fn drawn(alloc: Global, sheet: &Sheet) -> Result<Picture, AllocError>
    ensures groups { IfOk result (λ picture. AllZip (IsLayer (subject_of sheet.now)) layers picture.groups) }
    ensures broad { IfOk result (λ picture. 0 < picture.width) }
    ensures high { IfOk result (λ picture. 0 < picture.height) }
{
    let trains = sheet.run.trains();
    let end = sheet.run.end();
    let title = format!(in alloc; "Train graph: {trains} trains over {end} ticks")?;
    let style = style_of(alloc, trains)?;
    framed(alloc, sheet, title.as_str(), style.as_str())
}

// The picture of a sheet, with this title and this style.
fn framed(alloc: Global, sheet: &Sheet, title: &str, style: &str) -> Result<Picture, AllocError>
    ensures groups { IfOk result (λ picture. AllZip (IsLayer (subject_of sheet.now)) layers picture.groups) }
    ensures broad { IfOk result (λ picture. 0 < picture.width) }
    ensures high { IfOk result (λ picture. 0 < picture.height) }
{
    let groups = groups_of(alloc, sheet)?;
    let width = u64::from(WIDTH);
    Picture::new(alloc, width, height_of(sheet.axes), title, style, groups)
}

// How high a picture is.
fn height_of(axes: &Axes) -> u64
    ensures { 0 < result }
{
    axes.floor().saturating_add(36)
}

// Where ticks and points lie, under the legend.
fn axes_of(
    alloc: Global,
    layout: &Layout,
    names: &Names,
    run: &Run,
    chosen: Option<u32>,
) -> Result<Axes, AllocError>
    ensures span { IfOk result (λ axes. axes.span ≡ span_of run.now.steps.items) }
    ensures wide { IfOk result (λ axes. 0 < axes.width) }
    ensures each { IfOk result (λ axes. vec_len axes.depths ≡ vec_len axes.rows) }
    ensures apart { IfOk result (λ axes. IsStrictlyIncreasing axes.depths.items) }
    ensures rows { IfOk result (λ axes. HasRows run.now axes.rows.items) }
    ensures once { IfOk result (λ axes. IsOnce axes.rows.items) }
{
    let rows = rows_of(alloc, layout, run, chosen)?;
    let points = widest_point(layout, &rows).saturating_add(10);
    let left = strip(names, run).saturating_add(points).min(260);
    let right = strip(names, run).min(130);
    let top = top_of(names, run);
    let depths = row_depths(alloc, layout, &rows, top + MARGIN, gap_of(&rows))?;
    Ok(Axes {
        left: left as u16,
        width: WIDTH - left as u16 - right as u16,
        span: run.end().max(1).min(1 << 40),
        top,
        bottom: bottom_of(&depths, top),
        rows,
        depths,
    })
}

// How far down the grid begins: under the legend, and under the numbers of tables that take over.
fn top_of(names: &Names, run: &Run) -> u16
    ensures { result ≤ 1000 }
{
    let tables = (run.takeovers.len() as u64).min(2).saturating_mul(12);
    let top = legend_end(names, run).saturating_add(tables + 2);
    top.min(1_000) as u16
}

// How far down the grid ends, which begins at `top`: under the last row.
fn bottom_of(depths: &[u32], top: u16) -> u32 {
    let last = depths.last().copied().unwrap_or(u32::from(top));
    last.saturating_add(u32::from(MARGIN))
}

// How far apart rows lie that are not of one station.
fn gap_of(rows: &[u32]) -> u16 {
    (480 / rows.len().max(1)).max(16).min(36) as u16
}

// How wide the names of trains beside a picture are, with room round them.
fn strip(names: &Names, run: &Run) -> u64 {
    widest_train(names, run).saturating_add(16)
}

// How wide the names of these points are at most.
fn widest_point(layout: &Layout, rows: &[u32]) -> u64 {
    let mut widest = 0;
    for point in rows {
        widest = text_width(point_name(layout, *point)).max(widest);
    }
    widest
}

// How wide the names of the trains are at most.
fn widest_train(names: &Names, run: &Run) -> u64 {
    let mut widest = 0;
    for train in 0..run.trains() {
        widest = text_width(train_name(names, train)).max(widest);
    }
    widest
}

// Draws a layer.
fn draw(
    alloc: Global,
    shapes: &mut Vec<Shape>,
    labels: &mut Labels,
    sheet: &Sheet,
    layer: Layer,
) -> Result<(), AllocError>
    requires { shapes.old.items ≡ [] }
    ensures { OnOk result (Shows (subject_of sheet.now) layer shapes.new.items) }
{
    let Sheet {
        layout,
        names,
        run,
        axes,
        blocks,
        ..
    } = *sheet;
    match layer {
        Layer::Paper => push_paper(alloc, shapes, u64::from(WIDTH), height_of(axes)),
        Layer::Ticks => push_ticks(alloc, shapes, axes),
        Layer::Points => push_points(alloc, shapes, axes, layout, strip(names, run)),
        Layer::Tables => push_tables(alloc, shapes, labels, axes, &run.takeovers),
        Layer::Blocks => push_wished_blocks(alloc, shapes, sheet),
        Layer::Stays => push_levels(alloc, shapes, sheet, true),
        Layer::Waits => push_levels(alloc, shapes, sheet, false),
        Layer::Moves => push_marks(alloc, shapes, sheet, &run.steps),
        Layer::Starts => push_first_names(alloc, shapes, axes, names, run),
        Layer::Ends => push_last_names(alloc, shapes, labels, axes, names, run),
        Layer::Legend => push_legend(alloc, shapes, names, run, blocks),
    }
}

// The group of a layer.
fn group_of(
    alloc: Global,
    labels: &mut Labels,
    sheet: &Sheet,
    layer: Layer,
) -> Result<Group, AllocError>
    ensures { IfOk result (IsLayer (subject_of sheet.now) layer) }
{
    let mut shapes = Vec::new(alloc);
    draw(alloc, &mut shapes, labels, sheet, layer)?;
    Group::with(alloc, class_of(layer), title_of(layer), shapes)
}

// The groups of all layers, from the back to the front.
fn groups_of(alloc: Global, sheet: &Sheet) -> Result<Vec<Group>, AllocError>
    ensures { IfOk result (λ groups. AllZip (IsLayer (subject_of sheet.now)) layers groups.items) }
{
    let mut labels = Labels::new(alloc);
    let mut groups = Vec::new(alloc);
    for layer in &LAYERS {
        groups.push(group_of(alloc, &mut labels, sheet, *layer)?)?;
    }
    Ok(groups)
}
