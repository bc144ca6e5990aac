// Sections as pale areas behind their points.
ghost use Rattle.std.specs.Prelude.{◌≡◌, ◌<◌, ◌++◌, IfOk, OnOk, codes, decimal, length, map, flat_map, string_bytes};
ghost use Rattle.state_sentences.specs.Explanation.{joined_below};
ghost use Rattle.rail_model.specs.Checks.{below};
ghost use Rattle.layout_frame.specs.Spots.{painted};
ghost use Rattle.layout_picture.specs.Areas.{dot_words, line_words, way_over as words_over, area_width as width_of};
ghost use Rattle.layout_picture.specs.Areas.{area_of, is_marked, stripes_over};
ghost use Rattle.layout_picture.specs.Drawn.{marks};

use crate::insides::has_point;
use crate::shapes::path;
use layout_frame::{View, area_colour, area_stripes, push_painted, push_shape};
use rail_model::{Layout, Link, Table, points_of, sections_of};
use std::alloc::{AllocError, Global};
use svg_text::{Shape, Spot};

// How wide the area of a section is. Sections that share points have areas of different width.
fn area_width(across: u64, section: u32) -> u64
    ensures { result ≡ width_of across section }
{
    across.max(26).min(60) * u64::from(5 - section % 4) / 5
}

// Whether a point of the layout is in a section.
fn is_in(view: &View, section: u32, point: u32) -> bool
    requires { section < length view.now.scene.now.table.now.sections }
    ensures { result ≡ is_marked (marks view.now section) point }
{
    has_point(view.scene.table, points_of(view.layout), section, point)
}

// Adds a dot at a point to the way of a broad pen, if the point is in a section.
fn write_dot(way: &mut String, view: &View, section: u32, point: u32) -> Result<(), AllocError>
    requires { section < length view.now.scene.now.table.now.sections }
    ensures { OnOk result (string_bytes way.new ≡ string_bytes way.old
        ++ dot_words view.now.frame.now.spots.items (marks view.now section) point) }
{
    if !is_in(view, section, point) {
        return Ok(());
    }
    let Spot { x, y } = view.frame.spot(point);
    write!(way, "M{x},{y} h0 ")
}

// Adds a line along a link to the way, if both of its points are in a section.
fn write_line(way: &mut String, view: &View, section: u32, link: &Link) -> Result<(), AllocError>
    requires { section < length view.now.scene.now.table.now.sections }
    ensures { OnOk result (string_bytes way.new ≡ string_bytes way.old
        ++ line_words view.now.frame.now.spots.items (marks view.now section) link.now) }
{
    let (first, second) = (link.first(), link.second());
    if !is_in(view, section, first) || !is_in(view, section, second) {
        return Ok(());
    }
    let Spot { x, y } = view.frame.spot(first);
    let Spot { x: right, y: down } = view.frame.spot(second);
    write!(way, "M{x},{y} L{right},{down} ")
}

// Adds the points of a section.
fn write_points(way: &mut String, view: &View, section: u32) -> Result<(), AllocError>
    requires { section < length view.now.scene.now.table.now.sections }
    ensures { OnOk result (string_bytes way.new ≡ string_bytes way.old
        ++ joined_below (dot_words view.now.frame.now.spots.items (marks view.now section))
        (length view.now.layout.now.points)) }
{
    for point in 0..points_of(view.layout) {
        write_dot(way, view, section, point)?;
    }
    Ok(())
}

// Adds the links between points of a section.
fn write_links(
    way: &mut String,
    view: &View,
    section: u32,
    links: &[Link],
) -> Result<(), AllocError>
    requires { section < length view.now.scene.now.table.now.sections }
    ensures { OnOk result (string_bytes way.new ≡ string_bytes way.old
        ++ flat_map (line_words view.now.frame.now.spots.items (marks view.now section)) links.now) }
{
    for link in links {
        write_line(way, view, section, link)?;
    }
    Ok(())
}

// The way over the points of a section, and the links between them.
fn way_over(view: &View, section: u32) -> Result<String, AllocError>
    requires { section < length view.now.scene.now.table.now.sections }
    ensures { IfOk result (λ way. string_bytes way ≡ words_over view.now.layout.now view.now.frame.now.spots.items
        (marks view.now section)) }
{
    let mut way = String::new(view.alloc);
    write_points(&mut way, view, section)?;
    write_links(&mut way, view, section, view.layout.links())?;
    Ok(way)
}

// Colours an area.
fn dye(shape: &mut Shape, alloc: Global, colour: &str, width: u64) -> Result<(), AllocError>
    ensures { OnOk result (shape.new
        ≡ painted (painted shape.old (codes "stroke") colour.now) (codes "stroke-width") (decimal width)) }
{
    shape.set(alloc, "stroke", colour)?;
    shape.set_number(alloc, "stroke-width", width)
}

// The area of a section.
fn area(view: &View, section: u32) -> Result<Shape, AllocError>
    requires { section < length view.now.scene.now.table.now.sections }
    ensures { IfOk result (λ shape. shape ≡ area_of view.now.layout.now view.now.scene.now.table.now
        view.now.frame.now.spots.items view.now.frame.now.grid.across section) }
{
    let way = way_over(view, section)?;
    let mut shape = path(view.alloc, way.as_str())?;
    let width = area_width(view.frame.grid.across, section);
    dye(&mut shape, view.alloc, area_colour(section), width)?;
    Ok(shape)
}

/// Adds an area for each section.
pub(crate) fn push_areas(shapes: &mut Vec<Shape>, view: &View) -> Result<(), AllocError>
    ensures { OnOk result (shapes.new.items ≡ shapes.old.items
        ++ map (area_of view.now.layout.now view.now.scene.now.table.now view.now.frame.now.spots.items
        view.now.frame.now.grid.across) (below (length view.now.scene.now.table.now.sections))) }
{
    for section in 0..sections_of(view.scene.table) {
        push_shape(shapes, area(view, section)?)?;
    }
    Ok(())
}

// Adds the stripes over the area of a section, if it has some.
fn push_striped(shapes: &mut Vec<Shape>, view: &View, section: u32) -> Result<(), AllocError>
    requires { section < length view.now.scene.now.table.now.sections }
    ensures { OnOk result (shapes.new.items ≡ shapes.old.items
        ++ stripes_over view.now.layout.now view.now.scene.now.table.now view.now.frame.now.spots.items
        view.now.frame.now.grid.across section) }
{
    let stripes = area_stripes(section);
    if stripes.is_empty() {
        return Ok(());
    }
    push_painted(
        shapes,
        view.alloc,
        area(view, section)?,
        "stroke-dasharray",
        stripes,
    )
}

/// Adds the stripes over the areas of sections.
pub(crate) fn push_stripes(shapes: &mut Vec<Shape>, view: &View) -> Result<(), AllocError>
    ensures { OnOk result (shapes.new.items ≡ shapes.old.items
        ++ flat_map (stripes_over view.now.layout.now view.now.scene.now.table.now view.now.frame.now.spots.items
        view.now.frame.now.grid.across) (below (length view.now.scene.now.table.now.sections))) }
{
    for section in 0..sections_of(view.scene.table) {
        push_striped(shapes, view, section)?;
    }
    Ok(())
}

// The sections that a point is in, a bit for each.
fn sections_at(layout: &Layout, table: &Table, point: u32) -> u64 {
    let mut bits: u64 = 0;
    for section in 0..sections_of(table).min(64) {
        if has_point(table, points_of(layout), section, point) {
            bits |= 1 << section;
        }
    }
    bits
}

/// For each point the sections that it is in, a bit for each.
pub(crate) fn inside_of(layout: &Layout, table: &Table) -> [u64; 512] {
    let mut inside = [0; 512];
    for point in 0..points_of(layout) {
        if let Some(bits) = inside.get_mut(point as usize) {
            *bits = sections_at(layout, table, point);
        }
    }
    inside
}
