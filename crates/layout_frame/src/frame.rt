// Where the cells of the grid are in the picture.
ghost use Rattle.std.specs.Prelude.{◌≡◌, ◌<◌, [], IfOk, length, slice_index_or};
ghost use Rattle.rail_model.specs.Layout.{point_names};
ghost use Rattle.layout_frame.specs.Spots.{shifted as shifted_spot};

use crate::cells::{Cell, Cells, Edges};
use crate::filling::place_all;
use crate::legend::legend_end;
use crate::looks::Look;
use crate::straightening::straighten;
use rail_model::{Layout, Names, Table, points_of};
use state_core::Group;
use state_sentences::Scene;
use std::alloc::{AllocError, Global};
use svg_text::Spot;

/// The width of a viewer. A picture of more columns than fit into it is wider.
const WIDTH: u64 = 800;

/// How far the first column is from the left.
const MARGIN: u64 = 44;

/// Where each point is, how much room there is, and how far down the picture goes.
#[derive(Drop)]
pub struct Frame {
    pub spots: Vec<Spot>,
    pub grid: Grid,
    pub height: u64,
}

/// How far columns and rows are apart, and how names are written.
#[derive(Clone, Copy)]
pub struct Grid {
    pub width: u64,
    /// Where the first column and the first row are.
    pub corner: Spot,
    /// From one column to the next, and from one row to the next.
    pub across: u64,
    pub down: u64,
    /// Whether the names of points rise, and those of trains fall, as there is no room for them side by side.
    pub rise: bool,
    pub fall: bool,
    /// Where the legend begins.
    pub foot: u64,
}

/// What is drawn: a layout and the trains of a scene, some of them in a knot, which look so, in a frame, under a title.
#[derive(Clone, Copy)]
pub struct View<'a> {
    pub alloc: Global,
    pub layout: &'a Layout,
    pub scene: &'a Scene<'a>,
    /// The names of the table's sections; an empty one, or none, for a section without a name.
    pub sections: &'a [String],
    pub knot: &'a Group,
    pub looks: &'a [Look],
    /// For each point the sections that it is in, a bit for each.
    pub inside: &'a [u64],
    pub frame: &'a Frame,
    pub title: &'a str,
}

/// The name of a point, or no letters for a number that no point has.
pub(crate) fn point_name(layout: &Layout, point: u32) -> &str
    ensures { result.now ≡ slice_index_or (point_names layout.now) point [] }
{
    match layout.points().get(point as usize) {
        Some(point) => point.name(),
        None => "",
    }
}

/// The name of a train, or no letters for a number that no train has.
pub(crate) fn train_name(names: &Names, train: u32) -> &str {
    if (train as usize) < names.trains() {
        names.train(train)
    } else {
        ""
    }
}

// How many letters the longest name of a point has.
fn point_letters(layout: &Layout) -> u64 {
    let mut most: u64 = 0;
    for point in layout.points() {
        most = most.max(point.name().len() as u64);
    }
    most
}

// How many letters the longest name of a train has.
fn train_letters(names: &Names) -> u64 {
    let mut most: u64 = 0;
    for train in 0..names.trains().min(32) as u32 {
        most = most.max(names.train(train).len() as u64);
    }
    most
}

// How wide a name of this many letters is.
fn width_of(letters: u64) -> u64 {
    letters.saturating_mul(7).saturating_add(8)
}

// How far the names of this many letters reach up or down, and to the side where they are tilted.
fn reach_of(letters: u64, tilted: bool) -> u64 {
    if tilted {
        letters.saturating_mul(5).saturating_add(14)
    } else {
        20
    }
}

// How far columns are apart that fill a width.
fn spread(width: u64, gaps: u64) -> u64 {
    (width / gaps.max(1)).max(22).min(130)
}

// A grid for names of this many letters, with this many gaps between columns, and between rows.
fn grid_of(points: u64, trains: u64, columns: u64, rows: u64) -> Grid
    ensures wide { 0 < result.width }
    ensures low { 0 < result.foot }
{
    let rise = spread(WIDTH - 2 * MARGIN, columns) < width_of(points);
    let above = reach_of(points, rise);
    let right = MARGIN.max(above);
    let across = spread((WIDTH - MARGIN).saturating_sub(right), columns);
    let fall = across < width_of(trains);
    let below = reach_of(trains, fall);
    let down = above.saturating_add(below).saturating_add(36);
    let inside = columns.saturating_mul(across);
    let used = inside.saturating_add(MARGIN).saturating_add(right);
    let width = used.max(WIDTH);
    let top = above.saturating_add(60);
    let bottom = rows.saturating_mul(down).saturating_add(top);
    Grid {
        width,
        corner: Spot {
            x: MARGIN.saturating_add((width - used) / 2),
            y: top,
        },
        across,
        down,
        rise,
        fall,
        foot: bottom.saturating_add(below).saturating_add(40),
    }
}

/// The spot so far right of another one, and so far below it.
pub fn shifted(at: Spot, right: i64, down: i64) -> Spot
    ensures { result ≡ shifted_spot at right down }
{
    Spot {
        x: at.x.saturating_add_signed(right),
        y: at.y.saturating_add_signed(down),
    }
}

// How far a number is after a first one, in steps of a size.
fn steps(number: u32, first: u32, size: u64) -> u64 {
    u64::from(number.saturating_sub(first)).saturating_mul(size)
}

// The spot of a cell.
fn spot_of(grid: &Grid, edges: Edges, cell: Cell) -> Spot {
    let right = steps(cell.column, edges.first.column, grid.across);
    let down = steps(cell.row, edges.first.row, grid.down);
    Spot {
        x: right.saturating_add(grid.corner.x),
        y: down.saturating_add(grid.corner.y),
    }
}

// A grid for these cells, with room for the names of points and of trains.
fn grid_for(layout: &Layout, names: &Names, edges: Edges) -> Grid
    ensures wide { 0 < result.width }
    ensures low { 0 < result.foot }
{
    grid_of(
        point_letters(layout),
        train_letters(names),
        steps(edges.last.column, edges.first.column, 1),
        steps(edges.last.row, edges.first.row, 1),
    )
}

// The spots of points in these cells.
fn spots_of(
    alloc: Global,
    layout: &Layout,
    cells: &Cells,
    edges: Edges,
    grid: &Grid,
) -> Result<Vec<Spot>, AllocError>
    ensures { IfOk result (λ spots. length spots.items ≡ length layout.now.points) }
{
    let mut spots = Vec::new(alloc);
    for point in 0..points_of(layout) {
        let cell = cells.at(point).unwrap_or(edges.first);
        spots.push(spot_of(grid, edges, cell))?;
    }
    Ok(spots)
}

// Points in cells: in straight rows, if that can be.
fn cells_of(layout: &Layout, table: &Table) -> Cells {
    let mut cells = place_all(layout, table);
    straighten(&mut cells, layout, table);
    cells
}

/// A frame for a layout with the trains and the sections of a scene, which have these names.
pub fn frame_of(
    alloc: Global,
    layout: &Layout,
    scene: &Scene,
    sections: &[String],
    looks: &[Look],
) -> Result<Frame, AllocError>
    ensures each { IfOk result (λ frame. length frame.spots.items ≡ length layout.now.points) }
    ensures wide { IfOk result (λ frame. 0 < frame.grid.width) }
    ensures high { IfOk result (λ frame. 0 < frame.height) }
{
    let cells = cells_of(layout, scene.table);
    let edges = cells.edges().unwrap_or(Edges::NONE);
    let grid = grid_for(layout, scene.names, edges);
    Ok(Frame {
        spots: spots_of(alloc, layout, &cells, edges, &grid)?,
        grid,
        height: legend_end(scene, sections, looks, grid.foot),
    })
}

impl Frame {
    ghost use Rattle.layout_frame.specs.Spots.{spot_at};

    /// Where a point is.
    pub fn spot(&self, point: u32) -> Spot
        ensures { result ≡ spot_at self.now.spots.items point }
    {
        self.spots
            .get(point as usize)
            .copied()
            .unwrap_or(Spot { x: 0, y: 0 })
    }
}
