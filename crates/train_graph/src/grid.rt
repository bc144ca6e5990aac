// The grid of ticks and points, and the tables that take over.
ghost use Rattle.std.specs.Prelude.{◌≡◌, ◌++◌, OnOk, flat_map};
ghost use Rattle.train_graph.specs.Layers.{row_shapes};

use crate::Axes;
use crate::labels::{Labels, text_width};
use crate::shapes::{push_label, push_line};
use rail_model::Layout;
use run_timetable::{Takeover, point_name};
use std::alloc::{AllocError, Global};
use svg_text::{Shape, Spot, polygon};

/// Adds paper under a picture.
pub(crate) fn push_paper(
    alloc: Global,
    shapes: &mut Vec<Shape>,
    width: u64,
    height: u64,
) -> Result<(), AllocError> {
    let corners = [
        Spot { x: 0, y: 0 },
        Spot { x: width, y: 0 },
        Spot {
            x: width,
            y: height,
        },
        Spot { x: 0, y: height },
    ];
    shapes.push(polygon(alloc, &corners)?)?;
    Ok(())
}

// Powers of ten.
const UNITS: [u64; 11] = [
    1,
    10,
    100,
    1_000,
    10_000,
    100_000,
    1_000_000,
    10_000_000,
    100_000_000,
    1_000_000_000,
    10_000_000_000,
];

const FACTORS: [u64; 3] = [1, 2, 5];

// The distance of two lines of a grid: 1, 2 or 5 times a power of ten, so that there are at most twelve.
fn grid_step(span: u64) -> u64 {
    for unit in &UNITS {
        for factor in &FACTORS {
            let step = unit.saturating_mul(*factor);
            if step.saturating_mul(11) >= span {
                return step;
            }
        }
    }
    span
}

/// Adds the lines of round ticks, each with its number.
pub(crate) fn push_ticks(
    alloc: Global,
    shapes: &mut Vec<Shape>,
    axes: &Axes,
) -> Result<(), AllocError> {
    let step = grid_step(axes.span);
    for count in 0..13u64 {
        push_tick(alloc, shapes, axes, step.saturating_mul(count))?;
    }
    let middle = Spot {
        x: u64::from(axes.left) + u64::from(axes.width / 2),
        y: axes.floor().saturating_add(28),
    };
    push_label(alloc, shapes, middle, "ticks")
}

// Adds the line of a tick, and its number, unless the run ends before it.
fn push_tick(
    alloc: Global,
    shapes: &mut Vec<Shape>,
    axes: &Axes,
    tick: u64,
) -> Result<(), AllocError> {
    if axes.span < tick {
        return Ok(());
    }
    let x = axes.x(tick);
    let bottom = axes.floor();
    push_upright(alloc, shapes, axes, x)?;
    let under = Spot {
        x,
        y: bottom.saturating_add(13),
    };
    let number = format!(in alloc; "{tick}")?;
    push_label(alloc, shapes, under, number.as_str())
}

// Adds a line from the top of the grid to its bottom.
fn push_upright(
    alloc: Global,
    shapes: &mut Vec<Shape>,
    axes: &Axes,
    x: u64,
) -> Result<(), AllocError> {
    let top = Spot {
        x,
        y: axes.ceiling(),
    };
    let bottom = Spot { x, y: axes.floor() };
    push_line(alloc, shapes, top, bottom)
}

/// Adds the lines of points, each with its name, which begins so far to the left of tick 0.
pub(crate) fn push_points(
    alloc: Global,
    shapes: &mut Vec<Shape>,
    axes: &Axes,
    layout: &Layout,
    before: u64,
) -> Result<(), AllocError>
    ensures { OnOk result (shapes.new.items ≡ shapes.old.items ++ flat_map (row_shapes axes.now layout.now before) axes.now.rows.items) }
{
    for point in &axes.rows {
        push_point(alloc, shapes, axes, layout, *point, before)?;
    }
    Ok(())
}

// Adds the line of a point, and its name, which begins so far to the left of tick 0.
fn push_point(
    alloc: Global,
    shapes: &mut Vec<Shape>,
    axes: &Axes,
    layout: &Layout,
    point: u32,
    before: u64,
) -> Result<(), AllocError>
    ensures { OnOk result (shapes.new.items ≡ shapes.old.items ++ row_shapes axes.now layout.now before point) }
{
    let y = axes.y(point);
    let left = u64::from(axes.left);
    let start = Spot { x: left, y };
    let end = Spot { x: axes.right(), y };
    let under = Spot {
        x: left.saturating_sub(before),
        y: y + 4,
    };
    push_line(alloc, shapes, start, end)?;
    push_label(alloc, shapes, under, point_name(layout, point))
}

/// Adds the lines of tables that take over, each with its number.
pub(crate) fn push_tables(
    alloc: Global,
    shapes: &mut Vec<Shape>,
    labels: &mut Labels,
    axes: &Axes,
    takeovers: &[Takeover],
) -> Result<(), AllocError> {
    for takeover in takeovers {
        push_table(alloc, shapes, labels, axes, takeover)?;
    }
    Ok(())
}

// Adds the line of a table that takes over, and its number.
fn push_table(
    alloc: Global,
    shapes: &mut Vec<Shape>,
    labels: &mut Labels,
    axes: &Axes,
    takeover: &Takeover,
) -> Result<(), AllocError> {
    let x = axes.x(u64::from(takeover.tick));
    push_upright(alloc, shapes, axes, x)?;
    let table = takeover.table;
    let words = format!(in alloc; "table {table}")?;
    let width = text_width(words.as_str());
    let spot = labels.place(&table_spots(axes, x, width), width)?;
    push_label(alloc, shapes, spot, words.as_str())
}

// Where the number of a table may stand: over its line, on either side, or at the line's end.
fn table_spots(axes: &Axes, x: u64, width: u64) -> [Spot; 5] {
    let near = axes.ceiling().saturating_sub(3);
    let far = axes.ceiling().saturating_sub(15);
    let end = axes.floor().saturating_sub(3);
    let before = x.saturating_sub(width);
    [
        Spot { x, y: near },
        Spot { x: before, y: near },
        Spot { x, y: far },
        Spot { x: before, y: far },
        Spot { x, y: end },
    ]
}
