// Other rows for some points, so that the ways of the trains are straighter.

use crate::cells::{Cell, Cells};
use rail_model::{Layout, Table, points_of};

fn row_of(cells: &Cells, point: u32) -> u32 {
    match cells.at(point) {
        Some(cell) => cell.row,
        None => 0,
    }
}

// How many rows a way goes up and down, and how much it bends.
fn unevenness_of(cells: &Cells, route: &[u32]) -> u64 {
    let mut sum: u64 = 0;
    let mut last: Option<u32> = None;
    let mut slope: Option<i64> = None;
    for point in route {
        let row = row_of(cells, *point);
        if let Some(last) = last {
            let rise = i64::from(row) - i64::from(last);
            let bend = rise.saturating_sub(slope.unwrap_or(rise));
            sum = sum
                .saturating_add(rise.unsigned_abs())
                .saturating_add(bend.unsigned_abs());
            slope = Some(rise);
        }
        last = Some(row);
    }
    sum
}

// How uneven all ways are, and the links.
fn unevenness(cells: &Cells, layout: &Layout, table: &Table) -> u64 {
    let mut sum: u64 = 0;
    for mission in table.missions().as_slice() {
        sum = sum.saturating_add(unevenness_of(cells, mission.as_slice()));
    }
    for link in layout.links() {
        let rise = row_of(cells, link.first()).abs_diff(row_of(cells, link.second()));
        sum = sum.saturating_add(u64::from(rise));
    }
    sum
}

// Moves a point to another cell, and the point that was there to where it comes from.
fn exchange(cells: &mut Cells, point: u32, from: Cell, to: Cell) {
    if let Some(other) = cells.point_at(to) {
        cells.put(other, from);
    }
    cells.put(point, to);
}

// Moves a point to another row if that makes the ways straighter.
fn try_row(cells: &mut Cells, layout: &Layout, table: &Table, point: u32, row: u32) {
    if let Some(from) = cells.at(point) {
        let to = Cell::new(from.column, row);
        let before = unevenness(cells, layout, table);
        exchange(cells, point, from, to);
        if before <= unevenness(cells, layout, table) {
            exchange(cells, point, to, from);
        }
    }
}

// Tries the rows near that of a point.
fn try_rows(cells: &mut Cells, layout: &Layout, table: &Table, point: u32) {
    let row = row_of(cells, point);
    for other in row.saturating_sub(2)..row.saturating_add(3) {
        try_row(cells, layout, table, point, other);
    }
}

/// Moves points within their columns for as long as the ways get straighter by it, a few times each.
pub(crate) fn straighten(cells: &mut Cells, layout: &Layout, table: &Table) {
    for _ in 0..3 {
        for point in 0..points_of(layout) {
            try_rows(cells, layout, table, point);
        }
    }
}
