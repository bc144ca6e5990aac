// All points of a layout in the grid: those of the longest route first, then those of routes that begin at placed
// points, then those that links alone lead to, and the others last.

use crate::cells::{Cell, Cells};
use crate::placing::{cell_below, cell_of, free_cell, is_begun, place_route};
use crate::spine::place_spine;
use rail_model::{Layout, Link, Mission, Table, points_of};

// Places the routes that have a point that is placed.
fn place_begun(cells: &mut Cells, missions: &[Mission]) {
    for mission in missions {
        if is_begun(cells, mission.as_slice()) {
            place_route(cells, mission.as_slice());
        }
    }
}

// Places the first route that has no point that is placed.
fn place_unbegun(cells: &mut Cells, missions: &[Mission]) {
    for mission in missions {
        if !is_begun(cells, mission.as_slice()) {
            return place_route(cells, mission.as_slice());
        }
    }
}

// Places the routes that lead on from what is placed, one after the other.
fn place_joined(cells: &mut Cells, missions: &[Mission]) {
    for _ in missions {
        place_begun(cells, missions);
    }
}

// Places all routes.
fn place_routes(cells: &mut Cells, missions: &[Mission]) {
    for _ in missions {
        place_joined(cells, missions);
        place_unbegun(cells, missions);
    }
}

// The point that a link joins with another one.
fn other_end(link: &Link, point: u32) -> Option<u32> {
    if link.first() == point {
        Some(link.second())
    } else if link.second() == point {
        Some(link.first())
    } else {
        None
    }
}

// Whether a point is linked only with points to its right, of those that are placed.
fn is_left_end(cells: &Cells, layout: &Layout, point: u32, column: u32) -> bool {
    let mut right = false;
    for link in layout.links() {
        if let Some(cell) = cell_of(cells, other_end(link, point)) {
            if cell.column < column {
                return false;
            }
            right = right || column < cell.column;
        }
    }
    right
}

// Places a point beside one that it is linked with.
fn place_beside(cells: &mut Cells, layout: &Layout, point: u32, neighbour: u32, cell: Cell) {
    let column = if is_left_end(cells, layout, neighbour, cell.column) {
        cell.column.saturating_sub(1)
    } else {
        cell.column.saturating_add(1)
    };
    let free = free_cell(cells, Cell::new(column, cell.row));
    cells.put(point, free);
}

// Places a point of a link beside the other one, if just that one is placed; says whether it did.
fn place_end(cells: &mut Cells, layout: &Layout, link: &Link) -> bool {
    let first = link.first();
    let second = link.second();
    match (cells.at(first), cells.at(second)) {
        (Some(cell), None) => place_beside(cells, layout, second, first, cell),
        (None, Some(cell)) => place_beside(cells, layout, first, second, cell),
        _ => return false,
    }
    true
}

// Places points that are linked with placed ones; says whether there were some.
fn place_linked(cells: &mut Cells, layout: &Layout) -> bool {
    let mut some = false;
    for link in layout.links() {
        some = place_end(cells, layout, link) || some;
    }
    some
}

// Places points for as long as links lead to others.
fn place_reached(cells: &mut Cells, layout: &Layout) {
    for _ in 0..points_of(layout) {
        if !place_linked(cells, layout) {
            return;
        }
    }
}

// The next cell of a row, or the first of the next row.
fn cell_after(cells: &Cells, cell: Cell) -> Cell {
    match cells.edges() {
        Some(edges) if cell.column < edges.last.column => {
            Cell::new(cell.column.saturating_add(1), cell.row)
        }
        _ => cell_below(cells),
    }
}

// Whether a point has a link.
fn is_linked(layout: &Layout, point: u32) -> bool {
    for link in layout.links() {
        if other_end(link, point).is_some() {
            return true;
        }
    }
    false
}

// Places the points that nothing leads to, with those that they lead to.
fn place_apart(cells: &mut Cells, layout: &Layout) {
    let mut next = cell_below(cells);
    for point in 0..points_of(layout) {
        if cells.at(point).is_none() {
            let cell = free_cell(cells, next);
            cells.put(point, cell);
            place_reached(cells, layout);
            next = if is_linked(layout, point) {
                cell_below(cells)
            } else {
                cell_after(cells, cell)
            };
        }
    }
}

/// Places all points of a layout.
pub(crate) fn place_all(layout: &Layout, table: &Table) -> Cells {
    let missions = table.missions().as_slice();
    let mut cells = Cells::new(points_of(layout));
    place_spine(&mut cells, layout, missions);
    place_routes(&mut cells, missions);
    place_reached(&mut cells, layout);
    place_apart(&mut cells, layout);
    cells
}
