// Routes in the grid: a stretch between points that are placed already goes into the columns between them, and into
// the nearest row that has room.

use crate::cells::{Cell, Cells};

// The column and the row where the first point goes.
const MIDDLE: u32 = 10_000;

/// How far from a row another one is looked for.
const ROWS: u32 = 600;

// Where a stretch of a route goes: between the cells of the points before and after it, behind or before the only one
// of them that is placed, or anywhere.
#[derive(Clone, Copy)]
enum Gap {
    Between { before: Cell, after: Cell },
    Behind { cell: Cell },
    Before { cell: Cell },
    Anywhere,
}

// The points of a stretch of a route, where it goes, and whether the route leads to the right.
#[derive(Clone, Copy)]
struct Stretch<'a> {
    points: &'a [u32],
    gap: Gap,
    rightward: bool,
}

// The column this many columns to the right, or to the left.
fn moved(column: u32, steps: u32, rightward: bool) -> u32 {
    if rightward {
        column.saturating_add(steps)
    } else {
        column.saturating_sub(steps)
    }
}

// The column of a point of a stretch between two columns: `number` of `gaps` gaps after the first.
fn between(first: u32, second: u32, number: u32, gaps: u32) -> u32 {
    let whole = u64::from(first.abs_diff(second));
    let share = whole.saturating_mul(u64::from(number)) / u64::from(gaps.max(1));
    moved(first, share.min(100_000) as u32, first < second)
}

// The number of gaps between points and those beside them.
fn gaps_of(points: &[u32]) -> u32 {
    points.len().min(512) as u32 + 1
}

// The gap between two points that are given and placed, or beside one of them.
fn gap_between(cells: &Cells, before: Option<u32>, after: Option<u32>) -> Gap {
    match (cell_of(cells, before), cell_of(cells, after)) {
        (Some(before), Some(after)) => Gap::Between { before, after },
        (Some(cell), None) => Gap::Behind { cell },
        (None, Some(cell)) => Gap::Before { cell },
        (None, None) => Gap::Anywhere,
    }
}

// Moves the columns from the right one of two cells on, until there are this many gaps between the two. Nothing moves
// where they are in one column.
fn make_room(cells: &mut Cells, gap: Gap, gaps: u32) {
    if let Gap::Between { before, after } = gap {
        let wide = before.column.abs_diff(after.column);
        if 0 < wide {
            cells.widen(before.column.max(after.column), gaps.saturating_sub(wide));
        }
    }
}

/// The first cell of a row below all others.
pub(crate) fn cell_below(cells: &Cells) -> Cell {
    match cells.edges() {
        Some(edges) => Cell::new(edges.first.column, edges.last.row.saturating_add(1)),
        None => Cell::new(MIDDLE, MIDDLE),
    }
}

impl Stretch<'_> {
    // The column of the point with this number, counted from 1.
    fn column(&self, number: u32) -> u32 {
        let gaps = gaps_of(self.points);
        let left = gaps.saturating_sub(number);
        match self.gap {
            Gap::Between { before, after } => if before.column == after.column {
                moved(before.column, number.min(left), self.rightward)
            } else {
                between(before.column, after.column, number, gaps)
            },
            Gap::Behind { cell } => moved(cell.column, number, self.rightward),
            Gap::Before { cell } => moved(cell.column, left, !self.rightward),
            Gap::Anywhere => moved(MIDDLE, number, true),
        }
    }

    // The row that it would best have.
    fn wish(&self, cells: &Cells) -> u32 {
        match self.gap {
            Gap::Between { before, after } => before.row.saturating_add(after.row) / 2,
            Gap::Behind { cell } => cell.row,
            Gap::Before { cell } => cell.row,
            Gap::Anywhere => cell_below(cells).row,
        }
    }

    // Whether its columns are free in a row.
    fn fits(&self, cells: &Cells, row: u32) -> bool {
        for number in 1..gaps_of(self.points) {
            if !cells.is_free(Cell::new(self.column(number), row)) {
                return false;
            }
        }
        true
    }

    // The row nearest to its best one in which it fits.
    fn row(&self, cells: &Cells) -> u32 {
        let wish = self.wish(cells);
        for distance in 0..ROWS {
            let below = wish.saturating_add(distance);
            if self.fits(cells, below) {
                return below;
            }
            let above = wish.saturating_sub(distance);
            if self.fits(cells, above) {
                return above;
            }
        }
        wish
    }

    // Places its points.
    fn place(&self, cells: &mut Cells) {
        let row = self.row(cells);
        let mut number = 1;
        for point in self.points {
            if cells.at(*point).is_none() {
                let free = free_cell(cells, Cell::new(self.column(number), row));
                cells.put(*point, free);
            }
            number = number.saturating_add(1);
        }
    }
}

/// The free cell of a column that is nearest to a cell of it.
pub(crate) fn free_cell(cells: &Cells, cell: Cell) -> Cell {
    for distance in 0..ROWS {
        let below = Cell::new(cell.column, cell.row.saturating_add(distance));
        if cells.is_free(below) {
            return below;
        }
        let above = Cell::new(cell.column, cell.row.saturating_sub(distance));
        if cells.is_free(above) {
            return above;
        }
    }
    cell
}

/// The cell of a point that is given and placed.
pub(crate) fn cell_of(cells: &Cells, point: Option<u32>) -> Option<Cell> {
    cells.at(point?)
}

// Places the points of a stretch between two points, if it has some.
fn place_stretch(
    cells: &mut Cells,
    points: &[u32],
    before: Option<u32>,
    after: Option<u32>,
    rightward: bool,
) {
    if points.is_empty() {
        return;
    }
    make_room(cells, gap_between(cells, before, after), gaps_of(points));
    let stretch = Stretch {
        points,
        gap: gap_between(cells, before, after),
        rightward,
    };
    stretch.place(cells);
}

// Whether a route leads to the right: its first point that is placed isn't right of its last one.
fn leads_right(cells: &Cells, route: &[u32]) -> bool {
    let mut first: Option<u32> = None;
    let mut last: u32 = u32::MAX;
    for point in route {
        if let Some(cell) = cells.at(*point) {
            first = Some(first.unwrap_or(cell.column));
            last = cell.column;
        }
    }
    first.unwrap_or(0) <= last
}

/// Whether a point of a route is placed.
pub(crate) fn is_begun(cells: &Cells, route: &[u32]) -> bool {
    for point in route {
        if cells.at(*point).is_some() {
            return true;
        }
    }
    false
}

/// Places all points of a route.
pub(crate) fn place_route(cells: &mut Cells, route: &[u32]) {
    let rightward = leads_right(cells, route);
    let mut before: Option<u32> = None;
    let mut begin: usize = 0;
    for (number, point) in route.iter().enumerate() {
        if cells.at(*point).is_some() {
            let points = route.get(begin..number).unwrap_or(&[]);
            place_stretch(cells, points, before, Some(*point), rightward);
            before = Some(*point);
            begin = number.saturating_add(1);
        }
    }
    let points = route.get(begin..).unwrap_or(&[]);
    place_stretch(cells, points, before, None, rightward);
}
