// The grid in which points are placed.

/// A place in the grid.
#[derive(Clone, Copy)]
pub(crate) struct Cell {
    pub(crate) column: u32,
    pub(crate) row: u32,
}

impl Cell {
    pub(crate) fn new(column: u32, row: u32) -> Cell {
        Cell { column, row }
    }

    // Whether it is the cell where a point is placed.
    fn is(&self, placed: Option<Cell>) -> bool {
        match placed {
            Some(cell) => cell.column == self.column && cell.row == self.row,
            None => false,
        }
    }
}

/// The cells in the first column and row, and in the last column and row, that are in use.
#[derive(Clone, Copy)]
pub(crate) struct Edges {
    pub(crate) first: Cell,
    pub(crate) last: Cell,
}

impl Edges {
    /// The edges of an empty grid.
    pub(crate) const NONE: Edges = Edges {
        first: Cell { column: 0, row: 0 },
        last: Cell { column: 0, row: 0 },
    };
}

/// The cell of each of so many points, if it has been placed.
#[derive(Clone, Copy)]
pub(crate) struct Cells {
    items: [Option<Cell>; 512],
    points: u32,
}

impl Cells {
    /// A grid for this many points, with none placed.
    pub(crate) fn new(points: u32) -> Cells {
        Cells {
            items: [None; 512],
            points: points.min(512),
        }
    }

    /// The cell of a point, if it has been placed.
    pub(crate) fn at(&self, point: u32) -> Option<Cell> {
        match self.items.get(point as usize) {
            Some(placed) => *placed,
            None => None,
        }
    }

    /// Places a point.
    pub(crate) fn put(&mut self, point: u32, cell: Cell) {
        if let Some(slot) = self.items.get_mut(point as usize) {
            *slot = Some(cell);
        }
    }

    /// The point at a cell.
    pub(crate) fn point_at(&self, cell: Cell) -> Option<u32> {
        for point in 0..self.points {
            if cell.is(self.at(point)) {
                return Some(point);
            }
        }
        None
    }

    /// Whether there is no point at a cell.
    pub(crate) fn is_free(&self, cell: Cell) -> bool {
        self.point_at(cell).is_none()
    }

    /// The columns and rows in use, if a point has been placed.
    pub(crate) fn edges(&self) -> Option<Edges> {
        let mut edges: Option<Edges> = None;
        for point in 0..self.points {
            if let Some(cell) = self.at(point) {
                edges = Some(reached(edges, cell));
            }
        }
        edges
    }

    /// Moves all points from a column on to the right.
    pub(crate) fn widen(&mut self, from: u32, by: u32) {
        for point in 0..self.points {
            if let Some(cell) = self.at(point) {
                if from <= cell.column {
                    self.put(point, Cell::new(cell.column.saturating_add(by), cell.row));
                }
            }
        }
    }
}

// Edges that reach to a cell, too, or that are this cell, if there are none.
fn reached(edges: Option<Edges>, cell: Cell) -> Edges {
    match edges {
        Some(Edges { first, last }) => Edges {
            first: Cell::new(first.column.min(cell.column), first.row.min(cell.row)),
            last: Cell::new(last.column.max(cell.column), last.row.max(cell.row)),
        },
        None => Edges {
            first: cell,
            last: cell,
        },
    }
}
