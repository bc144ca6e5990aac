// What can differ between a document and a plan.

/// What differs first between a table of a document and that of a plan.
#[derive(Clone, Copy)]
pub enum Part {
    /// The route of a train, by the names of its points.
    Route { train: u32 },
    /// Whether a train exits.
    Exit { train: u32 },
    /// The times of a train.
    Times { train: u32 },
    Connections,
    /// The moves after which the table is due.
    After,
    /// A section of the plan: it is missing or another.
    Section { section: u32 },
}

/// What differs first between a document and the document of a plan.
#[derive(Clone, Copy)]
pub enum Difference {
    /// The names of the trains.
    Trains,
    /// How many tables there are.
    Tables,
    Table { table: u32, part: Part },
    Start,
    /// The points, the zones or the links.
    Layout,
}
