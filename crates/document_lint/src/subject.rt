// A table of a document, and what its trains and points are called.
ghost use Rattle.std.specs.Prelude.{◌<◌, ◌↔◌, IsTrue};
ghost use Rattle.rail_model.specs.Table.{trains};

use document_json::{Doc, layout_of, names_of, table_of, tables_of};
use rail_model::{Layout, Names, Table, point_of, trains_of};

/// A table of a document, with the names of the trains and of the points.
#[derive(Clone, Copy)]
pub(crate) struct Subject<'a> {
    names: &'a Names,
    layout: &'a Layout,
    pub table: &'a Table,
}

/// A table of a document, if it is there.
pub(crate) fn subject_of(doc: &Doc, table: u32) -> Option<Subject<'_>> {
    if tables_of(doc) <= table {
        return None;
    }
    Some(Subject {
        names: names_of(doc),
        layout: layout_of(doc),
        table: table_of(doc, table),
    })
}

/// The name of a point.
pub(crate) fn point_name(layout: &Layout, point: u32) -> &str {
    match layout.points().get(point as usize) {
        Some(point) => point.name(),
        None => "?",
    }
}

impl<'a> Subject<'a> {
    /// The name of a train.
    pub(crate) fn train(&self, train: u32) -> &'a str {
        if (train as usize) < self.names.trains() {
            self.names.train(train)
        } else {
            "?"
        }
    }

    /// Whether the table has a train.
    pub(crate) fn has_train(&self, train: u32) -> bool
        ensures { IsTrue result ↔ (train < trains self.now.table.now) }
    {
        train < trains_of(self.table)
    }

    /// Where a train is at a place: its point's name, or that it has left the layout.
    pub(crate) fn point(&self, train: u32, place: u32) -> &'a str
        requires { train < trains self.now.table.now }
    {
        match point_of(self.table, train, place) {
            Some(point) => point_name(self.layout, point),
            None => "its exit",
        }
    }
}
