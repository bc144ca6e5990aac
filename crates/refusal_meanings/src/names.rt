// What a document calls its trains, points, sections and links, whether or not `ats` takes the document.

use document_shapes::{DocMembers, ShapeRefused, TableMembers, read_document};
use json::Value;
use rail_model::{Connection, Node, Section};
use std::alloc::{AllocError, Global};

// The members that were read, or none of a document that hasn't all of them in their shapes.
fn if_read(read: Result<DocMembers, ShapeRefused>) -> Result<Option<DocMembers>, AllocError> {
    match read {
        Ok(members) => Ok(Some(members)),
        Err(ShapeRefused::Memory) => Err(AllocError),
        Err(_) => Ok(None),
    }
}

/// The members of a document, if it has all of them in their shapes.
pub(crate) fn members_of(alloc: Global, document: &[u8]) -> Result<Option<DocMembers>, AllocError> {
    if_read(read_document(alloc, document))
}

/// The members of a document whose text was read as this value, if it has all of them in their shapes.
pub(crate) fn members_in(alloc: Global, value: &Value) -> Result<Option<DocMembers>, AllocError> {
    if_read(document_shapes::members_of(alloc, value))
}

/// The names of a document, and its tables.
#[derive(Clone, Copy)]
pub(crate) struct Names<'a> {
    pub trains: &'a [String],
    pub points: &'a [(String, u32)],
    pub links: &'a [(String, String)],
    pub tables: &'a [TableMembers],
}

/// The names of a document; none where it has no members.
pub(crate) fn names_of(members: &Option<DocMembers>) -> Names<'_> {
    match members {
        Some(members) => Names {
            trains: &members.trains,
            points: &members.points,
            links: &members.links,
            tables: &members.tables,
        },
        None => Names {
            trains: &[],
            points: &[],
            links: &[],
            tables: &[],
        },
    }
}

impl<'a> Names<'a> {
    /// The name of a train.
    pub(crate) fn train(&self, train: usize) -> Option<&'a str> {
        let name = self.trains.get(train)?;
        Some(name.as_str())
    }

    /// The name of a point.
    pub(crate) fn point(&self, point: usize) -> Option<&'a str> {
        let (name, _zone) = self.points.get(point)?;
        Some(name.as_str())
    }
}

/// The members of a table; those that it hasn't are empty.
#[derive(Clone, Copy)]
pub(crate) struct Rows<'a> {
    pub missions: &'a [Vec<String>],
    pub exits: &'a [bool],
    pub sections: &'a [Section],
    pub connections: &'a [Connection],
    pub nodes: &'a [Node],
}

/// The members of a table; empty ones if there is no such table.
pub(crate) fn rows_of(tables: &[TableMembers], table: usize) -> Rows<'_> {
    match tables.get(table) {
        Some(table) => Rows {
            missions: &table.missions,
            exits: items_of(&table.exits),
            sections: items_of(&table.sections),
            connections: items_of(&table.connections),
            nodes: items_of(&table.certificate),
        },
        None => no_rows(),
    }
}

/// No members.
pub(crate) fn no_rows<'a>() -> Rows<'a> {
    Rows {
        missions: &[],
        exits: &[],
        sections: &[],
        connections: &[],
        nodes: &[],
    }
}

fn items_of<T>(list: &Option<Vec<T>>) -> &[T] {
    match list {
        Some(items) => items,
        None => &[],
    }
}

impl<'a> Rows<'a> {
    /// The name of the point at a train's place.
    pub(crate) fn point(&self, train: usize, place: usize) -> Option<&'a str> {
        let name = self.missions.get(train)?.get(place)?;
        Some(name.as_str())
    }

    /// A train's last place.
    pub(crate) fn last_place(&self, train: usize) -> Option<usize> {
        let points = self.missions.get(train)?.len();
        if self.exits.get(train) == Some(&true) {
            Some(points)
        } else {
            points.checked_sub(1)
        }
    }
}
