// A document: its parts, and how they are read and taken apart.
ghost use Rattle.std.specs.Prelude.{◌≡◌, ◌<◌, ◌≤◌, ℕ, IfOk, length, map};
ghost use Rattle.document_json.specs.Doc.{IsDoc, names_of, times_of, doc_table, table_at, nodes_at};
ghost use Rattle.document_json.specs.Keeps.{IsTaken};

use crate::Frame;
use rail_model::{Layout, Names, Node, State, Table, Times};
use std::alloc::{AllocError, Global};
use std::marker::Model;

// A table without its travel times.
#[derive(Drop)]
pub(crate) struct Untimed {
    table: Table,
    after: u32,
    nodes: Vec<Node>,
}

impl Model for Untimed {
    ghost use Rattle.document_json.specs.Keeps.{Untimed as UntimedValue};

    ghost Value = { UntimedValue };

    ghost view = { λ t. record { table = t.table; after = t.after; nodes = t.nodes.items } };
}

impl Untimed {
    pub(crate) fn new(table: Table, after: u32, nodes: Vec<Node>) -> Self
        ensures { result ≡ record { table = table; after = after; nodes = nodes.items } }
    {
        Untimed {
            table,
            after,
            nodes,
        }
    }

    pub(crate) fn table(&self) -> &Table
        ensures { result.now ≡ self.now.table }
    {
        &self.table
    }

    pub(crate) fn after(&self) -> u32
        ensures { result ≡ self.now.after }
    {
        self.after
    }

    pub(crate) fn nodes(&self) -> &[Node]
        ensures { result.now ≡ self.now.nodes }
    {
        &self.nodes
    }

    pub(crate) fn into_table(self) -> Table
        ensures { result ≡ self.table }
    {
        self.table
    }

    /// The table and the nodes, by value.
    pub(crate) fn into_parts(self) -> (Table, Vec<Node>)
        ensures table { result.0 ≡ self.table }
        ensures nodes { result.1.items ≡ self.nodes }
    {
        (self.table, self.nodes)
    }
}

/// A layout, trains, tables with their travel times and certificates, and a legal start, all of which fit together.
#[derive(Drop)]
pub struct Doc {
    frame: Frame,
    tables: Vec<Untimed>,
}

impl Model for Doc {
    ghost use Rattle.std.specs.Prelude.{◌≡◌, map};
    ghost use Rattle.document_json.specs.Doc.{Doc as DocValue, IsDoc};
    ghost use Rattle.document_json.specs.Keeps.{untimed};

    ghost Value = { DocValue };

    ghost view = { λ d. d.frame };

    ghost invariant = { λ d. (d.tables.items ≡ map untimed d.frame.tables) × IsDoc d.frame };
}

impl Doc {
    ghost use Rattle.std.specs.Prelude.{◌≡◌, IfOk, map};
    ghost use Rattle.document_json.specs.Doc.{IsDoc};
    ghost use Rattle.document_json.specs.Keeps.{HasParts, doc_of_parts, untimed};
    ghost use Rattle.document_json.specs.Retimed.{AreTimesOf, retimed};

    /// The document of these parts.
    pub(crate) fn new(
        alloc: Global,
        version: u32,
        layout: Layout,
        names: Names,
        tables: Vec<Untimed>,
        times: Times,
        start: State,
    ) -> Result<Self, AllocError>
        requires { HasParts version layout names tables.items times start }
        ensures { IfOk result (λ d. d ≡ doc_of_parts version layout names tables.items times start) }
    {
        let frame = Frame::new(alloc, version, layout, names, &tables, times, start)?;
        Ok(Doc { frame, tables })
    }

    /// The document without its tables, lent.
    pub fn frame(&self) -> &Frame
        ensures { result.now ≡ self.now }
    {
        &self.frame
    }

    /// The frame of the document, and its tables without their times.
    pub(crate) fn into_parts(self) -> (Frame, Vec<Untimed>)
        ensures frame { result.0 ≡ self }
        ensures tables { result.1.items ≡ map untimed self.tables }
        ensures formed { IsDoc self }
    {
        (self.frame, self.tables)
    }

    /// The document with other travel times, all else equal.
    pub fn with_times(self, times: Times) -> Self
        requires { AreTimesOf self times }
        ensures { result ≡ retimed self times }
    {
        let (frame, tables) = self.into_parts();
        Doc {
            frame: frame.with_times(times),
            tables,
        }
    }
}

/// The version: 1, 2 or 3.
pub fn version(doc: &Doc) -> u32
    ensures version { result ≡ doc.now.version }
    ensures first { 1 ≤ result }
    ensures last { result ≤ 3 }
    ensures taken { IsTaken doc.now }
    ensures formed { IsDoc doc.now }
{
    doc.frame().version()
}

pub fn layout_of(doc: &Doc) -> &Layout
    ensures layout { result.now ≡ doc.now.layout }
    ensures formed { IsDoc doc.now }
{
    doc.frame().layout()
}

/// What the points and the trains are called.
pub fn names_of(doc: &Doc) -> &Names
    ensures names { result.now ≡ names_of doc.now }
    ensures formed { IsDoc doc.now }
{
    doc.frame().names()
}

/// The number of tables.
pub fn tables_of(doc: &Doc) -> u32
    ensures count { result ≡ length doc.now.tables }
    ensures formed { IsDoc doc.now }
{
    doc.frame().tables()
}

/// The position of each train at the start.
pub fn start_of(doc: &Doc) -> &State
    ensures start { result.now ≡ doc.now.start }
    ensures formed { IsDoc doc.now }
{
    doc.frame().start()
}

/// The travel times under each table.
pub fn times_of(doc: &Doc) -> &Times
    ensures times { result.now ≡ times_of doc.now }
    ensures formed { IsDoc doc.now }
{
    doc.frame().times()
}

// A table without its times.
fn untimed_of(doc: &Doc, table: u32) -> &Untimed
    requires { table < length doc.now.tables }
    ensures table { result.now.table ≡ table_at doc.now table }
    ensures nodes { result.now.nodes ≡ nodes_at doc.now table }
    ensures formed { IsDoc doc.now }
{
    &doc.tables[table as usize]
}

/// A table.
pub fn table_of(doc: &Doc, table: u32) -> &Table
    requires { table < length doc.now.tables }
    ensures table { result.now ≡ table_at doc.now table }
    ensures formed { IsDoc doc.now }
{
    untimed_of(doc, table).table()
}

/// The moves after which a table is due.
pub fn after_of(doc: &Doc, table: u32) -> u32
    requires { table < length doc.now.tables }
    ensures after { result ≡ (doc_table doc.now table).after }
    ensures formed { IsDoc doc.now }
{
    doc.frame().after(table)
}

/// The nodes of a table's certificate, as the document has them.
pub fn nodes_of(doc: &Doc, table: u32) -> &[Node]
    requires { table < length doc.now.tables }
    ensures nodes { result.now ≡ nodes_at doc.now table }
    ensures formed { IsDoc doc.now }
{
    untimed_of(doc, table).nodes()
}

fn alone(alloc: Global, tables: Vec<Untimed>) -> Result<Vec<Table>, AllocError>
    ensures { IfOk result (λ alone. alone.items ≡ map (λ t. t.table) tables.items) }
{
    tables
        .into_iter()
        .map(|untimed| untimed.into_table())
        .collect(alloc)
}

/// The frame of a document, and its tables by value. The nodes of their certificates are dropped. The only error is that
/// there is no memory.
pub fn tables_apart(alloc: Global, doc: Doc) -> Result<(Frame, Vec<Table>), AllocError>
    ensures frame { IfOk result (λ parts. parts.0 ≡ doc) }
    ensures tables { IfOk result (λ parts. parts.1.items ≡ map (λ t. t.table) doc.tables) }
    ensures formed { IsDoc doc }
{
    let (frame, tables) = doc.into_parts();
    Ok((frame, alone(alloc, tables)?))
}
