// A document whose tables were taken out.
ghost use Rattle.std.specs.Prelude.{◌≡◌, ◌<◌, ◌≤◌, ℕ, IfOk, length, map};
ghost use Rattle.document_json.specs.Doc.{IsDoc, names_of, times_of, doc_table};
ghost use Rattle.document_json.specs.Keeps.{HasParts, IsTaken, doc_of_parts};
ghost use Rattle.document_json.specs.Retimed.{AreTimesOf, retimed};

use crate::doc::Untimed;
use rail_model::{Layout, Names, State, Times};
use std::alloc::{AllocError, Global};
use std::marker::Model;
use std::snapshot::Snapshot;

/// What a document has besides its tables and their certificates. Contracts see it as the whole document: the
/// snapshot of the tables takes no memory.
#[derive(Drop)]
pub struct Frame {
    version: u32,
    layout: Layout,
    names: Names,
    tables: Snapshot<Vec<Untimed>>,
    afters: Vec<u32>,
    times: Times,
    start: State,
}

impl Model for Frame {
    ghost use Rattle.std.specs.Prelude.{◌≡◌, map};
    ghost use Rattle.document_json.specs.Doc.{Doc as DocValue};
    ghost use Rattle.document_json.specs.Keeps.{HasParts, doc_of_parts};

    ghost Value = { DocValue };

    ghost view = { λ f. doc_of_parts f.version f.layout f.names f.tables.value.items f.times f.start };

    ghost invariant = { λ f. HasParts f.version f.layout f.names f.tables.value.items f.times f.start
        × (f.afters.items ≡ map (λ t. t.after) f.tables.value.items) };
}

impl Frame {
    /// The frame of the document of these parts.
    pub(crate) fn new(
        alloc: Global,
        version: u32,
        layout: Layout,
        names: Names,
        tables: &Vec<Untimed>,
        times: Times,
        start: State,
    ) -> Result<Self, AllocError>
        requires { HasParts version layout names tables.now.items times start }
        ensures { IfOk result (λ f. f ≡ doc_of_parts version layout names tables.now.items times start) }
    {
        let afters = tables.iter().map(|table| table.after()).collect(alloc)?;
        Ok(Frame {
            version,
            layout,
            names,
            tables: Snapshot::of(tables),
            afters,
            times,
            start,
        })
    }

    /// The version: 1, 2 or 3.
    pub fn version(&self) -> u32
        ensures version { result ≡ self.now.version }
        ensures first { 1 ≤ result }
        ensures last { result ≤ 3 }
        ensures taken { IsTaken self.now }
        ensures formed { IsDoc self.now }
    {
        self.version
    }

    pub fn layout(&self) -> &Layout
        ensures layout { result.now ≡ self.now.layout }
        ensures formed { IsDoc self.now }
    {
        &self.layout
    }

    /// What the points and the trains are called.
    pub fn names(&self) -> &Names
        ensures names { result.now ≡ names_of self.now }
        ensures formed { IsDoc self.now }
    {
        &self.names
    }

    /// The number of tables.
    pub fn tables(&self) -> u32
        ensures count { result ≡ length self.now.tables }
        ensures formed { IsDoc self.now }
    {
        self.afters.len() as u32
    }

    /// The moves after which a table is due.
    pub fn after(&self, table: u32) -> u32
        requires { table < length self.now.tables }
        ensures after { result ≡ (doc_table self.now table).after }
        ensures formed { IsDoc self.now }
    {
        self.afters[table as usize]
    }

    /// The travel times under each table.
    pub fn times(&self) -> &Times
        ensures times { result.now ≡ times_of self.now }
        ensures formed { IsDoc self.now }
    {
        &self.times
    }

    /// The position of each train at the start.
    pub fn start(&self) -> &State
        ensures start { result.now ≡ self.now.start }
        ensures formed { IsDoc self.now }
    {
        &self.start
    }
    /// The frame of the document with other travel times, all else equal.
    pub(crate) fn with_times(mut self, times: Times) -> Self
        requires { AreTimesOf self times }
        ensures frame { result ≡ retimed self times }
        ensures formed { IsDoc result }
    {
        self.times = times;
        self
    }
}
