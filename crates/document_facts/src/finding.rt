// All facts of a document.
ghost use Rattle.std.specs.Prelude.{◌<◌, length};
ghost use Rattle.document_facts.specs.Adding.{Adds};
ghost use Rattle.document_facts.specs.Facts.{Holds};
ghost use Rattle.document_facts.specs.Kinds.{OfAfters, OfConnections, OfDocument, OfSections, OfTable, OfTables, OfTrains};

use crate::afters::find_after;
use crate::found::Found;
use crate::sections::find_section;
use crate::trains::{find_connection, find_end};
use crate::unused::find_layout;
use document_json::{Doc, table_of, tables_of};
use rail_model::{connections_of, sections_of, trains_of};

// Finds which trains of a table can't both arrive.
fn find_trains(found: &mut Found, doc: &Doc, table: u32)
    requires { table < length doc.now.tables }
    ensures { Adds (Holds doc.now) (OfTrains doc.now table) found.old found.new }
{
    for train in 0..trains_of(table_of(doc, table)) {
        find_end(found, doc, table, train);
    }
}

// Finds what is so of the sections of a table.
fn find_sections(found: &mut Found, doc: &Doc, table: u32)
    requires { table < length doc.now.tables }
    ensures { Adds (Holds doc.now) (OfSections doc.now table) found.old found.new }
{
    for section in 0..sections_of(table_of(doc, table)) {
        find_section(found, doc, table, section);
    }
}

// Finds which connections of a table hold nobody.
fn find_connections(found: &mut Found, doc: &Doc, table: u32)
    requires { table < length doc.now.tables }
    ensures { Adds (Holds doc.now) (OfConnections doc.now table) found.old found.new }
{
    for connection in 0..connections_of(table_of(doc, table)) {
        find_connection(found, doc, table, connection);
    }
}

// Finds what is so of a table.
fn find_table(found: &mut Found, doc: &Doc, table: u32)
    requires { table < length doc.now.tables }
    ensures { Adds (Holds doc.now) (OfTable doc.now table) found.old found.new }
{
    find_trains(found, doc, table);
    find_sections(found, doc, table);
    find_connections(found, doc, table);
}

// Finds what is so of the tables.
fn find_tables(found: &mut Found, doc: &Doc)
    ensures { Adds (Holds doc.now) (OfTables doc.now) found.old found.new }
{
    for table in 0..tables_of(doc) {
        find_table(found, doc, table);
    }
}

// Finds which tables are due only once all trains have arrived.
fn find_afters(found: &mut Found, doc: &Doc)
    ensures { Adds (Holds doc.now) (OfAfters doc.now) found.old found.new }
{
    for table in 0..tables_of(doc) {
        find_after(found, doc, table);
    }
}

/// Finds all that is so of a document that `ats` takes.
pub fn find_in(found: &mut Found, doc: &Doc)
    ensures { Adds (Holds doc.now) (OfDocument doc.now) found.old found.new }
{
    find_layout(found, doc);
    find_tables(found, doc);
    find_afters(found, doc);
}
