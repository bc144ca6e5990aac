// Trains that can't both arrive, and connections that hold nobody.
ghost use Rattle.std.specs.Prelude.{◌≡◌, ◌<◌, ◌↔◌, length, MatchOption, IsTrue, ℕ};
ghost use Rattle.rail_model.specs.Table.{trains};
ghost use Rattle.document_facts.specs.Adding.{Adds};
ghost use Rattle.document_facts.specs.Counting.{IsFirst};
ghost use Rattle.document_facts.specs.Facts.{Holds, IsConnectionOf, IsMet, IsPassed, IsTrainOf, StartsFrom, StartsPast, connection as connection_of};
ghost use Rattle.document_facts.specs.Kinds.{OfConnection, OfTrain};
ghost use Rattle.document_facts.specs.Sections.{EndTogether};

use crate::exact::end_together;
use crate::fact::Fact;
use crate::found::Found;
use document_json::{Doc, start_of, table_of};
use rail_model::{Connection, Table};

// The first train before another one that ends where it ends.
fn first_partner(table: &Table, train: u32) -> Option<u32>
    requires { train < trains table.now }
    ensures { MatchOption result ((j : ℕ) → j < train → EndTogether table.now j train → ⊥)
        (λ first. IsFirst (λ j. EndTogether table.now j train) train first) }
{
    for first in 0..train {
        if end_together(table, first, train) {
            return Some(first);
        }
    }
    None
}

/// Finds that a train ends where an earlier one ends, if it does.
pub(crate) fn find_end(found: &mut Found, doc: &Doc, table: u32, train: u32)
    requires { IsTrainOf doc.now table train }
    ensures { Adds (Holds doc.now) (OfTrain doc.now table train) found.old found.new }
{
    match first_partner(table_of(doc, table), train) {
        Some(earlier) => found.add_if(
            true,
            Fact::EndsAsEarlier {
                table,
                train,
                earlier,
            },
        ),
        None => {}
    }
}

// Whether a train starts at a place or past it.
fn starts_from(start: &[u32], train: u32, place: u32) -> bool
    ensures { IsTrue result ↔ StartsFrom start.now train place }
{
    match start.get(train as usize) {
        Some(position) => place <= *position,
        None => false,
    }
}

// Whether a train starts past a place.
fn starts_past(start: &[u32], train: u32, place: u32) -> bool
    ensures { IsTrue result ↔ StartsPast start.now train place }
{
    match start.get(train as usize) {
        Some(position) => place < *position,
        None => false,
    }
}

// Whether a connection is met at the start.
fn is_met(start: &[u32], connection: &Connection) -> bool
    ensures { IsTrue result ↔ IsMet start.now connection.now }
{
    starts_from(start, connection.other(), connection.reached())
}

// Whether a connection isn't met at the start, but passed.
fn is_passed(start: &[u32], connection: &Connection) -> bool
    ensures { IsTrue result ↔ IsPassed start.now connection.now }
{
    !is_met(start, connection) && starts_past(start, connection.train(), connection.place())
}

// A connection of a table.
fn connection_at(table: &Table, connection: u32) -> &Connection
    requires { connection < length table.now.connections }
    ensures { result.now ≡ connection_of table.now connection }
{
    &table.connections()[connection as usize]
}

// The positions of the trains at the start.
fn starts_of(doc: &Doc) -> &[u32]
    ensures { result.now ≡ doc.now.start }
{
    start_of(doc).as_slice()
}

/// Finds that a connection holds nobody, if it is met or passed at the start.
pub(crate) fn find_connection(found: &mut Found, doc: &Doc, table: u32, connection: u32)
    requires { IsConnectionOf doc.now table connection }
    ensures { Adds (Holds doc.now) (OfConnection doc.now table connection) found.old found.new }
{
    let start = starts_of(doc);
    let at = connection_at(table_of(doc, table), connection);
    found.add_if(is_met(start, at), Fact::ConnectionMet { table, connection });
    found.add_if(
        is_passed(start, at),
        Fact::ConnectionPassed { table, connection },
    );
}
