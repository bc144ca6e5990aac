// What is written of a difference.
ghost use Rattle.std.specs.Prelude.{◌≡◌, ◌++◌, OnOk, string_bytes};
ghost use Rattle.rail_model.specs.Names.{train_name};
ghost use Rattle.document_origin.specs.Words.{difference_words, part_words, train_words};

use crate::{Difference, Part};
use rail_model::Names;
use std::alloc::AllocError;

// The name of a train, or no letters for a number that no train has.
fn name_of(names: &Names, train: u32) -> &str
    ensures { result.now ≡ train_name names.now train }
{
    if (train as usize) < names.trains() {
        names.train(train)
    } else {
        ""
    }
}

// Adds what a train has.
fn push_train(out: &mut String, names: &Names, train: u32, words: &str) -> Result<(), AllocError>
    ensures { OnOk result (string_bytes out.new ≡ string_bytes out.old ++ train_words names.now train words.now) }
{
    let name = name_of(names, train);
    write!(out, "train \"{name}\"{words}")
}

// Adds what differs in a table.
fn push_part(out: &mut String, names: &Names, part: Part) -> Result<(), AllocError>
    ensures { OnOk result (string_bytes out.new ≡ string_bytes out.old ++ part_words names.now part) }
{
    match part {
        Part::Route { train } => push_train(out, names, train, " has another route"),
        Part::Exit { train } => push_train(out, names, train, " exits in one of them alone"),
        Part::Times { train } => push_train(out, names, train, " has other times"),
        Part::Connections => out.push_str("it has other connections"),
        Part::After => out.push_str("it is due after another number of moves"),
        Part::Section { section } => write!(out, "section {section} is missing or another"),
    }
}

/// Adds what differs, and where, with the names of the trains.
pub fn push_difference(
    out: &mut String,
    names: &Names,
    difference: Difference,
) -> Result<(), AllocError>
    ensures { OnOk result (string_bytes out.new ≡ string_bytes out.old ++ difference_words names.now difference) }
{
    match difference {
        Difference::Layout => out.push_str("it has other points, zones or links"),
        Difference::Trains => out.push_str("it has other trains"),
        Difference::Start => out.push_str("its trains start at other places"),
        Difference::Tables => out.push_str("it has another number of tables"),
        Difference::Table { table, part } => push_in_table(out, names, table, part),
    }
}

// Adds what differs in a table, behind its number.
fn push_in_table(out: &mut String, names: &Names, table: u32, part: Part) -> Result<(), AllocError>
    ensures { OnOk result (string_bytes out.new ≡ string_bytes out.old ++ difference_words names.now (Difference.Table table part)) }
{
    write!(out, "table {table}: ")?;
    push_part(out, names, part)
}
