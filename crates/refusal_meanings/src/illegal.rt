// Why places are no legal state.
ghost use Rattle.std.specs.Prelude.{◌≡◌, ◌<◌, ◌++◌, IfOk, OnOk, length, string_bytes};
ghost use Rattle.rail_model.specs.Names.{train_name};
ghost use Rattle.rail_model.specs.Table.{trains};
ghost use Rattle.rail_model.specs.Ways.{IsOn};
ghost use Rattle.legal_state.specs.Illegal.{IsIllegal};
ghost use Rattle.document_json.specs.Doc.{names_of as names_in, table_at};
ghost use Rattle.refusal_meanings.specs.IllegalWords.{listed_words, length_words, range_words, clash_words, over_words, cause_words, TellsIllegal};

use crate::held_points::{held_points, write_points};
use document_json::{Doc, names_of, table_of};
use legal_state::Illegal;
use rail_model::{last_of, trains_of};
use state_sentences::push_section;
use std::alloc::{AllocError, Global};

/// Places under a table of a document.
#[derive(Clone, Copy)]
pub struct Placed<'a> {
    pub doc: &'a Doc,
    /// The number of the table.
    pub table: u32,
    /// The names of the table's sections; a section has none if its name is empty or missing.
    pub sections: &'a [String],
    pub places: &'a [u32],
    ghost points: { IsOn doc.now.layout (table_at doc.now table) },
    ghost within: { table < length doc.now.tables },
}

// The name of a train.
fn train_of<'a>(placed: &Placed<'a>, train: u32) -> &'a str
    requires { train < trains (table_at placed.now.doc.now placed.now.table) }
    ensures { result.now ≡ train_name (names_in placed.now.doc.now) train }
{
    names_of(placed.doc).train(train)
}

// Adds a train to a list.
fn write_listed(out: &mut String, placed: &Placed, train: u32) -> Result<(), AllocError>
    requires { train < trains (table_at placed.now.doc.now placed.now.table) }
    ensures { OnOk result (string_bytes out.new ≡ string_bytes out.old ++ listed_words (names_in placed.now.doc.now) train) }
{
    let name = train_of(placed, train);
    if train == 0 {
        out.push_str(name)
    } else {
        write!(out, ", {name}")
    }
}

// Adds that there isn't one place for each train.
fn write_length(out: &mut String, placed: &Placed, count: usize) -> Result<(), AllocError>
    ensures { OnOk result (string_bytes out.new ≡ string_bytes out.old
        ++ length_words (names_in placed.now.doc.now) (table_at placed.now.doc.now placed.now.table) count) }
{
    let trains = trains_of(table_of(placed.doc, placed.table));
    write!(out, "{count} given, {trains} wanted, one for each of ")?;
    for train in 0..trains {
        write_listed(out, placed, train)?;
    }
    Ok(())
}

// Adds that a train has no such place.
fn write_range(out: &mut String, placed: &Placed, train: u32) -> Result<(), AllocError>
    requires size { length placed.now.places.now ≡ trains (table_at placed.now.doc.now placed.now.table) }
    requires train { train < trains (table_at placed.now.doc.now placed.now.table) }
    ensures { OnOk result (string_bytes out.new ≡ string_bytes out.old
        ++ range_words (names_in placed.now.doc.now) (table_at placed.now.doc.now placed.now.table) placed.now.places.now train) }
{
    let name = train_of(placed, train);
    let place = placed.places[train as usize];
    let last = last_of(table_of(placed.doc, placed.table), train);
    write!(out, "{name} has no place {place}, its last place is {last}")
}

// Adds at which point two trains are.
fn write_clash(
    out: &mut String,
    placed: &Placed,
    first: u32,
    second: u32,
    point: u32,
) -> Result<(), AllocError>
    requires first { first < trains (table_at placed.now.doc.now placed.now.table) }
    requires second { second < trains (table_at placed.now.doc.now placed.now.table) }
    requires point { point < length placed.now.doc.now.layout.points }
    ensures { OnOk result (string_bytes out.new ≡ string_bytes out.old ++ clash_words (names_in placed.now.doc.now) first second point) }
{
    let first = train_of(placed, first);
    let second = train_of(placed, second);
    let point = names_of(placed.doc).point(point);
    write!(out, "{first} and {second} are both at {point}")
}

// Adds that trains take more of a section than its limit.
fn write_over(
    out: &mut String,
    placed: &Placed,
    section: u32,
    count: u32,
    limit: u32,
) -> Result<(), AllocError>
    requires { section < length (table_at placed.now.doc.now placed.now.table).sections }
    ensures { OnOk result (string_bytes out.new ≡ string_bytes out.old
        ++ over_words (names_in placed.now.doc.now) placed.now.sections.now (table_at placed.now.doc.now placed.now.table) section count limit) }
{
    let points = held_points(
        *out.allocator(),
        table_of(placed.doc, placed.table),
        section,
    )?;
    write!(out, "they take {count} of ")?;
    push_section(out, placed.sections, section)?;
    write_points(out, names_of(placed.doc), &points)?;
    write!(out, ", whose limit is {limit}")
}

// Adds the cause.
fn write_cause(out: &mut String, placed: &Placed, cause: Illegal) -> Result<(), AllocError>
    requires { IsIllegal (table_at placed.now.doc.now placed.now.table) placed.now.places.now cause }
    ensures { OnOk result (string_bytes out.new ≡ string_bytes out.old ++ cause_words (names_in placed.now.doc.now) placed.now.sections.now
        (table_at placed.now.doc.now placed.now.table) placed.now.places.now cause) }
{
    match cause {
        Illegal::Length { count } => write_length(out, placed, count),
        Illegal::Range { train } => write_range(out, placed, train),
        Illegal::Clash {
            first,
            second,
            point,
        } => write_clash(out, placed, first, second, point),
        Illegal::Over {
            section,
            count,
            limit,
        } => write_over(out, placed, section, count, limit),
    }
}

/// Why places are no legal state of a table of a document.
///
/// # Errors
///
/// Out of memory.
pub fn not_legal_text(alloc: Global, placed: &Placed, cause: Illegal) -> Result<String, AllocError>
    requires { IsIllegal (table_at placed.now.doc.now placed.now.table) placed.now.places.now cause }
    ensures { IfOk result (λ text. TellsIllegal (names_in placed.now.doc.now) placed.now.sections.now
        (table_at placed.now.doc.now placed.now.table) placed.now.places.now placed.now.table cause (string_bytes text)) }
{
    let table = placed.table;
    let mut text = String::new(alloc);
    write!(text, "These places are no legal state of table {table}: ")?;
    write_cause(&mut text, placed, cause)?;
    text.push_str(".\n")?;
    Ok(text)
}
