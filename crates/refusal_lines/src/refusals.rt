// Each refusal, added whole or not at all.
ghost use Rattle.std.specs.Prelude.{◌≡◌, ◌++◌, OnOk, OnErr, string_bytes};
ghost use Rattle.refusal_lines.specs.Certificates.{tree_words, bad_words};
ghost use Rattle.refusal_lines.specs.Documents.{document_words};
ghost use Rattle.refusal_lines.specs.Journals.{text_words, line_words};
ghost use Rattle.refusal_lines.specs.Makers.{many_words, spent_words, stuck_words, rounds_words, connected_words};

use crate::certificates::{write_bad, write_tree};
use crate::documents::write_document;
use crate::journals::{write_line, write_text};
use crate::makers::{write_connected, write_many, write_rounds, write_spent, write_stuck};
use cert_tree::CertRefused;
use document_json::DocRefused;
use move_journal::{BadLine, BadText};
use rail_model::{Bad, State};
use std::alloc::AllocError;

/// Adds why a list of nodes spells no certificate of a table.
pub fn push_tree(out: &mut String, table: u32, refused: &CertRefused) -> Result<(), AllocError>
    ensures added { OnOk result (string_bytes out.new ≡ string_bytes out.old ++ tree_words table refused.now) }
    ensures unchanged { OnErr result (string_bytes out.new ≡ string_bytes out.old) }
{
    let mut words = String::new(*out.allocator());
    write_tree(&mut words, table, refused)?;
    out.push_str(words.as_str())
}

/// Adds the first bad node of a table's certificate, and what it lacks.
pub fn push_bad(out: &mut String, table: u32, bad: &Bad) -> Result<(), AllocError>
    ensures added { OnOk result (string_bytes out.new ≡ string_bytes out.old ++ bad_words table bad.now) }
    ensures unchanged { OnErr result (string_bytes out.new ≡ string_bytes out.old) }
{
    let mut words = String::new(*out.allocator());
    write_bad(&mut words, table, bad)?;
    out.push_str(words.as_str())
}

/// Adds what is wrong with a document.
pub fn push_document(out: &mut String, refused: &DocRefused) -> Result<(), AllocError>
    ensures added { OnOk result (string_bytes out.new ≡ string_bytes out.old ++ document_words refused.now) }
    ensures unchanged { OnErr result (string_bytes out.new ≡ string_bytes out.old) }
{
    let mut words = String::new(*out.allocator());
    write_document(&mut words, refused)?;
    out.push_str(words.as_str())
}

/// Adds what is wrong with the text of a journal.
pub fn push_text(out: &mut String, fault: &BadText) -> Result<(), AllocError>
    ensures added { OnOk result (string_bytes out.new ≡ string_bytes out.old ++ text_words fault.now) }
    ensures unchanged { OnErr result (string_bytes out.new ≡ string_bytes out.old) }
{
    let mut words = String::new(*out.allocator());
    write_text(&mut words, fault)?;
    out.push_str(words.as_str())
}

/// Adds the first line of a journal that isn't right, or what it lacks at its end.
pub fn push_line(out: &mut String, fault: &BadLine) -> Result<(), AllocError>
    ensures added { OnOk result (string_bytes out.new ≡ string_bytes out.old ++ line_words fault.now) }
    ensures unchanged { OnErr result (string_bytes out.new ≡ string_bytes out.old) }
{
    let mut words = String::new(*out.allocator());
    write_line(&mut words, fault)?;
    out.push_str(words.as_str())
}

/// Adds how many sections a table would have.
pub fn push_many(out: &mut String, table: u32, count: u32) -> Result<(), AllocError>
    ensures added { OnOk result (string_bytes out.new ≡ string_bytes out.old ++ many_words table count) }
    ensures unchanged { OnErr result (string_bytes out.new ≡ string_bytes out.old) }
{
    let mut words = String::new(*out.allocator());
    write_many(&mut words, table, count)?;
    out.push_str(words.as_str())
}

/// Adds how many nodes a table's certificate was allowed.
pub fn push_spent(out: &mut String, table: u32, nodes: u32) -> Result<(), AllocError>
    ensures added { OnOk result (string_bytes out.new ≡ string_bytes out.old ++ spent_words table nodes) }
    ensures unchanged { OnErr result (string_bytes out.new ≡ string_bytes out.old) }
{
    let mut words = String::new(*out.allocator());
    write_spent(&mut words, table, nodes)?;
    out.push_str(words.as_str())
}

/// Adds where a table is stuck.
pub fn push_stuck(out: &mut String, table: u32, at: &State) -> Result<(), AllocError>
    ensures added { OnOk result (string_bytes out.new ≡ string_bytes out.old ++ stuck_words table at.now) }
    ensures unchanged { OnErr result (string_bytes out.new ≡ string_bytes out.old) }
{
    let mut words = String::new(*out.allocator());
    write_stuck(&mut words, table, at)?;
    out.push_str(words.as_str())
}

/// Adds where a table is still stuck after the last round.
pub fn push_rounds(out: &mut String, table: u32, rounds: u32, at: &State) -> Result<(), AllocError>
    ensures added { OnOk result (string_bytes out.new ≡ string_bytes out.old ++ rounds_words table rounds at.now) }
    ensures unchanged { OnErr result (string_bytes out.new ≡ string_bytes out.old) }
{
    let mut words = String::new(*out.allocator());
    write_rounds(&mut words, table, rounds, at)?;
    out.push_str(words.as_str())
}

/// Adds that a table has a connection.
pub fn push_connected(out: &mut String, table: u32) -> Result<(), AllocError>
    ensures added { OnOk result (string_bytes out.new ≡ string_bytes out.old ++ connected_words table) }
    ensures unchanged { OnErr result (string_bytes out.new ≡ string_bytes out.old) }
{
    let mut words = String::new(*out.allocator());
    write_connected(&mut words, table)?;
    out.push_str(words.as_str())
}
