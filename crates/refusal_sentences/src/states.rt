// How a state of a document is explained.
ghost use Rattle.std.specs.Prelude.{◌≡◌, ◌<◌, IfOk, IfErr, Err, OnOk, length, string_bytes};
ghost use Rattle.rail_model.specs.State.{Legal};
ghost use Rattle.legal_state.specs.Illegal.{IsIllegal};
ghost use Rattle.document_json.specs.Doc.{IsDoc, names_of, table_at};
ghost use Rattle.document_json.specs.Reading.{doc_of};
ghost use Rattle.state_sentences.specs.Tells.{Tells};
ghost use Rattle.refusal_sentences.specs.Explains.{ExplainsState, ExplainsIn, sections_named};

use crate::Explained;
use document_json::{Doc, DocRefused, document_kept, names_of, table_of, tables_of};
use json::Scratch;
use legal_state::judge;
use rail_model::State;
use refusal_meanings::{Placed, no_document_text, no_table_text, not_legal_text};
use state_sentences::{Scene, text_of};
use std::alloc::{AllocError, Global};

/// The names of the sections of a table, of those of all tables; none, if there are none of that table.
pub fn sections_named(names: &[Vec<String>], table: u32) -> &[String]
    ensures { result.now ≡ sections_named names.now table }
{
    match names.get(table as usize) {
        Some(sections) => sections.as_slice(),
        None => &[],
    }
}

// How a legal state is explained under a table that the document has.
fn explain_legal(
    alloc: Global,
    doc: &Doc,
    names: &[Vec<String>],
    table: u32,
    state: &State,
) -> Result<Explained, AllocError>
    requires within { table < length doc.now.tables }
    requires legal { Legal (table_at doc.now table) state.now }
    ensures { IfOk result (ExplainsIn doc.now names.now table state.now) }
{
    let scene = Scene {
        names: names_of(doc),
        table: table_of(doc, table),
        state,
    };
    let text = text_of(alloc, &scene, sections_named(names, table), table)?;
    Ok(Explained::State(text))
}

// How positions are explained under a table that the document has.
fn explain_positions(
    alloc: Global,
    doc: &Doc,
    names: &[Vec<String>],
    table: u32,
    places: &[u32],
) -> Result<Explained, AllocError>
    requires { table < length doc.now.tables }
    ensures { IfOk result (ExplainsIn doc.now names.now table places.now) }
{
    let state = State::from(Vec::from_slice(alloc, places)?);
    match judge(table_of(doc, table), &state) {
        Ok(()) => explain_legal(alloc, doc, names, table, &state),
        Err(cause) => {
            let placed = Placed {
                doc,
                table,
                sections: sections_named(names, table),
                places,
            };
            let text = not_legal_text(alloc, &placed, cause)?;
            Ok(Explained::NotLegal { cause, text })
        }
    }
}

/// What holds each train at these places, under a table of a document that was read, by the names of the sections of each table.
pub fn explain_places(
    alloc: Global,
    doc: &Doc,
    names: &[Vec<String>],
    table: u32,
    places: &[u32],
) -> Result<Explained, AllocError>
    ensures { IfOk result (ExplainsIn doc.now names.now table places.now) }
{
    let tables = tables_of(doc);
    if table < tables {
        return explain_positions(alloc, doc, names, table, places);
    }
    let text = no_table_text(alloc, table, tables)?;
    Ok(Explained::NoTable { tables, text })
}

/// What holds each train at these places, under a table of the document, by the names of the sections of each table.
pub fn explain_state(
    alloc: Global,
    bytes: &[u8],
    names: &[Vec<String>],
    table: u32,
    places: &[u32],
) -> Result<Explained, AllocError>
    ensures { IfOk result (ExplainsState bytes.now names.now table places.now) }
{
    let mut scratch = Scratch::new(alloc);
    let read = document_kept(alloc, bytes, &mut scratch);
    match &read.document {
        Ok(doc) => explain_places(alloc, doc, names, table, places),
        Err(DocRefused::Memory) => Err(AllocError),
        Err(refused) => {
            let text = no_document_text(alloc, &read.value, refused)?;
            Ok(Explained::NoDocument {
                refused: *refused,
                text,
            })
        }
    }
}
