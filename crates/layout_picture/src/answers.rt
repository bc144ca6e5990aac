// The picture of a document, or why there is none.
ghost use Rattle.std.specs.Prelude.{ℕ, ◌<◌, ◌≤◌, List, IfOk, length};
ghost use Rattle.std.specs.Prelude.{String as StringValue};
ghost use Rattle.std.specs.declared.alloc.Global.{Global};
ghost use Rattle.rail_model.specs.State.{Legal};
ghost use Rattle.document_json.specs.Doc.{table_at};
ghost use Rattle.legal_state.specs.Illegal.{IsIllegal};
ghost use Rattle.layout_picture.specs.Answer.{IsPictureOrWords};

use crate::picture::drawing;
use document_json::{Doc, layout_of, names_of, start_of, table_of, tables_of};
use layout_frame::{cause_of, title_of};
use legal_state::{Illegal, judge};
use rail_model::State;
use state_sentences::Scene;
use std::alloc::{AllocError, Global};
use svg_text::Picture;

/// A picture, or in words why there is none.
#[derive(Drop)]
pub enum Drawn {
    Picture { picture: Picture },
    Refused { words: String },
}

// That there is no such table.
fn no_table(alloc: Global, doc: &Doc, table: u32) -> Result<Drawn, AllocError>
    requires { length doc.now.tables ≤ table }
    ensures { (names : List (StringValue Global)) (p : List ℕ) → IfOk result (IsPictureOrWords doc.now names table p) }
{
    let tables = tables_of(doc);
    let words = format!(in alloc; "there is no table {table}: the document has {tables}")?;
    Ok(Drawn::Refused { words })
}

// Why a state isn't legal.
fn refused(
    alloc: Global,
    doc: &Doc,
    table: u32,
    state: &State,
    illegal: Illegal,
) -> Result<Drawn, AllocError>
    requires table { table < length doc.now.tables }
    requires illegal { IsIllegal (table_at doc.now table) state.now illegal }
    ensures { (names : List (StringValue Global)) → IfOk result (λ drawn. IsPictureOrWords doc.now names table state.now drawn) }
{
    let table = table_of(doc, table);
    let words = cause_of(alloc, layout_of(doc), names_of(doc), table, state, illegal)?;
    Ok(Drawn::Refused { words })
}

// The picture of a legal state.
fn pictured(
    alloc: Global,
    doc: &Doc,
    names: &[String],
    table: u32,
    state: &State,
) -> Result<Drawn, AllocError>
    requires table { table < length doc.now.tables }
    requires legal { Legal (table_at doc.now table) state.now }
    ensures { IfOk result (λ drawn. IsPictureOrWords doc.now names.now table state.now drawn) }
{
    let title = title_of(alloc, table, state, start_of(doc))?;
    let scene = Scene {
        names: names_of(doc),
        table: table_of(doc, table),
        state,
    };
    let picture = drawing(alloc, layout_of(doc), &scene, names, title.as_str())?;
    Ok(Drawn::Picture { picture })
}

/// The layout of a document with the sections of a table, which have these names, and the trains at their places in a state; or
/// why there is no such picture: there is no such table, or the state isn't legal.
pub fn layout_picture(
    alloc: Global,
    doc: &Doc,
    names: &[String],
    table: u32,
    state: &State,
) -> Result<Drawn, AllocError>
    ensures { IfOk result (λ drawn. IsPictureOrWords doc.now names.now table state.now drawn) }
{
    if tables_of(doc) <= table {
        return no_table(alloc, doc, table);
    }
    match judge(table_of(doc, table), state) {
        Ok(()) => pictured(alloc, doc, names, table, state),
        Err(illegal) => refused(alloc, doc, table, state, illegal),
    }
}
