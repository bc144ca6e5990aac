// What keeps a train where it is when a tick begins.
ghost use Rattle.std.specs.Prelude.{◌≡◌, ◌<◌, IfOk, length, option_map, string_bytes};
ghost use Rattle.rail_model.specs.State.{Legal};
ghost use Rattle.rail_model.specs.Table.{trains};
ghost use Rattle.document_json.specs.Doc.{names_of, table_at};
ghost use Rattle.wait_causes.specs.Causes as spec;

use crate::before::{positions_before, table_before};
use crate::words::cause_words;
use document_json::{Doc, names_of, table_of, tables_of};
use legal_state::judge;
use rail_model::{State, trains_of};
use run_timetable::Run;
use state_sentences::Scene;
use std::alloc::{AllocError, Global};

// The names of the sections of a table, of those of all tables; none, if there are none of that table.
fn names_under(names: &[Vec<String>], table: u32) -> &[String]
    ensures { result.now ≡ spec.names_under names.now table }
{
    match names.get(table as usize) {
        Some(sections) => sections.as_slice(),
        None => &[],
    }
}

// What a train waits for in a legal state.
fn legal_cause(
    alloc: Global,
    doc: &Doc,
    sections: &[String],
    table: u32,
    state: &State,
    train: u32,
) -> Result<Option<String>, AllocError>
    requires table { table < length doc.now.tables }
    requires train { train < trains (table_at doc.now table) }
    requires legal { Legal (table_at doc.now table) state.now }
    ensures { IfOk result (λ cause. spec.IsCauseIn (names_of doc.now) sections.now (table_at doc.now table) state.now train (option_map string_bytes cause)) }
{
    let scene = Scene {
        names: names_of(doc),
        table: table_of(doc, table),
        state,
    };
    cause_words(alloc, &scene, sections, train, scene.told(train))
}

// What a train waits for in a state.
fn cause_in(
    alloc: Global,
    doc: &Doc,
    sections: &[String],
    table: u32,
    state: &State,
    train: u32,
) -> Result<Option<String>, AllocError>
    requires { table < length doc.now.tables }
    ensures { IfOk result (λ cause. spec.IsCauseIn (names_of doc.now) sections.now (table_at doc.now table) state.now train (option_map string_bytes cause)) }
{
    if trains_of(table_of(doc, table)) <= train {
        return Ok(None);
    }
    match judge(table_of(doc, table), state) {
        Ok(()) => legal_cause(alloc, doc, sections, table, state, train),
        Err(_) => Ok(None),
    }
}

// What a train waits for when a tick begins.
fn cause_at(
    alloc: Global,
    doc: &Doc,
    run: &Run,
    sections: &[Vec<String>],
    tick: u64,
    train: u32,
) -> Result<Option<String>, AllocError>
    ensures { IfOk result (λ cause. spec.IsCauseAt doc.now sections.now run.now tick train (option_map string_bytes cause)) }
{
    let table = table_before(&run.takeovers, tick);
    if tables_of(doc) <= table {
        return Ok(None);
    }
    match positions_before(alloc, doc, run, tick)? {
        Some(state) => cause_in(
            alloc,
            doc,
            names_under(sections, table),
            table,
            &state,
            train,
        ),
        None => Ok(None),
    }
}

/// What a train waits for that leaves at a tick.
pub(crate) fn cause_until(
    alloc: Global,
    doc: &Doc,
    run: &Run,
    sections: &[Vec<String>],
    train: u32,
    leaves: u64,
) -> Result<Option<String>, AllocError>
    ensures { IfOk result (λ cause. spec.IsCause doc.now sections.now run.now train leaves (option_map string_bytes cause)) }
{
    match cause_at(alloc, doc, run, sections, leaves, train)? {
        Some(words) => Ok(Some(words)),
        None => cause_at(alloc, doc, run, sections, leaves.saturating_sub(1), train),
    }
}
