// What differs first between documents.
ghost use Rattle.document_json.specs.Doc.{IsDoc};
ghost use Rattle.document_origin.specs.Origin.{AreTablesCompared, HaveSameTables, IsCompared};

use crate::Difference;
use crate::lists::{are_same_trains, is_same_layout, is_same_state};
use crate::tables::part_of;
use document_json::{Doc, layout_of, names_of, start_of, tables_of};

/// What differs first between a document and the document of a plan; none, if the document is of the plan.
pub fn difference_of(doc: &Doc, plan: &Doc) -> Option<Difference>
    ensures { IsCompared doc.now plan.now result }
{
    if !are_same_trains(names_of(doc), names_of(plan)) {
        return Some(Difference::Trains);
    }
    if tables_of(doc) != tables_of(plan) {
        return Some(Difference::Tables);
    }
    if let Some(difference) = difference_in_tables(doc, plan) {
        return Some(difference);
    }
    if !is_same_state(start_of(doc), start_of(plan)) {
        return Some(Difference::Start);
    }
    if is_same_layout(layout_of(doc), layout_of(plan)) {
        None
    } else {
        Some(Difference::Layout)
    }
}

// What differs first in the tables.
fn difference_in_tables(doc: &Doc, plan: &Doc) -> Option<Difference>
    requires formed { IsDoc doc.now }
    requires same { HaveSameTables doc.now plan.now }
    ensures { AreTablesCompared doc.now plan.now result }
{
    for table in 0..tables_of(plan) {
        if let Some(part) = part_of(doc, plan, table) {
            return Some(Difference::Table { table, part });
        }
    }
    None
}
