// Tables that are due after more moves than are ever made.
ghost use Rattle.std.specs.Prelude.{ℕ, ◌<◌, ◌↔◌, length, IsTrue};
ghost use Rattle.rail_model.specs.State.{remaining as moves_left};
ghost use Rattle.document_json.specs.Doc.{doc_table, table_at};
ghost use Rattle.document_facts.specs.Adding.{Adds};
ghost use Rattle.document_facts.specs.Facts.{Holds, IsNeverDue};
ghost use Rattle.document_facts.specs.Kinds.{OfAfter};

use crate::fact::Fact;
use crate::found::Found;
use document_json::{Doc, after_of, start_of, table_of};
use legal_state::remaining;

// Whether under each table before this one all trains have arrived before it is due.
fn comes_after_all(doc: &Doc, table: u32) -> bool
    requires { table < length doc.now.tables }
    ensures { IsTrue result ↔ ((earlier : ℕ) → earlier < table → moves_left (table_at doc.now earlier) doc.now.start < (doc_table doc.now table).after) }
{
    let after = u64::from(after_of(doc, table));
    for earlier in 0..table {
        if after <= remaining(table_of(doc, earlier), start_of(doc)) {
            return false;
        }
    }
    true
}

// Whether a table isn't the first, and comes after all moves.
fn is_never_due(doc: &Doc, table: u32) -> bool
    requires { table < length doc.now.tables }
    ensures { IsTrue result ↔ IsNeverDue doc.now table }
{
    0 < table && comes_after_all(doc, table)
}

/// Finds that a table is due only once all trains have arrived, if it is.
pub(crate) fn find_after(found: &mut Found, doc: &Doc, table: u32)
    requires { table < length doc.now.tables }
    ensures { Adds (Holds doc.now) (OfAfter doc.now table) found.old found.new }
{
    found.add_if(is_never_due(doc, table), Fact::NeverDue { table });
}
