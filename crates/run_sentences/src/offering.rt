// The tables of a document, each with the moves after which it is due.
ghost use Rattle.std.specs.Prelude.{◌≡◌, IfOk};
ghost use Rattle.document_json.specs.Doc.{offers_of};

use document_json::{Doc, after_of, table_of, tables_of};
use run_search::LentTable;
use std::alloc::{AllocError, Global};

/// The tables of a document, lent, in order.
pub fn tables_offered<'a>(alloc: Global, doc: &'a Doc) -> Result<Vec<LentTable<'a>>, AllocError>
    ensures { IfOk result (λ tables. tables.items ≡ offers_of doc.now) }
{
    let mut tables = Vec::new(alloc);
    for table in 0..tables_of(doc) {
        tables.push(LentTable::new(table_of(doc, table), after_of(doc, table)))?;
    }
    Ok(tables)
}
