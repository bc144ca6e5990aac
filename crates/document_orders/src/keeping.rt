// Certificates that stay.
ghost use Rattle.std.specs.Prelude.{◌≡◌, ◌<◌, ℕ, IfOk, length, map};
ghost use Rattle.document_json.specs.Doc.{nodes_at};
ghost use Rattle.document_orders.specs.Ordered.{KeepsTree, new_tree};

use cert_tree::{Cert, tree};
use document_json::{Doc, nodes_of, tables_of};
use rail_model::{Node, Table, copy_table};
use std::alloc::{AllocError, Global};

// The smallest certificate.
fn smallest(alloc: Global) -> Result<Cert, AllocError> {
    let nodes = vec![in alloc; Node::Arrived]?;
    Ok(Cert::spelled(nodes.into()))
}

// The certificate that the nodes spell, or else the smallest one.
fn kept(alloc: Global, nodes: &[Node]) -> Result<Cert, AllocError>
    ensures { IfOk result (KeepsTree nodes.now) }
{
    match tree(Vec::from_slice(alloc, nodes)?) {
        Ok(cert) => Ok(cert),
        Err(_) => smallest(alloc),
    }
}

/// Copies of these tables, each with the certificate that the document has for the table of its number, or the smallest one where the
/// document's nodes are no tree.
pub fn with_certs(
    alloc: Global,
    doc: &Doc,
    tables: &[Table],
) -> Result<Vec<(Table, Cert)>, AllocError>
    requires { length tables.now ≡ length doc.now.tables }
    ensures tables { IfOk result (λ parts. map (λ p. p.0) parts.items ≡ tables.now) }
    ensures trees { IfOk result (λ parts. (t : ℕ) → t < length doc.now.tables → KeepsTree (nodes_at doc.now t) (new_tree parts.items t)) }
{
    let mut parts = Vec::new(alloc);
    for number in 0..tables_of(doc) {
        let table = copy_table(alloc, &tables[number as usize])?;
        parts.push((table, kept(alloc, nodes_of(doc, number))?))?;
    }
    Ok(parts)
}
