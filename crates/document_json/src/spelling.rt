// The certificates of a document.
ghost use Rattle.std.specs.Prelude.{◌≡◌, ◌≤◌, length, map, IfOk, IfErr, OnOk};
ghost use Rattle.rail_model.specs.Certificate.{preorder};
ghost use Rattle.cert_tree.specs.declared.reading.CertRefused.{CertRefused as Cause};
ghost use Rattle.cert_tree.specs.Refused.{IsRefused};
ghost use Rattle.cert_tree.specs.Spelling.{most_nodes};
ghost use Rattle.document_json.specs.Doc.{Doc as DocValue, IsDoc, offers_of};
ghost use Rattle.document_json.specs.Keeps.{untimed};
ghost use Rattle.document_json.specs.Trees.{AreTrees, TreesRefused};
ghost use Rattle.document_json.specs.declared.spelling.TreeRefused.TheVariants.{Memory, Tree as NoTree};

use crate::doc::Untimed;
use crate::{Doc, Frame};
use cert_tree::{Cert, CertRefused, tree};
use rail_model::Table;
use std::alloc::{AllocFailed, Global};

/// A table of a document with its certificate.
#[derive(Drop)]
pub struct Certified {
    pub table: Table,
    /// The moves after which the table is due.
    pub after: u32,
    pub cert: Cert,
}

/// Why the nodes of a document spell no trees: the first table, and what is wrong with its nodes.
#[derive(Clone, Copy)]
pub enum TreeRefused {
    /// There was no memory.
    Memory,
    /// The nodes of this table.
    Tree { table: u32, refused: CertRefused },
}

impl<T: Drop> From<AllocFailed<T>> for TreeRefused {
    ghost from_gives = { λ _ e. e ≡ Memory };

    fn from(_: AllocFailed<T>) -> Self {
        TreeRefused::Memory
    }
}

/// The frame of a document, and its tables with their certificates, in order. Nothing is copied.
///
/// # Errors
///
/// Out of memory, or the first table whose nodes spell no tree, and why.
pub fn certificates(alloc: Global, doc: Doc) -> Result<(Frame, Vec<Certified>), TreeRefused>
    ensures ok { IfOk result (λ parts. AreTrees doc (map (λ t. t.cert) parts.1.items)) }
    ensures frame { IfOk result (λ parts. parts.0 ≡ doc) }
    ensures tables { IfOk result (λ parts. map (λ t. record { table = t.table; after = t.after }) parts.1.items ≡ offers_of doc) }
    ensures formed { IsDoc doc }

    ensures refused { IfErr result (TreesRefused doc) }
{
    let (frame, tables) = doc.into_parts();
    let found = spelled(alloc, tables)?;
    Ok((frame, found))
}

// The tables of a document with their trees. Here nothing else is owned, so that little has to be dropped at the exits.
fn spelled(alloc: Global, tables: Vec<Untimed>) -> Result<Vec<Certified>, TreeRefused>
    requires { length tables.items ≤ 16 }
    ensures ok { IfOk result (λ found. (D : DocValue) → map untimed D.tables ≡ tables.items
        → AreTrees D (map (λ t. t.cert) found.items)) }
    ensures tables { IfOk result (λ found. (D : DocValue) → map untimed D.tables ≡ tables.items
        → map (λ t. record { table = t.table; after = t.after }) found.items ≡ offers_of D) }
    ensures refused { IfErr result (λ e. (D : DocValue) → map untimed D.tables ≡ tables.items → TreesRefused D e) }
{
    let mut found = Vec::new(alloc);
    for table in tables {
        let number = found.len() as u32;
        found.push(certify(number, table)?)?;
    }
    Ok(found)
}

// A table, which has this number, with the tree that its nodes spell.
fn certify(number: u32, untimed: Untimed) -> Result<Certified, TreeRefused>
    ensures table { IfOk result (λ t. t.table ≡ untimed.table) }
    ensures after { IfOk result (λ t. t.after ≡ untimed.after) }
    ensures spelled { IfOk result (λ t. preorder t.cert ≡ untimed.nodes) }
    ensures few { OnOk result (length untimed.nodes ≤ most_nodes) }

    ensures refused { IfErr result (λ e. (cause : Cause) × (e ≡ NoTree number cause) × IsRefused untimed.nodes cause) }
{
    let after = untimed.after();
    let (table, nodes) = untimed.into_parts();
    match tree(nodes) {
        Ok(cert) => Ok(Certified { table, after, cert }),
        Err(refused) => Err(TreeRefused::Tree {
            table: number,
            refused,
        }),
    }
}
