// The check of a document's certificates.
ghost use Rattle.std.specs.Prelude.{◌≡◌, ◌⊎◌, ◌<◌, ◌≤◌, length, IfOk, IfErr, string_bytes};
ghost use Rattle.rail_model.specs.Certificate.{preorder};
ghost use Rattle.document_json.specs.Trees.{tree_at};
ghost use Rattle.accepted_documents.specs.Accepting.{AreAccepted, IsDocWith};
ghost use Rattle.ats_answers.specs.Checking.{WritesChecked, nodes_below, checked_text};
ghost use Rattle.ats_answers.specs.Refusing.{RefusesCheck};
ghost use Rattle.ats_answers.specs.declared.failure.Failure.TheVariants.{Memory as NoMemory};

use crate::Failure;
use crate::checked::check_document;
use accepted_documents::Checked;
use cert_tree::Cert;
use std::alloc::{AllocError, Global};
use std::thread::Threads;

/// The line that says how many tables of a document accept their certificates, and of how many nodes.
///
/// # Errors
///
/// There was no memory, or the first refusal in the order document, trees, certificates.
pub fn check(rt: &(impl Threads + Sync), alloc: Global, input: &[u8]) -> Result<Vec<u8>, Failure>
    ensures checked { IfOk result (λ text. IsDocWith input.now (λ D. WritesChecked D text.items)) }

    ensures unchecked { IfErr result (λ e. (e ≡ NoMemory) ⊎ RefusesCheck input.now e) }
{
    let checked = check_document(rt, alloc, input)?;
    line_of(alloc, &checked)
}

// The line of a document whose tables accept their certificates. The only error is that there is no memory.
fn line_of(alloc: Global, checked: &Checked) -> Result<Vec<u8>, Failure>
    requires { AreAccepted checked.now.doc checked.now.certs.items }
    ensures checked { IfOk result (λ text. WritesChecked checked.now.doc text.items) }

    ensures memory { IfErr result (λ e. e ≡ NoMemory) }
{
    let tables = checked.doc.tables();
    let line = checked_line(alloc, tables, nodes(&checked.certs))?;
    Ok(line.into_bytes())
}

/// The number of nodes of all certificates.
pub fn nodes(certs: &[Cert]) -> u64
    requires { length certs.now ≤ 16 }
    ensures { result ≡ nodes_below certs.now (length certs.now) }
{
    let mut sum = 0;
    for table in 0..certs.len() {
        sum += nodes_of(certs, table);
    }
    sum
}

// The number of nodes of one certificate.
fn nodes_of(certs: &[Cert], table: usize) -> u64
    requires { table < length certs.now }
    ensures count { result ≡ length (preorder (tree_at certs.now table)) }
    ensures few { result ≤ 1000000 }
{
    certs[table].as_slice().len() as u64
}

fn checked_line(alloc: Global, tables: u32, nodes: u64) -> Result<String, AllocError>
    ensures { IfOk result (λ line. string_bytes line ≡ checked_text tables nodes) }
{
    let mut line = String::new(alloc);
    write!(line, "accepted tables={tables} nodes={nodes}\n")?;
    Ok(line)
}
