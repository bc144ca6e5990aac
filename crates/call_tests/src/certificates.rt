// Certificates of worked examples, and one of so many nodes that threads check its parts.
ghost use Rattle.std.specs.Prelude.{◌≡◌, IfSome};
ghost use Rattle.document_json.specs.Doc.{offers_of};

use crate::examples::documents::document_called;
use accepted_documents::{Checked, check_document};
use cert_checker::{CheckFault, accept, check, check_par};
use cert_tree::{Cert, CertRefused, count, preorder, tree};
use document_json::{Doc, document, nodes_of, table_of, tables_of};
use rail_model::{Bad, Node, Table, copy_table, trains_of};
use std::alloc::{AllocError, Global};
use std::thread::Threads;

/// The document of this name, and its tables, which their certificates show to be live.
pub(crate) fn checked(alloc: Global, name: &str) -> Option<Checked>
    ensures { IfSome result (λ c. c.tables.items ≡ offers_of c.doc) }
{
    let text = document_called(name).unwrap_or("");
    match check_document(alloc, text.as_bytes()) {
        Ok(checked) => Some(checked),
        Err(_) => None,
    }
}

// Whether a table accepts a good certificate and then is due after three moves, or comes back with a bad one.
fn is_accepted(alloc: Global, table: &Table, cert: &Cert, is_good: bool) -> bool {
    let Ok(copy) = copy_table(alloc, table) else {
        return false;
    };
    match accept(alloc, copy, 3, cert) {
        Ok(accepted) => {
            is_good && accepted.after() == 3 && trains_of(accepted.table()) == trains_of(table)
        }
        Err((back, _)) => !is_good && trains_of(&back) == trains_of(table),
    }
}

// Whether these are the nodes of a tree.
fn has_nodes(alloc: Global, cert: &Cert, nodes: &[Node]) -> bool {
    match preorder(alloc, cert) {
        Ok(all) => all.as_slice() == nodes && count(cert) == nodes.len() as u64,
        Err(_) => false,
    }
}

// What both checks say of these nodes, if they say the same, and the table accepts the tree or not as they say.
fn verdict(
    rt: &(impl Threads + Sync),
    alloc: Global,
    table: &Table,
    nodes: &[Node],
) -> Option<Result<(), CheckFault>> {
    let Ok(copy) = Vec::from_slice(alloc, nodes) else {
        return None;
    };
    let Ok(cert) = tree(copy) else {
        return None;
    };
    let said = check(alloc, table, &cert);
    let is_same = check_par(rt, alloc, table, &cert) == said
        && is_accepted(alloc, table, &cert, said.is_ok())
        && has_nodes(alloc, &cert, nodes);
    is_same.then_some(said)
}

// The same of the first table of a document, and of its own nodes if there are no others.
fn first_verdict(
    rt: &(impl Threads + Sync),
    alloc: Global,
    doc: &Doc,
    nodes: Option<&[Node]>,
) -> Option<Result<(), CheckFault>> {
    if tables_of(doc) == 0 {
        return None;
    }
    let own = nodes_of(doc, 0);
    verdict(rt, alloc, table_of(doc, 0), nodes.unwrap_or(own))
}

// The same of the document of this name.
fn said_of(
    rt: &(impl Threads + Sync),
    alloc: Global,
    name: &str,
    nodes: Option<&[Node]>,
) -> Option<Result<(), CheckFault>> {
    let text = document_called(name).unwrap_or("");
    match document(alloc, text.as_bytes()) {
        Ok(doc) => first_verdict(rt, alloc, &doc, nodes),
        Err(_) => None,
    }
}

// A document, nodes in place of its own, and whether the certificate is good.
const CERTIFICATES: [(&str, Option<&[Node]>, bool); 9] = [
    ("first-path", None, true),
    ("passing-loop", None, true),
    ("corridor", None, true),
    ("exits", None, true),
    ("shares", None, true),
    ("connected", None, true),
    ("bad-move", None, false),
    ("bad-wait", None, false),
    ("passing-loop", Some(&[Node::Arrived]), false),
];

#[test]
fn both_checks_take_good_certificates(rt: HostRuntime) {
    for (name, nodes, is_good) in CERTIFICATES {
        let said = said_of(&rt, rt.alloc(), name, nodes);
        assert!(rt;
            matches!(said, Some(said) if said.is_ok() == is_good),
            "{name}"
        );
    }
}

// The node at this place of a certificate that has a leaf for each state of two trains of 128 places: 256 nodes for
// each place of train 0 but its last, for which it has 255.
fn node_at(index: u32) -> Node {
    match (index / 256, index % 256) {
        (127, 254) => Node::Arrived,
        (127, at) => if at % 2 == 0 {
            Node::Split {
                train: 1,
                place: at / 2,
            }
        } else {
            Node::Move { train: 1 }
        },
        (place, 0) => Node::Split { train: 0, place },
        (_, at) => if at % 2 == 1 && at < 255 {
            Node::Split {
                train: 1,
                place: at / 2,
            }
        } else {
            Node::Move { train: 0 }
        },
    }
}

// A leaf for each state of the two trains that never meet: 32,767 nodes.
fn leaf_by_leaf(alloc: Global) -> Result<Vec<Node>, AllocError> {
    let mut nodes = Vec::new(alloc);
    for index in 0..32_767 {
        nodes.push(node_at(index))?;
    }
    Ok(nodes)
}

// Whether the checks find the first bad node, in whichever part it is.
fn find_bad_nodes(rt: &(impl Threads + Sync), alloc: Global, nodes: &mut [Node]) -> bool {
    for index in [32_766u32, 20_002, 511, 2] {
        if let Some(node) = nodes.get_mut(index as usize) {
            *node = Node::Clash {
                first: 0,
                second: 1,
            };
        }
        let bad = CheckFault::Bad(Bad::Clash { index });
        if said_of(rt, alloc, "to-and-fro", Some(nodes)) != Some(Err(bad)) {
            return false;
        }
    }
    true
}

// Whether they take the large certificate, and find its bad nodes where it has some.
fn is_checked_in_parts(rt: &(impl Threads + Sync), alloc: Global) -> bool {
    let Ok(mut nodes) = leaf_by_leaf(alloc) else {
        return false;
    };
    let said = said_of(rt, alloc, "to-and-fro", Some(&nodes));
    said == Some(Ok(())) && find_bad_nodes(rt, alloc, &mut nodes)
}

#[test]
fn a_large_tree_is_checked_in_parts(rt: HostRuntime) {
    assert!(rt; is_checked_in_parts(&rt, rt.alloc()));
}

// Why so many nodes without an end are no tree.
fn refused(alloc: Global, length: usize) -> Option<CertRefused> {
    match vec![in alloc; Node::Split { train: 0, place: 0 }; length] {
        Ok(nodes) => tree(nodes).err(),
        Err(_) => None,
    }
}

#[test]
fn a_tree_has_a_greatest_length(rt: HostRuntime) {
    let many = CertRefused::TooMany { count: 1_000_001 };
    assert!(rt; refused(rt.alloc(), 1_000_001) == Some(many));
    let short = CertRefused::Short { missing: 1_000_001 };
    assert!(rt; refused(rt.alloc(), 1_000_000) == Some(short));
}
