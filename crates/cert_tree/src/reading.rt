// A list of nodes, read as the tree that it spells.
ghost use Rattle.std.specs.Prelude.{◌≡◌, ◌+◌, ◌<◌, ◌≤◌, length, IfOk, IfErr, OnOk};
ghost use Rattle.rail_model.specs.Certificate.{preorder as nodes_of};
ghost use Rattle.cert_tree.specs.Refused.{IsMissing, IsRefused};
ghost use Rattle.cert_tree.specs.Spelling.{most_nodes, wanted_behind};

use crate::{Cert, MOST_NODES};
use rail_model::Node;

/// Why a list of nodes spells no certificate.
#[derive(Clone, Copy, Debug, PartialEq, Eq)]
pub enum CertRefused {
    /// There are `count` nodes, more than `MOST_NODES`.
    TooMany { count: u64 },
    /// The list ends while `missing` trees are still wanted.
    Short { missing: u64 },
    /// The first `used` nodes are a tree, and nodes are left.
    Over { used: u64 },
}

// Refuses nodes that spell no tree. They are read without recursion.
fn check_nodes(nodes: &[Node]) -> Result<(), CertRefused>
    ensures spelled { OnOk result (IsMissing nodes.now 0) }
    ensures few { OnOk result (length nodes.now ≤ most_nodes) }
    ensures refused { IfErr result (IsRefused nodes.now) }
{
    if nodes.len() > MOST_NODES {
        return Err(CertRefused::TooMany {
            count: nodes.len() as u64,
        });
    }
    let mut wanted: u64 = 1;
    for (used, &node) in nodes.iter().enumerate() {
        if wanted == 0 {
            return Err(CertRefused::Over { used: used as u64 });
        }
        wanted = behind(node, wanted);
    }
    if wanted > 0 {
        return Err(CertRefused::Short { missing: wanted });
    }
    Ok(())
}

/// The certificate that the nodes spell.
///
/// # Errors
///
/// Too many nodes are refused before all else; then the list ends too early, or too late.
pub fn tree(nodes: Vec<Node>) -> Result<Cert, CertRefused>
    ensures spells { IfOk result (λ cert. nodes_of cert ≡ nodes.items) }
    ensures refused { IfErr result (IsRefused nodes.items) }
{
    check_nodes(&nodes)?;
    Ok(Cert::spelled(nodes.into()))
}

/// How many trees are wanted after a node, where this many were before it.
pub fn behind(node: Node, wanted: u64) -> u64
    requires some { 0 < wanted }
    requires few { wanted ≤ most_nodes + 1 }
    ensures { result ≡ wanted_behind node wanted }
{
    match node {
        Node::Split { .. } => wanted + 1,
        _ => wanted - 1,
    }
}
