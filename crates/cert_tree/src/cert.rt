// A certificate: a tree, kept as the list of its nodes in preorder.
ghost use Rattle.std.specs.Prelude.{◌≡◌, ◌≤◌, length, IfOk};
ghost use Rattle.rail_model.specs.Certificate.{preorder as nodes_of};
ghost use Rattle.cert_tree.specs.Spelling.{most_nodes};

use rail_model::{Node, Nodes};
use std::alloc::{AllocError, Global};
use std::marker::Model;

/// The greatest number of nodes of a certificate.
pub const MOST_NODES: usize = 1_000_000;

/// A tree of at most `MOST_NODES` nodes. Contracts see it as the tree.
#[derive(Drop)]
pub struct Cert {
    nodes: Nodes,
}

impl Model for Cert {
    ghost use Rattle.std.specs.Prelude.{◌≡◌, ◌≤◌, length};
    ghost use Rattle.rail_model.specs.Certificate.{Tree, preorder};
    ghost use Rattle.cert_tree.specs.Spelling.{most_nodes, tree_of};
    ghost use Rattle.cert_tree.specs.Code.{tree_code};

    ghost Value = { Tree };

    ghost coded = { tree_code };

    ghost view = { λ c. tree_of c.nodes };

    ghost invariant = { λ c. (preorder (tree_of c.nodes) ≡ c.nodes) × (length c.nodes ≤ most_nodes) };
}

impl Cert {
    ghost use Rattle.std.specs.Prelude.{◌≡◌, ◌≤◌, length};
    ghost use Rattle.rail_model.specs.Certificate.{preorder as nodes_of};
    ghost use Rattle.cert_tree.specs.Spelling.{most_nodes, tree_of};

    /// The certificate whose nodes these are, for nodes of which it is proved that they are a tree's preorder;
    /// [`tree`](crate::tree) tests any.
    pub fn spelled(nodes: Nodes) -> Self
        requires spelled { nodes_of (tree_of nodes) ≡ nodes }
        requires few { length nodes ≤ most_nodes }
        ensures { nodes_of result ≡ nodes }
    {
        Cert { nodes }
    }

    /// The nodes in preorder, by value.
    pub fn into_nodes(self) -> Vec<Node>
        ensures nodes { result.items ≡ nodes_of self }
        ensures few { length result.items ≤ most_nodes }
    {
        self.nodes.into_vec()
    }

    /// The nodes in preorder, lent.
    pub fn as_slice(&self) -> &[Node]
        ensures nodes { result.now ≡ nodes_of self.now }
        ensures few { length result.now ≤ most_nodes }
    {
        self.nodes.as_slice()
    }
}

/// The nodes in preorder, in a list of their own. The only error is out of memory.
pub fn preorder(alloc: Global, cert: &Cert) -> Result<Vec<Node>, AllocError>
    ensures { IfOk result (λ nodes. nodes.items ≡ nodes_of cert.now) }
{
    Vec::from_slice(alloc, cert.as_slice())
}

/// The number of nodes.
pub fn count(cert: &Cert) -> u64
    ensures count { result ≡ length (nodes_of cert.now) }
    ensures few { result ≤ most_nodes }
{
    cert.as_slice().len() as u64
}
