// How far the nodes of a former draft go on with the boxes that are open.
ghost use Rattle.std.specs.Prelude.{◌≡◌, ◌≤◌, IfSome, length};
ghost use Rattle.cert_maker.specs.Draft.{IsPiece};

use cert_tree::{MOST_NODES, behind};
use rail_model::Node;
use std::alloc::{AllocError, Global};
use std::marker::Model;

// Where the tree ends that begins at a place and has at most `MOST_NODES` nodes; none where the nodes end before it does.
fn piece_end(nodes: &[Node], at: usize) -> Option<usize>
    requires within { at ≤ length nodes.now }
    ensures { IfSome result (IsPiece nodes.now at) }
{
    let mut wanted: u64 = 1;
    let bound = nodes.len().min(at + MOST_NODES);
    for (passed, &node) in nodes[at..bound].iter().enumerate() {
        wanted = behind(node, wanted);
        if wanted == 0 {
            return Some(at + passed + 1);
        }
    }
    None
}

/// Where the former nodes are read next, and of each open box whether the former tree has it too, the next one last.
#[derive(Drop)]
pub(crate) struct Trail {
    at: usize,
    follows: Vec<bool>,
}

impl Model for Trail {
    ghost use Rattle.std.specs.Prelude.{reverse};
    ghost use Rattle.cert_maker.specs.Draft.{Trail as TrailValue};

    ghost Value = { TrailValue };

    ghost view = { λ t. record { at = t.at; follows = reverse t.follows.items } };
}

impl Trail {
    ghost use Rattle.std.specs.Prelude.{◌≡◌, ◌∷◌, [], List, true, IfOk, OnOk, IfSome, IsTrue, ◌↔◌, drop, slice_index_or};
    ghost use Rattle.rail_model.specs.Table.{Table as TableValue};
    ghost use Rattle.rail_model.specs.Certificate.{Range, left_half, right_half};
    ghost use Rattle.rail_model.specs.declared.types.Node.TheVariants.{Split as SplitNode};
    ghost use Rattle.cert_tree.specs.Open.{opened};
    ghost use Rattle.cert_maker.specs.Draft.{IsHere, IsOnTrail, IsPiece};

    /// At the first node, where the only open box is the former tree's too.
    pub(crate) fn new(alloc: Global) -> Result<Trail, AllocError>
        ensures { IfOk result (λ trail. trail ≡ record { at = 0; follows = true ∷ [] }) }
    {
        let mut follows = Vec::new(alloc);
        follows.push(true)?;
        Ok(Trail { at: 0, follows })
    }

    /// Where the former nodes are read next.
    pub(crate) fn at(&self) -> usize
        ensures { result ≡ self.now.at }
    {
        self.at
    }

    /// Whether the former tree has the next box too, and its nodes are not at their end.
    pub(crate) fn is_here(&self, nodes: &[Node]) -> bool
        ensures { IsTrue result ↔ IsHere nodes.now self.now }
    {
        match self.follows.last() {
            Some(&follows) => follows && self.at < nodes.len(),
            None => false,
        }
    }

    /// The end of the next box's former nodes, if the former tree has no stuck state in it.
    pub(crate) fn piece(&self, nodes: &[Node]) -> Option<usize>
        requires here { IsHere nodes.now self.now }
        ensures { IfSome result (IsPiece nodes.now self.now.at) }
    {
        piece_end(nodes, self.at)
    }

    // The former node of the next box, if the former tree has that box too.
    fn node(&self, nodes: &[Node]) -> Option<Node>
        ensures here { IfSome result (λ _. IsHere nodes.now self.now) }
        ensures node { IfSome result (λ node. node ≡ slice_index_or nodes.now self.now.at (SplitNode 0 0)) }
    {
        if self.is_here(nodes) {
            Some(nodes[self.at])
        } else {
            None
        }
    }

    // Where the former nodes go on after the next box.
    fn behind_next(&self, nodes: &[Node]) -> usize
        ensures { (T : TableValue) (B : List Range) (S : List (List Range)) → IsOnTrail T nodes.now self.now (B ∷ S)
            → IsOnTrail T nodes.now (record { at = result; follows = drop 1 self.now.follows }) S }
    {
        if !self.is_here(nodes) {
            return self.at;
        }
        match self.piece(nodes) {
            Some(end) => end,
            None => nodes.len(),
        }
    }

    /// Leaves the next box, whose former nodes end here.
    pub(crate) fn leave(&mut self, end: usize)
        ensures { self.new ≡ record { at = end; follows = drop 1 self.old.follows } }
    {
        self.follows.pop();
        self.at = end;
    }

    // Goes on after the next box.
    fn pass(&mut self, nodes: &[Node])
        ensures { (T : TableValue) (B : List Range) (S : List (List Range)) → IsOnTrail T nodes.now self.old (B ∷ S) → IsOnTrail T nodes.now self.new S }
    {
        let end = self.behind_next(nodes);
        self.leave(end);
    }

    // Goes on to the halves of the next box, which the former tree has too if it has the same split.
    fn halve(&mut self, nodes: &[Node], train: u32, place: u32) -> Result<(), AllocError>
        ensures { (T : TableValue) (B : List Range) (S : List (List Range)) → IsOnTrail T nodes.now self.old (B ∷ S)
            → OnOk result (IsOnTrail T nodes.now self.new (left_half B train place ∷ right_half B train place ∷ S)) }
    {
        let split = Node::Split { train, place };
        match self.node(nodes) {
            Some(former) if former == split => {
                self.at += 1;
                self.follows.push(true)?;
                Ok(())
            }
            _ => {
                self.pass(nodes);
                self.follows.push(false)?;
                self.follows.push(false)?;
                Ok(())
            }
        }
    }

    /// Goes on after the node of the next box.
    pub(crate) fn follow(&mut self, nodes: &[Node], node: Node) -> Result<(), AllocError>
        ensures { (T : TableValue) (B : List Range) (S : List (List Range)) → IsOnTrail T nodes.now self.old (B ∷ S)
            → OnOk result (IsOnTrail T nodes.now self.new (opened B node S)) }
    {
        match node {
            Node::Split { train, place } => self.halve(nodes, train, place),
            _ => {
                self.pass(nodes);
                Ok(())
            }
        }
    }
}
