// The walk over a tree's nodes in preorder, with one box that is changed and changed back.
ghost use Rattle.std.specs.Prelude.{◌≡◌, List, ◌∷◌, [], ◌+◌, ◌<◌, ◌≤◌, length, reverse, drop, slice_set, All, IfErr, OnOk, IsTrue, Some, false, true};
ghost use Rattle.rail_model.specs.Table.{trains};
ghost use Rattle.rail_model.specs.Certificate.{Range, range, IsGood};
ghost use Rattle.state_boxes.specs.Sums.{AreLists, AreSums};
ghost use Rattle.cert_tree.specs.Open.{opened};
ghost use Rattle.cert_checker.specs.Walked.{IsStepOf, IsRefusal, next_train, shown, waiting, walked, StopsAt};

use crate::CheckFault;
use crate::good::is_good;
use crate::leaves::check_node;
use rail_model::{Node, Table};
use state_boxes::{Lists, RangeSums, Ranges, Span};
use std::alloc::{AllocError, Global};

/// A range that a train is given, and whether the box is to be visited then.
#[derive(Clone, Copy)]
pub(crate) struct Step {
    pub train: u32,
    pub span: Span,
    pub visit: bool,
}

// The step back to a train's range.
fn step_back(sums: &RangeSums, train: u32) -> Step
    requires { train < length sums.now.ranges }
    ensures { result ≡ record { train = train; span = range sums.now.ranges train; visit = false } }
{
    Step {
        train,
        span: sums.ranges().span(train),
        visit: false,
    }
}

// The step to the places after one.
fn step_right(sums: &RangeSums, train: u32, place: u32) -> Step
    requires train { train < length sums.now.ranges }
    requires place { place < (range sums.now.ranges train).hi }
    ensures { result ≡ record { train = train; span = record { lo = place + 1; hi = (range sums.now.ranges train).hi }; visit = true } }
{
    let hi = sums.ranges().span(train).hi();
    Step {
        train,
        span: Span::new(place + 1, hi),
        visit: true,
    }
}

// The step to the places up to one.
fn step_left(sums: &RangeSums, train: u32, place: u32) -> Step
    requires { train < length sums.now.ranges }
    ensures { result ≡ record { train = train; span = record { lo = (range sums.now.ranges train).lo; hi = place }; visit = true } }
{
    Step {
        train,
        span: Span::new(sums.ranges().span(train).lo(), place),
        visit: true,
    }
}

// Whether the next step is one of a train.
fn is_next(steps: &[Step], train: u32) -> bool
    ensures { IsTrue result → next_train (reverse steps.now) ≡ Some train }
{
    match steps.last() {
        Some(step) => step.train == train,
        None => false,
    }
}

// Plans the step back to a train's range, unless the next step gives the train other places.
fn plan_back(
    table: &Table,
    sums: &RangeSums,
    steps: &mut Vec<Step>,
    train: u32,
) -> Result<(), AllocError>
    requires sums { AreSums table.now sums.now }
    requires train { train < trains table.now }
    requires steps { All (λ step. IsStepOf table.now step) steps.old.items }
    ensures boxes { OnOk result ((r : Range) → waiting (slice_set sums.now.ranges train r) (reverse steps.new.items)
        ≡ waiting sums.now.ranges (reverse steps.old.items)) }
    ensures steps { OnOk result (All (λ step. IsStepOf table.now step) steps.new.items) }
{
    if is_next(steps, train) {
        return Ok(());
    }
    steps.push(step_back(sums, train))?;
    Ok(())
}

// Plans the steps after a node: for a split to its left half, to its right half, and back.
fn plan(
    table: &Table,
    sums: &RangeSums,
    steps: &mut Vec<Step>,
    node: Node,
) -> Result<(), CheckFault>
    requires sums { AreSums table.now sums.now }
    requires good { IsGood table.now sums.now.ranges node }
    requires steps { All (λ step. IsStepOf table.now step) steps.old.items }
    ensures boxes { OnOk result (waiting sums.now.ranges (reverse steps.new.items)
        ≡ opened sums.now.ranges node (waiting sums.now.ranges (reverse steps.old.items))) }
    ensures steps { OnOk result (All (λ step. IsStepOf table.now step) steps.new.items) }
    ensures memory { IfErr result (λ e. e ≡ CheckFault.Memory) }
{
    if let Node::Split { train, place } = node {
        plan_back(table, sums, steps, train)?;
        steps.push(step_right(sums, train, place))?;
        steps.push(step_left(sums, train, place))?;
    }
    Ok(())
}

// Makes the steps up to the next box that is to be visited, and says whether there is one.
fn advance(table: &Table, lists: &Lists, sums: &mut RangeSums, steps: &mut Vec<Step>) -> bool
    requires lists { AreLists table.now lists.now }
    requires sums { AreSums table.now sums.old }
    requires steps { All (λ step. IsStepOf table.now step) steps.old.items }
    ensures sums { AreSums table.now sums.new }
    ensures steps { All (λ step. IsStepOf table.now step) steps.new.items }
    ensures boxes { waiting sums.old.ranges (reverse steps.old.items)
        ≡ shown result sums.new.ranges (waiting sums.new.ranges (reverse steps.new.items)) }
    ensures ended { result ≡ false → steps.new.items ≡ [] }
{
    while let Some(step) = steps.pop() {
        sums.narrow(table, lists.shares(), step.train, step.span);
        if step.visit {
            return true;
        }
    }
    false
}

/// Visits the nodes of one tree, from the first of them on.
pub(crate) fn visit_tree(
    alloc: Global,
    table: &Table,
    lists: &Lists,
    sums: &mut RangeSums,
    nodes: &[Node],
    first: usize,
) -> Result<(), CheckFault>
    requires lists { AreLists table.now lists.now }
    requires sums { AreSums table.now sums.old }
    requires few { length nodes.now ≤ 1000000 }
    requires first { first ≤ length nodes.now }
    ensures good { OnOk result (All (λ v. IsGood table.now v.0 v.1) (walked (sums.old.ranges ∷ []) (drop first nodes.now))) }
    ensures bad { IfErr result (StopsAt table.now (walked (sums.old.ranges ∷ []) (drop first nodes.now)) first) }
{
    let mut steps = Vec::new(alloc);
    for index in first..nodes.len() {
        let node = nodes[index];
        if !is_good(table, lists, sums, node) {
            return Err(refusal(table, sums, node, index as u32));
        }
        plan(table, sums, &mut steps, node)?;
        if !advance(table, lists, sums, &mut steps) {
            return Ok(());
        }
    }
    Ok(())
}

// Why a node is bad.
fn refusal(table: &Table, sums: &RangeSums, node: Node, index: u32) -> CheckFault
    requires sums { AreSums table.now sums.now }
    requires bad { IsGood table.now sums.now.ranges node → ⊥ }
    ensures { IsRefusal table.now sums.now.ranges node index result }
{
    match check_node(table, sums.ranges(), node, index) {
        Ok(()) => unreachable!(),
        Err(bad) => CheckFault::Bad(bad),
    }
}
