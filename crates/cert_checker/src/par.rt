// The check of the parts of a tree, side by side.
ghost use Rattle.std.specs.Prelude.{◌≡◌, ◌≤◌, ◌⊎◌, length, Err, All, IfOk, IfErr, OnOk};
ghost use Rattle.std.specs.List.{AllZip};
ghost use Rattle.rail_model.specs.Table.{IsTable};
ghost use Rattle.rail_model.specs.Certificate.{Accepts};
ghost use Rattle.cert_checker.specs.Cut.{IsPart, IsChecked, IsListed, IsLoad, IsLoadChecked, ArePartsChecked, first_fault as first_fault_of};
ghost use Rattle.cert_checker.specs.Faults.{HasFault};
ghost use Rattle.cert_checker.specs.declared.faults.CheckFault.TheVariants.{Memory};

use crate::CheckFault;
use crate::checks::check;
use crate::loads::{Load, loads_of};
use crate::parts::{Part, cut};
use crate::walk::visit_tree;
use cert_tree::Cert;
use rail_model::{Node, Table};
use rayon::prelude::*;
use state_boxes::{Lists, RangeSums};
use std::alloc::{AllocError, Global};
use std::thread::Threads;

/// A tree of fewer nodes is checked sooner than threads are started.
const NODES_WORTH_THREADS: usize = 20_000;

/// A load has at least this share of the nodes, if there are more.
const LOADS: usize = 16;

// The nodes of a tree of a table, and the table's lists of shares.
#[derive(Clone, Copy)]
struct Listed<'a> {
    table: &'a Table,
    lists: &'a Lists,
    nodes: &'a [Node],
}

// The check of one part.
fn check_part(alloc: Global, tree: &Listed<'_>, part: &Part) -> Result<(), CheckFault>
    requires tree { IsListed tree.now.table.now tree.now.lists.now tree.now.nodes.now }
    requires part { IsPart tree.now.table.now tree.now.nodes.now part.now }
    ensures { IsChecked tree.now.table.now tree.now.nodes.now part.now result }
{
    let ranges = part.ranges.copy(alloc)?;
    let mut sums = RangeSums::new(alloc, tree.table, ranges)?;
    visit_tree(
        alloc, tree.table, tree.lists, &mut sums, tree.nodes, part.first,
    )
}

// The check of the parts of a load, up to the first fault.
fn check_load(alloc: Global, tree: &Listed<'_>, load: &Load<'_>) -> Result<(), CheckFault>
    requires tree { IsListed tree.now.table.now tree.now.lists.now tree.now.nodes.now }
    requires load { IsLoad tree.now.table.now tree.now.nodes.now load.now }
    ensures { IsLoadChecked tree.now.table.now tree.now.nodes.now load.now result }
{
    for part in load.parts.iter() {
        check_part(alloc, tree, part)?;
    }
    Ok(())
}

// The answers of the loads, in order, from as many threads as there are processors.
fn check_loads(
    rt: &(impl Threads + Sync),
    alloc: Global,
    tree: &Listed<'_>,
    loads: &[Load<'_>],
) -> Result<Vec<Result<(), CheckFault>>, AllocError>
    requires tree { IsListed tree.now.table.now tree.now.lists.now tree.now.nodes.now }
    requires loads { All (λ load. IsLoad tree.now.table.now tree.now.nodes.now load) loads.now }
    ensures { IfOk result (λ answers. AllZip (λ load r. IsLoadChecked tree.now.table.now tree.now.nodes.now load r) loads.now answers.items) }
{
    loads
        .par_iter()
        .with_min_len(1)
        .map(
            |load: &Load<'_>| -> Result<(), CheckFault>
                requires { IsListed tree.now.table.now tree.now.lists.now tree.now.nodes.now × IsLoad tree.now.table.now tree.now.nodes.now load.now }
                ensures { IsLoadChecked tree.entry.now.table.now tree.entry.now.nodes.now load.now result }
            { check_load(alloc, tree, load) },
        )
        .collect(rt, alloc)
}

// The first fault.
fn first_fault(answers: &[Result<(), CheckFault>]) -> Result<(), CheckFault>
    ensures { result ≡ first_fault_of answers.now }
{
    for answer in answers {
        if let Err(fault) = answer {
            return Err(*fault);
        }
    }
    Ok(())
}

// The check of the parts of a tree.
fn check_parts(
    rt: &(impl Threads + Sync),
    alloc: Global,
    tree: &Listed<'_>,
    parts: &[Part],
) -> Result<(), CheckFault>
    requires tree { IsListed tree.now.table.now tree.now.lists.now tree.now.nodes.now }
    requires parts { All (λ p. IsPart tree.now.table.now tree.now.nodes.now p) parts.now }
    ensures { (result ≡ Err Memory) ⊎ ArePartsChecked tree.now.table.now tree.now.nodes.now parts.now result }
{
    let loads = loads_of(alloc, parts, tree.nodes.len() / LOADS)?;
    let answers = check_loads(rt, alloc, tree, &loads)?;
    first_fault(&answers)
}

// The check of the parts of a certificate's nodes under a table.
fn check_cut(
    rt: &(impl Threads + Sync),
    alloc: Global,
    table: &Table,
    nodes: &[Node],
    parts: &[Part],
) -> Result<(), CheckFault>
    requires few { length nodes.now ≤ 1000000 }
    requires parts { All (λ p. IsPart table.now nodes.now p) parts.now }
    ensures { (result ≡ Err Memory) ⊎ ArePartsChecked table.now nodes.now parts.now result }
{
    let lists = Lists::new(alloc, table)?;
    let tree = Listed {
        table,
        lists: &lists,
        nodes,
    };
    check_parts(rt, alloc, &tree, parts)
}

/// What `check` answers, from as many threads as there are processors, or where the tree is small from one.
///
/// # Errors
///
/// The bad node of least index. Out of memory may come for any certificate.
pub fn check_par(
    rt: &(impl Threads + Sync),
    alloc: Global,
    table: &Table,
    cert: &Cert,
) -> Result<(), CheckFault>
    ensures accepted { OnOk result (Accepts table.now cert.now) }
    ensures bad { IfErr result (HasFault table.now cert.now) }
    ensures formed { IsTable table.now }
{
    let nodes = cert.as_slice();
    if nodes.len() < NODES_WORTH_THREADS {
        return check(alloc, table, cert);
    }
    let parts = cut(alloc, table, nodes)?;
    check_cut(rt, alloc, table, nodes, &parts)
}
