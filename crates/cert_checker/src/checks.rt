// The check of a certificate.
ghost use Rattle.std.specs.Prelude.{OnOk, IfErr};
ghost use Rattle.rail_model.specs.Certificate.{Accepts};
ghost use Rattle.rail_model.specs.Table.{IsTable};
ghost use Rattle.cert_checker.specs.Faults.{HasFault};

use crate::CheckFault;
use crate::walk::visit_tree;
use cert_tree::Cert;
use rail_model::Table;
use state_boxes::{Lists, RangeSums};
use std::alloc::Global;

/// Whether each node of the certificate is good in its box.
///
/// # Errors
///
/// The first node that isn't. Out of memory may come for any certificate.
pub fn check(alloc: Global, table: &Table, cert: &Cert) -> Result<(), CheckFault>
    ensures accepted { OnOk result (Accepts table.now cert.now) }
    ensures bad { IfErr result (HasFault table.now cert.now) }
    ensures formed { IsTable table.now }
{
    let mut sums = RangeSums::full(alloc, table)?;
    let lists = Lists::new(alloc, table)?;
    visit_tree(alloc, table, &lists, &mut sums, cert.as_slice(), 0)
}
