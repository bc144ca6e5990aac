// Who checks the certificates of a document's tables.
ghost use Rattle.std.specs.Prelude.{◌≡◌, IfErr, IfOk, OnOk};
ghost use Rattle.std.specs.Thread.{IsSync};
ghost use Rattle.rail_model.specs.Certificate.{Accepts};
ghost use Rattle.cert_checker.specs.Faults.{HasFault};

use cert_checker::{Accepted, CheckFault, accept, accept_par};
use cert_tree::Cert;
use rail_model::Table;
use std::alloc::Global;
use std::thread::Threads;

/// Checks the certificate of a table.
pub trait Acceptor {
    /// What it needs of the threads that it runs on.
    ghost can_run: { Type 0 };

    /// The table, if it accepts the certificate; else the table as it was given, and why not.
    fn accept(
        &self,
        alloc: Global,
        table: Table,
        after: u32,
        cert: &Cert,
    ) -> Result<Accepted, (Table, CheckFault)>
        requires { can_run }
        ensures accepted { OnOk result (Accepts table cert.now) }
        ensures given { IfOk result (λ a. a ≡ record { table = table; after = after }) }
        ensures bad { IfErr result (λ e. HasFault table cert.now e.1) };
}

/// Checks on one thread.
#[derive(Clone, Copy)]
pub struct Alone;

impl Acceptor for Alone {
    ghost can_run = { Unit {0} };

    fn accept(
        &self,
        alloc: Global,
        table: Table,
        after: u32,
        cert: &Cert,
    ) -> Result<Accepted, (Table, CheckFault)> {
        accept(alloc, table, after, cert)
    }
}

/// Checks on all threads.
#[derive(Drop)]
pub struct Together<'r, R: Threads + Sync> {
    pub(crate) rt: &'r R,
}

impl<'r, R: Threads + Sync> Acceptor for Together<'r, R> {
    ghost can_run = { IsSync R.row };

    fn accept(
        &self,
        alloc: Global,
        table: Table,
        after: u32,
        cert: &Cert,
    ) -> Result<Accepted, (Table, CheckFault)> {
        accept_par(self.rt, alloc, table, after, cert)
    }
}
