// Tables that are known to be live.
ghost use Rattle.std.specs.Prelude.{◌≡◌, IfOk, IfErr, OnOk};
ghost use Rattle.rail_model.specs.Certificate.{Accepts};
ghost use Rattle.rail_model.specs.Move.{Live};
ghost use Rattle.rail_model.specs.Table.{IsTable};
ghost use Rattle.cert_checker.specs.Faults.{HasFault};

use crate::{CheckFault, check, check_par};
use cert_tree::Cert;
use rail_model::{HasTable, Table};
use std::alloc::Global;
use std::marker::Model;
use std::thread::Threads;

/// A live table, and the number of moves after which it is due.
#[derive(Drop)]
pub struct Accepted {
    table: Table,
    after: u32,
}

impl Model for Accepted {
    ghost use Rattle.rail_model.specs.Move.{Live};
    ghost use Rattle.rail_model.specs.Table.{IsTable};
    ghost use Rattle.rail_model.specs.Yard.{Offer};

    ghost Value = { Offer };

    ghost view = { λ a. record { table = a.table; after = a.after } };

    ghost invariant = { λ a. IsTable a.table × Live a.table };
}

impl Accepted {
    ghost use Rattle.std.specs.Prelude.{◌≡◌};
    ghost use Rattle.rail_model.specs.Move.{Live};
    ghost use Rattle.rail_model.specs.Table.{IsTable};

    /// A table that is proved to be live, as one that the maker made a certificate for; it isn't checked again.
    pub fn live(table: Table, after: u32) -> Self
        requires { Live table }
        ensures { result ≡ record { table = table; after = after } }
    {
        Accepted { table, after }
    }

    /// The table.
    pub fn table(&self) -> &Table
        ensures given { result.now ≡ self.now.table }
        ensures formed { IsTable self.now.table }
        ensures live { Live self.now.table }
    {
        &self.table
    }

    /// The number of moves after which it is due.
    pub fn after(&self) -> u32
        ensures { result ≡ self.now.after }
    {
        self.after
    }
}

impl HasTable for Accepted {
    ghost offer = { λ a. a };

    fn table(&self) -> &Table {
        self.table()
    }

    fn after(&self) -> u32 {
        self.after()
    }
}

/// The table with the proof that it is live, where the certificate shuts all its states.
///
/// # Errors
///
/// The table as it was given, and what `check` says of it.
pub fn accept(
    alloc: Global,
    table: Table,
    after: u32,
    cert: &Cert,
) -> Result<Accepted, (Table, CheckFault)>
    ensures accepted { OnOk result (Accepts table cert.now) }
    ensures given { IfOk result (λ a. a ≡ record { table = table; after = after }) }
    ensures bad { IfErr result (λ e. (e.0 ≡ table) × HasFault table cert.now e.1) }
{
    match check(alloc, &table, cert) {
        Ok(()) => Ok(Accepted { table, after }),
        Err(fault) => Err((table, fault)),
    }
}

/// What `accept` answers, by `check_par`.
///
/// # Errors
///
/// The table as it was given, and what `check_par` says of it.
pub fn accept_par(
    rt: &(impl Threads + Sync),
    alloc: Global,
    table: Table,
    after: u32,
    cert: &Cert,
) -> Result<Accepted, (Table, CheckFault)>
    ensures accepted { OnOk result (Accepts table cert.now) }
    ensures given { IfOk result (λ a. a ≡ record { table = table; after = after }) }
    ensures bad { IfErr result (λ e. (e.0 ≡ table) × HasFault table cert.now e.1) }
{
    match check_par(rt, alloc, &table, cert) {
        Ok(()) => Ok(Accepted { table, after }),
        Err(fault) => Err((table, fault)),
    }
}
