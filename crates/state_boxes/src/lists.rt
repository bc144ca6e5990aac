// What is listed once of a table.
ghost use Rattle.std.specs.Prelude.{◌≡◌, IfOk};

use crate::members::members_of;
use crate::rises::rises_of;
use crate::ways::ways_of;
use crate::{Members, Rises, Shares, Ways};
use rail_model::Table;
use std::alloc::{AllocError, Global};
use std::marker::Model;

/// The ways, the shares, the rises and the members of the sections of a table.
#[derive(Drop)]
pub struct Lists {
    ways: Ways,
    shares: Shares,
    rises: Rises,
    members: Members,
}

impl Model for Lists {
    ghost use Rattle.state_boxes.specs.Sums.{Lists as ListsValue};

    ghost Value = { ListsValue };

    ghost view = { λ l. record { ways = l.ways; shares = l.shares; rises = l.rises; members = l.members } };
}

impl Lists {
    ghost use Rattle.state_boxes.specs.Sums.{AreLists};

    /// Lists the table.
    pub fn new(alloc: Global, table: &Table) -> Result<Lists, AllocError>
        ensures { IfOk result (AreLists table.now) }
    {
        let ways = ways_of(alloc, table)?;
        let shares = Shares::new(alloc, table)?;
        let rises = rises_of(alloc, table, &shares)?;
        let members = members_of(alloc, table, &shares)?;
        Ok(Lists {
            ways,
            shares,
            rises,
            members,
        })
    }

    pub fn ways(&self) -> &Ways
        ensures { result.now ≡ self.now.ways }
    {
        &self.ways
    }

    pub fn shares(&self) -> &Shares
        ensures { result.now ≡ self.now.shares }
    {
        &self.shares
    }

    pub fn rises(&self) -> &Rises
        ensures { result.now ≡ self.now.rises }
    {
        &self.rises
    }

    pub fn members(&self) -> &Members
        ensures { result.now ≡ self.now.members }
    {
        &self.members
    }
}
