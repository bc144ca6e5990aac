// The trains that may have a share of each section, listed once for a table.
ghost use Rattle.std.specs.Prelude.{◌≡◌, ◌+◌, ◌<◌, length, IfOk, OnOk};
ghost use Rattle.rail_model.specs.Table.{IsTable, trains};
ghost use Rattle.state_boxes.specs.Extremes.{IsShares, AreMembers};
ghost use Rattle.state_boxes.specs.Sums.{AreAllMembers};

use crate::Shares;
use rail_model::{Table, sections_of, trains_of};
use std::alloc::{AllocError, Global};
use std::marker::Model;

/// The trains that may have a share of one section, in order.
#[derive(Drop)]
pub struct SectionMembers {
    trains: Vec<u32>,
}

impl Model for SectionMembers {
    ghost use Rattle.std.specs.Prelude.{ℕ, List};

    ghost Value = { List ℕ };

    ghost view = { λ m. m.trains.items };
}

/// The trains that may have a share of each section.
#[derive(Drop)]
pub struct Members {
    sections: Vec<SectionMembers>,
}

impl Model for Members {
    ghost use Rattle.std.specs.Prelude.{ℕ, List};

    ghost Value = { List (List ℕ) };

    ghost view = { λ m. m.sections.items };
}

impl Members {
    ghost use Rattle.std.specs.Prelude.{length, slice_index_or, []};

    /// The trains that may have a share of a section, in order.
    pub fn of(&self, section: u32) -> &[u32]
        requires { section < length self.now }
        ensures { result.now ≡ slice_index_or self.now section [] }
    {
        &self.sections[section as usize].trains
    }
}

// Adds a train, where it has a share of the section.
fn add_member(
    table: &Table,
    shares: &Shares,
    section: u32,
    train: u32,
    members: &mut Vec<u32>,
) -> Result<(), AllocError>
    requires formed { IsTable table.now }
    requires shares { IsShares table.now shares.now }
    requires section { section < length table.now.sections }
    requires train { train < trains table.now }
    requires before { AreMembers table.now section 0 train members.old.items }
    ensures { OnOk result (AreMembers table.now section 0 (train + 1) members.new.items) }
{
    if !shares.train(train).has_share(table, train, section) {
        return Ok(());
    }
    members.push(train)?;
    Ok(())
}

// The trains that have a share of a section at some place, in order.
fn section_members(
    alloc: Global,
    table: &Table,
    shares: &Shares,
    section: u32,
) -> Result<SectionMembers, AllocError>
    requires shares { IsShares table.now shares.now }
    requires section { section < length table.now.sections }
    ensures { IfOk result (AreMembers table.now section 0 (trains table.now)) }
{
    let mut members = Vec::new(alloc);
    for train in 0..trains_of(table) {
        add_member(table, shares, section, train, &mut members)?;
    }
    Ok(SectionMembers { trains: members })
}

/// The trains that may have a share of each section of a table.
pub(crate) fn members_of(
    alloc: Global,
    table: &Table,
    shares: &Shares,
) -> Result<Members, AllocError>
    requires { IsShares table.now shares.now }
    ensures { IfOk result (AreAllMembers table.now) }
{
    let mut sections = Vec::new(alloc);
    for section in 0..sections_of(table) {
        sections.push(section_members(alloc, table, shares, section)?)?;
    }
    Ok(Members { sections })
}
