// Sections under other numbers, and the sections that come or go.
ghost use Rattle.std.specs.Prelude.{◌≡◌, ℕ, ◌+◌, ◌<◌, ◌≤◌, length, All, IfOk, IfSome, OnOk, MatchOption, None, Some, IsTrue, ◌↔◌, slice_get, unwrap_or};
ghost use Rattle.rail_model.specs.Certificate.{IsBox};
ghost use Rattle.state_boxes.specs.Sums.{AreLists};
ghost use Rattle.cert_maker.specs.Slack.{IsSlack};
ghost use Rattle.cert_maker.specs.Renumber.{number_in, Renumbers};
ghost use Rattle.cert_maker.specs.Numbers.{HasAll, IsGone, IsNew};

use crate::slack::is_slack;
use rail_model::{Node, Section, Table, sections_of};
use state_boxes::{Lists, Ranges};
use std::alloc::{AllocError, Global};

/// For each section of a former table its number in another, if it is there, and the sections that only one of them has.
#[derive(Drop)]
pub(crate) struct Numbers {
    numbers: Vec<Option<u32>>,
    gone: Vec<u32>,
    come: Vec<u32>,
}

impl Numbers {
    ghost use Rattle.std.specs.Prelude.{◌≡◌, IfOk, IsTrue, ◌↔◌, unwrap_or};
    ghost use Rattle.rail_model.specs.Certificate.{IsBox};
    ghost use Rattle.state_boxes.specs.Sums.{AreLists};
    ghost use Rattle.cert_maker.specs.Renumber.{number_in, DifferBySlack, renumbered as renumbered_node};
    ghost use Rattle.cert_maker.specs.Numbers.{AreNumbers};

    /// The numbers of a former table's sections in a table that differs by sections alone.
    pub(crate) fn between(
        alloc: Global,
        former: &Table,
        table: &Table,
    ) -> Result<Numbers, AllocError>
        requires missions { former.now.missions ≡ table.now.missions }
        requires connections { former.now.connections ≡ table.now.connections }
        ensures { IfOk result (AreNumbers former.now table.now) }
    {
        let numbers = numbers_of(alloc, former, table)?;
        let gone = without_number(alloc, &numbers)?;
        let come = nobodys_numbers(alloc, &numbers, sections_of(table))?;
        Ok(Numbers {
            numbers,
            gone,
            come,
        })
    }

    // The new number of a section, or 0.
    fn number(&self, section: u32) -> u32
        ensures { result ≡ unwrap_or (number_in self.now.numbers.items section) 0 }
    {
        if section as usize >= self.numbers.len() {
            return 0;
        }
        self.numbers[section as usize].unwrap_or(0)
    }

    /// A node with its section's new number.
    pub(crate) fn renumbered(&self, node: Node) -> Node
        ensures { result ≡ renumbered_node self.now.numbers.items node }
    {
        match node {
            Node::Overfull { section } => Node::Overfull {
                section: self.number(section),
            },
            _ => node,
        }
    }

    /// Whether the sections that only one of the tables has are slack in a box.
    pub(crate) fn differ_by_slack(
        &self,
        former: &Table,
        former_lists: &Lists,
        table: &Table,
        lists: &Lists,
        ranges: &Ranges,
    ) -> bool
        requires former_lists { AreLists former.now former_lists.now }
        requires lists { AreLists table.now lists.now }
        requires boxed { IsBox table.now ranges.now }
        requires numbers { AreNumbers former.now table.now self.now }
        ensures { IsTrue result ↔ DifferBySlack former.now table.now self.now.numbers.items ranges.now }
    {
        are_slack(former, former_lists, ranges, &self.gone)
            && are_slack(table, lists, ranges, &self.come)
    }
}

// The number of the first section from a number on that is the same as this one.
fn first_same(section: &Section, sections: &[Section], from: usize) -> Option<u32>
    requires { length sections.now ≤ 64 }
    ensures { IfSome result (λ k. (from ≤ k) × (k < length sections.now) × (Some section.now ≡ slice_get sections.now k)) }
{
    for number in from..sections.len() {
        if section.is_same(&sections[number]) {
            return Some(number as u32);
        }
    }
    None
}

// Where the next section is looked for.
fn next_from(number: Option<u32>, from: usize) -> usize
    ensures { MatchOption number (result ≡ from) (λ k. result ≡ k + 1) }
{
    match number {
        Some(number) => number as usize + 1,
        None => from,
    }
}

// For each section its number in the table, where it is there after the one before.
fn numbers_of(alloc: Global, former: &Table, table: &Table) -> Result<Vec<Option<u32>>, AllocError>
    requires missions { former.now.missions ≡ table.now.missions }
    requires connections { former.now.connections ≡ table.now.connections }
    ensures numbers { IfOk result (λ numbers. Renumbers former.now table.now numbers.items) }
    ensures few { IfOk result (λ numbers. length numbers.items ≤ 64) }
{
    let sections = table.sections();
    let before = former.sections();
    let mut numbers = Vec::new(alloc);
    let mut from = 0;
    for section in before {
        let number = first_same(section, sections, from);
        numbers.push(number)?;
        from = next_from(number, from);
    }
    Ok(numbers)
}

// Adds a section, where it has no number.
fn add_gone(numbers: &[Option<u32>], section: usize, gone: &mut Vec<u32>) -> Result<(), AllocError>
    requires few { length numbers.now ≤ 64 }
    requires section { section < length numbers.now }
    requires before { HasAll (IsGone numbers.now) section gone.old.items }
    ensures { OnOk result (HasAll (IsGone numbers.now) (section + 1) gone.new.items) }
{
    if numbers[section].is_some() {
        return Ok(());
    }
    gone.push(section as u32)?;
    Ok(())
}

// The sections without a number.
fn without_number(alloc: Global, numbers: &[Option<u32>]) -> Result<Vec<u32>, AllocError>
    requires { length numbers.now ≤ 64 }
    ensures { IfOk result (λ gone. HasAll (IsGone numbers.now) (length numbers.now) gone.items) }
{
    let mut gone = Vec::new(alloc);
    for section in 0..numbers.len() {
        add_gone(numbers, section, &mut gone)?;
    }
    Ok(gone)
}

// Whether a number is nobody's.
fn is_nobodys(numbers: &[Option<u32>], number: u32) -> bool
    ensures { IsTrue result ↔ IsNew numbers.now number }
{
    for section in 0..numbers.len() {
        if numbers[section] == Some(number) {
            return false;
        }
    }
    true
}

// Adds a number, where it is nobody's.
fn add_come(numbers: &[Option<u32>], number: u32, come: &mut Vec<u32>) -> Result<(), AllocError>
    requires { HasAll (IsNew numbers.now) number come.old.items }
    ensures { OnOk result (HasAll (IsNew numbers.now) (number + 1) come.new.items) }
{
    if !is_nobodys(numbers, number) {
        return Ok(());
    }
    come.push(number)?;
    Ok(())
}

// The numbers below one that are nobody's.
fn nobodys_numbers(
    alloc: Global,
    numbers: &[Option<u32>],
    many: u32,
) -> Result<Vec<u32>, AllocError>
    ensures { IfOk result (λ come. HasAll (IsNew numbers.now) many come.items) }
{
    let mut come = Vec::new(alloc);
    for number in 0..many {
        add_come(numbers, number, &mut come)?;
    }
    Ok(come)
}

// Whether all these sections are slack in a box.
fn are_slack(table: &Table, lists: &Lists, ranges: &Ranges, sections: &[u32]) -> bool
    requires lists { AreLists table.now lists.now }
    requires boxed { IsBox table.now ranges.now }
    requires sections { All (λ s. s < length table.now.sections) sections.now }
    ensures { IsTrue result ↔ All (IsSlack table.now ranges.now) sections.now }
{
    for &section in sections {
        if !is_slack(table, lists, ranges, section) {
            return false;
        }
    }
    true
}
