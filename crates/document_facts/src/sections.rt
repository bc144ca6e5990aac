// Sections that have no effect, that a train overfills, or that are kept for good.
ghost use Rattle.std.specs.Prelude.{◌≡◌, ◌<◌, ◌↔◌, length, MatchOption, IsTrue, ℕ};
ghost use Rattle.rail_model.specs.Table.{trains, section as section_at};
ghost use Rattle.document_facts.specs.Adding.{Adds, Is};
ghost use Rattle.document_facts.specs.Counting.{IsFirst};
ghost use Rattle.document_facts.specs.Facts.{Holds, IsIdle, IsSectionOf, IsShareOf, KeepsForGood};
ghost use Rattle.document_facts.specs.Kinds.{OfDouble, OfIdle, OfSection, OfShare, OfSharesOfAll, OfTrainsShares};
ghost use Rattle.document_facts.specs.declared.fact.Fact.TheVariants.{OverfullAtEnd};

use crate::exact::{
    end_of, end_share, is_overfull_at_end, is_unused, never_binds, overfills_alone,
};
use crate::fact::Fact;
use crate::found::Found;
use crate::shares::find_shares;
use document_json::{Doc, table_of};
use rail_model::{Table, trains_of};

// Whether a train still has a share of a section after its exit.
fn keeps_for_good(table: &Table, section: u32, train: u32) -> bool
    requires section { section < length table.now.sections }
    requires train { train < trains table.now }
    ensures { IsTrue result ↔ KeepsForGood table.now section train }
{
    end_of(table, train).is_none() && end_share(table, section, train) != 0
}

// Finds that a train alone overfills a section, and that it keeps some of it after its exit, where this is so.
fn find_share(found: &mut Found, doc: &Doc, table: u32, section: u32, train: u32)
    requires { IsShareOf doc.now table section train }
    ensures { Adds (Holds doc.now) (OfShare doc.now table section train) found.old found.new }
{
    let at = table_of(doc, table);
    found.add_if(
        overfills_alone(at, section, train),
        Fact::Overfilled {
            table,
            section,
            train,
        },
    );
    found.add_if(
        keeps_for_good(at, section, train),
        Fact::KeptForGood {
            table,
            section,
            train,
        },
    );
}

// Finds what is so of each train's shares of a section.
fn find_trains(found: &mut Found, doc: &Doc, table: u32, section: u32)
    requires { IsSectionOf doc.now table section }
    ensures { Adds (Holds doc.now) (OfTrainsShares doc.now table section) found.old found.new }
{
    for train in 0..trains_of(table_of(doc, table)) {
        find_share(found, doc, table, section, train);
    }
}

// Finds which trains' changes look like shares.
fn find_all_shares(found: &mut Found, doc: &Doc, table: u32, section: u32)
    requires { IsSectionOf doc.now table section }
    ensures { Adds (Holds doc.now) (OfSharesOfAll doc.now table section) found.old found.new }
{
    for train in 0..trains_of(table_of(doc, table)) {
        find_shares(found, doc, table, section, train);
    }
}

// Finds that all trains at their ends overfill a section, if they do.
fn find_overfull(found: &mut Found, doc: &Doc, table: u32, section: u32)
    requires { IsSectionOf doc.now table section }
    ensures { Adds (Holds doc.now) (Is (Holds doc.now) (OverfullAtEnd table section)) found.old found.new }
{
    found.add_if(
        is_overfull_at_end(table_of(doc, table), section),
        Fact::OverfullAtEnd { table, section },
    );
}

// Whether some train has a share of a section that never keeps one out.
fn is_idle(table: &Table, section: u32) -> bool
    requires { section < length table.now.sections }
    ensures { IsTrue result ↔ IsIdle table.now section }
{
    never_binds(table, section) && !is_unused(table, section)
}

// Finds that a section has no effect, if it has none.
fn find_idle(found: &mut Found, doc: &Doc, table: u32, section: u32)
    requires { IsSectionOf doc.now table section }
    ensures { Adds (Holds doc.now) (OfIdle doc.now table section) found.old found.new }
{
    let at = table_of(doc, table);
    found.add_if(
        is_unused(at, section),
        Fact::SectionUnused { table, section },
    );
    found.add_if(is_idle(at, section), Fact::SectionIdle { table, section });
}

// The first section before another one that is the same.
fn first_like(table: &Table, section: u32) -> Option<u32>
    requires { section < length table.now.sections }
    ensures { MatchOption result ((r : ℕ) → r < section → section_at table.now r ≡ section_at table.now section → ⊥)
        (λ first. IsFirst (λ r. section_at table.now r ≡ section_at table.now section) section first) }
{
    let sections = table.sections();
    for first in 0..section {
        if sections[first as usize].is_same(&sections[section as usize]) {
            return Some(first);
        }
    }
    None
}

// Finds that a section is the same as an earlier one, if it is.
fn find_double(found: &mut Found, doc: &Doc, table: u32, section: u32)
    requires { IsSectionOf doc.now table section }
    ensures { Adds (Holds doc.now) (OfDouble doc.now table section) found.old found.new }
{
    match first_like(table_of(doc, table), section) {
        Some(earlier) => found.add_if(
            true,
            Fact::SectionRepeated {
                table,
                section,
                earlier,
            },
        ),
        None => {}
    }
}

/// Finds what is so of a section.
pub(crate) fn find_section(found: &mut Found, doc: &Doc, table: u32, section: u32)
    requires { IsSectionOf doc.now table section }
    ensures { Adds (Holds doc.now) (OfSection doc.now table section) found.old found.new }
{
    find_all_shares(found, doc, table, section);
    find_idle(found, doc, table, section);
    find_double(found, doc, table, section);
    find_trains(found, doc, table, section);
    find_overfull(found, doc, table, section);
}
